//! Which names are a terminal's, and so may be told to a child that opens what it is told. Pure:
//! names are judged by their letters (pts(4), tty(4)), and none is opened. Begin with
//! `is_terminal`.

use arrayvec::ArrayVec;
use printable::Printable;
use std::fmt;
use std::fmt::{Display, Formatter};

/// How many bytes of a terminal's name are kept, and shown.
const MAX_SHOWN: usize = 200;

/// What a child was told of its user's terminal. A pinentry opens what it is told for writing, so
/// that any other file would be emptied and drawn over.
#[derive(Drop)]
pub(crate) enum Terminal {
    /// It was told nothing yet.
    Untold,
    /// It was told this terminal, of which the first bytes are kept.
    Told(ArrayVec<u8, MAX_SHOWN>),
    /// It wasn't told the name, which is no terminal's.
    Refused,
}

impl Terminal {
    pub(crate) fn told(name: &[u8]) -> Self {
        let mut kept = ArrayVec::new();
        let _ = kept.try_extend_from_slice(shown(name));
        Terminal::Told(kept)
    }
}

/// Behind what is said of a child.
impl Display for Terminal {
    fn fmt<W: fmt::Write>(&self, f: &mut Formatter<W>) -> fmt::Result {
        match self {
            Terminal::Told(name) => write!(f, " (at the terminal {})", Printable(name.as_slice())),
            Terminal::Untold | Terminal::Refused => Ok(()),
        }
    }
}

/// So many bytes of a name as are shown.
pub(crate) fn shown(name: &[u8]) -> &[u8] {
    name.get(..MAX_SHOWN).unwrap_or(name)
}

/// The terminal's name in a line that tells one. It is the only form in which a name is written
/// (`pinentry_client`, and the pinentry manual, "protocol"), and each line is written by one call.
pub(crate) fn told_name(line: &[u8]) -> Option<&[u8]> {
    let name = line.strip_prefix(b"OPTION ttyname=")?;
    Some(name.strip_suffix(b"\n").unwrap_or(name))
}

/// Whether a path is a name that only terminals have: `/dev/pts/3`, `/dev/tty1`, `/dev/ttyS0`
/// (pts(4), tty(4), ttyS(4)). What stands there is the system's alone to make, and no name leads
/// out of it. `/dev/tty` is left out: it is whatever terminal the one has who opens it, and so never
/// the client's.
pub(crate) fn is_terminal(name: &[u8]) -> bool {
    if let Some(number) = name.strip_prefix(b"/dev/pts/") {
        return !number.is_empty() && number.iter().all(|byte| byte.is_ascii_digit());
    }
    match name.strip_prefix(b"/dev/tty") {
        Some(rest) => !rest.is_empty() && rest.iter().all(|byte| byte.is_ascii_alphanumeric()),
        None => false,
    }
}

#[cfg(test)]
mod tests {
    use super::*;
    use std::test::Fail;

    #[test]
    fn a_name_that_only_terminals_have(rt: HostRuntime) {
        let rows = [
            (b"/dev/pts/3".as_slice(), true),
            (b"/dev/pts/1048575", true),
            (b"/dev/tty1", true),
            (b"/dev/ttyS0", true),
            (b"/dev/ttyACM12", true),
            (b"", false),
            (b"not a tty", false),
            (b"/home/alice/.bashrc", false),
            (b".bashrc", false),
            (b"/dev/shm/x", false),
            (b"/dev/shm/pts/3", false),
            (b"/dev/pts/", false),
            (b"/dev/pts/ptmx", false),
            (b"/dev/pts/../shm/x", false),
            (b"/dev/pts/3/../../shm/x", false),
            (b"/dev/pts/3 ", false),
            (b"/dev/pts/3\0", false),
            (b" /dev/pts/3", false),
            (b"/dev/pts//3", false),
            (b"/dev/pts/-3", false),
            (b"/DEV/PTS/3", false),
            (b"dev/pts/3", false),
            (b"/dev/tty", false),
            (b"/dev/tty/", false),
            (b"/dev/tty/../shm/x", false),
            (b"/dev/tty1\n", false),
            (b"/dev/tty\xc3\xa9", false),
            (b"/dev/mem", false),
            (b"/dev/null", false),
        ];
        for (name, wanted) in rows {
            assert_eq!(rt; (name, is_terminal(name)), (name, wanted));
        }
    }

    #[test]
    fn what_is_said_of_a_child_names_its_terminal(rt: HostRuntime) -> Result<(), Fail> {
        let rows = [
            (Terminal::Untold, ""),
            (Terminal::Refused, ""),
            (
                Terminal::told(b"/dev/pts/3"),
                " (at the terminal /dev/pts/3)",
            ),
        ];
        for (terminal, wanted) in rows {
            assert_eq!(rt; format!(in rt.alloc(); "{terminal}")?.as_str(), wanted);
        }
        let long = format!(in rt.alloc(); "{}", Terminal::told(&[b'x'; 900]))?;
        assert_eq!(rt; long.len(), 200 + " (at the terminal )".len());
        Ok(())
    }
}
