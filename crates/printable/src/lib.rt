//! Texts of others as a line of a terminal or of a log can hold them: no byte that isn't ASCII's to
//! print, so none that moves a cursor, sets a title or ends the line.
//!
//! Begin with [`Printable`], which writes [`printable_byte`] of each; a test shows what is written.
//! Which byte stands for which is defined in `specs/Printables`.
#![tactic(auto)]

ghost use Rattle.std.specs.Prelude.{◌≡◌};
ghost use Rattle.printable.specs.Printables.{printable_byte};

use std::fmt;
use std::fmt::{Display, Formatter};

/// Bytes as a line can hold them: those that ASCII can't print are question marks.
#[derive(Clone, Copy)]
pub struct Printable<'a>(pub &'a [u8]);

impl Display for Printable<'_> {
    fn fmt<W: fmt::Write>(&self, f: &mut Formatter<W>) -> fmt::Result {
        for byte in self.0 {
            f.write_char(char::from(printable_byte(*byte)))?;
        }
        Ok(())
    }
}

/// The byte, where ASCII can print it (RFC 20, 5.2: a space to a tilde), and else a question mark.
pub fn printable_byte(byte: u8) -> u8
    ensures { result ≡ printable_byte byte }
{
    match byte {
        b' '..=b'~' => byte,
        _ => b'?',
    }
}

#[cfg(test)]
mod tests {
    use super::*;
    use std::test::Fail;

    #[test]
    fn what_a_terminal_would_obey_is_a_question_mark(rt: HostRuntime) -> Result<(), Fail> {
        for (bytes, wanted) in [
            (b"/home/a b~".as_slice(), "/home/a b~"),
            (b"\x1b]0;t\x07\x1b[2J", "?]0;t??[2J"),
            (b"a\nb\r\x7f\x00\xc3\xa9\xff", "a?b??????"),
            (b"", ""),
        ] {
            let shown = format!(in rt.alloc(); "{}", Printable(bytes))?;
            assert_eq!(rt; shown.as_str(), wanted);
        }
        Ok(())
    }
}
