//! What is kept of a pinentry's output to say what it failed by: its last error line (Assuan
//! manual, "server responses"), never a data line. It is a machine over bytes, of fixed size, and
//! calls nothing. Begin with `LastError`; its tests show what is said of which output.

ghost use Rattle.std.specs.Prelude.{◌≡◌, ◌⊎◌, []};

use arrayvec::ArrayVec;
use printable::Printable;
#[cfg(test)]
use std::alloc::{AllocError, Global};
use std::fmt::{Display, Formatter};
use std::{fmt, str};

/// How many bytes of an error line are kept, and shown at the most.
const MAX_KEPT: usize = 200;

/// The number of an error is its source, and in its 16 low bits its code.
const CODES: u32 = 65_536;

/// By these codes a pinentry says what its user did, or that none did in time: timeout, cancelled,
/// not confirmed, fully cancelled.
const USERS: [u32; 4] = [62, 99, 114, 198];

/// Where a child's output stands.
#[derive(Clone, Copy)]
enum Place {
    /// Before the first byte of a line.
    Start,
    /// In a line that begins as an error's.
    Error,
    /// In any other line.
    Other,
    /// Behind its end.
    End,
    /// Where it was awaited too long.
    Late,
}

/// What is kept of a child's output: its last response where that is an error (Assuan manual,
/// "server responses"), and no byte of any other line. So no passphrase is kept.
#[derive(Drop)]
pub(crate) struct LastError {
    line: ArrayVec<u8, MAX_KEPT>,
    place: Place,
}

/// What a child failed by.
#[derive(Clone, Copy)]
pub(crate) enum Failure<'a> {
    /// Its last response: the number and the text of an error.
    Error(&'a [u8]),
    /// It had ended where an answer was awaited.
    Ended,
    /// Its answer was awaited too long.
    Late,
}

impl LastError {
    pub(crate) fn new() -> Self {
        LastError {
            line: ArrayVec::new(),
            place: Place::Start,
        }
    }

    /// The child gave these bytes.
    pub(crate) fn read(&mut self, bytes: &[u8]) {
        for byte in bytes {
            self.read_byte(*byte);
        }
    }

    /// The child's output was read behind its last byte.
    pub(crate) fn read_end(&mut self) {
        self.place = Place::End;
    }

    /// The child's output was awaited too long.
    pub(crate) fn read_late(&mut self) {
        self.place = Place::Late;
    }

    /// What is kept is of lines that begin as an error's.
    fn read_byte(&mut self, byte: u8)
        ensures begun { self.new.place ≡ Place.Error
            → (self.old.place ≡ Place.Error) ⊎ ((self.old.place ≡ Place.Start) × (byte ≡ 69)) }
        ensures kept { (self.new.place ≡ Place.Error) ⊎ (self.new.line.items ≡ self.old.line.items)
            ⊎ (self.new.line.items ≡ []) }
    {
        self.place = match (self.place, byte) {
            (_, b'\n') => Place::Start,
            (Place::Start, b'E') => {
                self.line.clear();
                self.keep(byte);
                Place::Error
            }
            // An OK: what failed before it was no failure of all.
            (Place::Start, b'O') => {
                self.line.clear();
                Place::Other
            }
            (Place::Error, _) => {
                self.keep(byte);
                Place::Error
            }
            _ => Place::Other,
        };
    }

    /// Keeps the byte, if there is room for it.
    fn keep(&mut self, byte: u8) {
        let _ = self.line.try_push(byte);
    }

    /// What the child failed by, if it did.
    pub(crate) fn failure(&self) -> Option<Failure<'_>> {
        match self.place {
            Place::End => return Some(Failure::Ended),
            Place::Late => return Some(Failure::Late),
            Place::Start | Place::Error | Place::Other => {}
        }
        let error = self.line.as_slice().strip_prefix(b"ERR ")?;
        if is_users(error) {
            return None;
        }
        Some(Failure::Error(error))
    }
}

/// Whether the error says what the user did, and no failure.
fn is_users(error: &[u8]) -> bool {
    let digits = error.split(|byte| *byte == b' ').next().unwrap_or(error);
    match str::from_utf8(digits) {
        Ok(digits) => match digits.parse::<u32>() {
            Ok(number) => USERS.contains(&(number % CODES)),
            Err(_) => false,
        },
        Err(_) => false,
    }
}

impl Display for Failure<'_> {
    fn fmt<W: fmt::Write>(&self, f: &mut Formatter<W>) -> fmt::Result {
        match self {
            Failure::Error(error) => write!(f, "answered ERR {}", Printable(error)),
            Failure::Ended => f.write_str("ended before it answered"),
            Failure::Late => f.write_str("didn't answer in time, and is ended"),
        }
    }
}

/// What is said of a child's failure, or nothing.
#[cfg(test)]
pub(crate) fn said(alloc: Global, last_error: &LastError) -> Result<String, AllocError> {
    match last_error.failure() {
        Some(failure) => format!(in alloc; "{failure}"),
        None => Ok(String::new(alloc)),
    }
}

#[cfg(test)]
mod tests {
    use super::*;
    use std::test::Fail;

    #[test]
    fn a_failure_is_the_last_response_where_that_is_an_error(rt: HostRuntime) -> Result<(), Fail> {
        let rows = [
            (
                b"OK\nS ERROR curses.isatty 83918950\nERR 83918950 Inappropriate ioctl for device <Pinentry>\n".as_slice(),
                "answered ERR 83918950 Inappropriate ioctl for device <Pinentry>",
            ),
            (b"OK\nERR 83886179 Operation cancelled <Pinentry>\n", ""),
            (b"OK\nERR 83886142 Timeout <Pinentry>\n", ""),
            (b"OK\nERR 83886194 Not confirmed <Pinentry>\n", ""),
            (b"OK\nERR 83886278 Fully cancelled <Pinentry>\n", ""),
            (b"ERR 99\n", ""),
            (b"ERR 98\n", "answered ERR 98"),
            (
                b"OK\nERR 536871187 Unknown IPC command\nOK\nD correct horse\n",
                "",
            ),
            (b"OK\nD ERR 98 correct horse\nD correct\n# ERR 98\n", ""),
            (b"OK\nERR 98 a\nD correct horse\n", "answered ERR 98 a"),
            (b"ERR x\x1b[2J\xc3\xa9\t.\r\n", "answered ERR x?[2J???.?"),
            (b"ERROR 98\nEND\n", ""),
            (b"", ""),
        ];
        for (bytes, wanted) in rows {
            for piece in [1, 7, bytes.len()] {
                let mut last_error = LastError::new();
                for some in bytes.chunks(piece.max(1)) {
                    last_error.read(some);
                }
                assert_eq!(rt; said(rt.alloc(), &last_error)?.as_str(), wanted);
            }
        }
        Ok(())
    }

    #[test]
    fn a_long_error_is_cut_and_an_end_is_told(rt: HostRuntime) -> Result<(), Fail> {
        let mut last_error = LastError::new();
        last_error.read(b"ERR 98 ");
        last_error.read(&[b'x'; 1000]);
        assert_eq!(rt; said(rt.alloc(), &last_error)?.len(), 209);
        last_error.read_end();
        assert_eq!(rt;
            said(rt.alloc(), &last_error)?.as_str(),
            "ended before it answered"
        );
        last_error.read_late();
        assert_eq!(rt;
            said(rt.alloc(), &last_error)?.as_str(),
            "didn't answer in time, and is ended"
        );
        Ok(())
    }
}
