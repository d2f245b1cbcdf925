//! An environment of a test's own, in place of the system's: a list of texts `NAME=VALUE`. It is
//! part of no program, and touches nothing. Begin with `Entries`.

ghost use Rattle.std.specs.Io.{WritesAtMost};

use std::env::FillError;
use std::io;
use std::io::ErrorKind;
use std::rt::Env;

/// An environment of these entries, in the folder `/here`.
#[derive(Drop)]
pub(crate) struct Entries<'a>(pub(crate) &'a [&'a str]);

/// Puts a text at the front of the buffer.
fn fill(text: &str, buf: &mut [u8]) -> Result<usize, FillError>
    ensures { WritesAtMost result buf.new }
{
    match buf.get_mut(..text.len()) {
        Some(front) => {
            front.copy_from_slice(text.as_bytes());
            Ok(text.len())
        }
        None => Err(FillError::TooLong),
    }
}

impl Env for Entries<'_> {
    fn arg(&self, _i: usize, _buf: &mut [u8]) -> Result<usize, FillError> {
        Err(FillError::NotPresent)
    }

    fn var(&self, name: &str, buf: &mut [u8]) -> Result<usize, FillError> {
        for entry in self.0 {
            if let Some((key, value)) = entry.split_once('=') {
                if key == name {
                    return fill(value, buf);
                }
            }
        }
        Err(FillError::NotPresent)
    }

    fn var_at(&self, i: usize, buf: &mut [u8]) -> Result<usize, FillError> {
        match self.0.get(i) {
            Some(entry) => fill(entry, buf),
            None => Err(FillError::NotPresent),
        }
    }

    fn current_dir(&self, buf: &mut [u8]) -> io::Result<usize> {
        match fill("/here", buf) {
            Ok(count) => Ok(count),
            Err(_) => Err(ErrorKind::InvalidFilename.into()),
        }
    }
}
