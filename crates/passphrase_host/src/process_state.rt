//! What the system says of a process (proc(5), `stat` and `status`): its terminal, when it was
//! started, and whether it is a pinentry of the user's. It reads files below `/proc`, and nothing
//! else. Begin with `Field` and `pinentry_of`.

use crate::failure::if_there;
use std::alloc::{AllocError, Global};
use std::fs::{File, Files};
use std::{fs, str};

/// A number of a process's state.
#[derive(Clone, Copy, Debug, PartialEq, Eq)]
pub(crate) enum Field {
    /// The device of the terminal from which it is controlled.
    Terminal,
    /// When it was started, in ticks since the system was.
    Start,
}

impl Field {
    /// How many words stand between the program's name and it.
    fn place(self) -> usize {
        match self {
            Field::Terminal => 5,
            Field::Start => 20,
        }
    }

    /// This number of the process's state. The program's name, in brackets before it, may have
    /// blanks and brackets.
    pub(crate) fn of(self, stat: &[u8]) -> Option<u64> {
        let behind = stat.rsplit(|byte| *byte == b')').next()?;
        let digits = behind.split(|byte| *byte == b' ').nth(self.place())?;
        str::from_utf8(digits).ok()?.parse::<u64>().ok()
    }

    /// This number of the state that the file at the path has.
    pub(crate) fn at<R: Files<File = File>>(
        self,
        rt: &R,
        alloc: Global,
        path: &str,
    ) -> Result<Option<u64>, AllocError> {
        Ok(match if_there(fs::read(&(rt, alloc), path))? {
            Some(stat) => self.of(stat.as_slice()),
            None => None,
        })
    }
}

/// The file of this process's state.
pub(crate) const OWN_STATE: &str = "/proc/self/stat";

/// The file of what else the system says of this process.
const OWN_STATUS: &str = "/proc/self/status";

/// With one of these the name of a pinentry begins (pinentry(1)); with the second that of one that
/// NixOS wraps.
const NAMES: [&[u8]; 2] = [b"pinentry", b".pinentry"];

/// A process that is a pinentry of the user's.
#[derive(Clone, Copy, Debug, PartialEq, Eq)]
pub(crate) struct Pinentry {
    pub(crate) number: u32,
    /// The user's number.
    pub(crate) user: u32,
    /// When it was started, in ticks since the system was.
    pub(crate) start: u64,
}

/// The process of this number, where it is a pinentry of the user's and was started no earlier than
/// this one.
pub(crate) fn pinentry_of<R: Files<File = File>>(
    rt: &R,
    alloc: Global,
    number: u32,
) -> Result<Option<Pinentry>, AllocError> {
    let stat = format!(in alloc; "/proc/{number}/stat")?;
    let own = Field::Start.at(rt, alloc, OWN_STATE)?;
    let other = Field::Start.at(rt, alloc, stat.as_str())?;
    let (Some(own), Some(start)) = (own, other) else {
        return Ok(None);
    };
    // Behind its start: a process that has the number since was started later.
    let path = format!(in alloc; "/proc/{number}/status")?;
    let status = if_there(fs::read(&(rt, alloc), path.as_str()))?;
    let own_status = if_there(fs::read(&(rt, alloc), OWN_STATUS))?;
    let (Some(status), Some(own_status)) = (status, own_status) else {
        return Ok(None);
    };
    Ok(match user_of(own_status.as_slice()) {
        Some(user) if start >= own && is_pinentry(status.as_slice(), number, user) => {
            Some(Pinentry {
                number,
                user,
                start,
            })
        }
        _ => None,
    })
}

/// Whether this is the status of a process of this number, and no thread of another one, that has a
/// pinentry's name and is this user's.
fn is_pinentry(status: &[u8], number: u32, user: u32) -> bool {
    let Some(name) = value_of(status, b"Name:\t") else {
        return false;
    };
    NAMES.iter().any(|begin| name.starts_with(begin))
        && number_of(status, b"Tgid:\t") == Some(number)
        && user_of(status) == Some(user)
}

/// Whose the process is: the user of all four numbers, the real one, the effective, the saved and
/// that of the file system. None where they differ.
fn user_of(status: &[u8]) -> Option<u32> {
    let mut users = value_of(status, b"Uid:\t")?.split(|byte| *byte == b'\t');
    let user = number_in(users.next()?)?;
    for _ in 0..3 {
        if number_in(users.next()?)? != user {
            return None;
        }
    }
    Some(user)
}

fn number_of(status: &[u8], key: &[u8]) -> Option<u32> {
    number_in(value_of(status, key)?)
}

/// What stands in the line of a status that begins so.
fn value_of<'a>(status: &'a [u8], key: &[u8]) -> Option<&'a [u8]> {
    for line in status.split(|byte| *byte == b'\n') {
        if let Some(value) = line.strip_prefix(key) {
            return Some(value);
        }
    }
    None
}

fn number_in(digits: &[u8]) -> Option<u32> {
    str::from_utf8(digits).ok()?.parse::<u32>().ok()
}

#[cfg(test)]
mod tests {
    use super::*;

    #[test]
    fn a_number_of_the_state_is_behind_the_programs_name(rt: HostRuntime) {
        let rows = [
            (
                b"7 (passphrase) S 1 7 7 34819 7 4194304 1 0 0 0 0 0 0 0 20 0 1 0 8077 2 3".as_slice(),
                Some(34819),
                Some(8077),
            ),
            (b"7 (a) b) S) S 1 7 7 0 -1 5", Some(0), None),
            (b"7 (x) S 1", None, None),
            (b"", None, None),
        ];
        for (stat, terminal, start) in rows {
            assert_eq!(rt;
                (Field::Terminal.of(stat), Field::Start.of(stat)),
                (terminal, start)
            );
        }
    }

    #[test]
    fn a_pinentry_is_known_by_its_name_its_number_and_its_user(rt: HostRuntime) {
        let rows = [
            (
                b"Name:\tpinentry-curses\nUmask:\t0022\nState:\tS (sleeping)\nTgid:\t70\nNgid:\t0\nPid:\t70\nPPid:\t1\nUid:\t1000\t1000\t1000\t1000\nGid:\t1\t1\t1\t1\n".as_slice(),
                true,
            ),
            (
                b"Name:\tpinentry\nTgid:\t70\nUid:\t1000\t1000\t1000\t1000\n",
                true,
            ),
            (
                b"Name:\t.pinentry-curse\nTgid:\t70\nUid:\t1000\t1000\t1000\t1000\n",
                true,
            ),
            // Another program.
            (
                b"Name:\tsleep\nTgid:\t70\nUid:\t1000\t1000\t1000\t1000\n",
                false,
            ),
            (
                b"Name:\t pinentry\nTgid:\t70\nUid:\t1000\t1000\t1000\t1000\n",
                false,
            ),
            (
                b"Name:\tmy-pinentry\nTgid:\t70\nUid:\t1000\t1000\t1000\t1000\n",
                false,
            ),
            (
                b"Name:\tx\\nName:\tpinentry\nTgid:\t70\nUid:\t1000\t1000\t1000\t1000\n",
                false,
            ),
            // A thread of process 69.
            (
                b"Name:\tpinentry\nTgid:\t69\nUid:\t1000\t1000\t1000\t1000\n",
                false,
            ),
            // Another user's, by one of its numbers.
            (
                b"Name:\tpinentry\nTgid:\t70\nUid:\t0\t1000\t1000\t1000\n",
                false,
            ),
            (
                b"Name:\tpinentry\nTgid:\t70\nUid:\t1000\t0\t1000\t1000\n",
                false,
            ),
            (
                b"Name:\tpinentry\nTgid:\t70\nUid:\t1000\t1000\t0\t1000\n",
                false,
            ),
            (
                b"Name:\tpinentry\nTgid:\t70\nUid:\t1000\t1000\t1000\t0\n",
                false,
            ),
            (b"Name:\tpinentry\nTgid:\t70\nUid:\t0\t0\t0\t0\n", false),
            // Lines that are cut, or that aren't there.
            (
                b"Name:\tpinentry\nTgid:\t70\nUid:\t1000\t1000\t1000\n",
                false,
            ),
            (b"Name:\tpinentry\nTgid:\t70\n", false),
            (b"Name:\tpinentry\nUid:\t1000\t1000\t1000\t1000\n", false),
            (b"Tgid:\t70\nUid:\t1000\t1000\t1000\t1000\n", false),
            (b"", false),
        ];
        for (status, wanted) in rows {
            assert_eq!(rt; is_pinentry(status, 70, 1000), wanted);
        }
    }

    #[test]
    fn no_other_process_is_a_pinentry(rt: HostRuntime) -> Result<(), std::test::Fail> {
        for number in [0, 1, std::process::id(rt.process()), u32::MAX] {
            assert_eq!(rt; pinentry_of(&rt, rt.alloc(), number)?, None);
        }
        Ok(())
    }
}
