//! The terminal and the locale that the agent is told, as GnuPG's programs tell them. It reads the
//! environment and the names of the standard streams in `/proc/self/fd`. Begin with
//! `environment_of`.

ghost use Rattle.std.specs.Prelude.{◌≡◌, false};
ghost use Rattle.session_options.specs.Text.{has_line_end, ends_line};

use crate::failure::if_there;
use crate::process_state::{Field, OWN_STATE};
use arrayvec::ArrayVec;
use gnupg_home::variable;
use session_options::{Env, MAX_VALUE_LEN};
use std::alloc::{AllocError, Global};
use std::fs::{File, Files};
use std::os::unix::fs::FileTypeExt;
use std::{fs, rt};

/// A value of an option.
type Word = ArrayVec<u8, MAX_VALUE_LEN>;

/// Where the standard streams are (proc(5), `fd`).
const STREAMS: [&str; 3] = ["/proc/self/fd/0", "/proc/self/fd/1", "/proc/self/fd/2"];

/// What the names of terminals begin with.
const TERMINALS: [&str; 2] = ["/dev/pts/", "/dev/tty"];

/// The terminal, its type, and the locale of the user. What an option can't say is empty.
pub(crate) fn environment_of<R: rt::Env + Files<File = File>>(
    rt: &R,
    alloc: Global,
) -> Result<Env, AllocError> {
    let ttyname = word_of(terminal_name(rt, alloc)?);
    let ttytype = word_of(variable(rt, alloc, "TERM")?);
    let lc_ctype = word_of(locale(rt, alloc, "LC_CTYPE")?);
    let lc_messages = word_of(locale(rt, alloc, "LC_MESSAGES")?);
    Ok(Env {
        ttyname,
        ttytype,
        lc_ctype,
        lc_messages,
    })
}

/// The value as a word, which is empty where it can't be one.
fn word_of(value: Option<String>) -> Word
    ensures { has_line_end result.items ≡ false }
{
    match &value {
        Some(value) => bytes_as_word(value.as_bytes()),
        None => Word::new(),
    }
}

fn bytes_as_word(value: &[u8]) -> Word
    ensures { has_line_end result.items ≡ false }
{
    if has_line_end(value) {
        return Word::new();
    }
    let mut word = Word::new();
    match word.try_extend_from_slice(value) {
        Ok(()) => word,
        Err(_) => Word::new(),
    }
}

fn has_line_end(bytes: &[u8]) -> bool
    ensures { result ≡ has_line_end bytes.now }
{
    bytes.iter().any(|byte| ends_line(*byte))
}

fn ends_line(byte: u8) -> bool
    ensures { result ≡ ends_line byte }
{
    matches!(byte, b'\r' | b'\n')
}

/// The locale of a category (POSIX, "Internationalization Variables").
fn locale(env: &impl rt::Env, alloc: Global, category: &str) -> Result<Option<String>, AllocError> {
    for name in ["LC_ALL", category, "LANG"] {
        if let Some(value) = variable(env, alloc, name)? {
            return Ok(Some(value));
        }
    }
    Ok(None)
}

/// The terminal's name: `GPG_TTY`, else that of a standard stream, else the one from which this
/// process is controlled, which it has where its streams are pipes, too.
fn terminal_name<R: rt::Env + Files<File = File>>(
    rt: &R,
    alloc: Global,
) -> Result<Option<String>, AllocError> {
    if let Some(name) = variable(rt, alloc, "GPG_TTY")? {
        if is_device(rt, name.as_str()) {
            return Ok(Some(name));
        }
    }
    for stream in STREAMS {
        if let Some(name) = stream_name(rt, alloc, stream)? {
            return Ok(Some(name));
        }
    }
    controlling_name(rt, alloc)
}

/// Whether this is a device that is read by letters.
fn is_device(files: &impl Files, path: &str) -> bool {
    fs::metadata(files, path).is_ok_and(|found| found.file_type().is_char_device())
}

/// The terminal that the stream is, if it is one.
fn stream_name<R: Files>(
    rt: &R,
    alloc: Global,
    stream: &str,
) -> Result<Option<String>, AllocError> {
    let Some(path) = if_there(fs::read_link(&(rt, alloc), stream))? else {
        return Ok(None);
    };
    let name = path.into_string();
    let is_terminal = TERMINALS.iter().any(|front| name.starts_with(*front));
    Ok(if is_terminal && is_device(rt, name.as_str()) {
        Some(name)
    } else {
        None
    })
}

/// The terminal from which this process is controlled.
fn controlling_name<R: Files<File = File>>(
    rt: &R,
    alloc: Global,
) -> Result<Option<String>, AllocError> {
    let Some(device) = Field::Terminal.at(rt, alloc, OWN_STATE)? else {
        return Ok(None);
    };
    match device_name(alloc, device)? {
        Some(name) if is_device(rt, name.as_str()) => Ok(Some(name)),
        _ => Ok(None),
    }
}

/// The device's name, as far as it is a terminal of the usual kinds: of a window or a remote login
/// (pts(4), major numbers 136 to 143), of the console or a serial line (tty(4), ttyS(4)).
fn device_name(alloc: Global, device: u64) -> Result<Option<String>, AllocError> {
    let major = (device >> 8) & 0xfff;
    let minor = (device & 0xff) | ((device >> 12) & 0xf_ff00);
    match major {
        136..=143 => Ok(Some(format!(in alloc; "/dev/pts/{}", ((major - 136) << 8) | minor)?)),
        4 if minor < 64 => Ok(Some(format!(in alloc; "/dev/tty{minor}")?)),
        4 => Ok(Some(format!(in alloc; "/dev/ttyS{}", minor - 64)?)),
        _ => Ok(None),
    }
}

#[cfg(test)]
mod tests {
    use super::*;
    use std::test::Fail;

    #[test]
    fn a_terminals_device_has_a_name(rt: HostRuntime) -> Result<(), Fail> {
        for (device, wanted) in [
            (34819, "/dev/pts/3"),
            (1_083_394, "/dev/pts/258"),
            (35_075, "/dev/pts/259"),
            (1025, "/dev/tty1"),
            (1088, "/dev/ttyS0"),
            (0, ""),
            (1281, ""),
        ] {
            let name = device_name(rt.alloc(), device)?;
            assert_eq!(rt; name.as_ref().map_or("", |name| name.as_str()), wanted);
        }
        Ok(())
    }
}
