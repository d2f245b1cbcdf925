//! A program that is left beside a prompt: where this one ends before the prompt does, or is
//! stopped, it ends the pinentry and sets the terminal right. It is a script of the shell in a
//! process of its own, and is handed no passphrase. Begin with `Guard::of_pinentry`.

use crate::process_state::{Pinentry, pinentry_of};
use child_environment::hand_on;
use std::alloc::Global;
use std::fs::{File, Files};
use std::io::{ErrorKind, Write};
use std::process::{Child, Command, OpenProcess, Processes, Stdio};
use std::rt::Env;
use std::{io, str};

/// In a session of its own, so that no signal of the terminal reaches it (setsid(1)).
const SETSID: &str = "setsid";

/// What the guard does, in the shell's words: `$1` is the pinentry's process, `$2` its user, `$3`
/// when it was started, and `$4` the terminal, if any. A line on its input says that all is over;
/// its end without one that this program has ended. A stopped program is seen by proc(5), `status`.
/// The pinentry is halted while the terminal is set right: once it has ended the agent may open
/// another prompt there.
///
/// Before each signal it looks whether the process is still the one that was seen: its number may
/// be another's since, and it may run another program. It heeds no signal that ends this program
/// too, as the end of a session or of a service sends one to all at once.
const SCRIPT: &str = r#"
trap '' HUP INT TERM
pinentry=$1 user=$2 start=$3 terminal=$4
tab=$(printf '\t')
is_seen() {
    name='' group='' users='' last=''
    while IFS=$tab read -r key value others; do
        case $key in
            Name:) name=$value ;;
            Tgid:) group=$value ;;
            Uid:) users=$value$tab$others ;;
        esac
    done <"/proc/$pinentry/status" || return
    case $name in
        pinentry* | .pinentry*) ;;
        *) return 1 ;;
    esac
    [ "$group" = "$pinentry" ] || return
    [ "$users" = "$user$tab$user$tab$user$tab$user" ] || return
    while read -r line; do last=$line; done <"/proc/$pinentry/stat" || return
    set -- ${last##*) }
    [ "${20}" = "$start" ]
}
signal() { is_seen && kill "$1" "$pinentry"; }
clean() {
    signal -STOP || return
    if [ -n "$terminal" ]; then timeout -s KILL 1 stty sane <"$terminal"; fi
    signal -TERM
    signal -CONT
    for look in 1 2 3 4 5 6 7 8 9; do is_seen || return; sleep 0.1; done
    signal -KILL
}
watch() {
    while sleep 0.3; do
        while read -r key value others; do
            case $key$value in State:T) clean; kill -9 $$; exit ;; esac
        done <"/proc/$PPID/status" || return
    done
}
watch </dev/null &
if ! read -r word; then clean; fi
kill -9 $! 2>/dev/null
"#;

/// The guard of a prompt. It is handed no passphrase.
#[derive(Drop)]
pub(crate) struct Guard<P: OpenProcess> {
    child: Child<P>,
}

impl<P: OpenProcess + Drop> Guard<P> {
    /// Guards the prompt of the pinentry that the agent tells so, at this terminal. There is no
    /// guard where none can be started, and none of a process that isn't a pinentry of the user's,
    /// started since this one was: an agent may tell any number.
    pub(crate) fn of_pinentry<R: Env + Files<File = File> + Processes<Started = P>>(
        rt: &R,
        alloc: Global,
        text: &[u8],
        terminal: &[u8],
    ) -> Option<Self> {
        let number = process_in(text)?;
        let pinentry = pinentry_of(rt, alloc, number).unwrap_or(None)?;
        let child = started(rt, alloc, pinentry, terminal).ok()?;
        Some(Guard { child })
    }

    /// The prompt is over, and the guard ends.
    pub(crate) fn end(mut self) {
        if let Some(mut input) = self.child.stdin.take() {
            let _ = input.write(b"over\n");
        }
    }
}

fn started<R: Env + Processes>(
    rt: &R,
    alloc: Global,
    pinentry: Pinentry,
    terminal: &[u8],
) -> io::Result<Child<R::Started>> {
    let terminal = str::from_utf8(terminal).map_err(|_| ErrorKind::InvalidFilename)?;
    let Pinentry {
        number,
        user,
        start,
    } = pinentry;
    let (number, user, start) = (
        format!(in alloc; "{number}")?,
        format!(in alloc; "{user}")?,
        format!(in alloc; "{start}")?,
    );
    let mut command = Command::new(alloc, SETSID)?;
    for word in [
        "/bin/sh",
        "-c",
        SCRIPT,
        "passphrase-guard",
        number.as_str(),
        user.as_str(),
        start.as_str(),
        terminal,
    ] {
        command.arg(word)?;
    }
    hand_on(rt, alloc, &mut command)?;
    command.stdin(Stdio::piped());
    command.stdout(Stdio::null());
    command.stderr(Stdio::null());
    command.spawn(rt)
}

/// The number of the pinentry's process in what the agent says of it (GnuPG manual, "Agent OPTION",
/// `allow-pinentry-notify`): the first word. No process of this system has the numbers 0 and 1 to
/// give away.
pub(crate) fn process_in(text: &[u8]) -> Option<u32> {
    let word = text.split(|byte| *byte == b' ').next()?;
    if !word.iter().all(|byte| byte.is_ascii_digit()) {
        return None;
    }
    let number = str::from_utf8(word).ok()?.parse::<u32>().ok()?;
    if number > 1 { Some(number) } else { None }
}

#[cfg(test)]
mod tests {
    use super::*;

    #[test]
    fn the_pinentrys_process_is_digits(rt: HostRuntime) {
        for (text, wanted) in [
            (b"4711".as_slice(), Some(4711)),
            (b"4711 curses 1.2.1 /dev/pts/3 xterm :0", Some(4711)),
            (b"", None),
            (b" 4711", None),
            (b"0", None),
            (b"1", None),
            (b"-1", None),
            (b"+5", None),
            (b"4711;reboot", None),
            (b"99999999999", None),
        ] {
            assert_eq!(rt; process_in(text), wanted);
        }
    }
}
