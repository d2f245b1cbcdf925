//! Which variables of its environment a program hands on to those that it starts: the names of a
//! list, and no other one.
//!
//! Begin with [`hand_on`]: the command clears its environment, and no variable is set in it whose
//! name isn't in the list. That one is set which the environment has is shown by a test.
#![tactic(auto)]

ghost use Rattle.std.specs.Prelude.{◌≡◌, ◌⊎◌, true, map, Contains, IsSome, List, OnOk, ℕ};
ghost use Rattle.std.specs.{Io.WritesAtMost, Process.{clears_env, command_var, SameOtherVars}};

use std::alloc::Global;
use std::env::VarError;
use std::io::ErrorKind;
use std::process::Command;
use std::rt::Env;
use std::{env, io};

/// What is handed on (environ(7), locale(7), and the manuals of X, Wayland, GTK, Qt and GnuPG): where
/// the user's folder, screen and terminal are, how its keys are read, and its language. Whatever else
/// stands in the environment, as passwords of other programs, is none of a pinentry's or an agent's.
const HANDED_ON: [&str; 32] = [
    "HOME",
    "PATH",
    "LANG",
    "LC_ADDRESS",
    "LC_ALL",
    "LC_COLLATE",
    "LC_CTYPE",
    "LC_IDENTIFICATION",
    "LC_MEASUREMENT",
    "LC_MESSAGES",
    "LC_MONETARY",
    "LC_NAME",
    "LC_NUMERIC",
    "LC_PAPER",
    "LC_TELEPHONE",
    "LC_TIME",
    "TERM",
    "DISPLAY",
    "WAYLAND_DISPLAY",
    "XAUTHORITY",
    "DBUS_SESSION_BUS_ADDRESS",
    "XDG_RUNTIME_DIR",
    "XDG_SESSION_TYPE",
    "XDG_CURRENT_DESKTOP",
    "GTK_IM_MODULE",
    "QT_IM_MODULE",
    "XMODIFIERS",
    "QT_QPA_PLATFORM",
    "INSIDE_EMACS",
    "PINENTRY_USER_DATA",
    "GPG_TTY",
    "GNUPGHOME",
];

/// Has the command's program inherit these variables alone, as far as they are set. One whose value
/// isn't UTF-8 is left out.
pub fn hand_on<E: Env>(env: &E, alloc: Global, command: &mut Command) -> io::Result<()>
    ensures clears { OnOk result (clears_env command.new ≡ true) }
    ensures listed { OnOk result ((name : List ℕ) → IsSome (command_var command.new name)
        → Contains (map (λ listed. listed.now) HANDED_ON) name) }
{
    command.env_clear();
    hand_on_all(env, alloc, command, &HANDED_ON)
}

/// Has the command's program inherit these variables too.
fn hand_on_all<E: Env>(
    env: &E,
    alloc: Global,
    command: &mut Command,
    names: &[&str],
) -> io::Result<()>
    ensures clears { OnOk result (clears_env command.new ≡ clears_env command.old) }
    ensures listed { OnOk result ((name : List ℕ) → IsSome (command_var command.new name)
        → IsSome (command_var command.old name) ⊎ Contains (map (λ listed. listed.now) names.now) name) }
{
    for name in names {
        hand_on_one(env, alloc, command, name)?;
    }
    Ok(())
}

/// Has the command's program inherit this variable, if it is set.
fn hand_on_one<E: Env>(env: &E, alloc: Global, command: &mut Command, name: &str) -> io::Result<()>
    ensures clears { OnOk result (clears_env command.new ≡ clears_env command.old) }
    ensures others { OnOk result (SameOtherVars command.old command.new name.now) }
{
    match env::var(&(env, alloc), name) {
        Ok(value) => {
            command.env(name, value.as_str())?;
            Ok(())
        }
        Err(VarError::NotPresent | VarError::NotUnicode) => Ok(()),
        Err(VarError::OutOfMemory) => Err(ErrorKind::OutOfMemory.into()),
    }
}

#[cfg(test)]
mod tests {
    use super::*;
    use std::env::FillError;
    use std::str;
    use std::test::Fail;

    /// An environment of these entries.
    #[derive(Drop)]
    struct Entries<'a>(&'a [&'a str]);

    /// Puts a text at the front of the buffer.
    fn fill(text: &str, buf: &mut [u8]) -> Result<usize, FillError>
        ensures { WritesAtMost result buf.new }
    {
        match buf.get_mut(..text.len()) {
            Some(front) => {
                front.copy_from_slice(text.as_bytes());
                Ok(text.len())
            }
            None => Err(FillError::TooLong),
        }
    }

    impl Env for Entries<'_> {
        fn arg(&self, _i: usize, _buf: &mut [u8]) -> Result<usize, FillError> {
            Err(FillError::NotPresent)
        }

        fn var(&self, name: &str, buf: &mut [u8]) -> Result<usize, FillError> {
            for entry in self.0 {
                if let Some((key, value)) = entry.split_once('=') {
                    if key == name {
                        return fill(value, buf);
                    }
                }
            }
            Err(FillError::NotPresent)
        }

        fn var_at(&self, i: usize, buf: &mut [u8]) -> Result<usize, FillError> {
            match self.0.get(i) {
                Some(entry) => fill(entry, buf),
                None => Err(FillError::NotPresent),
            }
        }
    }

    /// Each variable of the list is handed on where it is set, and no other one.
    #[test]
    fn a_child_sees_what_is_handed_on_alone(rt: HostRuntime) -> Result<(), Fail> {
        let entries = Entries(&[
            "RESTIC_PASSWORD=secret",
            "HOME=/home/alice",
            "PATH=/usr/bin:/bin",
            "LANG=C",
            "LC_ADDRESS=a",
            "LC_ALL=b",
            "LC_COLLATE=c",
            "LC_CTYPE=C.UTF-8",
            "LC_IDENTIFICATION=d",
            "LC_MEASUREMENT=e",
            "LC_MESSAGES=f",
            "LC_MONETARY=g",
            "LC_NAME=h",
            "LC_NUMERIC=i",
            "LC_PAPER=j",
            "LC_TELEPHONE=k",
            "LC_TIME=l",
            "LC_X=x",
            "LD_PRELOAD=/tmp/x.so",
            "TERM=xterm",
            "DISPLAY=",
            "WAYLAND_DISPLAY=wayland-0",
            "XAUTHORITY=/home/alice/.Xauthority",
            "DBUS_SESSION_BUS_ADDRESS=unix:path=/run/bus",
            "XDG_RUNTIME_DIR=/run/user/1000",
            "XDG_SESSION_TYPE=wayland",
            "XDG_CURRENT_DESKTOP=GNOME",
            "GTK_IM_MODULE=ibus",
            "GTK_MODULES=x",
            "QT_IM_MODULE=fcitx",
            "XMODIFIERS=@im=ibus",
            "QT_QPA_PLATFORM=xcb",
            "INSIDE_EMACS=29.1",
            "PINENTRY_USER_DATA=USE_CURSES=1",
            "GPG_TTY=/dev/pts/3",
            "GNUPGHOME=/home/alice/keys",
            "HOMES=x",
        ]);
        let mut command = Command::new(rt.alloc(), "/usr/bin/env")?;
        hand_on(&entries, rt.alloc(), &mut command)?;
        let output = command.output(&rt)?;
        assert_eq!(rt;
            str::from_utf8(output.stdout.as_slice()).ok(),
            Some(
                "DBUS_SESSION_BUS_ADDRESS=unix:path=/run/bus\nDISPLAY=\nGNUPGHOME=/home/alice/keys\n\
                GPG_TTY=/dev/pts/3\nGTK_IM_MODULE=ibus\nHOME=/home/alice\nINSIDE_EMACS=29.1\nLANG=C\n\
                LC_ADDRESS=a\nLC_ALL=b\nLC_COLLATE=c\nLC_CTYPE=C.UTF-8\nLC_IDENTIFICATION=d\n\
                LC_MEASUREMENT=e\nLC_MESSAGES=f\nLC_MONETARY=g\nLC_NAME=h\nLC_NUMERIC=i\nLC_PAPER=j\n\
                LC_TELEPHONE=k\nLC_TIME=l\nPATH=/usr/bin:/bin\nPINENTRY_USER_DATA=USE_CURSES=1\n\
                QT_IM_MODULE=fcitx\nQT_QPA_PLATFORM=xcb\nTERM=xterm\nWAYLAND_DISPLAY=wayland-0\n\
                XAUTHORITY=/home/alice/.Xauthority\nXDG_CURRENT_DESKTOP=GNOME\n\
                XDG_RUNTIME_DIR=/run/user/1000\nXDG_SESSION_TYPE=wayland\nXMODIFIERS=@im=ibus\n"
            )
        );
        Ok(())
    }
}
