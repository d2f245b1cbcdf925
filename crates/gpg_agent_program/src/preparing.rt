//! What a call comes to before an agent is served: an answer, a check, a start elsewhere, or that
//! it is served here. Begin with `prepare`.

use crate::call::{Call, words_of};
use crate::detach::{leave_if_answered, start};
use crate::starter::say_pinentry;
use agent_conf::Mode;
use agent_start::{Fault, Sockets, SystemConf, Voice, answer, check, enter, is_asked, lock};
use agent_top::read_options;
use std::alloc::Global;
use std::fs::{File, Files};
use std::net::Net;
use std::process::Processes;
use std::rt::{Clock, Env};
use std::{env, fs};

/// The status of a check where something was told.
const TOLD: u8 = 1;

/// The call, and the lock of its start, where it is to be served in this process. Else the status of
/// the process: all is done, or was said.
pub(crate) fn prepare<R: Clock + Env + Files<File = File> + Net + Processes + Print + Eprint>(
    rt: &R,
    alloc: Global,
) -> Result<(Call, Option<File>), u8> {
    let call = match read_call(rt, alloc) {
        Ok(call) => call,
        Err(fault) => return Err(Voice::Caller.end(rt, &fault)),
    };
    match entered(rt, alloc, &call) {
        Ok(lock) => Ok((call, lock)),
        Err(fault) => {
            let voice = match call.mode {
                Mode::Detach | Mode::Check => Voice::Caller,
                Mode::Serve | Mode::Stay => call.voice(),
            };
            Err(voice.end(rt, &fault))
        }
    }
}

/// What the words and the environment say, unless GnuPG's own agent answers that.
fn read_call<R: Env + Files<File = File> + Processes + Print>(
    rt: &R,
    alloc: Global,
) -> Result<Call, Fault> {
    let words = words_of(rt, alloc)?;
    if is_asked(&words) {
        return Err(Fault::Over(answer(rt, alloc, &words)?));
    }
    Call::read(rt, alloc, words)
}

/// Enters the folder of the call, and does what isn't served here.
fn entered<R: Clock + Env + Files<File = File> + Net + Processes + Print + Eprint>(
    rt: &R,
    alloc: Global,
    call: &Call,
) -> Result<Option<File>, Fault> {
    let home = call.home.as_str();
    if call.mode == Mode::Check {
        if fs::exists(rt, home).unwrap_or(false) {
            check(rt, alloc, home)?;
        }
        return Err(Fault::Over(checked(rt, alloc, call)));
    }
    enter(rt, alloc, home)?;
    match call.mode {
        Mode::Detach => Err(Fault::Over(start(rt, alloc, call)?)),
        Mode::Stay => {
            let lock = lock(rt, alloc, &call.log)?;
            let sockets = Sockets::of(rt, alloc, home)?;
            leave_if_answered(rt, alloc, &sockets, call)?;
            go_to_the_root(rt);
            Ok(Some(lock))
        }
        Mode::Serve | Mode::Check => {
            go_to_the_root(rt);
            Ok(None)
        }
    }
}

/// So that no file system is held by an agent that stays.
fn go_to_the_root(env: &impl Env) {
    let _ = env::set_current_dir(env, "/");
}

/// Tells what becomes of the options, a line each, and whether there was anything to tell.
fn checked<'a, R: Clock + Env + Files<File = File> + Net + Processes + Print + Eprint>(
    rt: &'a R,
    alloc: Global,
    call: &'a Call,
) -> u8 {
    let mut files = SystemConf::new(rt, &call.conf, Voice::Answer);
    let mut told = Voice::Answer.sink(rt);
    match read_options(alloc, &call.place(), &call.words, &mut files, &mut told) {
        Ok(options) => {
            let missed = say_pinentry(rt, call, Voice::Answer, &options.rules.pinentry);
            if missed || told.lines() > 0 { TOLD } else { 0 }
        }
        Err(_) => TOLD,
    }
}
