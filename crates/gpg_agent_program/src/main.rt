//! The agent in gpg-agent's place: one program, one process for a home folder.
//!
//! Begin with `main`. What the options mean, and what is served by them, is `run_gpg_agent`'s, whose
//! clauses hold here; what stands in front is shown by tests, here and of the built program
//! (`tools/daemon-cases`). There are no definitions.
#![tactic(auto)]

mod call;
mod detach;
mod preparing;
mod starter;

use crate::preparing::prepare;
use crate::starter::SystemStarter;
use agent_host::{Log, Looks, SystemHost};
use agent_start::{SystemConf, fill_standard, reason};
use agent_top::{Status, run_gpg_agent};
use std::process;
use std::process::ExitCode;
use std::time::Duration;
use std_link::StdLink;

/// In seconds: how often a daemon looks whether clients can reach it, and has what has expired
/// overwritten; and how long behind a look that misses its socket it looks again.
const LOOK_SECONDS: u64 = 60;

const AGAIN_SECONDS: u64 = 5;

fn main(rt: HostRuntime) -> ExitCode {
    let alloc = rt.alloc();
    let standard = fill_standard(&rt);
    let (call, lock) = match prepare(&rt, alloc) {
        Ok(prepared) => prepared,
        Err(status) => return ExitCode::from(status),
    };
    let voice = call.voice();
    let mut files = SystemConf::new(&rt, &call.conf, voice);
    let mut starter = SystemStarter::new(&rt, alloc, &call, voice);
    let mut stdio = StdLink::new(rt.reader(), std::io::writer(&rt));
    let mut errors = voice.sink(&rt);
    let log = Log::new();
    let looks = Looks {
        every: Duration::from_secs(LOOK_SECONDS),
        again: Duration::from_secs(AGAIN_SECONDS),
    };
    let mut host = SystemHost::of_users(&rt, alloc, process::id(rt.process()), &log, looks);
    host.hold_until_it_listens(lock);
    let status = run_gpg_agent(
        &rt,
        alloc,
        &call.place(),
        &call.words,
        &mut files,
        &mut starter,
        &mut stdio,
        &mut errors,
        &mut host,
    );
    match reason(status) {
        // Each option that is refused was told.
        Some(reason) if status != Status::BadWords.number() => {
            voice.say(&rt, &format_args!("ended: {reason} (status {status})"));
        }
        _ => {}
    }
    drop(standard);
    ExitCode::from(status)
}
