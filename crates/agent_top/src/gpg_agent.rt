//! The agent in gpg-agent's place: it reads the options of the command line and of the two files,
//! and serves by the rules that they mean. It writes on the error stream what becomes of the
//! options; else it works as `run_agent` does. Begin with `run_gpg_agent`, whose clause begins at
//! the bytes of the files; definitions are in `specs/GpgAgent`.

ghost use Rattle.std.specs.Prelude.{◌≡◌, IsSome, map, string_bytes, true};
ghost use Rattle.session_options.specs.Counts.{IsS2kCount};
ghost use Rattle.agent_top.specs.GpgAgent.{Admits, AreFound, CountsBy, Counted, Does, RunsGpgAgent};
ghost use Rattle.agent_top.specs.GpgAgent.{Started, StarterState, Versioned, AreWith, is_check};

mod reading;
mod telling;

use crate::Status;
use crate::top::run_rules;
use agent_conf::Mode;
use agent_ports::{ConfFiles, Link, Sink};
use agent_serve::{SharedHost, ViewedHost};
pub use reading::{Options, StartPlace, read_options};
use session_options::{Rules, Version};
use std::alloc::Global;
use std::rt;
use std::sync::Wait;
use std::thread::Threads;

/// What sees to a start once its options are read.
pub trait Starter {
    /// What was asked of it so far, where this is known, and how many starts it turned away.
    ghost starter: { Self → StarterState };

    /// Whether the start goes on, in a home folder that other hosts may have only where that is
    /// taken. A start that doesn't go on was told why.
    fn admits(&mut self, forces_network_home: bool) -> bool
        ensures { Admits forces_network_home result (starter self.old) (starter self.new) };

    /// The version that clients are told.
    fn version(&mut self) -> Version
        ensures { Does (Versioned result) (starter self.old) (starter self.new) };

    /// How many bytes a passphrase is hashed to where this is to take so many milliseconds.
    fn measured_count(&mut self, milliseconds: u64) -> u64
        ensures does { Does (Counted milliseconds result) (starter self.old) (starter self.new) }
        ensures count { IsS2kCount result };

    /// It begins to serve by these rules.
    fn starts(&mut self, rules: &Rules)
        ensures { Does (Started rules.now) (starter self.old) (starter self.new) };
}

/// The agent in gpg-agent's place. It reads the files and the words, which leave out the program's
/// name, and tells what becomes of their options, a line each. Then it serves by their rules, in
/// the host's process, and its answer is as `run_agent`'s.
///
/// Its answer is 2 where an option is refused, a file can't be read or the start is turned away, 1
/// where there is no memory for the options, and 0 where it is only to tell what becomes of them.
/// Then nothing is served.
pub fn run_gpg_agent<
    W: Threads + Wait + rt::Clock + Sync,
    S: Link,
    H: SharedHost,
    F: ConfFiles,
    E: Sink,
    P: Starter,
>(
    rt: &W,
    alloc: Global,
    place: &StartPlace<'_>,
    words: &[String],
    files: &mut F,
    starter: &mut P,
    stdio: &mut S,
    errors: &mut E,
    host: &mut H,
) -> u8
where
    H::Listener: Drop,
    requires { IsSome (H.server host.old) }
    ensures { RunsGpgAgent ⟦<H as ViewedHost>⟧.views place.now (map string_bytes words.now)
        (F.confs files.old) (P.starter starter.old) (E.output errors.old) (record {
          host = host.old;
          input = S.input stdio.old;
          output = S.output stdio.old;
          server = H.server host.old;
          listens = H.listens host.old;
          process = H.process host.old;
          homedir = H.homedir host.old;
        }) result (F.confs files.new) (P.starter starter.new) (E.output errors.new) (record {
          host = host.new;
          input = S.input stdio.new;
          output = S.output stdio.new;
          server = H.server host.new;
          listens = H.listens host.new;
          process = H.process host.new;
          homedir = H.homedir host.new;
        }) }
{
    let options = match read_options(alloc, place, words, files, errors) {
        Ok(options) => options,
        Err(status) => return status.number(),
    };
    if is_check(options.mode) {
        return Status::Success.number();
    }
    if !starter.admits(options.forces_network_home) {
        return Status::BadWords.number();
    }
    let rules = found_rules(options, starter, host.pid());
    run_rules(rt, alloc, &rules, stdio, host)
}

/// The rules that the options mean with what is found at the start, which begins.
fn found_rules<P: Starter>(options: Options, starter: &mut P, pid: u32) -> Rules
    ensures { AreFound options pid (P.starter starter.old) result (P.starter starter.new) }
{
    let version = starter.version();
    let count = count_for(&options, starter);
    let rules = with_found(options.rules, version, count, pid);
    starter.starts(&rules);
    rules
}

/// The count of the rules, or one that is measured where nobody names one.
fn count_for<P: Starter>(options: &Options, starter: &mut P) -> u64
    ensures counts { CountsBy options.now.measures_count options.now result (P.starter starter.old)
        (P.starter starter.new) }
    ensures count { IsS2kCount result }
{
    if options.measures_count {
        starter.measured_count(options.calibration)
    } else {
        options.rules.s2k_count
    }
}

/// The rules with what was found at the start.
fn with_found(mut rules: Rules, version: Version, count: u64, pid: u32) -> Rules
    requires { IsS2kCount count }
    ensures { AreWith version count pid rules result }
{
    rules.version = version;
    rules.s2k_count = count;
    rules.pid = pid;
    rules
}

fn is_check(mode: Mode) -> bool
    ensures { result ≡ is_check mode }
{
    matches!(mode, Mode::Check)
}
