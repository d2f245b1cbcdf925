//! What the program sees to at a start, once its options are read. It writes files of the home
//! folder, and measures and asks what isn't kept there. Begin with `SystemStarter`; the promise is
//! that of `Starter` (`agent_top`).

ghost use Rattle.std.specs.Prelude.{None};

use crate::call::Call;
use agent_conf::Mode;
use agent_start::{
    Fault, Sockets, Voice, installed_version, make_keys_folder, measured_count, network_kind, said,
    write_options,
};
use agent_top::Starter;
use gnupg_home::real_path;
use printable::Printable;
use session_options::{Rules, Version};
use std::alloc::Global;
use std::fs::{File, Files};
use std::net::Net;
use std::os::unix::fs::PermissionsExt;
use std::process::Processes;
use std::rt::{Clock, Env};
use std::{fs, str};

/// The bits of a mode by which a file may be run.
const MAY_RUN: u32 = 0o111;

/// What sees to the start of one call.
#[derive(Drop)]
pub(crate) struct SystemStarter<'a, R> {
    rt: &'a R,
    alloc: Global,
    call: &'a Call,
    voice: Voice<'a>,
    refusals: u64,
}

impl<'a, R: Clock + Env + Files<File = File> + Net + Processes + Print + Eprint> SystemStarter<
    'a,
    R,
> {
    pub(crate) fn new(rt: &'a R, alloc: Global, call: &'a Call, voice: Voice<'a>) -> Self {
        SystemStarter {
            rt,
            alloc,
            call,
            voice,
            refusals: 0,
        }
    }

    /// Why the start doesn't go on, if it doesn't.
    fn refusal(&self, forces_network_home: bool) -> Result<(), Fault> {
        let (rt, alloc, home) = (self.rt, self.alloc, self.call.home.as_str());
        if self.call.mode == Mode::Serve {
            return Ok(());
        }
        if !forces_network_home {
            self.check_network()?;
        }
        Sockets::of(rt, alloc, home)?.point(rt, alloc)
    }

    /// Not a folder that other hosts may have too. The daemon of each would end the other's, which
    /// it finds dead, with all that is kept.
    fn check_network(&self) -> Result<(), Fault> {
        let (alloc, home) = (self.alloc, self.call.home.as_str());
        let Some(path) = real_path(self.rt, alloc, home)? else {
            return Ok(());
        };
        let Some(kind) = network_kind(self.rt, alloc, &path) else {
            return Ok(());
        };
        let conf = self.call.home_file();
        Err(said(
            2,
            format!(in alloc;
                "the home folder {home} is on {kind}, where a daemon on each host would end the other's: take a folder of this host's own (GNUPGHOME, --homedir), or say --force-network-home, here or in {conf}, where no other host uses it"
            ),
        ))
    }
}

impl<R: Clock + Env + Files<File = File> + Net + Processes + Print + Eprint> Starter
    for SystemStarter<'_, R> {
    ghost starter = { λ s. record { calls = None; refusals = s.refusals } };

    fn admits(&mut self, forces_network_home: bool) -> bool {
        match self.refusal(forces_network_home) {
            Ok(()) => true,
            Err(fault) => {
                self.voice.say_fault(self.rt, &fault);
                self.refusals = self.refusals.saturating_add(1);
                false
            }
        }
    }

    fn version(&mut self) -> Version {
        installed_version(self.rt, self.alloc, &self.call.home)
    }

    fn measured_count(&mut self, milliseconds: u64) -> u64 {
        measured_count(self.rt, self.alloc, &self.call.home, milliseconds)
    }

    fn starts(&mut self, rules: &Rules) {
        if let Err(fault) = make_keys_folder(self.rt, self.alloc, &self.call.home) {
            self.voice.say_fault(self.rt, &fault);
        }
        say_pinentry(self.rt, self.call, self.voice, &rules.pinentry);
        if self.call.mode != Mode::Serve {
            let home = &self.call.home;
            if write_options(self.rt, self.alloc, home, rules).is_err() {
                self.voice
                    .say(self.rt, &format_args!("can't write {home}/agent.options"));
            }
        }
    }
}

/// Says where nobody can be asked, and whether it had to: gpg says no more than "No pinentry".
pub(crate) fn say_pinentry<R: Clock + Files<File = File> + Print + Eprint>(
    rt: &R,
    call: &Call,
    voice: Voice<'_>,
    pinentry: &[u8],
) -> bool {
    let path = str::from_utf8(pinentry).unwrap_or("");
    if can_run(rt, path) {
        return false;
    }
    let (path, conf) = (Printable(pinentry), call.home_file());
    voice.say(
        rt,
        &format_args!(
            "the pinentry can't be run, so nobody can be asked: {path} (install one, or name it by pinentry-program in {conf})"
        ),
    );
    true
}

fn can_run(rt: &impl Files, path: &str) -> bool {
    match fs::metadata(rt, path) {
        Ok(found) => found.is_file() && found.permissions().mode() & MAY_RUN != 0,
        Err(_) => false,
    }
}
