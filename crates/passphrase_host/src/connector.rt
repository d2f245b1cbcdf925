//! The agents of this machine, found, started where none answers, and connected to. It works on
//! sockets, processes, the environment and files, and counts what fails. Begin with
//! `SystemConnector::new`; the promise is that of `Connector` (`passphrase_talk`), and how agents
//! are found is in `asked.rt`.

ghost use Rattle.std.specs.Prelude.{◌≡◌, ◌≤◌, Contains, Err, IfOk, MatchResult, None};
ghost use Rattle.std.specs.Prelude.{string_bytes};
ghost use Rattle.agent_ports.specs.{Counts.Rose, Launches.{IsFresh, child_then}};
ghost use Rattle.session_options.specs.OptionValues.{words_of};
ghost use Rattle.passphrase_talk.specs.Contacts.{then_opened};
ghost use Rattle.passphrase_host.specs.Paths.{IsAt, paths_at, paths_of};

use crate::asked::{Asked, Found, Opened, find_agents};
use crate::failure::{Failure, said};
use crate::guard::Guard;
use crate::link::AgentLink;
use crate::patience::Limits;
use crate::starting::silence;
use crate::terminal::environment_of;
use crate::wire::WireLoss;
use agent_ports::{Sink, Source};
use assuan_client::Peer;
use passphrase_talk::{Agents, Connector, Place, Unmet, Waits};
use session_options::Env;
use std::alloc::{AllocError, Global};
use std::fs::{File, Files};
use std::net::Net;
use std::process::Processes;
use std::rt;

/// The agents of this machine, by their sockets: GnuPG's own or those of this repository.
///
/// Where none answers it starts one by gpg-agent's stand-in: in the folder that the user names, in
/// the GnuPG home where that was set up for it, and else in a folder of its own. Beside a prompt a
/// guard is left, which ends that where this program ends or is stopped. It ends a pinentry of the
/// user's, and no other process.
#[derive(Drop)]
pub struct SystemConnector<'a, R: Processes> {
    rt: &'a R,
    alloc: Global,
    env: Env,
    limits: Limits,
    home: Option<Asked>,
    beside: Option<Asked>,
    guard: Option<Guard<R::Started>>,
    reason: String,
    /// It stays so.
    is_kept: bool,
    faults: u64,
    shortages: u64,
}

impl<'a, R: rt::Clock + rt::Env + Processes + Files<File = File> + Net + Eprint> SystemConnector<
    'a,
    R,
> {
    /// A connector that has found no agent yet, at the terminal that the environment says.
    pub fn new(rt: &'a R, alloc: Global) -> Result<Self, AllocError> {
        Ok(SystemConnector {
            rt,
            alloc,
            env: environment_of(rt, alloc)?,
            limits: Limits::new(None),
            home: None,
            beside: None,
            guard: None,
            reason: String::new(alloc),
            is_kept: false,
            faults: 0,
            shortages: 0,
        })
    }
}

impl<'a, R: rt::Clock + rt::Env + Processes + Files<File = File> + Net + Eprint> Connector
    for SystemConnector<'a, R> {
    type Link = AgentLink<'a, R>;

    ghost contacts = { λ c. record {
      coming = None;
      sought = None;
      opened = None;
      met = None;
      launches = None;
      faults = c.faults;
      shortages = c.shortages;
    } };

    ghost terminal = { λ c. words_of c.env };

    ghost reason = { λ c. string_bytes c.reason };

    fn find(&mut self, folder: Option<&str>, seconds: Option<u32>) -> Result<Agents, Unmet> {
        self.limits = Limits::new(seconds);
        match find_agents(self.rt, self.alloc, folder, self.limits) {
            Ok(Found { home, beside }) => {
                let agents = if beside.is_some() {
                    Agents::Both
                } else {
                    Agents::One
                };
                self.home = Some(home);
                self.beside = beside;
                Ok(agents)
            }
            Err(failure) => Err(self.fail(failure)),
        }
    }

    fn connect(&mut self, place: Place, waits: Waits) -> Result<AgentLink<'a, R>, Unmet>
        // The socket is that of the agent at this place: it was looked for at one of its paths.
        ensures path { IfOk result
            (λ link. Contains (paths_at place self.old.home self.old.beside) (string_bytes link.at)) }
        ensures fresh { IfOk result (λ link. IsFresh (⟦<AgentLink<'a, R> as Source>⟧.input link)
            (⟦<AgentLink<'a, R> as Sink>⟧.output link)) }
        ensures coming { MatchResult result (λ link. (⟦<SystemConnector<'a, R> as Connector>⟧.contacts self.old).coming
            ≡ child_then (⟦<AgentLink<'a, R> as Source>⟧.input link).bytes (⟦<SystemConnector<'a, R> as Connector>⟧.contacts self.new).coming)
            (λ _. (⟦<SystemConnector<'a, R> as Connector>⟧.contacts self.new).coming ≡ (⟦<SystemConnector<'a, R> as Connector>⟧.contacts self.old).coming) }
        ensures opened { MatchResult result (λ _. (⟦<SystemConnector<'a, R> as Connector>⟧.contacts self.new).opened
            ≡ then_opened (⟦<SystemConnector<'a, R> as Connector>⟧.contacts self.old).opened place waits)
            (λ _. (⟦<SystemConnector<'a, R> as Connector>⟧.contacts self.new).opened ≡ (⟦<SystemConnector<'a, R> as Connector>⟧.contacts self.old).opened) }
        ensures sought { (⟦<SystemConnector<'a, R> as Connector>⟧.contacts self.new).sought ≡ (⟦<SystemConnector<'a, R> as Connector>⟧.contacts self.old).sought }
        ensures met { (⟦<SystemConnector<'a, R> as Connector>⟧.contacts self.new).met ≡ (⟦<SystemConnector<'a, R> as Connector>⟧.contacts self.old).met }
        ensures failed { result ≡ Err Unmet.Fault → Rose self.old.faults self.new.faults }
        ensures faults { self.old.faults ≤ self.new.faults }
        ensures no_memory { result ≡ Err Unmet.NoMemory
            → Rose self.old.shortages self.new.shortages }
        ensures shortages { self.old.shortages ≤ self.new.shortages }
        ensures launches { (⟦<SystemConnector<'a, R> as Connector>⟧.contacts self.new).launches ≡ (⟦<SystemConnector<'a, R> as Connector>⟧.contacts self.old).launches }
        ensures terminal { words_of self.new.env ≡ words_of self.old.env }
    {
        let seconds = match waits {
            Waits::Answer => self.limits.answer,
            Waits::Prompt => self.limits.prompt,
        };
        match self.opened(place) {
            Ok(opened) => Ok(AgentLink::new(self.rt, opened, seconds, waits == Waits::Prompt)),
            Err(failure) => Err(self.fail(failure)),
        }
    }

    fn leave(&mut self, place: Place, link: AgentLink<'a, R>) {
        let (reads, writes) = link.faults();
        self.faults = self.faults.saturating_add(reads).saturating_add(writes);
        self.release_guard(reads == 0 && writes == 0);
        if let Some(reason) = self.why_lost(place, &link) {
            self.note(reason);
        }
        drop(link);
    }

    fn terminal(&self) -> &Env {
        &self.env
    }

    fn reason(&self) -> &str {
        self.reason.as_str()
    }

    fn keep_reason(&mut self) {
        self.is_kept = true;
    }

    fn launched(&mut self, text: &[u8], _peer: &Peer<AgentLink<'a, R>>) {
        self.release_guard(true);
        self.guard = Guard::of_pinentry(self.rt, self.alloc, text, self.env.ttyname.as_slice());
    }
}

impl<R: rt::Clock + rt::Env + Processes + Files<File = File> + Net + Eprint> SystemConnector<
    '_,
    R,
> {
    /// The prompt is over, or isn't: then the guard ends it.
    fn release_guard(&mut self, is_over: bool)
        ensures faults { self.new.faults ≡ self.old.faults }
        ensures shortages { self.new.shortages ≡ self.old.shortages }
        ensures env { self.new.env ≡ self.old.env }
        ensures reason { self.new.reason ≡ self.old.reason }
    {
        match self.guard.take() {
            Some(guard) if is_over => guard.end(),
            guard => drop(guard),
        }
    }

    /// Takes this for the reason, where another one isn't to stay.
    fn note(&mut self, reason: String)
        ensures faults { self.new.faults ≡ self.old.faults }
        ensures shortages { self.new.shortages ≡ self.old.shortages }
        ensures env { self.new.env ≡ self.old.env }
    {
        if !self.is_kept {
            self.reason = reason;
        }
    }

    /// Counts a call that failed, and notes why.
    fn fail(&mut self, failure: Failure) -> Unmet
        ensures failed { result ≡ Unmet.Fault → Rose self.old.faults self.new.faults }
        ensures faults { self.old.faults ≤ self.new.faults }
        ensures no_memory { result ≡ Unmet.NoMemory → Rose self.old.shortages self.new.shortages }
        ensures shortages { self.old.shortages ≤ self.new.shortages }
        ensures env { self.new.env ≡ self.old.env }
    {
        match failure {
            Failure::NoMemory => {
                self.shortages = self.shortages.saturating_add(1);
                Unmet::NoMemory
            }
            Failure::Said(reason) => {
                self.note(reason);
                self.faults = self.faults.saturating_add(1);
                Unmet::Fault
            }
        }
    }

    /// A connection to the agent at this place.
    fn opened(&mut self, place: Place) -> Result<Opened, Failure>
        ensures at { IfOk result (IsAt (paths_at place self.old.home self.old.beside)) }
        ensures faults { self.new.faults ≡ self.old.faults }
        ensures shortages { self.new.shortages ≡ self.old.shortages }
        ensures env { self.new.env ≡ self.old.env }
    {
        let (rt, alloc) = (self.rt, self.alloc);
        match place {
            Place::Home => opened_of(rt, alloc, &mut self.home),
            Place::Beside => opened_of(rt, alloc, &mut self.beside),
        }
    }

    /// Why the agent's answer is missing, where the link ended or its time was over.
    fn why_lost(&self, place: Place, link: &AgentLink<'_, R>) -> Option<String> {
        match link.loss()? {
            WireLoss::Ended => String::from_str(self.alloc, "the agent ended the connection").ok(),
            WireLoss::Late(seconds) => {
                format!(in self.alloc; "no answer within {seconds} seconds").ok()
            }
            WireLoss::Silent(seconds) => self.why_silent(place, seconds),
        }
    }

    fn why_silent(&self, place: Place, seconds: u32) -> Option<String> {
        let asked = match place {
            Place::Home => self.home.as_ref()?,
            Place::Beside => self.beside.as_ref()?,
        };
        match silence(self.rt, self.alloc, asked.folder.as_str(), seconds) {
            Failure::Said(reason) => Some(reason),
            Failure::NoMemory => None,
        }
    }
}

/// A connection to an agent that was found.
fn opened_of<R: rt::Env + Files<File = File> + Net>(
    rt: &R,
    alloc: Global,
    asked: &mut Option<Asked>,
) -> Result<Opened, Failure>
    ensures { IfOk result (IsAt (paths_of asked.old)) }
{
    match asked {
        Some(asked) => asked.opened(rt, alloc),
        None => Err(said(format!(in alloc; "no agent was found"))),
    }
}
