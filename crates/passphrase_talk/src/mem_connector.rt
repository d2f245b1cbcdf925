//! A connector over links in memory, for tests: it says what was sought, opened and written. It
//! takes memory alone, and fails where it was told to. Begin with `MemConnector::new`; what it
//! shows to contracts is `specs/MemContacts`.

ghost use Rattle.std.specs.Prelude.{◌≡◌, ◌≤◌, ◌↔◌, ◌⊎◌, IsTrue, IsErr, IfOk, MatchResult, Some};
ghost use Rattle.std.specs.Prelude.{None, if◌then◌else◌, Err, IfSome, [], map, reverse, slice_get};
ghost use Rattle.std.specs.{Prelude.refl, Bool.{OnTrue, OnFalse}, Option.option_map};
ghost use Rattle.agent_ports.specs.{Counts.Rose, Launches.{IsFresh, child_then}};
ghost use Rattle.agent_ports.specs.Plans.{Fails, after_call};
ghost use Rattle.session_options.specs.OptionValues.{words_of};
ghost use Rattle.passphrase_talk.specs.MemContacts.{gives_of, contact_of, latest_of, latest_first};
ghost use Rattle.passphrase_talk.specs.MemContacts.{sought_of, opening_of, meeting_input};
ghost use Rattle.passphrase_talk.specs.MemContacts.{meeting_output, call_plan, launches_with};
ghost use Rattle.passphrase_talk.specs.MemContacts.{reason_at};
ghost use Rattle.passphrase_talk.specs.Contacts.{then_sought, then_opened};

use crate::{Agents, Connector, Place, Unmet, Waits};
use agent_ports::{Got, Link, MemLink, MemSink, MemSource, PlannedLink, Sent, Sink, Source};
use assuan_client::Peer;
use session_options::Env;
use std::alloc::{AllocError, Global};

/// A contact of a `MemConnector`, with a place in the list of those that were left, so that leaving
/// it takes no memory.
#[derive(Drop)]
pub struct MemContact {
    place: Place,
    link: MemLink,
    read_faults: u64,
    write_faults: u64,
    earlier: Option<Box<MemContact>>,
}

impl MemContact {
    /// Which agent it was.
    pub fn place(&self) -> Place
        ensures { result ≡ (contact_of self.now).place }
    {
        self.place
    }

    /// What was written to it.
    pub fn written(&self) -> &[u8]
        ensures { result.now ≡ (contact_of self.now).written }
    {
        self.link.written()
    }

    /// The contact this number of places before this one.
    fn back(&self, back: usize) -> Option<&MemContact>
        ensures { option_map (λ contact. contact_of contact.now) result
            ≡ slice_get (latest_of self.now) back }
    {
        if back == 0 {
            return Some(self);
        }
        match &self.earlier {
            Some(contact) => contact.back(back - 1),
            None => None,
        }
    }
}

/// The link of a contact that a `MemConnector` made.
#[derive(Drop)]
pub struct MemMeeting {
    contact: Box<MemContact>,
}

impl Source for MemMeeting {
    ghost input = { meeting_input };

    ghost beside_input = { meeting_output };

    fn read(&mut self, buf: &mut [u8]) -> Got {
        let got = self.contact.link.read(buf);
        if got == Got::Failed {
            self.contact.read_faults = self.contact.read_faults.saturating_add(1);
        }
        got
    }
}

impl Sink for MemMeeting {
    ghost output = { meeting_output };

    ghost beside_output = { meeting_input };

    fn put(&mut self, bytes: &[u8]) -> Sent {
        let sent = self.contact.link.put(bytes);
        if sent != Sent::All {
            self.contact.write_faults = self.contact.write_faults.saturating_add(1);
        }
        sent
    }
}

impl Link for MemMeeting {
    ghost output_beside = { λ _. refl };

    ghost input_beside = { λ _. refl };
}

/// What a `MemConnector` was asked to find, and found.
#[derive(Drop)]
pub struct MemSought {
    folder: Option<String>,
    seconds: Option<u32>,
    found: Agents,
}

impl MemSought {
    /// The folder that was named.
    pub fn folder(&self) -> Option<&str>
        ensures { option_map (λ name. name.now) result ≡ (sought_of self.now).folder }
    {
        match &self.folder {
            Some(folder) => Some(folder),
            None => None,
        }
    }

    /// How many seconds were given.
    pub fn seconds(&self) -> Option<u32>
        ensures { result ≡ (sought_of self.now).seconds }
    {
        self.seconds
    }

    /// Which agents were found.
    pub fn found(&self) -> Agents
        ensures { result ≡ (sought_of self.now).found }
    {
        self.found
    }
}

/// Connects to the links of a list, one after another. The calls of `find` and `connect` have
/// numbers together, from 0: one fails where its number is among those that are to fail. A
/// connection fails too where no link is left.
#[derive(Drop)]
pub struct MemConnector {
    alloc: Global,
    agents: Agents,
    terminal: Env,
    coming: Vec<PlannedLink>,
    sought: Vec<MemSought>,
    opened: Vec<(Place, Waits)>,
    met: Option<Box<MemContact>>,
    launches: Vec<Vec<u8>>,
    /// There was no memory for one of the launches.
    has_lost: bool,
    failing: Vec<u64>,
    calls: u64,
    faults: u64,
    shortages: u64,
    /// To which agent the last connection failed.
    unmet: Option<Place>,
    /// That stays so.
    is_kept: bool,
}

impl MemConnector {
    /// A connector that finds these agents and has these links.
    pub fn new(
        alloc: Global,
        agents: Agents,
        terminal: Env,
        links: Vec<PlannedLink>,
        failing: Vec<u64>,
    ) -> Self
        ensures contacts { ⟦<MemConnector as Connector>⟧.contacts result ≡ record {
          coming = Some (gives_of links.items);
          sought = Some [];
          opened = Some [];
          met = Some [];
          launches = Some [];
          faults = 0;
          shortages = 0;
        } }
        ensures terminal { ⟦<MemConnector as Connector>⟧.terminal result ≡ words_of terminal }
        ensures plan { call_plan result ≡ record { failing = failing.items; calls = 0; size = 0 } }
    {
        MemConnector {
            alloc,
            agents,
            terminal,
            coming: links,
            sought: Vec::new(alloc),
            opened: Vec::new(alloc),
            met: None,
            launches: Vec::new(alloc),
            has_lost: false,
            failing,
            calls: 0,
            faults: 0,
            shortages: 0,
            unmet: None,
            is_kept: false,
        }
    }

    /// What was sought in the call of this number of those that found agents, counted from 0.
    pub fn sought(&self, others: usize) -> Option<&MemSought>
        ensures { IfSome (⟦<MemConnector as Connector>⟧.contacts self.now).sought (λ all.
            option_map (λ sought. sought_of sought.now) result ≡ slice_get all others) }
    {
        self.sought.get(others)
    }

    /// For which agent the connection of this number was made, counted from 0, and what its answers
    /// may take.
    pub fn opened(&self, others: usize) -> Option<(Place, Waits)>
        ensures { IfSome (⟦<MemConnector as Connector>⟧.contacts self.now).opened (λ all.
            option_map opening_of result ≡ slice_get all others) }
    {
        self.opened.get(others).copied()
    }

    /// The contact of this number that was left, counted from 0 at the last one.
    pub fn contact(&self, back: usize) -> Option<&MemContact>
        ensures { IfSome (⟦<MemConnector as Connector>⟧.contacts self.now).met (λ met.
            option_map (λ contact. contact_of contact.now) result
            ≡ slice_get (reverse met) back) }
    {
        match &self.met {
            Some(contact) => contact.back(back),
            None => None,
        }
    }

    /// What was told of the pinentry of this number, counted from 0.
    pub fn launch(&self, others: usize) -> Option<&[u8]>
        ensures { IfSome (⟦<MemConnector as Connector>⟧.contacts self.now).launches (λ all.
            option_map (λ text. text.now) result ≡ slice_get all others) }
    {
        match self.launches.get(others) {
            Some(text) => Some(text.as_slice()),
            None => None,
        }
    }

    /// Counts a call, and says whether it is one that is to fail.
    fn next_fails(&mut self) -> bool
        ensures planned { IsTrue result ↔ Fails (call_plan self.old) }
        ensures calls { call_plan self.new ≡ after_call (call_plan self.old) }
        ensures fails { OnTrue result (Rose self.old.faults self.new.faults) }
        ensures passes { OnFalse result (self.new.faults ≡ self.old.faults) }
        ensures never_falls { self.old.faults ≤ self.new.faults }
        ensures coming { self.new.coming ≡ self.old.coming }
        ensures sought { self.new.sought ≡ self.old.sought }
        ensures opened { self.new.opened ≡ self.old.opened }
        ensures met { self.new.met ≡ self.old.met }
        ensures launches { self.new.launches ≡ self.old.launches }
        ensures has_lost { self.new.has_lost ≡ self.old.has_lost }
        ensures shortages { self.new.shortages ≡ self.old.shortages }
        ensures terminal { self.new.terminal ≡ self.old.terminal }
    {
        let fails = self.failing.contains(&self.calls);
        self.calls = self.calls.saturating_add(1);
        if fails {
            self.faults = self.faults.saturating_add(1);
        }
        fails
    }

    /// Notes to which agent a connection failed.
    fn note(&mut self, place: Place)
        ensures { self.new ≡ record self.old { unmet = self.new.unmet } }
    {
        if !self.is_kept {
            self.unmet = Some(place);
        }
    }

    /// Counts that there was no memory.
    fn short(&mut self) -> Unmet
        ensures why { result ≡ Unmet.NoMemory }
        ensures rose { Rose self.old.shortages self.new.shortages }
        ensures never_falls { self.old.shortages ≤ self.new.shortages }
        ensures others { self.new ≡ record self.old { shortages = self.new.shortages } }
    {
        self.shortages = self.shortages.saturating_add(1);
        Unmet::NoMemory
    }

    /// Keeps what is sought, and that these agents are found.
    fn keep(&mut self, folder: Option<&str>, seconds: Option<u32>) -> Result<(), AllocError>
        ensures sought { MatchResult result (λ _. Some (map sought_of self.new.sought.items)
            ≡ then_sought (Some (map sought_of self.old.sought.items))
            (option_map (λ name. name.now) folder.entry) seconds self.old.agents)
            (λ _. self.new.sought.items ≡ self.old.sought.items) }
        ensures others { self.new ≡ record self.old { sought = self.new.sought } }
    {
        let folder = copied(self.alloc, folder)?;
        self.sought.push(MemSought {
            folder,
            seconds,
            found: self.agents,
        })?;
        Ok(())
    }
}

/// A copy of a text, if there is one.
fn copied(alloc: Global, text: Option<&str>) -> Result<Option<String>, AllocError>
    ensures { IfOk result (λ copy.
        option_map (λ it. it.bytes.items) copy ≡ option_map (λ it. it.now) text.entry) }
{
    match text {
        Some(text) => Ok(Some(String::from_str(alloc, text)?)),
        None => Ok(None),
    }
}

impl Connector for MemConnector {
    type Link = MemMeeting;

    ghost contacts = { λ c. record {
      coming = Some (gives_of c.coming.items);
      sought = Some (map sought_of c.sought.items);
      opened = Some (map opening_of c.opened.items);
      met = Some (reverse (latest_first c.met));
      launches = launches_with c.has_lost (map (λ text. text.items) c.launches.items);
      faults = c.faults;
      shortages = c.shortages;
    } };

    ghost terminal = { λ c. words_of c.terminal };

    ghost reason = { λ c. reason_at c.unmet };

    /// Where no memory is left for what is sought, nothing was sought.
    fn find(&mut self, folder: Option<&str>, seconds: Option<u32>) -> Result<Agents, Unmet>
        ensures sought { MatchResult result
            (λ agents. (⟦<MemConnector as Connector>⟧.contacts self.new).sought
            ≡ then_sought (⟦<MemConnector as Connector>⟧.contacts self.old).sought
            (option_map (λ name. name.now) folder.entry) seconds agents)
            (λ _. (⟦<MemConnector as Connector>⟧.contacts self.new).sought
            ≡ (⟦<MemConnector as Connector>⟧.contacts self.old).sought) }
        ensures opened { (⟦<MemConnector as Connector>⟧.contacts self.new).opened
            ≡ (⟦<MemConnector as Connector>⟧.contacts self.old).opened }
        ensures coming { (⟦<MemConnector as Connector>⟧.contacts self.new).coming
            ≡ (⟦<MemConnector as Connector>⟧.contacts self.old).coming }
        ensures met { (⟦<MemConnector as Connector>⟧.contacts self.new).met
            ≡ (⟦<MemConnector as Connector>⟧.contacts self.old).met }
        ensures failed { result ≡ Err Unmet.Fault
            → Rose (⟦<MemConnector as Connector>⟧.contacts self.old).faults
            (⟦<MemConnector as Connector>⟧.contacts self.new).faults }
        ensures faults { (⟦<MemConnector as Connector>⟧.contacts self.old).faults
            ≤ (⟦<MemConnector as Connector>⟧.contacts self.new).faults }
        ensures no_memory { result ≡ Err Unmet.NoMemory
            → Rose (⟦<MemConnector as Connector>⟧.contacts self.old).shortages
            (⟦<MemConnector as Connector>⟧.contacts self.new).shortages }
        ensures shortages { (⟦<MemConnector as Connector>⟧.contacts self.old).shortages
            ≤ (⟦<MemConnector as Connector>⟧.contacts self.new).shortages }
        ensures launches { (⟦<MemConnector as Connector>⟧.contacts self.new).launches
            ≡ (⟦<MemConnector as Connector>⟧.contacts self.old).launches }
        ensures terminal { ⟦<MemConnector as Connector>⟧.terminal self.new
            ≡ ⟦<MemConnector as Connector>⟧.terminal self.old }

        // What the plan says.
        ensures planned { (result ≡ Err Unmet.Fault) ↔ Fails (call_plan self.old) }
        ensures calls { call_plan self.new ≡ after_call (call_plan self.old) }
    {
        if self.next_fails() {
            return Err(Unmet::Fault);
        }
        match self.keep(folder, seconds) {
            Ok(()) => Ok(self.agents),
            Err(_) => Err(self.short()),
        }
    }

    /// Where no memory is left for it, no link is used up.
    fn connect(&mut self, place: Place, waits: Waits) -> Result<MemMeeting, Unmet>
        ensures fresh { IfOk result
            (λ link. IsFresh (⟦<MemMeeting as Source>⟧.input link)
            (⟦<MemMeeting as Sink>⟧.output link)) }
        ensures coming { MatchResult result
            (λ link. (⟦<MemConnector as Connector>⟧.contacts self.old).coming
            ≡ child_then (⟦<MemMeeting as Source>⟧.input link).bytes
            (⟦<MemConnector as Connector>⟧.contacts self.new).coming)
            (λ _. (⟦<MemConnector as Connector>⟧.contacts self.new).coming
            ≡ (⟦<MemConnector as Connector>⟧.contacts self.old).coming) }
        ensures sought { (⟦<MemConnector as Connector>⟧.contacts self.new).sought
            ≡ (⟦<MemConnector as Connector>⟧.contacts self.old).sought }
        ensures opened { MatchResult result
            (λ _. (⟦<MemConnector as Connector>⟧.contacts self.new).opened
            ≡ then_opened (⟦<MemConnector as Connector>⟧.contacts self.old).opened place waits)
            (λ _. (⟦<MemConnector as Connector>⟧.contacts self.new).opened
            ≡ (⟦<MemConnector as Connector>⟧.contacts self.old).opened) }
        ensures met { (⟦<MemConnector as Connector>⟧.contacts self.new).met
            ≡ (⟦<MemConnector as Connector>⟧.contacts self.old).met }
        ensures failed { result ≡ Err Unmet.Fault
            → Rose (⟦<MemConnector as Connector>⟧.contacts self.old).faults
            (⟦<MemConnector as Connector>⟧.contacts self.new).faults }
        ensures faults { (⟦<MemConnector as Connector>⟧.contacts self.old).faults
            ≤ (⟦<MemConnector as Connector>⟧.contacts self.new).faults }
        ensures no_memory { result ≡ Err Unmet.NoMemory
            → Rose (⟦<MemConnector as Connector>⟧.contacts self.old).shortages
            (⟦<MemConnector as Connector>⟧.contacts self.new).shortages }
        ensures shortages { (⟦<MemConnector as Connector>⟧.contacts self.old).shortages
            ≤ (⟦<MemConnector as Connector>⟧.contacts self.new).shortages }
        ensures launches { (⟦<MemConnector as Connector>⟧.contacts self.new).launches
            ≡ (⟦<MemConnector as Connector>⟧.contacts self.old).launches }
        ensures terminal { ⟦<MemConnector as Connector>⟧.terminal self.new
            ≡ ⟦<MemConnector as Connector>⟧.terminal self.old }

        // What the plan says.
        ensures planned { Fails (call_plan self.old) → result ≡ Err Unmet.Fault }
        ensures cause { result ≡ Err Unmet.Fault → Fails (call_plan self.old)
            ⊎ ((⟦<MemConnector as Connector>⟧.contacts self.old).coming ≡ Some []) }
        ensures calls { call_plan self.new ≡ after_call (call_plan self.old) }
    {
        if self.next_fails() {
            self.note(place);
            return Err(Unmet::Fault);
        }
        if self.coming.is_empty() {
            self.faults = self.faults.saturating_add(1);
            self.note(place);
            return Err(Unmet::Fault);
        }
        let contact = MemContact {
            place,
            link: no_link(self.alloc),
            read_faults: 0,
            write_faults: 0,
            earlier: None,
        };
        let Ok(mut contact) = Box::new(self.alloc, contact) else {
            return Err(self.short());
        };
        if self.opened.push((place, waits)).is_err() {
            return Err(self.short());
        }
        contact.link = self.coming.remove(0).open(self.alloc);
        Ok(MemMeeting { contact })
    }

    fn leave(&mut self, place: Place, link: MemMeeting) {
        let MemMeeting { mut contact } = link;
        self.faults = self.faults.saturating_add(contact.read_faults);
        self.faults = self.faults.saturating_add(contact.write_faults);
        contact.place = place;
        contact.earlier = self.met.take();
        self.met = Some(contact);
    }

    fn terminal(&self) -> &Env {
        &self.terminal
    }

    fn reason(&self) -> &str {
        match self.unmet {
            Some(Place::Beside) => "it is planned beside",
            _ => "it is planned",
        }
    }

    fn keep_reason(&mut self) {
        self.is_kept = true;
    }

    fn launched(&mut self, text: &[u8], _peer: &Peer<MemMeeting>) {
        match Vec::from_slice(self.alloc, text) {
            Ok(copy) => self.has_lost = self.launches.push(copy).is_err() || self.has_lost,
            Err(_) => self.has_lost = true,
        }
    }
}

/// A link that gives nothing.
fn no_link(alloc: Global) -> MemLink {
    let source = MemSource::new(Vec::new(alloc), 1, Vec::new(alloc));
    MemLink::new(source, MemSink::new(alloc, 0, Vec::new(alloc)))
}
