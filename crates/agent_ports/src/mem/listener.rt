//! A listener in memory, for tests of the daemon: the links of a list, which lies behind a lock
//! that the workers and the test share. What a worker was answered is counted by its ear (fault
//! counter). Begin with `ListedLinks::next`; definitions begin in `specs/Mem/Listening`.

ghost use Rattle.std.specs.Prelude.{◌≡◌, ◌≤◌, ◌<◌, ◌↔◌, ◌⊎◌, ◌∷◌, ◌++◌, [], ⊤, true, false, IfOk};
ghost use Rattle.std.specs.{Prelude.{map, length, slice_get, vec_len}, Option.option_map};
ghost use Rattle.agent_ports.specs.{Counts.Rose, Listening.{IfLink, MatchNext, NothingFailed}};
ghost use Rattle.agent_ports.specs.Mem.Listening.{listen_plan, coming_links, ended_texts, heard};
ghost use Rattle.agent_ports.specs.Mem.Listening.{is_stopped, room, told};
ghost use Rattle.agent_ports.specs.Mem.Plans.{open_link, planned_link, written_text};
ghost use Rattle.agent_ports.specs.Plans.{Fails, after_call};

use crate::fault_plan::FaultPlan;
use crate::{Ear, Listener, MemLink, Next, PlannedLink, Sink, Source};
use std::alloc::{AllocError, Global};
use std::sync::{Mutex, Wait};

/// What one worker was answered by a `ListListener`, and told it: how often each.
#[derive(Drop)]
pub struct MemEar {
    /// Whether it is one of the listener for restricted sessions.
    extra: bool,
    links: u64,
    faults: u64,
    stops: u64,
    told: u64,
    told_extra: u64,
}

impl MemEar {
    /// How many calls with it failed.
    pub fn faults(&self) -> u64
        ensures { result ≡ ⟦<MemEar as Ear>⟧.faults self.now }
    {
        self.faults
    }

    /// Counts that a listener, the one for restricted sessions or the other, was told to stop.
    fn tell(&mut self, extra: bool)
        ensures { self.new ≡ told extra self.old }
    {
        if extra {
            self.told_extra = self.told_extra.saturating_add(1);
        } else {
            self.told = self.told.saturating_add(1);
        }
    }
}

impl Ear for MemEar {
    ghost faults = { λ ear. ear.faults };

    fn failed(&self) -> bool {
        self.faults > 0
    }
}

/// The links that a `ListListener` gives, and those whose sessions have ended. A call for the next
/// one fails where its number, from 0, is among those that are to fail, and where no link is left.
#[derive(Drop)]
pub struct ListedLinks {
    alloc: Global,
    coming: Vec<PlannedLink>,
    ended: Vec<MemLink>,
    stopped: bool,
    plan: FaultPlan,
}

impl ListedLinks {
    /// The memory that keeps the ended ones is taken here.
    pub fn new(
        alloc: Global,
        links: Vec<PlannedLink>,
        failing: Vec<u64>,
    ) -> Result<Self, AllocError>
        ensures coming { IfOk result (λ made. coming_links made ≡ map planned_link links.items) }
        ensures ended { IfOk result
            (λ made. (ended_texts made ≡ []) × (vec_len links ≤ room made)) }
        ensures plan { IfOk result
            (λ made. (listen_plan made ≡ record { failing = failing.items; calls = 0; size = 0 })
            × (is_stopped made ≡ false)) }
    {
        let ended = Vec::with_capacity(alloc, links.len())?;
        Ok(ListedLinks {
            alloc,
            coming: links,
            ended,
            stopped: false,
            plan: FaultPlan::new(failing),
        })
    }

    /// How many links are left.
    pub fn left(&self) -> usize
        ensures { result ≡ length (coming_links self.now) }
    {
        self.coming.len()
    }

    /// What was written to the ended link of this number, counted from 0 in the order in which the
    /// sessions ended.
    pub fn written(&self, others: usize) -> Option<&[u8]>
        ensures { option_map (λ bytes. bytes.now) result ≡ slice_get (ended_texts self.now) others }
    {
        match self.ended.get(others) {
            Some(link) => Some(link.written()),
            None => None,
        }
    }

    /// The next link, as `Listener::next` gives it.
    pub fn next(&mut self, ear: &mut MemEar) -> Next<MemLink>
        ensures stopped { (result ≡ Next.Stopped) ↔ (is_stopped self.old ≡ true) }
        ensures failed { (result ≡ Next.Failed) ↔ ((is_stopped self.old ≡ false)
            × (Fails (listen_plan self.old) ⊎ (coming_links self.old ≡ []))) }
        ensures given { MatchNext result
            (λ link. coming_links self.old ≡ open_link link ∷ coming_links self.new)
            (coming_links self.new ≡ coming_links self.old) }
        ensures link { IfLink result (λ link.
            NothingFailed (⟦<MemLink as Source>⟧.input link) (⟦<MemLink as Sink>⟧.output link)) }
        ensures calls { listen_plan self.new ≡ after_call (listen_plan self.old) }
        ensures others { (is_stopped self.new ≡ is_stopped self.old)
            × (ended_texts self.new ≡ ended_texts self.old) × (room self.new ≡ room self.old) }
        ensures heard { ear.new ≡ heard result ear.old }
        ensures rose { result ≡ Next.Failed
            → Rose (⟦<MemEar as Ear>⟧.faults ear.old) (⟦<MemEar as Ear>⟧.faults ear.new) }
        ensures faults { ⟦<MemEar as Ear>⟧.faults ear.old ≤ ⟦<MemEar as Ear>⟧.faults ear.new }
    {
        let fails = self.plan.next_fails();
        if self.stopped {
            ear.stops = ear.stops.saturating_add(1);
            return Next::Stopped;
        }
        if fails || self.coming.is_empty() {
            ear.faults = ear.faults.saturating_add(1);
            return Next::Failed;
        }
        ear.links = ear.links.saturating_add(1);
        Next::Link(self.coming.remove(0).open(self.alloc))
    }

    /// Keeps a link whose session has ended, where there is room.
    pub fn done(&mut self, link: MemLink)
        ensures kept { length (ended_texts self.old) < room self.old
            → ended_texts self.new ≡ ended_texts self.old ++ written_text link ∷ [] }
        ensures others { (coming_links self.new ≡ coming_links self.old)
            × (is_stopped self.new ≡ is_stopped self.old)
            × (listen_plan self.new ≡ listen_plan self.old) × (room self.new ≡ room self.old) }
    {
        if self.ended.len() < self.ended.capacity() {
            self.ended.push_reserved(link);
        }
    }

    /// From now on no link is given.
    pub fn stop(&mut self)
        ensures stopped { is_stopped self.new ≡ true }
        ensures others { (coming_links self.new ≡ coming_links self.old)
            × (ended_texts self.new ≡ ended_texts self.old)
            × (listen_plan self.new ≡ listen_plan self.old) × (room self.new ≡ room self.old) }
    {
        self.stopped = true;
    }
}

/// Gives the links of a list, which lies behind a lock, one after another. Whoever has the list
/// reads in the end what the links were written.
#[derive(Drop)]
pub struct ListListener<'l, W> {
    rt: &'l W,
    links: &'l Mutex<ListedLinks>,
    extra: bool,
}

impl<'l, W: Wait> ListListener<'l, W> {
    /// One whose links are those of the user's own sessions.
    pub fn new(rt: &'l W, links: &'l Mutex<ListedLinks>) -> Self {
        ListListener::at(rt, links, false)
    }

    /// One whose links may be those of restricted sessions.
    pub(crate) fn at(rt: &'l W, links: &'l Mutex<ListedLinks>, extra: bool) -> Self
        ensures { result.extra ≡ extra }
    {
        ListListener { rt, links, extra }
    }
}

impl<'l, W: Wait> Listener for ListListener<'l, W> {
    type Link = MemLink;

    type Ear = MemEar;

    // Its links lie behind a lock, so which come next isn't known, nor whether it was told to stop.
    // What it answered and was told is known by each ear.
    ghost gives = { λ _ _. ⊤ };

    ghost is_told = { λ _. ⊤ };

    ghost answers = { λ _ ear answer later. later ≡ heard answer ear };

    ghost tells = { λ l ear later. later ≡ told l.extra ear };

    ghost hears = { λ l ear. ear.extra ≡ l.extra };

    fn ear(&self) -> MemEar {
        MemEar {
            extra: self.extra,
            links: 0,
            faults: 0,
            stops: 0,
            told: 0,
            told_extra: 0,
        }
    }

    fn next(&self, ear: &mut MemEar) -> Next<MemLink> {
        self.links.lock(self.rt).next(ear)
    }

    fn done(&self, link: MemLink) {
        self.links.lock(self.rt).done(link);
    }

    fn stop(&self) {
        self.links.lock(self.rt).stop();
    }

    fn stop_by(&self, ear: &mut MemEar) {
        self.stop();
        ear.tell(self.extra);
    }
}
