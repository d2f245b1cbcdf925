//! The gate (test hook) that sessions of a daemon pass by, so that a test holds one at its prompt
//! while others go on. It may keep a thread waiting, by atomics of its own, and changes nothing of
//! a session; no clause speaks of it. Begin with `Gate::at`; the agent itself has `NoGate`.

use crate::SessionId;
use std::sync::atomic::{AtomicBool, AtomicU64, Ordering};

/// A point in a session's life.
#[derive(Clone, Copy, PartialEq, Eq)]
pub enum GatePoint {
    /// The session begins, and nothing of it is read yet.
    Began,
    /// Its pinentry was started.
    PromptOpen,
    /// The session has ended.
    Ended,
}

/// Where sessions pass by, so that a test can hold one while others go on.
pub trait Gate {
    /// The session is at this point. It may be held here.
    fn at(&self, point: GatePoint, session: SessionId);
}

/// Holds no session.
#[derive(Clone, Copy, PartialEq, Eq)]
pub struct NoGate;

impl Gate for NoGate {
    fn at(&self, _point: GatePoint, _session: SessionId) {}
}

/// Holds the first session at its open prompt until another one has ended, for so many turns at
/// most. A turn is one look at whether one has.
#[derive(Drop)]
pub struct HoldGate {
    turns: u64,
    /// Only a session that begins while one is held lets it go.
    later_alone: bool,
    /// A session came to its open prompt.
    held: AtomicBool,
    /// The pass, plus one, of the first session that began while one was held.
    later: AtomicU64,
    ended_before: AtomicU64,
    /// A session ended that lets the held one go.
    ended: AtomicBool,
    gave_up: AtomicBool,
}

impl HoldGate {
    /// Whatever ends while a session is held, or ended before, lets it go.
    pub fn new(turns: u64) -> Self {
        HoldGate {
            turns,
            later_alone: false,
            held: AtomicBool::new(false),
            later: AtomicU64::new(0),
            ended_before: AtomicU64::new(0),
            ended: AtomicBool::new(false),
            gave_up: AtomicBool::new(false),
        }
    }

    /// Only a session that begins while one is held lets it go. So that there is one, a session
    /// that isn't the first of its worker waits where it begins until one is held, for as many
    /// turns.
    pub fn for_later_sessions(turns: u64) -> Self {
        let mut gate = HoldGate::new(turns);
        gate.later_alone = true;
        gate
    }

    /// Whether a session was held at its open prompt.
    pub fn held(&self) -> bool {
        self.held.load(Ordering::SeqCst)
    }

    /// How many sessions had ended before one was held.
    pub fn ended_before(&self) -> u64 {
        self.ended_before.load(Ordering::SeqCst)
    }

    /// Whether the turns ran out before what was waited for.
    pub fn gave_up(&self) -> bool {
        self.gave_up.load(Ordering::SeqCst)
    }

    fn wait_for(&self, point: &AtomicBool) {
        for _ in 0..self.turns {
            if point.load(Ordering::SeqCst) {
                return;
            }
        }
        self.gave_up.store(true, Ordering::SeqCst);
    }

    fn began(&self, session: SessionId) {
        if !self.later_alone {
            return;
        }
        if session.count > 0 {
            self.wait_for(&self.held);
        }
        if self.held() {
            let _ = self.later.compare_exchange(
                0,
                one_more(session.pass),
                Ordering::SeqCst,
                Ordering::SeqCst,
            );
        }
    }

    fn ended(&self, session: SessionId) {
        if !self.held() {
            self.ended_before.fetch_add(1, Ordering::SeqCst);
        }
        let later = self.later.load(Ordering::SeqCst);
        if !self.later_alone || later == one_more(session.pass) {
            self.ended.store(true, Ordering::SeqCst);
        }
    }
}

fn one_more(pass: u32) -> u64 {
    u64::from(pass) + 1
}

impl Gate for HoldGate {
    fn at(&self, point: GatePoint, session: SessionId) {
        match point {
            GatePoint::Began => self.began(session),
            GatePoint::PromptOpen => {
                if !self.held.swap(true, Ordering::SeqCst) {
                    self.wait_for(&self.ended);
                }
            }
            GatePoint::Ended => self.ended(session),
        }
    }
}
