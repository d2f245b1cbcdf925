//! A mark (log entry) without the bytes of its secret, as a journal may keep it. Plain data. Begin
//! with `TraceStep::of`; `trace_mark` of `specs/Traces` is the mark that definitions see, without
//! bytes as in `specs/Bare`.

ghost use Rattle.std.specs.Prelude.{◌≡◌, Ok};
ghost use Rattle.cache_policy.specs.{Bare.bare_step, Traces.{trace_step, reply_of}};
ghost use Rattle.cache_policy.specs.Turns.{mark_step, turn_of};

use crate::wait::since_by;
use crate::{CacheId, Life, MarkReply, Mode, Reply, Step, Under, Way};
use agent_ports::SessionId;

/// One step of a session, with the number of its ticket in place of a ticket, the moment of its
/// first try in place of a wait, and without the bytes of a secret.
#[derive(PartialEq, Eq, Drop)]
pub enum TraceStep {
    /// Asks for a passphrase.
    Ask {
        id: CacheId,
        mode: Mode,
        way: Way,
        since: Option<u64>,
    },
    /// Asks for the seat at the prompt, whatever the cache has.
    Seat {
        under: Option<Under>,
        since: Option<u64>,
    },
    /// Whether it keeps what was typed.
    Close {
        ticket: u64,
        keep: bool,
    },
    /// Stores a passphrase.
    Put {
        id: CacheId,
        mode: Mode,
        life: Life,
    },
    /// Forgets what is stored under an id, in the modes that cover the named one.
    Clear {
        id: CacheId,
        mode: Mode,
    },
    /// Forgets everything.
    Flush,
    /// Looks whether a passphrase is there, without using it.
    Peek {
        id: CacheId,
        mode: Mode,
    },
    /// Opens no prompt from now on.
    Stop,
}

impl TraceStep {
    /// What a trace shows of a session's step.
    pub fn of(session: SessionId, step: &Step) -> TraceStep
        ensures { trace_step result ≡ bare_step (mark_step session step.now) }
    {
        match step {
            Step::Ask {
                id,
                mode,
                way,
                wait,
            } => TraceStep::Ask {
                id: id.copy(),
                mode: *mode,
                way: *way,
                since: since_by(session, wait),
            },
            Step::Seat { under, wait } => TraceStep::Seat {
                under: match under {
                    Some(under) => Some(under.copy()),
                    None => None,
                },
                since: since_by(session, wait),
            },
            Step::Close { ticket, keep } => TraceStep::Close {
                ticket: ticket.number(),
                keep: keep.is_some(),
            },
            Step::Put {
                id,
                mode,
                life,
                secret: _,
            } => TraceStep::Put {
                id: id.copy(),
                mode: *mode,
                life: *life,
            },
            Step::Clear { id, mode } => TraceStep::Clear {
                id: id.copy(),
                mode: *mode,
            },
            Step::Flush => TraceStep::Flush,
            Step::Peek { id, mode } => TraceStep::Peek {
                id: id.copy(),
                mode: *mode,
            },
            Step::Stop => TraceStep::Stop,
        }
    }
}

/// A mark without the bytes of its secret.
#[derive(PartialEq, Eq, Drop)]
pub struct Trace {
    /// The session that took the step.
    pub session: SessionId,
    /// What it asked for.
    pub step: TraceStep,
    /// What it was replied.
    pub reply: MarkReply,
    /// In seconds. It never falls from one trace to the next.
    pub moment: u64,
}

impl MarkReply {
    /// What a mark says of the reply. `None` for Stand, which makes no mark.
    pub fn of(reply: &Reply) -> Option<MarkReply>
        ensures { result ≡ reply_of (turn_of (Ok reply.now)) }
    {
        match reply {
            Reply::Given(grant) => Some(MarkReply::Given(grant.number())),
            Reply::Empty => Some(MarkReply::Empty),
            Reply::Open(_) => Some(MarkReply::Open),
            Reply::Stand(_) => None,
            Reply::Done => Some(MarkReply::Done),
            Reply::Held(held) => Some(MarkReply::Held(*held)),
            Reply::Stopping => Some(MarkReply::Stopping),
            Reply::Late => Some(MarkReply::Late),
        }
    }
}
