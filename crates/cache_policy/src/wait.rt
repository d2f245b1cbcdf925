//! Since when a step stands before the held seat (the prompt's lock). Plain data, which the reply
//! Stand gives and the next try hands in. Begin with `since_by`; `is_late` of `specs/Waits` says
//! when a step has stood too long.

ghost use Rattle.std.specs.Prelude.{◌≡◌, Some};
ghost use Rattle.cache_policy.specs.Waits.{since_by};

use agent_ports::SessionId;

/// Since when a session stands before a held seat. A step that is replied Stand is given one, and
/// is tried again with it. The core believes whoever makes one.
///
/// It has no Clone: each try gives out the one for the next.
#[derive(PartialEq, Eq, Drop)]
pub struct Wait {
    session: SessionId,
    // The moment of the first try, in seconds.
    since: u64,
}

impl Wait {
    /// The wait of this session, whose first try was at this moment, in seconds.
    pub fn new(session: SessionId, since: u64) -> Wait
        ensures { result ≡ record { session = session; since = since } }
    {
        Wait { session, since }
    }

    /// The moment of the first try, in seconds.
    pub fn since(&self) -> u64
        ensures { result ≡ self.now.since }
    {
        self.since
    }

    /// The moment of the first try, where it is this session that waits.
    fn since_for(&self, session: SessionId) -> Option<u64>
        ensures { result ≡ since_by session (Some self.now) }
    {
        if self.session.pass == session.pass && self.session.count == session.count {
            Some(self.since)
        } else {
            None
        }
    }
}

/// The moment of a session's first try, where this is a wait of its own.
pub fn since_by(session: SessionId, wait: &Option<Wait>) -> Option<u64>
    ensures { result ≡ since_by session wait.now }
{
    match wait {
        Some(wait) => wait.since_for(session),
        None => None,
    }
}
