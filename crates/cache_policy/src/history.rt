//! A history in memory, for a core that keeps its run: how it began, and its marks (log entries).
//! Plain data, secrets among it. Begin with `History`; `history_of` of `specs/Histories` is what
//! definitions read.

ghost use Rattle.std.specs.Prelude.{◌≡◌};

use crate::{Mark, Under};

/// A ticket that is out, by its number, and what its passphrase is kept under.
#[derive(PartialEq, Eq, Drop)]
pub struct Held {
    /// The number of the ticket.
    pub ticket: u64,
    /// The id and the mode, where what is typed may be kept.
    pub under: Option<Under>,
}

/// Marks in the order in which they were made.
#[derive(Drop)]
pub struct Marks(pub Vec<Mark>);

impl Marks {
    /// The marks, the earliest first.
    pub fn as_slice(&self) -> &[Mark]
        ensures { result.now ≡ self.now.0.items }
    {
        self.0.as_slice()
    }
}

/// What an agent did since it last began with an empty cache.
#[derive(Drop)]
pub struct History {
    /// The number of the first mark.
    pub base: u64,
    /// The ticket that was out at the start.
    pub held: Option<Held>,
    /// Whether the agent had stopped opening prompts at the start.
    pub stopped: bool,
    /// The marks that were made since, the earliest first.
    pub marks: Marks,
}
