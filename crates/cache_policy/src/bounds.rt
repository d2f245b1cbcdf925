//! The policy's numbers: how many marks (log entries) a history has, where moments are cut, and how
//! long a step stands before a held seat (the prompt's lock). Constants, which `specs/Runs` and
//! `specs/Waits` read too.

/// How many marks one history has room for.
pub const MAX_MARKS: u64 = 131_072;

/// The moment to which readings of the clock are cut, in seconds.
pub const MAX_MOMENT: u64 = 1 << 62;

/// From how many seconds on a step that stands before a held seat is replied Late, when it is tried
/// again.
pub const MAX_WAIT: u64 = 60;
