//! Which session it is: the pass (worker's token) that serves it, and its number there. Plain data,
//! by which each mark (log entry) and each wait of the cache names its session.

/// Which session took a step: the pass that served it, and its number there, from 0.
#[derive(Clone, Copy, Debug, PartialEq, Eq)]
pub struct SessionId {
    /// The number of the pass, from 0.
    pub pass: u32,
    /// How many sessions the pass served before it.
    pub count: u64,
}
