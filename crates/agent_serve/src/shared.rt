//! What workers in threads ask of a host's types, said once for all functions that hand it on to
//! them. Begin with `SharedHost`, which nobody has to implement.

use agent_ports::{Host, Launcher};

/// A host that threads share. Each host is one whose types may cross threads, and whose parts of a
/// session may be let go.
pub trait SharedHost: Sync
    + Host<
        Link: Send + Sync,
        Ear: Send + Sync + Drop,
        Listener: Send + Sync,
        Launcher: Launcher<Child: Send + Sync> + Send + Sync + Drop,
        Clock: Send + Sync + Drop,
        Dice: Send + Sync + Drop,
        Keys: Send + Sync + Drop,
        Trust: Send + Sync + Drop,
        Gate: Send + Sync,
    > {}

// There are no trait aliases, so the bounds stand again.
impl<H> SharedHost for H
where
    H: Sync
        + Host<
            Link: Send + Sync,
            Ear: Send + Sync + Drop,
            Listener: Send + Sync,
            Launcher: Launcher<Child: Send + Sync> + Send + Sync + Drop,
            Clock: Send + Sync + Drop,
            Dice: Send + Sync + Drop,
            Keys: Send + Sync + Drop,
            Trust: Send + Sync + Drop,
            Gate: Send + Sync,
        >,
{}
