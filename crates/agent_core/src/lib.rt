//! The cache core: each step is replied by the policy over what came before it, which the core
//! doesn't keep.
//!
//! Begin with [`Core::step`]: for every legal history that the core stands for, a step is replied
//! by the policy at its moment, and the core then stands for that history with the step's mark. A
//! step that makes no mark leaves the core as it was, but for room. [`Solo`] is the desk of a lone
//! session, over a core that keeps its run ([`KnownCore`]). Definitions begin in `specs/Cores`, the
//! desk's in `specs/Solos`.
#![tactic(auto)]

mod cache_core;
mod foreign;
mod holder;
mod known_core;
mod laws;
mod opening;
mod solo;
mod state;
mod stepped;
mod steps;
mod tally;

pub use cache_core::Core;
pub use foreign::{Foreign, ForeignStep};
pub use known_core::KnownCore;
pub use laws::turns_extend_a_known_run;
pub use opening::Opening;
pub use solo::Solo;
pub use stepped::{mark_step_of, without_wait};
