//! The cache policy: which passphrase a request is given, and when.
//!
//! The types of the policy, and its definitions over whole histories of marks: they begin in
//! `specs/Policy`, and `docs/POLICY.md` reads them. [`Desk`] is where a session takes its turns,
//! and promises what each of them does to the run. The laws say what the policy comes to, as
//! [`nothing_comes_back`] and [`one_prompt`]. [`ListBook`] is the plain cache that meets the
//! definitions for puts alone.
#![tactic(auto)]

mod bounds;
mod desk;
mod entry;
mod grant;
mod history;
mod id;
mod laws;
mod life;
mod list_book;
mod mark;
mod mode;
mod secret;
mod step;
mod tally;
mod trace;
mod wait;

pub use bounds::{MAX_MARKS, MAX_MOMENT, MAX_WAIT};
pub use desk::Desk;
pub use entry::Entry;
pub use grant::Grant;
pub use history::{Held, History, Marks};
pub use id::{CacheId, MAX_ID_LEN};
pub use laws::{
    a_history_turns_over, a_replay_is_the_only_one, a_run_goes_on, no_secret_is_read,
    nothing_comes_back, one_more_mark, one_prompt, turns_extend_a_run,
};
pub use life::{Life, Limits, MAX_SECONDS};
pub use list_book::{ListBook, NoMemory};
pub use mark::{Mark, MarkReply, MarkStep, Under, Way};
pub use mode::Mode;
pub use secret::{MAX_SECRET_LEN, Secret};
pub use step::{Refused, Reply, Step};
pub use tally::{Tally, a_tally_goes_on};
pub use trace::{Trace, TraceStep};
pub use wait::{Wait, since_by};
