//! One prompt under a ticket: what is asked of a pinentry, of the client and of the test of a
//! passphrase, and what comes of it.
//!
//! Begin with [`ask_pin`] and [`ask_consent`], or with [`ask_user`] and [`agree_by_mode`], which
//! are the same for a request. The answer is the one that the prompt's events come to, in at most
//! [`MAX_TRIES`] tries, and the prompter is shut whatever came. [`Prompter`] is what asks the user,
//! [`Test`] what a passphrase is tried on. Definitions begin in `specs/Prompts` and
//! `specs/Consents`.
#![tactic(auto)]

mod answering;
mod client;
mod laws;
mod prompt;
mod seat;

pub use answering::unless_cut;
pub use client::caller::{Caller, Heard};
pub use laws::{a_consent_has_one_answer, a_prompt_has_one_answer, failures_are_counted};
pub use prompt::agreeing::{agree, agree_by_mode};
pub use prompt::ask::{Asked, ask_pin};
pub use prompt::consent::{Agreed, ask_consent};
pub use prompt::given::{AnyPin, ask_user};
pub use prompt::plan::{ask_plan, prompt_spec};
pub use prompt::prompter::{Consent, Opened, Outcome, Prompter};
pub use prompt::spec::{AskPlan, PromptSpec};
pub use prompt::test::{Test, Tested};
pub use prompt::tries::MAX_TRIES;
pub use seat::held::Held;
pub use seat::turns::{ask_cache, change};
pub use seat::{close, give_back, hold_seat, seat_by_mode, take_seat, without_memory};
pub use session_client::{Gone, MAX_NOTE_LEN};
