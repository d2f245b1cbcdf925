//! A pinentry as a child program: the prompts of an agent, in its words (pinentry manual,
//! "protocol").
//!
//! Begin with [`Pinentry::new`]: it is a prompter (`agent_ask`), whose calls are the parts of one
//! dialogue with a child that is launched for the prompt and finished behind it
//! ([`a_prompt_has_its_child`]). The child's bytes decide what comes of it
//! ([`a_dialogue_has_one_outcome`]). Definitions begin in `specs/Dialogues`, what an answer means
//! in `specs/Answers`.
#![tactic(auto)]

mod answers;
mod laws;
mod pinentry;
mod settings;
mod talk;

use arrayvec::ArrayVec;
use session_options::MAX_VALUE_LEN;

/// The path of a program.
pub type Word = ArrayVec<u8, MAX_VALUE_LEN>;

pub use laws::{
    a_dialogue_has_one_outcome, a_pinentry_is_a_prompter, a_prompt_has_its_child,
    a_spent_child_gave_all, failures_of_a_pinentry_are_counted, prompts_have_their_children,
};
pub use pinentry::Pinentry;
