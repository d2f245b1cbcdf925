//! The rules that an agent is started with, and the options that a client sets in its session.
//!
//! Begin with [`Options::set`]: the answer and the values are exactly the table's, and a refusal
//! changes nothing. [`Rules`] keeps its ranges by its type, [`Version`] its form, and [`Env`] that
//! no word of it ends a line. Definitions begin in `specs/Table`, the defaults in `specs/Defaults`.
#![tactic(auto)]

mod env;
mod names;
mod options;
mod rules;
mod text;
mod values;
mod version;

use arrayvec::ArrayVec;

/// How many bytes the value of an option has at most.
pub const MAX_VALUE_LEN: usize = 255;

/// A value of the command line or of an option.
type Word = ArrayVec<u8, MAX_VALUE_LEN>;

pub use env::Env;
pub use options::{OptionAnswer, Options, PinMode, spelling_is_plain};
pub use rules::{
    DEFAULT_MAX_TTL, DEFAULT_MAX_TTL_SSH, DEFAULT_MIN_LEN, DEFAULT_MIN_NONALPHA, DEFAULT_S2K_COUNT,
    DEFAULT_TTL, DEFAULT_TTL_SSH, DEFAULT_WORKERS, MAX_S2K_COUNT, MAX_WORKERS, MIN_S2K_COUNT,
    MIN_WORKERS, Rules, RunMode,
};
pub use text::{copied, name_and_value};
pub use version::{DEFAULT_VERSION, MAX_VERSION_LEN, Version};
