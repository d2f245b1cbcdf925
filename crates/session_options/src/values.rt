//! The values of two options: the pinentry-mode by its name, and the count of bytes to hash. Pure.
//! Begin with `mode_of`; both functions are their namesakes in `specs/Table`.

ghost use Rattle.std.specs.Prelude.{◌≡◌};
ghost use Rattle.assuan_text.specs.Numbers.{number_of};
ghost use Rattle.session_options.specs.Table.{mode_of, count_for};

use crate::{MAX_S2K_COUNT, MIN_S2K_COUNT, PinMode};
use assuan_text::found;

const MODES: [(&[u8], PinMode); 5] = [
    (b"ask", PinMode::Ask),
    (b"default", PinMode::Ask),
    (b"cancel", PinMode::Cancel),
    (b"error", PinMode::Error),
    (b"loopback", PinMode::Loopback),
];

/// The mode that a value means.
#[tactic(auto, unfolding(crate::specs::Table::mode_of))]
pub(crate) fn mode_of(value: &[u8]) -> Option<PinMode>
    ensures { result ≡ mode_of value.now }
{
    found(value, &MODES)
}

/// The count that a number means. 0 stands for the rules' own.
pub(crate) fn count_for(rules_count: u64, number: u64) -> Option<u64>
    ensures { result ≡ count_for rules_count number }
{
    match number {
        0 => Some(rules_count),
        MIN_S2K_COUNT..=MAX_S2K_COUNT => Some(number),
        _ => None,
    }
}
