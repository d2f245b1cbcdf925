//! A number that a value is, and what is kept of it between bounds of which one side is the
//! stricter one. Pure. Begin with `kept_in`; definitions are in `specs/Numbers`.

ghost use Rattle.std.specs.Prelude.{◌≡◌, ◌≤◌, ◌<◌, ◌⊎◌, IfSome, true, min, length};
ghost use Rattle.std.specs.{Char.is_ascii_digit, List.prefix_len, Option.option_map};
ghost use Rattle.assuan_text.specs.Numbers.{decimal};
ghost use Rattle.agent_conf.specs.Numbers.{IsKept, NoLaxer, greatest_of, is_measured, kept_in};
ghost use Rattle.agent_conf.specs.Numbers.{kept_number, least_of, number_in};

use assuan_text::is_ignored;
use cache_policy::{MAX_SECONDS, MAX_SECRET_LEN};
use session_options::{MAX_S2K_COUNT, MIN_S2K_COUNT};

/// The numbers that an option can be set to.
#[derive(Clone, Copy, Debug, PartialEq, Eq)]
pub enum Range {
    /// A lifetime, or how long a prompt stays, in seconds. The smaller one is the stricter one.
    Seconds,
    /// The fewest bytes of a new passphrase. The greater one is the stricter one.
    Bytes,
    /// The bytes that a passphrase is hashed to, where 0 stands for a count that is measured. The
    /// greater one is the stricter one, and the greatest is all that the format has.
    Count,
    /// The milliseconds that a measured count takes. The greater one is the stricter one.
    Milliseconds,
}

/// Which of two numbers limits more.
#[derive(Clone, Copy)]
enum Stricter {
    /// One below the least that can be is refused.
    Smaller,
    /// One above the greatest that can be is refused.
    Greater,
    /// The greatest that can be is all that there is.
    GreaterOfFormat,
}

impl Range {
    ghost use Rattle.agent_conf.specs.Numbers.{greatest_of, least_of, stricter_of};

    fn stricter(self) -> Stricter
        ensures { result ≡ stricter_of self }
    {
        match self {
            Range::Seconds => Stricter::Smaller,
            Range::Bytes | Range::Milliseconds => Stricter::Greater,
            Range::Count => Stricter::GreaterOfFormat,
        }
    }

    /// The least number that can be kept.
    pub fn least(self) -> u64
        ensures { result ≡ least_of self }
    {
        match self {
            Range::Seconds | Range::Bytes | Range::Milliseconds => 0,
            Range::Count => MIN_S2K_COUNT,
        }
    }

    /// The greatest number that can be kept.
    pub fn greatest(self) -> u64
        ensures value { result ≡ greatest_of self }
        ensures within { (least_of self ≤ result) × (result < MAX_NUMBER) }
    {
        match self {
            Range::Seconds => u64::from(MAX_SECONDS),
            Range::Bytes => MAX_SECRET_LEN as u64,
            Range::Count => MAX_S2K_COUNT,
            Range::Milliseconds => 99_999,
        }
    }
}

/// What greater numbers are read as. No bound of an option comes near.
pub(crate) const MAX_NUMBER: u64 = 1_000_000_000_000_000_000;

/// The number that a value is: decimal digits, as many as there are, behind which a comment may
/// stand. One above `MAX_NUMBER` counts as that.
pub(crate) fn number_in(value: &[u8]) -> Option<u64>
    ensures { result ≡ option_map (λ number. min number MAX_NUMBER) (number_in value.now) }
{
    let (digits, rest) = value.split_at(digits_len(value));
    if digits.is_empty() || !is_ignored(rest) {
        return None;
    }
    Some(decimal(digits))
}

/// How many decimal digits stand in front.
fn digits_len(value: &[u8]) -> usize
    ensures place { result ≡ prefix_len is_ascii_digit value.now }
    ensures within { result ≤ length value.now }
{
    value
        .iter()
        .take_while(|byte| byte.is_ascii_digit())
        .count()
}

/// The number that digits are, at most `MAX_NUMBER`.
fn decimal(digits: &[u8]) -> u64
    ensures { result ≡ min (decimal digits.now) MAX_NUMBER }
{
    let mut number: u64 = 0;
    for &digit in digits {
        number = (10 * number + u64::from(digit.saturating_sub(b'0'))).min(MAX_NUMBER);
    }
    number
}

/// The number that is kept of one that is written: itself, or the nearest on the stricter side.
/// `None` where each that can be is laxer.
pub fn kept_in(range: Range, written: u64) -> Option<u64>
    ensures exact { result ≡ kept_in range written }
    ensures no_laxer { IfSome result
        (λ kept. (is_measured range written ≡ true) ⊎ NoLaxer range kept written) }
    ensures within { IfSome result (IsKept range) }
{
    if is_measured(range, written) {
        return Some(written);
    }
    kept_number(range.stricter(), range.least(), range.greatest(), written)
}

/// Whether this count stands for one that is measured.
pub(crate) fn is_measured(range: Range, number: u64) -> bool
    ensures { result ≡ is_measured range number }
{
    matches!(range, Range::Count) && number == 0
}

/// Where these are the least and the greatest that can be kept.
fn kept_number(stricter: Stricter, least: u64, greatest: u64, written: u64) -> Option<u64>
    ensures { result ≡ kept_number stricter least greatest written }
{
    match stricter {
        Stricter::Smaller if written < least => None,
        Stricter::Smaller => Some(written.min(greatest)),
        Stricter::Greater if written > greatest => None,
        Stricter::Greater => Some(written.max(least)),
        Stricter::GreaterOfFormat => Some(written.max(least).min(greatest)),
    }
}
