//! Data lines (Assuan manual, "server responses", `D`), cut and read: each as full as no cut escape
//! allows. Pure, in arrays that are overwritten when they are dropped. Begin with `full_line`;
//! `AreData` of `specs/DataLines` says which lines some bytes have.

ghost use Rattle.std.specs.Prelude.{◌≡◌, ◌≤◌, ◌<◌, ◌∷◌, ℕ, List, true, false, length, take, drop};
ghost use Rattle.std.specs.Prelude.{MatchOption};
ghost use Rattle.assuan_text.specs.{declared.TheConstants.MAX_LINE_LEN, Forms.is_data};
ghost use Rattle.assuan_text.specs.LineEnds.{has_lf};
ghost use Rattle.assuan_escape.specs.DataLines.{data_line, AreData, carried};

use crate::{escape_into, unescape};
use assuan_text::{MAX_LINE_LEN, Text, escaped_part};
use wiping::{Wiped, wipe};

/// The first data line of these bytes, which has as many of them as it can hold, and how many these
/// are.
pub fn full_line(bytes: &[u8]) -> (Wiped<MAX_LINE_LEN>, usize)
    requires { 0 < length bytes.now }
    ensures some { 0 < result.1 }
    ensures within { result.1 ≤ length bytes.now }
    ensures text { result.0 ≡ data_line (take result.1 bytes.now) }
    ensures one_line { has_lf result.0 ≡ false }

    // The data lines of the other bytes complete it, and there are some.
    ensures first { (later : List (List ℕ)) → AreData (drop result.1 bytes.now) later
        → AreData bytes.now (take result.1 bytes.now ∷ later) }
    ensures others { (later : List (List ℕ)) × AreData (drop result.1 bytes.now) later }
{
    let mut line = Text::new();
    line.try_extend_from_slice(b"D ").unwrap();
    let count = escape_into(bytes, &mut line);
    (taken(&mut line), count)
}

/// The bytes that a data line carries. `None` for any other line.
pub fn data_of(line: &[u8]) -> Option<Wiped<MAX_LINE_LEN>>
    requires { length line.now ≤ MAX_LINE_LEN }
    ensures { MatchOption result (is_data line.now ≡ false)
        (λ bytes. (is_data line.now ≡ true) × (bytes ≡ carried line.now)) }
{
    let mut text = unescape(escaped_part(line)?, false);
    Some(taken(&mut text))
}

/// The bytes of the text, which are left in the result alone.
fn taken(text: &mut Text) -> Wiped<MAX_LINE_LEN>
    ensures { result ≡ text.old.items }
{
    let bytes = Wiped::of(text).unwrap();
    wipe(text.as_mut_slice());
    bytes
}

/// A law: any bytes are sent in one list of data lines, and in no other.
pub fn data_lines_are_the_only_ones()
    ensures some { (bytes : List ℕ) → (pieces : List (List ℕ)) × AreData bytes pieces }
    ensures only { (bytes : List ℕ) (pieces others : List (List ℕ)) → AreData bytes pieces
        → AreData bytes others → pieces ≡ others }
{}
