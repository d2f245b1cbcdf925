//! The percent escapes of data lines, as they are written. It appends to its caller's text, up to a
//! line's length, and takes no memory. Begin with `escape_into`; `escapes` of `specs/Escapes` is
//! what it writes.

ghost use Rattle.std.specs.Prelude.{◌≡◌, ◌+◌, ◌<◌, ◌≤◌, ◌++◌, ◌↔◌, ℕ, List, false, length, take};
ghost use Rattle.std.specs.{Prelude.{slice_index, IsTrue, All}, Bool.{OnTrue, OnFalse}};
ghost use Rattle.assuan_text.specs.{declared.TheConstants.MAX_LINE_LEN, LineEnds.has_lf};
ghost use Rattle.assuan_escape.specs.Escapes.{is_escaped, escape_of, escapes, unescaped};

use assuan_text::Text;
use percent_encoding::percent_encode_byte;

/// Appends the escapes of as many first bytes as fit whole, and says how many bytes that are.
/// Escaped are `%`, CR, LF and the bytes from 128 on, as `%` and two uppercase digits.
pub fn escape_into(bytes: &[u8], out: &mut Text) -> usize
    ensures within { result ≤ length bytes.now }
    ensures written { out.new.items ≡ out.old.items ++ escapes (take result bytes.now) }
    ensures fits { length out.old.items ≤ MAX_LINE_LEN → length out.new.items ≤ MAX_LINE_LEN }

    // It stops only where the next escape doesn't fit, so no more bytes would have fitted.
    ensures stops { result < length bytes.now
        → MAX_LINE_LEN < length out.new.items + length (escape_of (slice_index bytes.now result)) }
    ensures greatest { (count : ℕ) → count ≤ length bytes.now
        → length out.old.items + length (escapes (take count bytes.now)) ≤ MAX_LINE_LEN
        → count ≤ result }

    // What is appended holds no line feed.
    ensures one_line { has_lf out.old.items ≡ false → has_lf out.new.items ≡ false }
{
    for (count, &byte) in bytes.iter().enumerate() {
        if !push_escape(byte, out) {
            return count;
        }
    }
    bytes.len()
}

/// Appends the escape of one byte, if it fits whole.
#[tactic(auto, unfolding(percent_encoding::specs::Percent::percent_encode_byte))]
fn push_escape(byte: u8, out: &mut Text) -> bool
    ensures fits { IsTrue result ↔ (length out.old.items + length (escape_of byte) ≤ MAX_LINE_LEN) }
    ensures written { OnTrue result (out.new.items ≡ out.old.items ++ escape_of byte) }
    ensures refused { OnFalse result (out.new.items ≡ out.old.items) }
{
    if is_escaped(byte) {
        let escape = percent_encode_byte(byte);
        out.try_extend_from_slice(escape.as_bytes()).is_ok()
    } else {
        out.try_push(byte).is_ok()
    }
}

/// Whether the byte is sent as an escape.
fn is_escaped(byte: u8) -> bool
    ensures { result ≡ is_escaped byte }
{
    matches!(byte, b'%' | b'\r' | b'\n' | 128..)
}

/// A law: the escapes of any bytes are read as these bytes.
pub fn escapes_are_undone()
    ensures { (bytes : List ℕ) → All (λ byte. byte < 256) bytes
        → unescaped false (escapes bytes) ≡ bytes }
{}
