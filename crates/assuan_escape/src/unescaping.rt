//! The percent escapes, read, and with `plus` a blank for each `+`, as arguments of commands have
//! them. Pure, without memory. Begin with `unescape`, and with `unescaped` of `specs/Escapes`,
//! which it is.

ghost use Rattle.std.specs.Prelude.{◌≡◌, ◌≤◌, length};
ghost use Rattle.percent_encoding.specs.Percent.{percent_decode};
ghost use Rattle.assuan_text.specs.declared.TheConstants.{MAX_LINE_LEN};
ghost use Rattle.assuan_escape.specs.Escapes.{unescaped, with_blanks};

use assuan_text::Text;
use percent_encoding::percent_decode;

/// The bytes that were meant by these. `%` and two hexadecimal digits of either case are a byte,
/// and any other `%` stands for itself. A `+` is a blank where `plus`.
pub fn unescape(bytes: &[u8], plus: bool) -> Text
    requires { length bytes.now ≤ MAX_LINE_LEN }
    ensures meant { result.items ≡ unescaped plus bytes.now }
    ensures shorter { length result.items ≤ length bytes.now }
{
    if plus {
        decoded(&with_blanks(bytes))
    } else {
        decoded(bytes)
    }
}

/// The bytes, with a blank for each `+`.
fn with_blanks(bytes: &[u8]) -> Text
    requires { length bytes.now ≤ MAX_LINE_LEN }
    ensures { result.items ≡ with_blanks bytes.now }
{
    let mut text = Text::new();
    for &byte in bytes {
        text.push(if byte == b'+' { b' ' } else { byte });
    }
    text
}

/// The bytes, with each escape as its byte.
fn decoded(bytes: &[u8]) -> Text
    requires { length bytes.now ≤ MAX_LINE_LEN }
    ensures meant { result.items ≡ percent_decode bytes.now }
    ensures shorter { length result.items ≤ length bytes.now }
{
    let mut text = Text::new();
    for byte in percent_decode(bytes) {
        text.push(byte);
    }
    text
}
