//! Bytes as uppercase hexadecimal digits in a line, as passphrases, nonces and grips are sent.
//! Pure, without memory; the result isn't overwritten when it is dropped. The clauses of
//! `upper_hex` say all of it.

ghost use Rattle.std.specs.Prelude.{◌≡◌, ◌≤◌, ◌*◌, false, length};
ghost use Rattle.assuan_text.specs.{LineEnds.has_lf, declared.TheConstants.MAX_LINE_LEN};
ghost use Rattle.assuan_escape.specs.Escapes.{hex_text};

use assuan_text::Text;
use percent_encoding::percent_encode_byte;

/// Each byte as two uppercase hexadecimal digits.
#[tactic(auto, unfolding(percent_encoding::specs::Percent::percent_encode_byte))]
pub fn upper_hex(bytes: &[u8]) -> Text
    requires { 2 * length bytes.now ≤ MAX_LINE_LEN }
    ensures digits { result.items ≡ hex_text bytes.now }
    ensures length { length result.items ≡ 2 * length bytes.now }
    ensures one_line { has_lf result.items ≡ false }
{
    let mut text = Text::new();
    for &byte in bytes {
        // An escape is `%` and the two digits.
        let escape = percent_encode_byte(byte).as_bytes();
        text.try_extend_from_slice(&escape[1..]).unwrap();
    }
    text
}
