//! The name of a private key: its grip of 20 bytes, after which its file is named (GnuPG's notes on
//! the key format, keyformat.txt), and the 40 hexadecimal digits of that. Pure. Begin with
//! `Grip::of_hex`, which takes digits of either case, where `text` writes capitals.

ghost use Rattle.std.specs.{Prelude.{◌≡◌, ◌↔◌, length, IsSome, IfSome}, List.AllPass};
ghost use Rattle.hex.specs.Hex.{decode_of, encode_upper, is_hex_digit};

use hex::FromHex;

/// The name of a key: the SHA-1 of its public list.
#[derive(Clone, Copy, Debug, PartialEq, Eq, PartialOrd, Ord)]
pub struct Grip(pub [u8; 20]);

impl Grip {
    /// The grip of 40 hexadecimal digits, of either case.
    pub fn of_hex(text: &[u8]) -> Option<Grip>
        ensures value { IfSome result (λ grip. decode_of text.now ≡ Ok grip.0) }
        ensures found { IsSome result ↔ ((length text.now ≡ 40) × AllPass is_hex_digit text.now) }
    {
        <[u8; 20] as FromHex>::from_hex(text).ok().map(Grip)
    }

    /// The uppercase hexadecimal digits.
    pub fn text(&self) -> [u8; 40]
        ensures digits { result ≡ encode_upper self.now.0 }
        ensures again { decode_of result ≡ Ok self.now.0 }
    {
        digits_of(&self.0)
    }
}

fn digits_of(bytes: &[u8; 20]) -> [u8; 40]
    ensures digits { result ≡ encode_upper bytes.now }
    ensures again { decode_of result ≡ Ok bytes.now }
{
    let mut text = [0; 40];
    hex::encode_to_slice(bytes, &mut text).unwrap();
    text.as_mut_slice().make_ascii_uppercase();
    text
}
