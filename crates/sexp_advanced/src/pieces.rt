//! Atoms between two marks, taken apart byte by byte: hexadecimal digits, or a quoted text with its
//! escapes. Pure, over slices. Begin with `piece_at`, and with its namesake in `specs/Pieces`; the
//! standard's own words for these atoms are in `specs/Grammar`.

ghost use Rattle.std.specs.{Prelude.{◌≡◌, ◌<◌, ◌≤◌, ◌⊎◌, MatchBool}, Int.is_in_range};
ghost use Rattle.sexp_advanced.specs.Pieces.{low_digit, pair, hex_escape, second_octal};
ghost use Rattle.sexp_advanced.specs.Pieces.{third_octal, letter, escape, quoted_piece, piece_at};
ghost use Rattle.sexp_advanced.specs.Pieces.{piece_of};

use crate::bytes::{after_blanks, hex_value};

/// How an atom between two marks is written.
#[derive(Clone, Copy)]
pub enum Form {
    /// In hexadecimal digits between two `#`.
    Hexadecimal,
    /// As a text between two `"`, with escapes.
    Quoted,
}

/// What stands at a place within such an atom.
#[derive(Clone, Copy)]
pub enum Piece<'a> {
    /// A byte, and what is behind it.
    Byte(u8, &'a [u8]),
    /// The closing mark, and what is behind it.
    Close(&'a [u8]),
    /// What breaks the form.
    Broken,
    /// The end of the text, before the closing mark.
    Cut,
}

/// The piece at the front of this text, which lies within such an atom.
pub fn piece_at(form: Form, text: &[u8]) -> Piece<'_>
    ensures { piece_of result ≡ piece_at form text.now }
{
    match form {
        Form::Hexadecimal => pair(text),
        Form::Quoted => quoted_piece(text),
    }
}

#[tactic(auto, unfolding(crate::specs::Pieces::pair, crate::specs::Pieces::pair_here))]
fn pair(text: &[u8]) -> Piece<'_>
    ensures { piece_of result ≡ pair text.now }
{
    let Some((byte, more)) = after_blanks(text).split_first() else {
        return Piece::Cut;
    };
    if *byte == b'#' {
        return Piece::Close(more);
    }
    match hex_value(*byte) {
        Some(high) => low_digit(high, after_blanks(more)),
        None => Piece::Broken,
    }
}

#[tactic(auto, unfolding(crate::specs::Pieces::low_digit))]
fn low_digit(high: u8, text: &[u8]) -> Piece<'_>
    requires { high < 16 }
    ensures { piece_of result ≡ low_digit high text.now }
{
    let Some((byte, more)) = text.split_first() else {
        return Piece::Cut;
    };
    match hex_value(*byte) {
        Some(low) => Piece::Byte(16 * high + low, more),
        None => Piece::Broken,
    }
}

#[tactic(auto, unfolding(crate::specs::Pieces::quoted_piece))]
fn quoted_piece(text: &[u8]) -> Piece<'_>
    ensures { piece_of result ≡ quoted_piece text.now }
{
    let Some((byte, more)) = text.split_first() else {
        return Piece::Cut;
    };
    if *byte == b'"' {
        return Piece::Close(more);
    }
    if *byte == b'\\' {
        return escape(more);
    }
    if *byte == b'\n' || *byte == b'\r' {
        return Piece::Broken;
    }
    Piece::Byte(*byte, more)
}

#[tactic(auto, unfolding(crate::specs::Pieces::escape))]
fn escape(text: &[u8]) -> Piece<'_>
    ensures { piece_of result ≡ escape text.now }
{
    let Some((byte, more)) = text.split_first() else {
        return Piece::Cut;
    };
    if *byte == b'x' {
        return hex_escape(more);
    }
    if is_in_range(b'0', b'3', *byte) {
        return second_octal(*byte - b'0', more);
    }
    match letter(*byte) {
        Some(meant) => Piece::Byte(meant, more),
        None => Piece::Broken,
    }
}

#[tactic(auto, unfolding(crate::specs::Pieces::hex_escape))]
fn hex_escape(text: &[u8]) -> Piece<'_>
    ensures { piece_of result ≡ hex_escape text.now }
{
    let Some((byte, more)) = text.split_first() else {
        return Piece::Cut;
    };
    match hex_value(*byte) {
        Some(high) => low_digit(high, more),
        None => Piece::Broken,
    }
}

#[tactic(auto, unfolding(crate::specs::Pieces::second_octal))]
fn second_octal(first: u8, text: &[u8]) -> Piece<'_>
    requires { first < 4 }
    ensures { piece_of result ≡ second_octal first text.now }
{
    let Some((byte, more)) = text.split_first() else {
        return Piece::Cut;
    };
    if !is_in_range(b'0', b'7', *byte) {
        return Piece::Broken;
    }
    third_octal(first, *byte - b'0', more)
}

#[tactic(auto, unfolding(crate::specs::Pieces::third_octal))]
fn third_octal(first: u8, second: u8, text: &[u8]) -> Piece<'_>
    requires { (first < 4) × (second < 8) }
    ensures { piece_of result ≡ third_octal first second text.now }
{
    let Some((byte, more)) = text.split_first() else {
        return Piece::Cut;
    };
    if !is_in_range(b'0', b'7', *byte) {
        return Piece::Broken;
    }
    Piece::Byte(64 * first + 8 * second + (*byte - b'0'), more)
}

fn is_in_range(low: u8, high: u8, byte: u8) -> bool
    ensures value { result ≡ is_in_range low high byte }
    ensures cases { MatchBool result ((low ≤ byte) × (byte ≤ high)) ((byte < low) ⊎ (high < byte)) }
{
    low <= byte && byte <= high
}

#[tactic(auto, unfolding(crate::specs::Pieces::letter))]
fn letter(byte: u8) -> Option<u8>
    ensures { result ≡ letter byte }
{
    if byte == b'b' {
        Some(8)
    } else if byte == b't' {
        Some(9)
    } else if byte == b'v' {
        Some(11)
    } else if byte == b'n' {
        Some(10)
    } else if byte == b'f' {
        Some(12)
    } else if byte == b'r' {
        Some(13)
    } else if byte == b'"' || byte == b'\'' || byte == b'\\' {
        Some(byte)
    } else {
        None
    }
}
