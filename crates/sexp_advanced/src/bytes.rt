//! The bytes of the advanced form by their kinds: blanks, bytes of tokens, hexadecimal digits, and
//! what an item may begin with. Pure. Begin with `class_of`; each function is its namesake in
//! `specs/Bytes`.

ghost use Rattle.std.specs.Prelude.{◌≡◌, ◌<◌, IfSome};
ghost use Rattle.sexp_advanced.specs.Bytes.{is_space_byte, is_token_mark, is_token_start};
ghost use Rattle.sexp_advanced.specs.Bytes.{is_token_byte, hex_value, without_front, class_of};
ghost use Rattle.sexp_advanced.specs.declared.bytes.Class.{Class};

/// What a byte begins, where an item may begin.
#[derive(Clone, Copy)]
pub enum Class {
    /// A list: `(`.
    Opens,
    /// The end of a list: `)`.
    Closes,
    /// A hexadecimal atom: `#`.
    Hexadecimal,
    /// A quoted text: `"`.
    Quoted,
    /// A canonical atom, by the first digit of its length.
    Verbatim,
    /// A token, by its first byte.
    Token,
    /// No item.
    Nothing,
}

/// Space, tab, LF or CR.
#[tactic(auto, unfolding(crate::specs::Bytes::is_space_byte))]
pub fn is_space_byte(byte: u8) -> bool
    ensures { result ≡ is_space_byte byte }
{
    byte == b' ' || byte == b'\t' || byte == b'\n' || byte == b'\r'
}

/// A letter, or one of `-./_:*+=`.
#[tactic(auto, unfolding(crate::specs::Bytes::is_token_start))]
pub fn is_token_start(byte: u8) -> bool
    ensures { result ≡ is_token_start byte }
{
    byte.is_ascii_alphabetic() || is_token_mark(byte)
}

#[tactic(auto, unfolding(crate::specs::Bytes::is_token_mark))]
fn is_token_mark(byte: u8) -> bool
    ensures { result ≡ is_token_mark byte }
{
    byte == b'-'
        || byte == b'.'
        || byte == b'/'
        || byte == b'_'
        || byte == b':'
        || byte == b'*'
        || byte == b'+'
        || byte == b'='
}

/// A byte that may begin a token, or a digit.
#[tactic(auto, unfolding(crate::specs::Bytes::is_token_byte))]
pub fn is_token_byte(byte: u8) -> bool
    ensures { result ≡ is_token_byte byte }
{
    is_token_start(byte) || byte.is_ascii_digit()
}

/// The value of a hexadecimal digit of either case.
#[tactic(auto, unfolding(crate::specs::Bytes::hex_value))]
pub fn hex_value(byte: u8) -> Option<u8>
    ensures value { result ≡ hex_value byte }
    ensures small { IfSome result (λ v. v < 16) }
{
    match byte {
        b'0'..=b'9' => Some(byte - b'0'),
        b'A'..=b'F' => Some(byte - b'A' + 10),
        b'a'..=b'f' => Some(byte - b'a' + 10),
        _ => None,
    }
}

/// The class of a byte; a blank is of none.
#[tactic(auto, unfolding(crate::specs::Bytes::class_of))]
pub fn class_of(byte: u8) -> Class
    ensures { result ≡ class_of byte }
{
    if byte == b'(' {
        Class::Opens
    } else if byte == b')' {
        Class::Closes
    } else if byte == b'#' {
        Class::Hexadecimal
    } else if byte == b'"' {
        Class::Quoted
    } else if byte.is_ascii_digit() {
        Class::Verbatim
    } else if is_token_start(byte) {
        Class::Token
    } else {
        Class::Nothing
    }
}

/// The text without the blanks at its front.
pub fn after_blanks(text: &[u8]) -> &[u8]
    ensures { result.now ≡ without_front is_space_byte text.now }
{
    let mut rest = text;
    while let Some((byte, others)) = rest.split_first() {
        if !is_space_byte(*byte) {
            return rest;
        }
        rest = others;
    }
    rest
}

/// The text without the bytes of a token at its front.
pub fn after_token(text: &[u8]) -> &[u8]
    ensures { result.now ≡ without_front is_token_byte text.now }
{
    let mut rest = text;
    while let Some((byte, others)) = rest.split_first() {
        if !is_token_byte(*byte) {
            return rest;
        }
        rest = others;
    }
    rest
}
