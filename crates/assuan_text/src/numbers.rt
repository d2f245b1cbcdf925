//! Decimal numbers as options and error lines have them: 1 to 10 digits, zeros in front counted.
//! Pure. `number_of` of `specs/Numbers` says the same.

ghost use Rattle.std.specs.Prelude.{◌≡◌};
ghost use Rattle.assuan_text.specs.Numbers.{number_of};

/// The number that a value of 1 to 10 decimal digits is.
pub fn number_of(value: &[u8]) -> Option<u64>
    ensures { result ≡ number_of value.now }
{
    if value.is_empty() || value.len() > 10 {
        return None;
    }
    let mut number: u64 = 0;
    for &byte in value {
        if !byte.is_ascii_digit() {
            return None;
        }
        number = 10 * number + u64::from(byte - b'0');
    }
    Some(number)
}
