//! How good a passphrase is: the check of a new one, and the number that a pinentry's quality bar
//! shows. The rules are those of gpg-agent's options `--min-passphrase-len` and
//! `--min-passphrase-nonalpha`; the number is this project's own.
//!
//! Begin with [`meets`] and [`quality`]. Both are exactly what their clauses say, which need no
//! definitions.
#![tactic(auto)]

ghost use Rattle.std.specs.Prelude.{◌≡◌, ◌≤◌, ◌*◌, ◌↔◌, IsTrue, not, length, count_by, min, pos};
ghost use Rattle.std.specs.Char.{is_ascii_alphabetic};

/// Whether a passphrase has at least `min_len` bytes, and at least `min_nonalpha` that are no ASCII
/// letters.
pub fn meets(pass: &[u8], min_len: u8, min_nonalpha: u8) -> bool
    ensures { IsTrue result ↔ ((min_len ≤ length pass.now)
        × (min_nonalpha ≤ count_by (λ byte. not (is_ascii_alphabetic byte)) pass.now)) }
{
    let others = pass
        .iter()
        .filter(|byte| !byte.is_ascii_alphabetic())
        .count();
    pass.len() >= usize::from(min_len) && others >= usize::from(min_nonalpha)
}

/// How good a text would be as a passphrase, from 0 to 100: ten for each byte.
pub fn quality(text: &[u8]) -> i8
    ensures { result ≡ pos (min 100 (10 * length text.now)) }
{
    if text.len() < 10 {
        10 * text.len() as i8
    } else {
        100
    }
}

#[cfg(test)]
mod tests;
