//! The key that the value of its item is: one advanced expression with blanks around it, not too
//! long for a canonical file. It takes memory for the expression alone. Begin with `key_in`;
//! `IsKeyText` of `specs/KeyText` says what it reads.

ghost use Rattle.std.specs.Prelude.{◌≡◌, ◌⊎◌, ◌+◌, ◌≤◌, length, drop, Result, IfOk, IfErr};
ghost use Rattle.std.specs.List.{prefix_len};
ghost use Rattle.assuan_text.specs.Blanks.{is_blank};
ghost use Rattle.sexp_canonical.specs.{Spelling.{most_bytes, spelling_of}, declared.tree.Sexp.Sexp};
ghost use Rattle.sexp_advanced.specs.declared.fault.AdvFault.{AdvFault};
ghost use Rattle.key_lines.specs.KeyText.{IsWholeExpression, IsTextFault, IsKeyText, IsKeyFault};
ghost use Rattle.key_lines.specs.declared.fault.LinesFault.{LinesFault};

use crate::fault::LinesFault;
use assuan_text::is_blank;
use sexp_advanced::{AdvFault, read_advanced};
use sexp_canonical::{Sexp, spelled_len};
use std::alloc::Global;

/// The key that the value of its item is.
pub(crate) fn key_in(alloc: Global, value: &[u8]) -> Result<Sexp, LinesFault>
    ensures found { IfOk result (IsKeyText value.now) }
    ensures fault { IfErr result
        (λ fault. (fault ≡ LinesFault.NoMemory) ⊎ IsKeyFault value.now fault) }
{
    match expression_in(alloc, value) {
        Ok(tree) => {
            if spelled_len(&tree).is_some() {
                Ok(tree)
            } else {
                Err(LinesFault::TooLong)
            }
        }
        Err(AdvFault::NoMemory) => Err(LinesFault::NoMemory),
        Err(fault) => Err(LinesFault::BadKey(fault)),
    }
}

// The expression that the value is, with blanks around it.
fn expression_in(alloc: Global, value: &[u8]) -> Result<Sexp, AdvFault>
    ensures found { IfOk result (IsWholeExpression value.now) }
    ensures fault { IfErr result
        (λ fault. (fault ≡ AdvFault.NoMemory) ⊎ IsTextFault value.now fault) }
{
    let (tree, len) = read_advanced(alloc, value)?;
    let behind = &value[len..];
    let blanks = blanks_len(behind);
    if blanks < behind.len() {
        return Err(AdvFault::BadByte(len + blanks));
    }
    Ok(tree)
}

// How many blanks and tabs stand at the front.
fn blanks_len(text: &[u8]) -> usize
    ensures value { result ≡ prefix_len is_blank text.now }
    ensures within { result ≤ length text.now }
{
    text.iter().take_while(|byte| is_blank(**byte)).count()
}
