//! One sign of the advanced form at a time: a parenthesis, or an atom in any of its four spellings.
//! It takes memory for the atom's bytes, which are overwritten. Begin with `sign_at`; `IsAt` of
//! `specs/Signs` says which sign stands where.

ghost use Rattle.std.specs.Prelude.{◌≡◌, ◌⊎◌, IfOk, IfErr};
ghost use Rattle.sexp_advanced.specs.Bytes.{class_of, is_token_byte, front_of, without_front};
ghost use Rattle.sexp_advanced.specs.Signs.{sign, IsAt, IsDelimited, IsVerbatim};
ghost use Rattle.sexp_advanced.specs.Steps.{HasNoSign, verbatim_fault_at};
ghost use Rattle.sexp_advanced.specs.declared.fault.AdvFault.{AdvFault};

use crate::bytes::{Class, after_token, class_of};
use crate::fault::AdvFault;
use crate::pieces::{Form, Piece, piece_at};
use sexp_canonical::{Bytes, Sexp, SexpFault, read};
use std::alloc::{AllocError, Global};

/// An item of a text: a mark of a list, or an atom.
#[derive(Drop)]
pub enum Sign {
    /// `(`, which opens a list.
    Open,
    /// `)`, which closes one.
    Close,
    /// The bytes of an atom.
    Atom(Bytes),
}

/// The sign at the front of a text that begins with no blank, and the text behind it. The place is
/// for faults.
pub fn sign_at(alloc: Global, place: usize, text: &[u8]) -> Result<(Sign, &[u8]), AdvFault>
    ensures found { IfOk result (λ read. IsAt text.now (sign read.0 read.1.now)) }
    ensures fault { IfErr result
        (λ fault. (fault ≡ AdvFault.NoMemory) ⊎ HasNoSign (IsAt text.now) place fault) }
{
    let Some((byte, more)) = text.split_first() else {
        return Err(AdvFault::Short);
    };
    match class_of(*byte) {
        Class::Opens => Ok((Sign::Open, more)),
        Class::Closes => Ok((Sign::Close, more)),
        Class::Hexadecimal => delimited_at(alloc, Form::Hexadecimal, place, more),
        Class::Quoted => delimited_at(alloc, Form::Quoted, place, more),
        Class::Verbatim => verbatim_at(alloc, place, text),
        Class::Token => Ok(token_at(alloc, text)?),
        Class::Nothing => Err(AdvFault::BadByte(place)),
    }
}

// The token at the front.
fn token_at(alloc: Global, text: &[u8]) -> Result<(Sign, &[u8]), AllocError>
    ensures { IfOk result (λ read. (read.0 ≡ Sign.Atom (front_of is_token_byte text.now))
        × (read.1.now ≡ without_front is_token_byte text.now)) }
{
    let rest = after_token(text);
    let token = &text[..text.len() - rest.len()];
    let mut bytes = Bytes::new(alloc);
    bytes.extend_from_slice(token)?;
    Ok((Sign::Atom(bytes), rest))
}

// The atom whose first mark stands before the text.
fn delimited_at(
    alloc: Global,
    form: Form,
    place: usize,
    text: &[u8],
) -> Result<(Sign, &[u8]), AdvFault>
    ensures found { IfOk result (λ read. IsDelimited form text.now (sign read.0 read.1.now)) }
    ensures fault { IfErr result
        (λ fault. (fault ≡ AdvFault.NoMemory) ⊎ HasNoSign (IsDelimited form text.now) place fault) }
{
    let mut bytes = Bytes::new(alloc);
    let mut rest = text;
    loop {
        match piece_at(form, rest) {
            Piece::Byte(byte, more) => {
                bytes.extend_from_slice(&[byte])?;
                rest = more;
            }
            Piece::Close(more) => return Ok((Sign::Atom(bytes), more)),
            Piece::Broken => return Err(AdvFault::BadAtom(place)),
            Piece::Cut => return Err(AdvFault::Short),
        }
    }
}

// The canonical atom at the front, where a digit stands.
fn verbatim_at(alloc: Global, place: usize, text: &[u8]) -> Result<(Sign, &[u8]), AdvFault>
    ensures found { IfOk result (λ read. IsVerbatim text.now (sign read.0 read.1.now)) }
    ensures fault { IfErr result
        (λ fault. (fault ≡ AdvFault.NoMemory) ⊎ HasNoSign (IsVerbatim text.now) place fault) }
{
    let (tree, end) = match read(alloc, text) {
        Ok(found) => found,
        Err(fault) => return Err(verbatim_fault(place, fault)),
    };
    match tree {
        Sexp::Atom(bytes) => Ok((Sign::Atom(bytes), &text[end..])),
        Sexp::List(_items) => Err(AdvFault::BadAtom(place)),
    }
}

fn verbatim_fault(place: usize, fault: SexpFault) -> AdvFault
    ensures { result ≡ verbatim_fault_at place fault }
{
    match fault {
        SexpFault::NoMemory => AdvFault::NoMemory,
        SexpFault::Short => AdvFault::Short,
        SexpFault::BadByte(_) | SexpFault::BadLength(_) | SexpFault::Deep(_) => AdvFault::BadAtom(
            place,
        ),
    }
}
