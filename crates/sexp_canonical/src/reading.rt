//! Reading the canonical form, with the open lists on a stack in memory. It takes memory for the
//! expression and those lists alone. Begin with `read`; `ReadsCanonical` of `specs/Reading` has
//! both its answers, an expression and a fault.

ghost use Rattle.std.specs.Prelude.{◌≡◌, ◌⊎◌, ◌+◌, ◌-◌, ◌*◌, ◌++◌, ◌<◌, ◌≤◌, ℕ, List, length, take};
ghost use Rattle.std.specs.Prelude.{drop, Result, IfOk, IfErr, MatchOption};
ghost use Rattle.sexp_canonical.specs.Reading.{ReadsCanonical, IsFirstSexpFault, IsLengthFault};
ghost use Rattle.sexp_canonical.specs.Spelling.{IsReadable, most_bytes, spelling_of};
ghost use Rattle.sexp_canonical.specs.{View.tree_of, Adding.{AddsTree, lists_of}};
ghost use Rattle.sexp_canonical.specs.Steps.{IsDigit, HasLength, HasAtom, HasExpression};
ghost use Rattle.sexp_canonical.specs.declared.{tree.Sexp.Sexp, fault.SexpFault.SexpFault};

use crate::fault::SexpFault;
use crate::tree::Sexp;
use crate::{MAX_BYTES, MAX_DEPTH};
use std::alloc::{AllocError, Global};

/// Reads the canonical expression at the front of the bytes, and gives how many bytes it has. What
/// follows it isn't looked at: whoever wants the whole text compares the length. An expression has
/// at most 65,536 bytes, and at most 64 lists are open at one place of it.
pub fn read(alloc: Global, bytes: &[u8]) -> Result<(Sexp, usize), SexpFault>
    // The first bytes spell the expression, within the limits.
    ensures found { IfOk result
        (λ read. (read.1 ≤ length bytes.now) × IsReadable (take read.1 bytes.now) read.0) }

    // Else the fault is the first one from the left of the bytes that are looked at. Only a lack of
    // memory may come at any time.
    ensures fault { IfErr result
        (λ fault. (fault ≡ SexpFault.NoMemory)
        ⊎ IsFirstSexpFault (take most_bytes bytes.now) fault) }

    // What the bytes say is the answer: no fault hides an expression, and no later fault an earlier
    // one. This and the next clause follow from the first two by the law `one_answer`, and stand
    // here for callers.
    ensures only { (answer : Result (Sexp × ℕ) SexpFault) → ReadsCanonical bytes.now answer
        → (result ≡ Err SexpFault.NoMemory) ⊎ (result ≡ answer) }

    // What is spelled within the limits is read, with anything after it.
    ensures again { (tree : Sexp) (more : List ℕ)
        → IsReadable (spelling_of tree) tree → bytes.now ≡ spelling_of tree ++ more
        → (result ≡ Err SexpFault.NoMemory) ⊎ (result ≡ Ok (tree, length (spelling_of tree))) }
{
    read_front(alloc, &bytes[..bytes.len().min(MAX_BYTES)])
}

// Reads the expression at the front of a text that is all looked at.
fn read_front(alloc: Global, text: &[u8]) -> Result<(Sexp, usize), SexpFault>
    ensures found { IfOk result (HasExpression text.now) }
    ensures fault { IfErr result
        (λ fault. (fault ≡ SexpFault.NoMemory) ⊎ IsFirstSexpFault text.now fault) }
{
    let mut lists: Vec<Vec<Sexp>> = Vec::new(alloc);
    let mut place = 0;
    while place < text.len() {
        match text[place] {
            b'(' => {
                if lists.len() == MAX_DEPTH {
                    return Err(SexpFault::Deep(place));
                }
                lists.push(Vec::new(alloc))?;
                place += 1;
            }
            b')' => {
                let Some(items) = lists.pop() else {
                    return Err(SexpFault::BadByte(place));
                };
                place += 1;
                if let Some(tree) = add(&mut lists, Sexp::list(items))? {
                    return Ok((tree, place));
                }
            }
            b'0'..=b'9' => {
                let (atom, end) = atom_at(alloc, text, place)?;
                place = end;
                if let Some(tree) = add(&mut lists, atom)? {
                    return Ok((tree, place));
                }
            }
            _ => return Err(SexpFault::BadByte(place)),
        }
    }
    Err(SexpFault::Short)
}

// Adds a finished expression to the innermost open list. Where none is open it is the whole, and
// comes back.
fn add(lists: &mut Vec<Vec<Sexp>>, tree: Sexp) -> Result<Option<Sexp>, AllocError>
    ensures { IfOk result
        (AddsTree (lists_of lists.old.items) (lists_of lists.new.items) (tree_of tree)) }
{
    let Some(items) = lists.last_mut() else {
        return Ok(Some(tree));
    };
    items.push(tree)?;
    Ok(None)
}

// Reads the atom whose length begins at a place, and gives the place behind it too.
fn atom_at(alloc: Global, text: &[u8], place: usize) -> Result<(Sexp, usize), SexpFault>
    requires { IsDigit text.now place }
    ensures found { IfOk result (HasAtom text.now place) }
    ensures fault { IfErr result
        (λ fault. (fault ≡ SexpFault.NoMemory) ⊎ IsLengthFault place (drop place text.now) fault) }
{
    let (count, start) = length_at(text, place)?;
    if text.len() - start < count {
        return Err(SexpFault::Short);
    }
    let end = start + count;
    Ok((Sexp::atom(alloc, &text[start..end])?, end))
}

// Reads the length that begins at a place, and gives the place behind its colon too.
fn length_at(text: &[u8], place: usize) -> Result<(usize, usize), SexpFault>
    requires { IsDigit text.now place }
    ensures found { IfOk result (HasLength text.now place) }
    ensures fault { IfErr result (IsLengthFault place (drop place text.now)) }
{
    let mut count = usize::from(text[place] - b'0');
    for end in place + 1..text.len() {
        match text[end] {
            b':' => return Ok((count, end + 1)),
            digit @ b'0'..=b'9' => {
                let Some(more) = with_digit(count, digit) else {
                    return Err(SexpFault::BadLength(place));
                };
                count = more;
            }
            _ => return Err(SexpFault::BadByte(end)),
        }
    }
    Err(SexpFault::Short)
}

// The length with one more digit, where that is canonical and within the limit.
fn with_digit(count: usize, digit: u8) -> Option<usize>
    requires { (count ≤ most_bytes) × (48 ≤ digit) × (digit ≤ 57) }
    ensures { MatchOption result ((count ≡ 0) ⊎ (most_bytes < 10 * count + (digit - 48)))
        (λ more. (0 < count) × (more ≡ 10 * count + (digit - 48)) × (more ≤ most_bytes)) }
{
    if count == 0 {
        return None;
    }
    let more = 10 * count + usize::from(digit - b'0');
    (more <= MAX_BYTES).then_some(more)
}
