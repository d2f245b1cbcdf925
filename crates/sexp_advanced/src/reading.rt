//! Reading the advanced form, sign by sign, with the open lists on a stack in memory. It takes
//! memory for the expression and those lists alone. Begin with `read_advanced`; `IsExpression` and
//! `IsFirstAdvFault` of `specs/Reading` say what it gives.

ghost use Rattle.std.specs.Prelude.{◌≡◌, ◌⊎◌, ◌≤◌, [], ◌++◌, ℕ, List, length, take, drop, Some};
ghost use Rattle.std.specs.Prelude.{Result, IfOk, IfErr};
ghost use Rattle.sexp_canonical.specs.{View.tree_of, Spelling.{most_depth, depth}};
ghost use Rattle.sexp_canonical.specs.{Adding.{AddsTree, lists_of}, declared.tree.Sexp.Sexp};
ghost use Rattle.sexp_advanced.specs.Bytes.{is_space_byte, without_front};
ghost use Rattle.sexp_advanced.specs.{Writing.{advanced_of, EndsToken}, Octets.IsOfOctets};
ghost use Rattle.sexp_advanced.specs.Reading.{ReadsAdvanced, IsExpression, IsFirstAdvFault};
ghost use Rattle.sexp_advanced.specs.{Reading.sign_fault, Steps.Adds};
ghost use Rattle.sexp_advanced.specs.declared.fault.AdvFault.{AdvFault};

use crate::bytes::after_blanks;
use crate::fault::AdvFault;
use crate::signs::{Sign, sign_at};
use sexp_canonical::{MAX_DEPTH, Sexp};
use std::alloc::{AllocError, Global};

/// Reads the expression in the advanced form at the front of the bytes, behind any blanks, and
/// gives how many bytes the blanks and it have. What follows isn't looked at but for the byte that
/// ends a token. At most 64 lists are open at one place.
pub fn read_advanced(alloc: Global, bytes: &[u8]) -> Result<(Sexp, usize), AdvFault>
    // The first bytes are the expression, within the limit.
    ensures found { IfOk result (λ read. IsExpression bytes.now read.0 read.1) }

    // Nothing behind it is looked at, but for a byte that goes on a token at its end.
    ensures behind { IfOk result
        (λ read. (more : List ℕ) → (EndsToken (drop read.1 bytes.now) → EndsToken more)
        → IsExpression (take read.1 bytes.now ++ more) read.0 read.1) }

    // Else the fault is the first one from the left. Only a lack of memory may come at any time.
    ensures fault { IfErr result
        (λ fault. (fault ≡ AdvFault.NoMemory) ⊎ IsFirstAdvFault bytes.now fault) }

    // What the bytes say is the answer: no fault hides an expression, and no later fault an earlier
    // one. This follows from the first two by the law `one_answer`, and stands here for callers.
    ensures only { (answer : Result (Sexp × ℕ) AdvFault) → ReadsAdvanced bytes.now answer
        → (result ≡ Err AdvFault.NoMemory) ⊎ (result ≡ answer) }

    // What is written within the limit is read, with any blanks before it, and anything behind it
    // that doesn't go on a token.
    ensures again { (tree : Sexp) (blanks more : List ℕ) → without_front is_space_byte blanks
        ≡ [] → IsOfOctets (tree_of tree) → depth (tree_of tree) ≤ most_depth → EndsToken more
        → bytes.now ≡ blanks ++ (advanced_of tree ++ more) → (result ≡ Err AdvFault.NoMemory)
        ⊎ (result ≡ Ok (tree, length (blanks ++ advanced_of tree))) }
{
    read_front(alloc, bytes)
}

fn read_front(alloc: Global, text: &[u8]) -> Result<(Sexp, usize), AdvFault>
    ensures found { IfOk result (λ read. IsExpression text.now read.0 read.1) }
    ensures fault { IfErr result
        (λ fault. (fault ≡ AdvFault.NoMemory) ⊎ IsFirstAdvFault text.now fault) }
{
    let mut lists: Vec<Vec<Sexp>> = Vec::new(alloc);
    let mut rest = text;
    loop {
        let item = after_blanks(rest);
        let place = text.len() - item.len();
        let (sign, more) = sign_at(alloc, place, item)?;
        if let Some(tree) = take_sign(alloc, &mut lists, place, sign)? {
            return Ok((tree, text.len() - more.len()));
        }
        rest = more;
    }
}

// Takes one sign more into the open lists. Where it ends the whole expression, that comes back.
fn take_sign(
    alloc: Global,
    lists: &mut Vec<Vec<Sexp>>,
    place: usize,
    sign: Sign,
) -> Result<Option<Sexp>, AdvFault>
    ensures taken { IfOk result (Adds (lists_of lists.old.items) (lists_of lists.new.items) sign) }
    ensures fault { IfErr result (λ fault. (fault ≡ AdvFault.NoMemory)
        ⊎ (sign_fault place (length (lists_of lists.old.items)) sign ≡ Some fault)) }
{
    match sign {
        Sign::Open => {
            if lists.len() == MAX_DEPTH {
                return Err(AdvFault::Deep(place));
            }
            lists.push(Vec::new(alloc))?;
            Ok(None)
        }
        Sign::Close => {
            let Some(items) = lists.pop() else {
                return Err(AdvFault::BadByte(place));
            };
            Ok(add(lists, Sexp::list(items))?)
        }
        Sign::Atom(bytes) => Ok(add(lists, Sexp::Atom(bytes))?),
    }
}

// Adds a finished expression to the innermost open list. Where none is open it is the whole, and
// comes back.
fn add(lists: &mut Vec<Vec<Sexp>>, tree: Sexp) -> Result<Option<Sexp>, AllocError>
    ensures { IfOk result
        (AddsTree (lists_of lists.old.items) (lists_of lists.new.items) (tree_of tree)) }
{
    let Some(items) = lists.last_mut() else {
        return Ok(Some(tree));
    };
    items.push(tree)?;
    Ok(None)
}
