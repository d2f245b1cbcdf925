//! The names of a key: of its form and of its algorithm. Pure, over slices of the expression. Begin
//! with `names_of`; `HasNames` of `specs/Named` says what it finds, and `named_fault` of
//! `specs/Faults` the fault.

ghost use Rattle.std.specs.Prelude.{◌≡◌, ◌∷◌, Some, IfOk, IfErr};
ghost use Rattle.sexp_canonical.specs.{Tree.leaf, View.{tree_of, trees}};
ghost use Rattle.sexp_keys.specs.Names.{algorithm_name, form_name};
ghost use Rattle.sexp_keys.specs.{Faults.{form_fault, name_fault, named_fault}, Named.HasNames};

use crate::algorithm::Algorithm;
use crate::fault::KeyFault;
use sexp_canonical::Sexp;

/// A key whose names are right.
#[derive(Clone, Copy)]
pub(crate) struct Named<'a> {
    pub(crate) is_clear: bool,
    pub(crate) algorithm: Algorithm,
    pub(crate) parameters: &'a [Sexp],
    pub(crate) further: &'a [Sexp],
}

/// The form, the algorithm, and what is behind their names.
pub(crate) fn names_of(tree: &Sexp) -> Result<Named<'_>, KeyFault>
    ensures found { IfOk result (λ named. HasNames (tree_of tree.now) named.is_clear named.algorithm
        (trees named.parameters.now) (trees named.further.now)) }
    ensures fault { IfErr result (λ fault. named_fault (tree_of tree.now) ≡ Some fault) }
{
    let (is_clear, others) = form_of(tree.items())?;
    let Some((second, further)) = others.split_first() else {
        return Err(KeyFault::BadSecKey);
    };
    let (algorithm, parameters) = algorithm_of(second.items())?;
    Ok(Named {
        is_clear,
        algorithm,
        parameters,
        further,
    })
}

// Whether the key is clear, and what is behind the name of its form.
fn form_of(items: &[Sexp]) -> Result<(bool, &[Sexp]), KeyFault>
    ensures found { IfOk result
        (λ form. trees items.now ≡ leaf (form_name form.0) ∷ trees form.1.now) }
    ensures fault { IfErr result (λ fault. form_fault (trees items.now) ≡ Some fault) }
{
    let Some((Sexp::Atom(name), others)) = items.split_first() else {
        return Err(KeyFault::InvSexp);
    };
    let name = name.as_slice();
    if name == b"private-key".as_slice() {
        Ok((true, others))
    } else if name == b"protected-private-key".as_slice() {
        Ok((false, others))
    } else if name == b"shadowed-private-key".as_slice() {
        Err(KeyFault::Shadowed)
    } else if name == b"openpgp-private-key".as_slice() {
        Err(KeyFault::NotSupported)
    } else {
        Err(KeyFault::InvSexp)
    }
}

// The algorithm, and what is behind its name.
fn algorithm_of(items: &[Sexp]) -> Result<(Algorithm, &[Sexp]), KeyFault>
    ensures found { IfOk result
        (λ found. trees items.now ≡ leaf (algorithm_name found.0) ∷ trees found.1.now) }
    ensures fault { IfErr result (λ fault. name_fault (trees items.now) ≡ Some fault) }
{
    let Some((Sexp::Atom(name), parameters)) = items.split_first() else {
        return Err(KeyFault::BadSecKey);
    };
    let Some(algorithm) = Algorithm::of(name.as_slice()) else {
        return Err(KeyFault::NotSupported);
    };
    Ok((algorithm, parameters))
}
