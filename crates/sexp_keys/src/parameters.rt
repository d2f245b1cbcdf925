//! The parameters of a key, and the lists of a protected one. Pure, over slices of the expression.
//! Begin with `parts_of`; most functions are their namesakes in `specs/Parameters`, and `AreParts`
//! stands in `specs/Named`.

ghost use Rattle.std.specs.{Prelude.{◌≡◌, List, map, IfSome, IfNone}, List.list_all};
ghost use Rattle.sexp_canonical.specs.{Tree.Tree, View.{tree_of, trees}};
ghost use Rattle.sexp_keys.specs.Named.{ends_with_time, private_count, AreParts};
ghost use Rattle.sexp_keys.specs.Parameters.{is_atom, is_list, has_name, is_parameter};
ghost use Rattle.sexp_keys.specs.Parameters.{is_parameter_len, is_named, are_named};
ghost use Rattle.sexp_keys.specs.Parameters.{is_curve_parameter, are_public, are_secret, is_time};
ghost use Rattle.sexp_keys.specs.Parameters.{are_protection, are_private};

use crate::algorithm::Algorithm;
use sexp_canonical::Sexp;

/// The name of the list that holds a protected key.
pub(crate) const PROTECTED: &[u8] = b"protected";

/// The name of the list that holds the time of a protection.
pub(crate) const PROTECTED_AT: &[u8] = b"protected-at";

fn is_atom(tree: &Sexp) -> bool
    ensures { result ≡ is_atom (tree_of tree.now) }
{
    matches!(tree, Sexp::Atom(_))
}

fn are_atoms(lists: &[Sexp]) -> bool
    ensures { result ≡ list_all (λ tree. is_atom (tree_of tree)) lists.now }
{
    lists.iter().all(is_atom)
}

/// Whether each of these is a list.
pub(crate) fn are_lists(lists: &[Sexp]) -> bool
    ensures { result ≡ list_all (λ tree. is_list (tree_of tree)) lists.now }
{
    lists.iter().all(|tree| !is_atom(tree))
}

/// Whether a list begins with this atom.
pub(crate) fn has_name(name: &[u8], tree: &Sexp) -> bool
    ensures { result ≡ has_name name.now (tree_of tree.now) }
{
    match tree.items() {
        [Sexp::Atom(first), ..] => first.as_slice() == name,
        _ => false,
    }
}

fn is_parameter_len(algorithm: Algorithm, len: usize) -> bool
    ensures { result ≡ is_parameter_len algorithm len }
{
    match algorithm {
        Algorithm::Ecc => len >= 2,
        Algorithm::Rsa | Algorithm::Dsa | Algorithm::Elg => len == 2,
    }
}

fn is_parameter(algorithm: Algorithm, tree: &Sexp) -> bool
    ensures { result ≡ is_parameter algorithm (tree_of tree.now) }
{
    let items = tree.items();
    is_parameter_len(algorithm, items.len()) && are_atoms(items)
}

// The names are at most four.
fn are_named(algorithm: Algorithm, names: &[&[u8]], lists: &[Sexp]) -> bool
    ensures { result ≡ are_named algorithm (map (λ name. name.now) names.now) (trees lists.now) }
{
    let Some((name, more_names)) = names.split_first() else {
        return lists.is_empty();
    };
    let Some((first, others)) = lists.split_first() else {
        return false;
    };
    is_parameter(algorithm, first)
        && has_name(name, first)
        && are_named(algorithm, more_names, others)
}

fn is_curve_parameter(tree: &Sexp) -> bool
    ensures { result ≡ is_curve_parameter (tree_of tree.now) }
{
    is_parameter(Algorithm::Ecc, tree)
        && !(has_name(b"d", tree) || has_name(PROTECTED, tree) || has_name(PROTECTED_AT, tree))
}

fn are_curve_parameters(lists: &[Sexp]) -> bool
    ensures { result ≡ list_all (λ tree. is_curve_parameter (tree_of tree)) lists.now }
{
    lists.iter().all(is_curve_parameter)
}

// Whether these are the public parameters of the algorithm.
fn are_public(algorithm: Algorithm, lists: &[Sexp]) -> bool
    ensures { result ≡ are_public algorithm (trees lists.now) }
{
    match algorithm {
        Algorithm::Ecc => !lists.is_empty() && are_curve_parameters(lists),
        Algorithm::Rsa | Algorithm::Dsa | Algorithm::Elg => {
            are_named(algorithm, algorithm.public_names(), lists)
        }
    }
}

/// Whether these are the secret parameters of the algorithm.
pub(crate) fn are_secret(algorithm: Algorithm, lists: &[Sexp]) -> bool
    ensures { result ≡ are_secret algorithm (trees lists.now) }
{
    are_named(algorithm, algorithm.secret_names(), lists)
}

// Whether these are the parameters behind the public ones.
fn are_private(is_clear: bool, algorithm: Algorithm, lists: &[Sexp]) -> bool
    ensures { result ≡ are_private is_clear algorithm (trees lists.now) }
{
    if is_clear {
        are_secret(algorithm, lists)
    } else {
        are_protection(lists)
    }
}

// How many of the parameters stand behind the public ones.
fn private_count(is_clear: bool, algorithm: Algorithm, lists: &[Sexp]) -> usize
    ensures { result ≡ private_count is_clear algorithm (trees lists.now) }
{
    if is_clear {
        algorithm.secret_names().len()
    } else if ends_with_time(lists) {
        2
    } else {
        1
    }
}

fn ends_with_time(lists: &[Sexp]) -> bool
    ensures { result ≡ ends_with_time (trees lists.now) }
{
    match lists.split_last() {
        Some((last, _)) => has_name(PROTECTED_AT, last),
        None => false,
    }
}

/// The public parameters, and those behind them.
pub(crate) fn parts_of(
    is_clear: bool,
    algorithm: Algorithm,
    parameters: &[Sexp],
) -> Option<(&[Sexp], &[Sexp])>
    ensures found { IfSome result (λ parts. AreParts is_clear algorithm (trees parameters.now)
        (trees parts.0.now) (trees parts.1.now)) }
    ensures none { IfNone result ((public private : List Tree)
        → AreParts is_clear algorithm (trees parameters.now) public private → ⊥) }
{
    let count = private_count(is_clear, algorithm, parameters);
    if parameters.len() < count {
        return None;
    }
    let (public, private) = parameters.split_at(parameters.len() - count);
    if !are_public(algorithm, public) {
        return None;
    }
    if !are_private(is_clear, algorithm, private) {
        return None;
    }
    Some((public, private))
}

/// Whether this is the time of a protection.
pub(crate) fn is_time(tree: &Sexp) -> bool
    ensures { result ≡ is_time (tree_of tree.now) }
{
    is_parameter(Algorithm::Rsa, tree) && has_name(PROTECTED_AT, tree)
}

/// Whether these are the lists of a protected key.
pub(crate) fn are_protection(lists: &[Sexp]) -> bool
    ensures { result ≡ are_protection (trees lists.now) }
{
    match lists {
        [protection] => has_name(PROTECTED, protection),
        [protection, time] => has_name(PROTECTED, protection) && is_time(time),
        _ => false,
    }
}
