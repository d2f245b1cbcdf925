//! S-expressions in memory: atoms, and lists of any depth. They work on their own memory, and are
//! dropped without a call for each level. Begin with `Sexp`; contracts see a `Tree` by `tree_of`
//! (`specs/View`), as definitions of keys do.

ghost use Rattle.std.specs.Prelude.{◌≡◌, ◌<◌, [], ◌∷◌, ◌++◌, IfOk, vec_len, vec_capacity};
ghost use Rattle.sexp_canonical.specs.{Tree.{list_of, items}, Dropping.drop_steps};
ghost use Rattle.sexp_canonical.specs.View.{tree_of, trees};

use crate::bytes::Bytes;
use std::alloc::{AllocError, Global};
use std::marker::Model;

/// An S-expression: an atom, or a list of expressions of any depth.
#[cycle(sexp)]
#[derive(Drop)]
pub enum Sexp {
    /// Its bytes.
    Atom(Bytes),
    /// Its items.
    List(Items),
}

/// The items of a list. Contracts see them as a list of trees.
#[cycle(sexp)]
pub struct Items(pub Vec<Sexp>);

impl Model for Items {
    ghost use Rattle.std.specs.Prelude.{List};
    ghost use Rattle.sexp_canonical.specs.{Tree.{Tree, node_count}, TreeCode.trees_code};

    ghost Value = { List Tree };

    ghost coded = { trees_code };

    ghost use Rattle.sexp_canonical.specs.View.{trees};

    ghost view = { λ items. trees items.0.items };

    ghost size = { node_count };

    ghost use Rattle.sexp_canonical.specs.ViewFalls.{depth_le_node_count};

    ghost size_decreases = { λ items _. depth_le_node_count items.0.items };
}

impl Items {
    /// The items, in their order.
    pub fn as_slice(&self) -> &[Sexp]
        ensures { trees result.now ≡ self.now }
    {
        self.0.as_slice()
    }

    /// The vector that holds the items. It takes no memory.
    pub fn into_vec(self) -> Vec<Sexp>
        ensures { trees result.items ≡ self }
    {
        let Items(items) = self;
        items
    }
}

// A derived drop would call itself once for each level, and a tree of many levels would run out of
// stack.
impl Drop for Items {
    fn drop(self) {
        let mut left = self.into_vec();
        while let Some(tree) = left.pop() {
            match tree {
                Sexp::Atom(_bytes) => {}
                Sexp::List(items) => left = joined(left, items.into_vec()),
            }
        }
        left.destroy_empty();
    }
}

// One vector that holds what both hold, in places that they have: the outer items go into a list
// before the inner ones.
fn joined(mut outer: Vec<Sexp>, mut inner: Vec<Sexp>) -> Vec<Sexp>
    requires { vec_len outer < vec_capacity outer }
    ensures { drop_steps (trees result.items)
        < drop_steps (trees outer.items ++ list_of (trees inner.items) ∷ []) }
{
    if outer.is_empty() {
        outer.destroy_empty();
        return inner;
    }
    let Some(last) = inner.pop() else {
        inner.destroy_empty();
        return outer;
    };
    outer.push_reserved(last);
    inner.insert(0, Sexp::list(outer)).unwrap();
    inner
}

/// Takes no memory.
impl From<Vec<Sexp>> for Items {
    ghost from_gives = { λ items result. result ≡ trees items.items };

    fn from(items: Vec<Sexp>) -> Items {
        Items(items)
    }
}

impl Sexp {
    /// An atom of a copy of these bytes.
    pub fn atom(alloc: Global, bytes: &[u8]) -> Result<Sexp, AllocError>
        ensures { IfOk result (λ tree. tree ≡ Sexp.Atom bytes.now) }
    {
        Ok(Sexp::Atom(Bytes(Vec::from_slice(alloc, bytes)?)))
    }

    /// A list of these items. It takes no memory.
    pub fn list(items: Vec<Sexp>) -> Sexp
        ensures { result ≡ Sexp.List (trees items.items) }
    {
        Sexp::List(Items(items))
    }

    /// The items of a list, and none of an atom.
    pub fn items(&self) -> &[Sexp]
        ensures { trees result.now ≡ items (tree_of self.now) }
    {
        match self {
            Sexp::Atom(_) => &[],
            Sexp::List(items) => items.as_slice(),
        }
    }
}
