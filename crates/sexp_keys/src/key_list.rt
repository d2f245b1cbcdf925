//! A private key, read from its expression: algorithm, public and secret parameters, and what
//! follows. It takes memory for its copies of the lists, which are overwritten. Begin with
//! `KeyList::of`; `IsKey` of `specs/Key` says which key an expression is.

ghost use Rattle.std.specs.Prelude.{◌≡◌, ◌⊎◌, ◌↔◌, Result, IfOk, IfErr, IsSome, IfSome, IsTrue};
ghost use Rattle.sexp_canonical.specs.View.{tree_of, trees};
ghost use Rattle.sexp_keys.specs.{Key.{Key, IsKey, clear_with}, Parameters.are_secret};
ghost use Rattle.sexp_keys.specs.Faults.{ReadsKey, IsFirstKeyFault};
ghost use Rattle.sexp_keys.specs.declared.fault.KeyFault.{KeyFault};

use crate::algorithm::Algorithm;
use crate::fault::KeyFault;
use crate::names::names_of;
use crate::parameters::{are_lists, are_secret, parts_of};
use sexp_canonical::{Items, Sexp};
use std::alloc::{AllocError, Global};
use std::marker::Model;

/// A private key, clear or protected, with its parameters in the order of its algorithm. Its secret
/// parameters are overwritten when it is dropped, and it is neither cloned nor printed.
#[derive(Drop)]
pub struct KeyList {
    pub(crate) algorithm: Algorithm,
    pub(crate) is_clear: bool,
    pub(crate) public: Items,
    pub(crate) private: Items,
    pub(crate) further: Items,
}

impl Model for KeyList {
    ghost use Rattle.sexp_keys.specs.Key.{Key, key_code, IsFormed};

    ghost Value = { Key };

    ghost coded = { key_code };

    ghost view = { λ k. record {
      algorithm = k.algorithm;
      is_clear = k.is_clear;
      public = k.public;
      private = k.private;
      further = k.further;
    } };

    ghost invariant = { λ k. IsFormed (record {
      algorithm = k.algorithm;
      is_clear = k.is_clear;
      public = k.public;
      private = k.private;
      further = k.further;
    }) };
}

impl KeyList {
    /// Reads a private key.
    pub fn of(alloc: Global, tree: &Sexp) -> Result<KeyList, KeyFault>
        ensures found { IfOk result (IsKey (tree_of tree.now)) }

        // Else the fault is the first one. Only a lack of memory may come at any time.
        ensures fault { IfErr result
            (λ fault. (fault ≡ KeyFault.NoMemory) ⊎ IsFirstKeyFault (tree_of tree.now) fault) }

        // An expression has one answer, so no fault hides a key.
        ensures only { (answer : Result Key KeyFault) → ReadsKey (tree_of tree.now) answer
            → (result ≡ Err KeyFault.NoMemory) ⊎ (result ≡ answer) }
    {
        read_key(alloc, tree)
    }

    /// The clear key with these secret parameters, where they are those of its algorithm. Its other
    /// lists are copied.
    pub fn with_secret(&self, alloc: Global, secret: Items) -> Result<Option<KeyList>, AllocError>
        ensures found { IfOk result
            (λ found. IsSome found ↔ IsTrue (are_secret self.now.algorithm secret)) }
        ensures key { IfOk result
            (λ found. IfSome found (λ key. key ≡ clear_with self.now secret)) }
    {
        if !are_secret(self.algorithm, secret.as_slice()) {
            return Ok(None);
        }
        Ok(Some(KeyList {
            algorithm: self.algorithm,
            is_clear: true,
            public: copies_of(alloc, self.public.as_slice())?,
            private: secret,
            further: copies_of(alloc, self.further.as_slice())?,
        }))
    }
}

fn read_key(alloc: Global, tree: &Sexp) -> Result<KeyList, KeyFault>
    ensures found { IfOk result (IsKey (tree_of tree.now)) }
    ensures fault { IfErr result
        (λ fault. (fault ≡ KeyFault.NoMemory) ⊎ IsFirstKeyFault (tree_of tree.now) fault) }
{
    let named = names_of(tree)?;
    let Some((public, private)) = parts_of(named.is_clear, named.algorithm, named.parameters) else {
        return Err(KeyFault::BadSecKey);
    };
    if !are_lists(named.further) {
        return Err(KeyFault::BadSecKey);
    }
    Ok(KeyList {
        algorithm: named.algorithm,
        is_clear: named.is_clear,
        public: copies_of(alloc, public)?,
        private: copies_of(alloc, private)?,
        further: copies_of(alloc, named.further)?,
    })
}

fn copies_of(alloc: Global, lists: &[Sexp]) -> Result<Items, AllocError>
    ensures { IfOk result (λ items. items ≡ trees lists.now) }
{
    let mut copies = Vec::with_capacity(alloc, lists.len())?;
    for tree in lists {
        copies.push(tree.copy(alloc)?)?;
    }
    Ok(Items::from(copies))
}
