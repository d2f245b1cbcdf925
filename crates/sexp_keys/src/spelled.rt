//! The lists of a key, as it is named, sent, hashed and kept in files. Each takes memory for its
//! text alone. Begin with `KeyList::public_list` and `KeyList::grip`; `specs/Lists` says what each
//! list is.

ghost use Rattle.std.specs.Prelude.{◌≡◌, ◌<◌, ◌≤◌, ◌∷◌, ◌++◌, length, IfOk, IfNone, IfSome, OnOk};
ghost use Rattle.std.specs.{Prelude.IsTrue, Option.option_copied, List.flat_map};
ghost use Rattle.sexp_canonical.specs.{Tree.{leaf, list_of}, View.trees};
ghost use Rattle.sexp_canonical.specs.Spelling.{most_bytes, most_depth, depth, spelling};
ghost use Rattle.sexp_keys.specs.Names.{form_name};
ghost use Rattle.sexp_keys.specs.Key.{IsFormed, algorithm_list, key_tree, protected_with};
ghost use Rattle.sexp_keys.specs.Lists.{public_list_of, key_list_of, grip_of, timed_list_of};
ghost use Rattle.sexp_keys.specs.Lists.{hashed_list_of, associated_list_of, time_lists};

use crate::algorithm::Algorithm;
use crate::key_list::KeyList;
use crate::parameters::PROTECTED_AT;
use agent_ports::Grip;
use sexp_canonical::{Bytes, Sexp, append_all, append_atom, atom_len, items_len};
use sha1::Sha1;
use std::alloc::{AllocError, Global};

/// The parentheses of a key's list and of its algorithm's within it.
const PARENTHESES: usize = 4;

impl KeyList {
    /// Whether its secret parameters are clear.
    pub fn is_clear(&self) -> bool
        ensures clear { result ≡ self.now.is_clear }
        ensures formed { IsFormed self.now }
    {
        self.is_clear
    }

    /// The algorithm that it belongs to.
    pub fn algorithm(&self) -> Algorithm
        ensures { result ≡ self.now.algorithm }
    {
        self.algorithm
    }

    /// The secret parameters of a clear key, in order. Of a protected one the list `protected`, and
    /// the time of the protection behind it where it has one.
    pub fn private(&self) -> &[Sexp]
        ensures { trees result.now ≡ self.now.private }
    {
        self.private.as_slice()
    }

    /// `(public-key (alg public..))`, by which a key is named.
    pub fn public_list(&self, alloc: Global) -> Result<Vec<u8>, AllocError>
        ensures { IfOk result (λ text. text.items ≡ public_list_of self.now) }
    {
        let mut text = Bytes::new(alloc);
        append_key(&mut text, b"public-key", self, &[], &[])?;
        Ok(text.into_vec())
    }

    /// `(private-key (alg public.. secret..) further..)`, the whole clear key.
    pub fn private_list(&self, alloc: Global) -> Result<Vec<u8>, AllocError>
        requires { IsTrue self.now.is_clear }
        ensures list { IfOk result (λ text. text.items ≡ key_list_of self.now) }

        // It has the two blocks at least that a key wrap takes.
        ensures long { IfOk result (λ text. 16 ≤ length text.items) }
    {
        self.whole_list(alloc)
    }

    /// The whole key, clear or protected, as it stands in a file.
    pub fn whole_list(&self, alloc: Global) -> Result<Vec<u8>, AllocError>
        ensures { IfOk result (λ text. text.items ≡ key_list_of self.now) }
    {
        let mut text = Bytes::new(alloc);
        append_key(
            &mut text,
            form_name(self.is_clear),
            self,
            self.private.as_slice(),
            self.further.as_slice(),
        )?;
        Ok(text.into_vec())
    }

    /// How many bytes the whole key has as it stands in a file, where its parts are within the
    /// limits of an expression that is read. Its list isn't written for that, and no memory is
    /// taken.
    pub fn list_len(&self) -> Option<usize>
        ensures len { IfSome result (λ len. len ≡ length (key_list_of self.now)) }

        // A key that is shallow enough is too long where that isn't known.
        ensures long { IfNone result
            (depth (key_tree self.now) ≤ most_depth → most_bytes < length (key_list_of self.now)) }
    {
        let names = atom_len(form_name(self.is_clear)) + atom_len(self.algorithm.name());
        let public = items_len(self.public.as_slice())?;
        let private = items_len(self.private.as_slice())?;
        let further = items_len(self.further.as_slice())?;
        Some(names + public + private + further + PARENTHESES)
    }

    /// The whole key with these lists in place of its secret parameters, as a protected key stands
    /// in a file.
    pub fn protected_list(&self, alloc: Global, protection: &[Sexp]) -> Result<Vec<u8>, AllocError>
        ensures { IfOk result
            (λ text. text.items ≡ key_list_of (protected_with self.now (trees protection.now))) }
    {
        let mut text = Bytes::new(alloc);
        append_key(
            &mut text,
            form_name(false),
            self,
            protection,
            self.further.as_slice(),
        )?;
        Ok(text.into_vec())
    }

    /// The grip of the key: the SHA-1 of its public list.
    pub fn grip(&self, alloc: Global) -> Result<Grip, AllocError>
        ensures { IfOk result (λ grip. grip.0 ≡ grip_of self.now) }
    {
        let text = self.public_list(alloc)?;
        Ok(Grip(Sha1::digest(&text)))
    }

    /// `(alg public.. secret..)` of a clear key, with `(protected-at time)` last where there is a
    /// time: what the digest in a protected key is made of.
    pub fn hashed_list(&self, alloc: Global, time: Option<&[u8]>) -> Result<Vec<u8>, AllocError>
        requires { IsTrue self.now.is_clear }
        ensures { IfOk result
            (λ text. text.items ≡ hashed_list_of self.now (option_copied time.entry)) }
    {
        self.timed_list(alloc, self.private.as_slice(), time)
    }

    /// `(alg public..)`, with `(protected-at time)` last where there is a time: what is
    /// authenticated beside the secret parameters of a protected key.
    pub fn associated_list(&self, alloc: Global, time: Option<&[u8]>) -> Result<Vec<u8>, AllocError>
        ensures { IfOk result
            (λ text. text.items ≡ associated_list_of self.now (option_copied time.entry)) }
    {
        self.timed_list(alloc, &[], time)
    }

    fn timed_list(
        &self,
        alloc: Global,
        behind: &[Sexp],
        time: Option<&[u8]>,
    ) -> Result<Vec<u8>, AllocError>
        ensures { IfOk result (λ text. text.items ≡ timed_list_of self.now (trees behind.now)
            (option_copied time.entry)) }
    {
        let mut text = Bytes::new(alloc);
        append_algorithm(&mut text, self, behind, time)?;
        Ok(text.into_vec())
    }
}

fn form_name(is_clear: bool) -> &'static [u8]
    ensures { result.now ≡ form_name is_clear }
{
    if is_clear {
        b"private-key"
    } else {
        b"protected-private-key"
    }
}

// `(name (alg public.. behind..) further..)`
fn append_key(
    text: &mut Bytes,
    name: &[u8],
    key: &KeyList,
    behind: &[Sexp],
    further: &[Sexp],
) -> Result<(), AllocError>
    ensures { OnOk result (text.new ≡ text.old ++ spelling
        (list_of (leaf name.now ∷ algorithm_list key.now (trees behind.now) ∷ trees further.now))) }
{
    text.extend_from_slice(b"(")?;
    append_atom(text, name)?;
    append_algorithm(text, key, behind, None)?;
    append_all(text, further)?;
    text.extend_from_slice(b")")?;
    Ok(())
}

// `(alg public.. behind.. (protected-at time))`
fn append_algorithm(
    text: &mut Bytes,
    key: &KeyList,
    behind: &[Sexp],
    time: Option<&[u8]>,
) -> Result<(), AllocError>
    ensures { OnOk result (text.new ≡ text.old ++ spelling (algorithm_list key.now
        (trees behind.now ++ time_lists (option_copied time.entry)))) }
{
    text.extend_from_slice(b"(")?;
    append_atom(text, key.algorithm.name())?;
    append_all(text, key.public.as_slice())?;
    append_all(text, behind)?;
    append_time(text, time)?;
    text.extend_from_slice(b")")?;
    Ok(())
}

fn append_time(text: &mut Bytes, time: Option<&[u8]>) -> Result<(), AllocError>
    ensures { OnOk result
        (text.new ≡ text.old ++ flat_map spelling (time_lists (option_copied time.entry))) }
{
    let Some(time) = time else {
        return Ok(());
    };
    text.extend_from_slice(b"(")?;
    append_atom(text, PROTECTED_AT)?;
    append_atom(text, time)?;
    text.extend_from_slice(b")")?;
    Ok(())
}
