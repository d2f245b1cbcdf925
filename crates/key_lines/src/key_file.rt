//! A key file in the extended format, read, and written with another key. It takes memory for the
//! key and the bytes around its item, and touches no file. Begin with `read_lines` and
//! `KeyLines::with_key`; `IsKeyFile` and `with_key` of `specs/KeyFile` say what they give.

ghost use Rattle.std.specs.Prelude.{◌≡◌, ◌⊎◌, ◌≤◌, false, ℕ, List, ◌∷◌, ◌++◌, codes, length, Some};
ghost use Rattle.std.specs.Prelude.{Result, IfOk, IfErr};
ghost use Rattle.sexp_canonical.specs.View.{tree_of};
ghost use Rattle.sexp_canonical.specs.Spelling.{most_bytes, most_depth, spelling_of, depth};
ghost use Rattle.key_lines.specs.KeyFile.{KeyFile, IsKeyFile, IsFault, Answers, with_key};
ghost use Rattle.key_lines.specs.Canon.{is_canonical, Canon};
ghost use Rattle.key_lines.specs.declared.fault.LinesFault.{LinesFault};

use crate::checking::check_lines;
use crate::fault::LinesFault;
use crate::item::{cut_at_key, item_at};
use crate::key_text::key_in;
use sexp_advanced::write_advanced;
use sexp_canonical::{Bytes, Sexp};
use std::alloc::{AllocError, Global};
use std::marker::Model;

/// A key file in the extended format: its key, and the bytes around the lines of the key's item.
/// All are overwritten when it is dropped, and it is neither cloned nor printed.
#[derive(Drop)]
pub struct KeyLines {
    before: Bytes,
    tree: Sexp,
    after: Bytes,
}

impl Model for KeyLines {
    ghost use Rattle.key_lines.specs.{KeyFile.KeyFile, Codes.key_code};

    ghost Value = { KeyFile };

    ghost coded = { key_code };

    ghost view = { λ k. record { before = k.before; tree = k.tree; after = k.after } };
}

/// Reads a key file in the extended format, of any length. A file whose first byte is `(` isn't in
/// it.
pub fn read_lines(alloc: Global, file: &[u8]) -> Result<KeyLines, LinesFault>
    // The key of the file, and the bytes around its item.
    ensures found { IfOk result (IsKeyFile file.now) }

    // Else the fault is the first one. Only a lack of memory may come at any time.
    ensures fault { IfErr result (λ fault. (fault ≡ LinesFault.NoMemory) ⊎ IsFault file.now fault) }

    // What the file says is the answer: no fault hides a key, and no later fault an earlier one.
    // This follows from the first two by the law `one_answer`, and stands here for callers.
    ensures only { (answer : Result KeyFile LinesFault) → Answers file.now answer
        → (result ≡ Err LinesFault.NoMemory) ⊎ (result ≡ answer) }
{
    read_file(alloc, file)
}

fn read_file(alloc: Global, file: &[u8]) -> Result<KeyLines, LinesFault>
    ensures found { IfOk result (IsKeyFile file.now) }
    ensures fault { IfErr result (λ fault. (fault ≡ LinesFault.NoMemory) ⊎ IsFault file.now fault) }
{
    check_lines(file)?;
    let Some((before, from)) = cut_at_key(file) else {
        return Err(LinesFault::NoKey);
    };
    let (value, after) = item_at(alloc, from)?;
    let tree = key_in(alloc, value.as_slice())?;
    Ok(KeyLines {
        before: copy_of(alloc, before)?,
        tree,
        after: copy_of(alloc, after)?,
    })
}

fn copy_of(alloc: Global, bytes: &[u8]) -> Result<Bytes, AllocError>
    ensures { IfOk result (λ copy. copy ≡ bytes.now) }
{
    let mut copy = Bytes::new(alloc);
    copy.extend_from_slice(bytes)?;
    Ok(copy)
}

impl KeyLines {
    /// The key.
    pub fn tree(&self) -> &Sexp
        ensures { result.now ≡ self.now.tree }
    {
        &self.tree
    }

    /// The file with another key: in place of the lines of its item stands `Key: `, the key in the
    /// advanced form, and LF. Every other byte is the same.
    pub fn with_key(&self, alloc: Global, tree: &Sexp) -> Result<Vec<u8>, AllocError>
        ensures file { IfOk result (λ file. file.items ≡ with_key self.now tree.now) }

        // Read again, it has this key between the same bytes, where the key is within the limits.
        ensures again { IfOk result
            (λ new. (file : List ℕ) → IsKeyFile file self.now → depth (tree_of tree.now)
            ≤ most_depth → length (spelling_of tree.now) ≤ most_bytes → IsKeyFile new.items
            (record { before = self.now.before; tree = tree.now; after = self.now.after })) }

        // So it stands for the canonical spelling of this key.
        ensures canon { IfOk result
            (λ new. (file : List ℕ) → is_canonical file ≡ false → IsKeyFile file self.now
            → depth (tree_of tree.now) ≤ most_depth → length (spelling_of tree.now) ≤ most_bytes
            → Canon new.items (Some (spelling_of tree.now))) }
    {
        let text = Bytes::from(write_advanced(alloc, tree)?);
        self.with_text(alloc, text.as_slice())
    }

    // The file with this text as the value of its key.
    fn with_text(&self, alloc: Global, text: &[u8]) -> Result<Vec<u8>, AllocError>
        ensures { IfOk result (λ file.
            file.items ≡ self.now.before ++ codes "Key: " ++ text.now ++ 10 ∷ self.now.after) }
    {
        let mut file = Bytes::new(alloc);
        file.extend_from_slice(self.before.as_slice())?;
        file.extend_from_slice(b"Key: ")?;
        file.extend_from_slice(text)?;
        file.extend_from_slice(b"\n")?;
        file.extend_from_slice(self.after.as_slice())?;
        Ok(file.into_vec())
    }
}
