//! What key files say, and how they are written over: the one place that knows their formats
//! (GnuPG's agent/keyformat.txt). Pure but for the memory that it takes. Begin with `file_key` and
//! `rewrite`; `FileSays` and `Rewrites` (`specs/Files`) define them.

ghost use Rattle.std.specs.Prelude.{◌≡◌, ◌≤◌, ◌⊎◌, false, length, Some, Ok, Err, IfOk, IfErr};
ghost use Rattle.std.specs.Prelude.{IfSome};
ghost use Rattle.key_lines.specs.{Canon.{is_canonical, Canon}, KeyFile.IsKeyFile};
ghost use Rattle.secret_file.specs.Opens.{FitsFile};
ghost use Rattle.sexp_canonical.specs.Spelling.{IsReadable, most_bytes};
ghost use Rattle.sexp_keys.specs.declared.fault.KeyFault.{KeyFault};
ghost use Rattle.key_commands.specs.Files.{FileSays, IsSomeKey, IsSomeList, IsWithList, Rewrites};
ghost use Rattle.key_commands.specs.Steps.{DoesAlone};

use assuan_server::Code;
use key_lines::{KeyLines, LinesFault, read_lines};
use secret_file::key_of;
use session_client::Refusal;
use sexp_canonical::{Bytes, MAX_BYTES, Sexp, SexpFault, read};
use sexp_keys::{KeyFault, KeyList};
use std::alloc::Global;

/// Whether a file is canonical, and not in the extended format.
fn is_canonical(file: &[u8]) -> bool
    ensures { result ≡ is_canonical file.now }
{
    file.first() == Some(&b'(')
}

/// The key, clear or protected, that the bytes of a key's file are.
pub(crate) fn file_key(alloc: Global, file: &[u8]) -> Result<KeyList, KeyFault>
    ensures key { IfOk result (λ key. FileSays file.now (Ok key)) }

    // Else the fault is the first one. Only a lack of memory may come at any time.
    ensures fault { IfErr result
        (λ fault. (fault ≡ KeyFault.NoMemory) ⊎ FileSays file.now (Err fault)) }
    ensures fits { IfOk result FitsFile }
{
    if is_canonical(file) {
        key_of(alloc, file)
    } else {
        extended_key(alloc, file)
    }
}

/// The key that a file in the extended format has.
fn extended_key(alloc: Global, file: &[u8]) -> Result<KeyList, KeyFault>
    requires { is_canonical file.now ≡ false }
    ensures key { IfOk result (λ key. FileSays file.now (Ok key)) }
    ensures fault { IfErr result
        (λ fault. (fault ≡ KeyFault.NoMemory) ⊎ FileSays file.now (Err fault)) }
    ensures fits { IfOk result FitsFile }
{
    match read_lines(alloc, file) {
        Ok(lines) => KeyList::of(alloc, lines.tree()),
        Err(fault) => match fault {
            LinesFault::NoMemory => Err(KeyFault::NoMemory),
            _ => Err(KeyFault::InvSexp),
        },
    }
}

/// What stands in a key's file once a key's canonical list is written over it: in a canonical file
/// that list, and in an extended one the key between the lines that stand around the old one.
pub(crate) fn rewrite(alloc: Global, file: &[u8], list: Bytes) -> Result<Bytes, Refusal>
    requires file { IsSomeKey file.now }
    requires list { IsSomeList list }
    ensures rewrites { DoesAlone (Rewrites file.now list) result }

    // It stands for the list, and it is no longer than files may be.
    ensures canon { IfOk result (λ new. Canon new (Some list)) }
    ensures short { IfOk result (λ new. length new ≤ most_bytes) }
{
    if is_canonical(file) {
        return Ok(list);
    }
    let Some(new) = with_list(alloc, file, list.as_slice()) else {
        return Err(Refusal::Agent(Code::NoMemory));
    };
    if new.as_slice().len() > MAX_BYTES {
        return Err(Refusal::Agent(Code::BadSecKey));
    }
    Ok(new)
}

/// A file in the extended format with the key of this list in place of its own. `None` is a lack of
/// memory.
fn with_list(alloc: Global, file: &[u8], list: &[u8]) -> Option<Bytes>
    requires extended { is_canonical file.now ≡ false }
    requires file { IsSomeKey file.now }
    requires list { IsSomeList list.now }
    ensures new { IfSome result (λ new. IsWithList file.now list.now new) }
    ensures canon { IfSome result (λ new. Canon new (Some list.now)) }
{
    let lines = lines_of(alloc, file)?;
    let tree = list_tree(alloc, list)?;
    let new = lines.with_key(alloc, &tree).ok()?;
    Some(Bytes::from(new))
}

/// The key of an extended file, and what stands around it. `None` is a lack of memory.
fn lines_of(alloc: Global, file: &[u8]) -> Option<KeyLines>
    requires extended { is_canonical file.now ≡ false }
    requires file { IsSomeKey file.now }
    ensures { IfSome result (IsKeyFile file.now) }
{
    match read_lines(alloc, file) {
        Ok(lines) => Some(lines),
        Err(fault) => {
            prove!(matches!(&fault, LinesFault::NoMemory));
            None
        }
    }
}

/// The expression that a key's list is. `None` is a lack of memory.
fn list_tree(alloc: Global, list: &[u8]) -> Option<Sexp>
    requires { IsSomeList list.now }
    ensures { IfSome result (IsReadable list.now) }
{
    match read(alloc, list) {
        Ok((tree, _)) => Some(tree),
        Err(fault) => {
            prove!(matches!(&fault, SexpFault::NoMemory));
            None
        }
    }
}
