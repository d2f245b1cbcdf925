//! Keys under a session's wrapping key: padded to whole blocks and wrapped by RFC 3394, and read
//! back. It computes, in memory that is overwritten. Begin with `wrapped_key` and `unwrapped_key`;
//! `specs/Wrapping` says what they give.

ghost use Rattle.std.specs.Prelude.{◌≡◌, ◌==◌, ◌≤◌, ◌⊎◌, ◌↔◌, length, IfOk, IfErr, IfSome, IfNone};
ghost use Rattle.std.specs.{Prelude.{IsTrue, OnOk}, List.list_all};
ghost use Rattle.sexp_canonical.specs.Spelling.{most_bytes, most_depth, depth};
ghost use Rattle.sexp_canonical.specs.declared.tree.Sexp.{Sexp as Expression};
ghost use Rattle.sexp_keys.specs.{Key.key_tree, Lists.key_list_of};
ghost use Rattle.key_commands.specs.Wrapping.{zero_padded, wrapped_key, ArePadded, PlainSays};
ghost use Rattle.key_commands.specs.{Wrapping.WrappedSays, Steps.are_padding};
ghost use Rattle.key_commands.specs.declared.wrapping.TheConstants.{MAX_LIST_LEN};

use crate::faults::fault_code;
use assuan_server::Code;
use key_wrap::{WrapFault, unwrap, wrap};
use sexp_canonical::{Bytes, Sexp, SexpFault, read};
use sexp_keys::KeyList;
use std::alloc::{AllocError, Global};

/// How many bytes a key's list may have that is written to a file: so the file stays within the
/// bytes that are read.
pub const MAX_LIST_LEN: usize = 65_000;

/// How many bytes a block of the wrapping has.
const BLOCK_LEN: usize = 8;

/// A clear key as EXPORT_KEY sends it: its whole list with zero bytes to a whole block, wrapped.
/// What was clear is overwritten.
pub(crate) fn wrapped_key(
    alloc: Global,
    wrapping: &[u8; 16],
    key: &KeyList,
) -> Result<Vec<u8>, AllocError>
    requires clear { IsTrue key.now.is_clear }
    requires short { length (key_list_of key.now) ≤ most_bytes }
    ensures { IfOk result (λ bytes. bytes.items ≡ wrapped_key wrapping.now key.now) }
{
    let mut list = Bytes::from(key.private_list(alloc)?);
    pad(&mut list)?;
    wrap(alloc, wrapping, list.as_slice())
}

/// Adds the fewest zero bytes that fill the last block.
fn pad(list: &mut Bytes) -> Result<(), AllocError>
    ensures { OnOk result (list.new ≡ zero_padded list.old) }
{
    let zeros = [0; BLOCK_LEN];
    let count = (BLOCK_LEN - list.as_slice().len() % BLOCK_LEN) % BLOCK_LEN;
    list.extend_from_slice(&zeros[..count])
}

/// The clear key that IMPORT_KEY was sent, or the code by which it is refused. What was clear is
/// overwritten.
pub(crate) fn unwrapped_key(
    alloc: Global,
    wrapping: &[u8; 16],
    wrapped: &[u8],
) -> Result<KeyList, Code>
    ensures key { IfOk result (λ key. WrappedSays wrapping.now wrapped.now (Ok key)) }

    // Only a lack of memory may come at any time.
    ensures fault { IfErr result
        (λ code. (code ≡ Code.NoMemory) ⊎ WrappedSays wrapping.now wrapped.now (Err code)) }
{
    let plain = match unwrap(alloc, wrapping, wrapped) {
        Ok(plain) => Bytes::from(plain),
        Err(WrapFault::NoMemory) => return Err(Code::NoMemory),
        Err(WrapFault::Length) => return Err(Code::Checksum),
        Err(WrapFault::Check) => return Err(Code::Checksum),
    };
    plain_key(alloc, plain.as_slice())
}

/// The clear key that bytes are, with zero bytes behind it.
fn plain_key(alloc: Global, plain: &[u8]) -> Result<KeyList, Code>
    ensures key { IfOk result (λ key. PlainSays plain.now (Ok key)) }
    ensures fault { IfErr result (λ code. (code ≡ Code.NoMemory) ⊎ PlainSays plain.now (Err code)) }
{
    let Some(tree) = padded_tree(alloc, plain)? else {
        return Err(Code::InvSexp);
    };
    let key = match KeyList::of(alloc, &tree) {
        Ok(key) => key,
        Err(fault) => return Err(fault_code(fault)),
    };
    if !key.is_clear() {
        return Err(Code::BadSecKey);
    }
    if !has_short_list(&key) {
        return Err(Code::BadSecKey);
    }
    Ok(key)
}

/// The expression that bytes are, with up to 7 zero bytes behind it. `Err` is a lack of memory.
fn padded_tree(alloc: Global, plain: &[u8]) -> Result<Option<Sexp>, Code>
    ensures found { IfOk result (λ found. IfSome found (ArePadded plain.now)) }
    ensures none { IfOk result
        (λ found. IfNone found ((tree : Expression) → ArePadded plain.now tree → ⊥)) }
    ensures fault { IfErr result (λ code. code ≡ Code.NoMemory) }
{
    let (tree, len) = match read(alloc, plain) {
        Ok(read) => read,
        Err(SexpFault::NoMemory) => return Err(Code::NoMemory),
        Err(_) => return Ok(None),
    };
    let (_, behind) = plain.split_at(len);
    if are_padding(behind) {
        Ok(Some(tree))
    } else {
        Ok(None)
    }
}

/// Whether these are zero bytes, and fewer than a block.
fn are_padding(bytes: &[u8]) -> bool
    ensures { result ≡ are_padding bytes.now }
{
    bytes.len() < BLOCK_LEN && are_zeros(bytes)
}

fn are_zeros(bytes: &[u8]) -> bool
    ensures { result ≡ list_all (λ byte. byte == 0) bytes.now }
{
    bytes.iter().all(|byte| *byte == 0)
}

/// Whether the whole list of a key within the limits of one that is read is short enough to be
/// written to a file.
pub(crate) fn has_short_list(key: &KeyList) -> bool
    requires { depth (key_tree key.now) ≤ most_depth }
    ensures { IsTrue result ↔ (length (key_list_of key.now) ≤ MAX_LIST_LEN) }
{
    match key.list_len() {
        Some(len) => len <= MAX_LIST_LEN,
        None => false,
    }
}
