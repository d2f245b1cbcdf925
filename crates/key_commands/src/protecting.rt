//! A clear key's new file, and the passphrase that opens it (GnuPG's agent/keyformat.txt). It
//! computes; only the keeping of a passphrase takes a turn at the desk (cache handle). Begin with
//! `protected_key`; it is `Protects`, and the keeping `KeepsNew` (`specs/KeyActions`).

ghost use Rattle.std.specs.Prelude.{◌≡◌, ◌≤◌, length, take, drop, IfOk, OnOk};
ghost use Rattle.agent_ports.specs.declared.keys.TheConstants.{MAX_KEY_FILE_LEN};
ghost use Rattle.session_options.specs.Counts.{IsS2kCount};
ghost use Rattle.{sexp_canonical.specs.Spelling.{most_depth, depth}, sexp_keys.specs.Key.key_tree};
ghost use Rattle.sexp_keys.specs.Lists.{key_list_of};
ghost use Rattle.key_commands.specs.{Files.IsSomeList, KeyActions.{IsShort, Protects, KeepsNew}};
ghost use Rattle.key_commands.specs.{Steps.{DoesAlone, TakesTurns}, Trials.IsUsable};
ghost use Rattle.key_commands.specs.declared.wrapping.TheConstants.{MAX_LIST_LEN};

use crate::turns::keep_pass;
use crate::wrapping::has_short_list;
use agent_ask::{Held, close};
use agent_ports::Grip;
use assuan_server::Code;
use cache_policy::{Desk, Secret};
use secret_file::protect;
use session_client::Refusal;
use sexp_canonical::Bytes;
use sexp_keys::KeyList;
use std::alloc::Global;

/// Refuses a clear key that is too long to be protected.
pub(crate) fn check_len(key: &KeyList) -> Result<(), Refusal>
    requires { depth (key_tree key.now) ≤ most_depth }
    ensures short { DoesAlone (IsShort key.now) result }
    ensures within { OnOk result (length (key_list_of key.now) ≤ MAX_LIST_LEN) }
{
    if !has_short_list(key) {
        return Err(Refusal::Agent(Code::BadSecKey));
    }
    Ok(())
}

/// The file of a clear key that is protected by a passphrase, with this salt, initialization vector
/// and count.
pub(crate) fn protected_key(
    alloc: Global,
    key: &KeyList,
    pass: &Secret,
    salt: &[u8; 8],
    iv: &[u8; 12],
    count: u64,
) -> Result<Bytes, Refusal>
    requires usable { IsUsable key.now }
    requires short { length (key_list_of key.now) ≤ MAX_LIST_LEN }
    requires count { IsS2kCount count }
    ensures protects { DoesAlone (Protects key.now pass.now salt.now iv.now count) result }
    ensures list { IfOk result IsSomeList }
    ensures within { IfOk result (λ file. length file ≤ MAX_KEY_FILE_LEN) }
{
    match protect(alloc, key, pass.bytes(), salt, iv, count, None) {
        Ok(file) => Ok(Bytes::from(file)),
        Err(_) => Err(Refusal::Agent(Code::NoMemory)),
    }
}

/// A salt and an initialization vector of random bytes.
pub(crate) fn salt_and_iv(drawn: &[u8; 20]) -> ([u8; 8], [u8; 12])
    ensures salt { result.0 ≡ take 8 drawn.now }
    ensures iv { result.1 ≡ drop 8 drawn.now }
{
    let mut salt = [0; 8];
    let mut iv = [0; 12];
    salt.copy_from_slice(&drawn[..8]);
    iv.copy_from_slice(&drawn[8..]);
    (salt, iv)
}

/// Keeps the passphrase of a key's new file: by the ticket that is held, or else by a turn of its
/// own.
pub(crate) fn keep_new<D: Desk>(
    grip: &Grip,
    pass: &Secret,
    held: &mut Held,
    desk: &mut D,
) -> Result<(), Refusal>
    requires out { (D.at desk.old).out ≡ held.old }
    ensures turn { TakesTurns D.turned
        (KeepsNew grip.now pass.now) held.old desk.old result held.new desk.new }
    ensures out { (D.at desk.new).out ≡ held.new }
{
    if held.is_held() {
        close(Some(pass.copy()), held, desk);
        return Ok(());
    }
    keep_pass(grip, pass, held, desk)
}
