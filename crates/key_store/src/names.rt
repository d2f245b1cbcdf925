//! The names of the files. Pure, but for the memory of a path. Begin with `grip_of_name`, which
//! says which names in the folder are those of keys.

ghost use Rattle.std.specs.Prelude.{◌≡◌, ◌++◌, ℕ, List, codes, string_bytes, length, IsSome};
ghost use Rattle.std.specs.{Prelude.{IfSome, IfOk}, List.AllPass};
ghost use Rattle.hex.specs.Hex.{decode_of, encode_upper, is_hex_digit};

use agent_ports::Grip;
use std::alloc::{AllocError, Global};

/// What a key's file ends in.
pub(crate) const KEY_ENDING: &str = ".key";

/// What a file ends in that is to become a key's. It is no name of a key.
pub(crate) const NEW_KEY_ENDING: &str = ".key.new";

/// The trust list's file (GnuPG manual, "Agent Configuration").
pub(crate) const TRUST_NAME: &str = "trustlist.txt";

/// The file that is to become the trust list's.
pub(crate) const NEW_TRUST_NAME: &str = "trustlist.txt.new";

/// The file whose lock a change of the trust list holds.
pub(crate) const TRUST_LOCK_NAME: &str = "trustlist.lock";

/// The grip of a key's file: 40 hexadecimal digits of either case, and the ending.
pub(crate) fn grip_of_name(name: &str) -> Option<Grip>
    ensures value { IfSome result (λ grip. (digits : List ℕ) × (name.now ≡ digits ++ codes ".key")
        × (decode_of digits ≡ Ok grip.0)) }
    ensures found { (digits : List ℕ) → name.now ≡ digits ++ codes ".key" → length digits ≡ 40
        → AllPass is_hex_digit digits → IsSome result }
{
    let digits = name.strip_suffix(KEY_ENDING)?;
    Grip::of_hex(digits.as_bytes())
}

/// The folder of keys under a home directory.
pub(crate) fn folder_path(alloc: Global, homedir: &str) -> Result<String, AllocError>
    ensures { IfOk result (λ path. string_bytes path ≡ homedir.now ++ codes "/private-keys-v1.d") }
{
    path_in(alloc, homedir, "private-keys-v1.d")
}

/// What has this name in a folder.
pub(crate) fn path_in(alloc: Global, folder: &str, name: &str) -> Result<String, AllocError>
    ensures { IfOk result (λ path. string_bytes path ≡ folder.now ++ codes "/" ++ name.now) }
{
    let mut path = String::from_str(alloc, folder)?;
    path.push_str("/")?;
    path.push_str(name)?;
    Ok(path)
}

/// The file of a key in a folder, with an ending.
pub(crate) fn key_path(
    alloc: Global,
    folder: &str,
    grip: &Grip,
    ending: &str,
) -> Result<String, AllocError>
    ensures { IfOk result (λ path.
        string_bytes path ≡ folder.now ++ codes "/" ++ encode_upper grip.now.0 ++ ending.now) }
{
    let digits = hex::encode_upper(alloc, &grip.0)?;
    let mut path = path_in(alloc, folder, digits.as_str())?;
    path.push_str(ending)?;
    Ok(path)
}
