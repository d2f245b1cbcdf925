//! What is wrong with a key's file, as the code that refuses its request (libgpg-error). Pure. It
//! has one function, `fault_code`, which `specs/Faults` defines.

ghost use Rattle.std.specs.Prelude.{◌≡◌};
ghost use Rattle.key_commands.specs.Faults.{fault_code};

use assuan_server::Code;
use sexp_keys::KeyFault;

/// How a request is refused whose key has this fault.
pub(crate) fn fault_code(fault: KeyFault) -> Code
    ensures { result ≡ fault_code fault }
{
    match fault {
        KeyFault::InvSexp => Code::InvSexp,
        KeyFault::BadSecKey => Code::BadSecKey,
        KeyFault::Shadowed | KeyFault::NotSupported => Code::NotSupported,
        KeyFault::NoMemory => Code::NoMemory,
    }
}
