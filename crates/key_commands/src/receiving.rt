//! A key that comes in: it is received from the client, and named, and there has to be room for it.
//! It works on the connection, asks the keys and the desk (cache handle), and changes no file.
//! Begin with `receive_key`; `specs/KeyActions` defines each action, as `ReceivesKey` and
//! `IsFree`.

ghost use Rattle.std.specs.Prelude.{◌≡◌, ◌≤◌, length, IfOk};
ghost use Rattle.{assuan_server.specs.Connections.IsOpen, sexp_keys.specs.Lists.key_list_of};
ghost use Rattle.key_commands.specs.KeyActions.{AsksKeyData, ReceivesKey, Unwraps, NamesKey, IsFree};
ghost use Rattle.key_commands.specs.{KeyActions.LooksOver, Partial.DoesAtClient};
ghost use Rattle.key_commands.specs.Steps.{DoesAlone, DoesKeyCalls, TakesTurns, key_data_of};
ghost use Rattle.key_commands.specs.{Trials.IsUsable, declared.wrapping.TheConstants.MAX_LIST_LEN};

use crate::inquiries::tell_limit;
use crate::key_calls::has_file;
use crate::wrapping::unwrapped_key;
use agent_ask::{Held, without_memory};
use agent_ports::{Grip, Keys, Link};
use assuan_server::{Code, Conn, Inquired};
use cache_policy::{CacheId, Desk, Mode, Refused, Reply, Secret, Step, Way};
use session_client::{ClientError, Gone, Refusal};
use sexp_canonical::Bytes;
use sexp_keys::KeyList;
use std::alloc::Global;

/// How many bytes of a wrapped key are taken.
const MAX_KEY_DATA_LEN: usize = 65_544;

/// Receives a key from the client that is wrapped under this wrapping key.
pub(crate) fn receive_key<L: Link>(
    alloc: Global,
    wrap: &[u8; 16],
    conn: &mut Conn<'_, L>,
) -> Result<KeyList, Refusal>
    requires { IsOpen conn.old }
    ensures receives { DoesAtClient (ReceivesKey wrap.now) conn.old result conn.new }
    ensures usable { IfOk result IsUsable }
    ensures short { IfOk result (λ key. length (key_list_of key) ≤ MAX_LIST_LEN) }
{
    tell_limit(MAX_KEY_DATA_LEN, conn)?;
    let wrapped = ask_key_data(alloc, conn)?;
    unwrap_key(alloc, wrap, wrapped.as_slice())
}

/// Asks the client for the bytes of a wrapped key.
fn ask_key_data<L: Link>(alloc: Global, conn: &mut Conn<'_, L>) -> Result<Bytes, Refusal>
    requires { IsOpen conn.old }
    ensures { DoesAtClient AsksKeyData conn.old result conn.new }
{
    key_data(conn.inquire(alloc, b"KEYDATA", b"", MAX_KEY_DATA_LEN))
}

/// The bytes that the client gave, or how its request is refused.
fn key_data(inquired: Inquired) -> Result<Bytes, Refusal>
    ensures { result ≡ key_data_of inquired }
{
    Err(Refusal::Client(match inquired {
        Inquired::Data(bytes) => return Ok(Bytes::from(bytes)),
        Inquired::NoMemory => return Err(Refusal::Agent(Code::NoMemory)),
        Inquired::Cancelled => ClientError::Cancelled,
        Inquired::TooMuch => ClientError::TooMuch,
        Inquired::Unexpected => ClientError::Unexpected,
        Inquired::Ended => ClientError::Gone(Gone::Ended),
        Inquired::TooLong => ClientError::Gone(Gone::TooLong),
        Inquired::Spent => ClientError::Gone(Gone::Spent),
        Inquired::ReadFault => ClientError::Gone(Gone::ReadFault),
        Inquired::WriteFault => ClientError::Gone(Gone::WriteFault),
    }))
}

/// The clear key that wrapped bytes are.
fn unwrap_key(alloc: Global, wrap: &[u8; 16], wrapped: &[u8]) -> Result<KeyList, Refusal>
    ensures unwraps { DoesAlone (Unwraps wrap.now wrapped.now) result }
    ensures usable { IfOk result IsUsable }
    ensures short { IfOk result (λ key. length (key_list_of key) ≤ MAX_LIST_LEN) }
{
    match unwrapped_key(alloc, wrap, wrapped) {
        Ok(key) => Ok(key),
        Err(code) => Err(Refusal::Agent(code)),
    }
}

/// The grip by which a key is named.
pub(crate) fn name_key(alloc: Global, key: &KeyList) -> Result<Grip, Refusal>
    ensures { DoesAlone (NamesKey key.now) result }
{
    match key.grip(alloc) {
        Ok(grip) => Ok(grip),
        Err(_) => Err(Refusal::Agent(Code::NoMemory)),
    }
}

/// Refuses a key that is there already, unless it is to be replaced.
pub(crate) fn check_free<K: Keys>(
    alloc: Global,
    force: bool,
    grip: &Grip,
    keys: &mut K,
) -> Result<(), Refusal>
    ensures { DoesKeyCalls (IsFree force grip.now) (K.keys keys.old) result (K.keys keys.new) }
{
    if force {
        return Ok(());
    }
    if has_file(alloc, grip, keys)? {
        return Err(Refusal::Agent(Code::FileExists));
    }
    Ok(())
}

/// What is cached under a nonce, where there is one. An agent that stops is taken for one that has
/// nothing cached.
pub(crate) fn look_over<D: Desk>(
    nonce: &Option<CacheId>,
    held: &Held,
    desk: &mut D,
) -> Result<Option<Secret>, Refusal>
    requires out { (D.at desk.old).out ≡ held.now }
    ensures turn { TakesTurns D.turned
        (LooksOver nonce.now) held.now desk.old result held.now desk.new }
    ensures out { (D.at desk.new).out ≡ held.now }
{
    let Some(nonce) = nonce else {
        return Ok(None);
    };
    match desk.turn(Step::Ask {
        id: nonce.copy(),
        mode: Mode::Nonce,
        way: Way::Quiet,
        wait: None,
    }) {
        Ok(Reply::Given(grant)) => Ok(Some(grant.secret().copy())),
        Ok(Reply::Empty) => Ok(None),
        Ok(Reply::Stopping) => Ok(None),
        Ok(_) => unreachable!(),
        Err(Refused { step }) => Err(without_memory(step)),
    }
}
