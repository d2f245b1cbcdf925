//! EXPORT_KEY: a clear key, wrapped under the session's key (RFC 3394). It works on the desk (cache
//! handle), the prompter, the client and the keys, and only reads the key's file. Begin with
//! `export_key`; its events are `ExportKeyReplies` (`specs/Exchanges`).

ghost use Rattle.std.specs.Prelude.{◌≡◌, None};
ghost use Rattle.{agent_ask.specs.Seats.IsReady, agent_ports.specs.Sides.Side};
ghost use Rattle.assuan_server.specs.Connections.{IsOpen};
ghost use Rattle.key_commands.specs.{Exchanges.ExportKeyReplies, KeyActions.WrapsKey};
ghost use Rattle.key_commands.specs.{Replies.CarriesOut, States.key_state, Steps.DoesAlone};
ghost use Rattle.key_commands.specs.Trials.{IsUsable};

use crate::asking::Asking;
use crate::drawing::Drawn;
use crate::key_calls::read_file;
use crate::keywrap_key::WrapKeys;
use crate::old::old_passphrase;
use crate::opened::OpenedKey;
use crate::reply::Reply;
use crate::request::Direction;
use crate::wrapping::wrapped_key;
use agent_ask::{Held, Prompter, close};
use agent_ports::{Keys, Link};
use assuan_server::{Code, Conn};
use cache_policy::{CacheId, Desk};
use session_client::Refusal;
use sexp_canonical::Bytes;
use sexp_keys::KeyList;
use std::alloc::Global;

/// EXPORT_KEY: a key's clear list under the session's wrapping key. No memory is taken after it, so
/// the reply is written whole or cut by a fault of the link.
pub(crate) fn export_key<L: Link, D: Desk, P: Prompter, K: Keys>(
    asking: &Asking<'_>,
    nonce: &Option<CacheId>,
    wraps: &WrapKeys,
    held: &mut Held,
    conn: &mut Conn<'_, L>,
    desk: &mut D,
    prompter: &mut P,
    keys: &mut K,
) -> Result<Reply, Refusal>
    requires free { held.old ≡ None }
    requires open { IsOpen conn.old }
    requires ready { IsReady (D.at desk.old) (P.at prompter.old) held.old }
    ensures carries { (dice : Side)
        → CarriesOut D.turned P.prompted (ExportKeyReplies asking.now.rules.now
        asking.now.options.now wraps.now asking.now.grip.now nonce.now) wraps.now
        (key_state D.turned P.prompted conn.old desk.old prompter.old (K.keys keys.old) dice)
        result wraps.now held.new
        (key_state D.turned P.prompted conn.new desk.new prompter.new (K.keys keys.new) dice) }
    ensures ready { IsReady (D.at desk.new) (P.at prompter.new) held.new }
{
    let Some(wrap) = wraps.key(Direction::Export) else {
        return Err(Refusal::Agent(Code::Parameter));
    };
    let file = read_file(asking.alloc, asking.grip, keys)?;
    let OpenedKey { key, by } = old_passphrase(
        asking, nonce, file.key, held, conn, desk, prompter,
    )?;
    close(by, held, desk);
    let wrapped = wrap_key(asking.alloc, wrap, &key)?;
    Ok(Reply::Data(wrapped))
}

/// Wraps a clear key.
fn wrap_key(alloc: Global, wrap: &Drawn<16>, key: &KeyList) -> Result<Bytes, Refusal>
    requires { IsUsable key.now }
    ensures { DoesAlone (WrapsKey wrap.now key.now) result }
{
    match wrapped_key(alloc, wrap.bytes(), key) {
        Ok(bytes) => Ok(Bytes::from(bytes)),
        Err(_) => Err(Refusal::Agent(Code::NoMemory)),
    }
}
