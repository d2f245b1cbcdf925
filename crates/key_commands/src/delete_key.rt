//! DELETE_KEY: the user's consent, the removal of the key's file, and then of its passphrase from
//! the cache. It works on the desk (cache handle), the prompter, the client and the keys. Begin
//! with `delete_key`; its events are `DeleteKeyReplies` (`specs/Exchanges`).

ghost use Rattle.std.specs.Prelude.{◌≡◌, None, Ok};
ghost use Rattle.{agent_ask.specs.Seats.IsReady, agent_ports.specs.Sides.Side};
ghost use Rattle.assuan_server.specs.Connections.{IsOpen};
ghost use Rattle.key_commands.specs.{Exchanges.DeleteKeyReplies, Replies.CarriesOut};
ghost use Rattle.key_commands.specs.States.{key_state};
ghost use Rattle.key_commands.specs.declared.keywrap_key.WrapKeys.{WrapKeys as Wraps};

use crate::asking::Asking;
use crate::consent::consent;
use crate::key_calls::{has_file, remove_file};
use crate::reply::Reply;
use crate::turns::clear_pass;
use agent_ask::{Held, Prompter};
use agent_ports::{Keys, Link};
use assuan_server::{Code, Conn};
use cache_policy::Desk;
use session_client::Refusal;

/// DELETE_KEY: removes a key's file, and its passphrase from the cache.
pub(crate) fn delete_key<L: Link, D: Desk, P: Prompter, K: Keys>(
    asking: &Asking<'_>,
    force: bool,
    held: &mut Held,
    conn: &mut Conn<'_, L>,
    desk: &mut D,
    prompter: &mut P,
    keys: &mut K,
) -> Result<Reply, Refusal>
    requires open { IsOpen conn.old }
    requires none { held.old ≡ None }
    requires ready { IsReady (D.at desk.old) (P.at prompter.old) held.old }
    ensures carries { (wraps : Wraps) (dice : Side) → CarriesOut D.turned P.prompted
        (DeleteKeyReplies asking.now.rules.now asking.now.options.now wraps force
        asking.now.grip.now) wraps
        (key_state D.turned P.prompted conn.old desk.old prompter.old (K.keys keys.old) dice)
        result wraps held.new
        (key_state D.turned P.prompted conn.new desk.new prompter.new (K.keys keys.new) dice) }
    ensures ready { IsReady (D.at desk.new) (P.at prompter.new) held.new }
{
    let (alloc, grip) = (asking.alloc, asking.grip);
    if !has_file(alloc, grip, keys)? {
        return Err(Refusal::Agent(Code::NoSecKey));
    }
    consent(force, asking, held, conn, desk, prompter)?;
    remove_file(alloc, grip, keys)?;
    clear_pass(grip, held, desk)?;
    Ok(Reply::Ok)
}
