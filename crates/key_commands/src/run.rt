//! A request on keys, carried out and answered. It works on all that a session has: the connection,
//! the desk (cache handle), the prompter, the keys, the dice and the session's wrapping keys, and
//! it leaves no ticket (permit) out. Begin with `run_key`; what is done is `KeyExchange`
//! (`specs/Exchanges`).

ghost use Rattle.std.specs.Prelude.{◌≡◌, None};
ghost use Rattle.agent_ask.specs.{Prompters.IsShut, Seats.IsReady};
ghost use Rattle.assuan_server.specs.Connections.{IsOpen};
ghost use Rattle.key_commands.specs.{Exchanges.{KeyExchange, KeyReplies}, Replies.CarriesOut};
ghost use Rattle.key_commands.specs.States.{AnswersKey, key_state};

use crate::asking::Asking;
use crate::delete_key::delete_key;
use crate::export_key::export_key;
use crate::have_key::{has_one, list_all};
use crate::import_key::import_key;
use crate::key_info::{key_info, list_keys};
use crate::keywrap_key::{WrapKeys, wrapping_key};
use crate::passwd::{change_passphrase, verify_key};
use crate::reply::{Reply, respond};
use crate::request::KeyRequest;
use crate::went::KeyWent;
use agent_ask::{Held, Prompter, close};
use agent_ports::{Dice, Keys, Link};
use assuan_server::Conn;
use cache_policy::Desk;
use session_client::Refusal;
use session_options::{Options, Rules};
use std::alloc::Global;

/// Does what a request asks for, answers it, and says how the session goes on. The wrapping keys
/// are the session's. No ticket is out and no prompt is open when it returns.
// Apart from the session's loop, where its places would be filled anew for each line.
#[inline(never)]
pub fn run_key<L: Link, D: Desk, P: Prompter, K: Keys, R: Dice>(
    alloc: Global,
    command: &KeyRequest,
    rules: &Rules,
    options: &Options,
    wraps: &mut WrapKeys,
    conn: &mut Conn<'_, L>,
    desk: &mut D,
    prompter: &mut P,
    keys: &mut K,
    dice: &mut R,
) -> KeyWent
    requires open { IsOpen conn.old }
    requires free { (D.at desk.old).out ≡ None }
    requires shut { IsShut (P.at prompter.old) }
    ensures answers { AnswersKey D.turned P.prompted
        (KeyExchange rules.now options.now wraps.old command.now)
        (key_state D.turned P.prompted conn.old desk.old prompter.old
        (K.keys keys.old) (R.draws dice.old)) result wraps.new
        (key_state D.turned P.prompted conn.new desk.new prompter.new (K.keys keys.new)
        (R.draws dice.new)) }
    ensures free { (D.at desk.new).out ≡ None }
    ensures shut { IsShut (P.at prompter.new) }
{
    let mut held = Held::new();
    let reply = carry_out(
        alloc, command, rules, options, wraps, &mut held, conn, desk, prompter, keys, dice,
    );
    close(None, &mut held, desk);
    held.end();
    respond(&reply, conn)
}

/// Does what a request asks for, and gives its reply, or how it is refused. A ticket may be held
/// when it returns.
fn carry_out<L: Link, D: Desk, P: Prompter, K: Keys, R: Dice>(
    alloc: Global,
    command: &KeyRequest,
    rules: &Rules,
    options: &Options,
    wraps: &mut WrapKeys,
    held: &mut Held,
    conn: &mut Conn<'_, L>,
    desk: &mut D,
    prompter: &mut P,
    keys: &mut K,
    dice: &mut R,
) -> Result<Reply, Refusal>
    requires free { held.old ≡ None }
    requires open { IsOpen conn.old }
    requires ready { IsReady (D.at desk.old) (P.at prompter.old) held.old }
    ensures carries { CarriesOut D.turned P.prompted
        (KeyReplies rules.now options.now wraps.old command.now) wraps.old
        (key_state D.turned P.prompted conn.old desk.old prompter.old
        (K.keys keys.old) (R.draws dice.old)) result wraps.new held.new
        (key_state D.turned P.prompted conn.new desk.new prompter.new (K.keys keys.new)
        (R.draws dice.new)) }
    ensures ready { IsReady (D.at desk.new) (P.at prompter.new) held.new }
{
    match command {
        KeyRequest::HaveKey { grips } => {
            has_one(alloc, grips, keys)?;
            Ok(Reply::Ok)
        }
        KeyRequest::ListGrips => list_all(alloc, keys),
        KeyRequest::KeyInfo { grip } => key_info(alloc, grip, held, desk, keys),
        KeyRequest::ListKeys => list_keys(alloc, held, conn, desk, keys),
        KeyRequest::KeyWrap(way) => wrapping_key(*way, wraps, dice),
        KeyRequest::ImportKey { force, nonce } => import_key(
            alloc, *force, nonce, rules, options, wraps, held, conn, desk, prompter, keys, dice,
        ),
        KeyRequest::ExportKey { grip, nonce } => {
            let asking = Asking::of(alloc, grip, rules, options);
            export_key(&asking, nonce, wraps, held, conn, desk, prompter, keys)
        }
        KeyRequest::Passwd {
            grip,
            nonce,
            new_nonce,
            verify,
        } => {
            let asking = Asking::of(alloc, grip, rules, options);
            if *verify {
                return verify_key(&asking, held, conn, desk, prompter, keys);
            }
            change_passphrase(
                &asking, nonce, new_nonce, held, conn, desk, prompter, keys, dice,
            )
        }
        KeyRequest::DeleteKey { grip, force } => {
            let asking = Asking::of(alloc, grip, rules, options);
            delete_key(&asking, *force, held, conn, desk, prompter, keys)
        }
        KeyRequest::Bad(code) => Err(Refusal::Agent(*code)),
    }
}
