//! PASSWD: a key's passphrase is changed, or only asked for and tried (`--verify`). It works on the
//! connection, the desk (cache handle), the prompter, the keys and the dice. Begin with
//! `change_passphrase` and `verify_key`; these are `PasswdReplies` and `VerifyReplies`
//! (`specs/Exchanges`).

ghost use Rattle.std.specs.Prelude.{◌≡◌, ◌≤◌, None, length};
ghost use Rattle.{agent_ask.specs.Seats.IsReady, agent_ports.specs.Sides.Side};
ghost use Rattle.assuan_server.specs.Connections.{Connection, IsOpen};
ghost use Rattle.sexp_keys.specs.Lists.{key_list_of};
ghost use Rattle.key_commands.specs.Exchanges.{VerifyReplies, PasswdReplies, RewritesFile};
ghost use Rattle.key_commands.specs.{Files.IsSomeKey, Partial.{DoesKeyAction, NoCall}};
ghost use Rattle.key_commands.specs.{Replies.CarriesOut, States.key_state, Trials.IsUsable};
ghost use Rattle.key_commands.specs.declared.keywrap_key.WrapKeys.{WrapKeys as Wraps};
ghost use Rattle.key_commands.specs.declared.wrapping.TheConstants.{MAX_LIST_LEN};

use crate::asking::Asking;
use crate::drawing::{Drawn, draw};
use crate::files::rewrite;
use crate::key_calls::{read_file, replace_file};
use crate::new::found_or_new;
use crate::nonces::look_for_nonce;
use crate::old::{old_passphrase, verified_passphrase};
use crate::protecting::{check_len, keep_new, protected_key, salt_and_iv};
use crate::reply::Reply;
use agent_ask::{Held, Prompter, close};
use agent_ports::{Dice, Keys, Link};
use assuan_server::Conn;
use cache_policy::{CacheId, Desk, Secret};
use session_client::Refusal;
use sexp_keys::KeyList;

/// PASSWD --verify: the passphrase of a key is asked for and tried, and its ticket given back with
/// it.
pub(crate) fn verify_key<L: Link, D: Desk, P: Prompter, K: Keys>(
    asking: &Asking<'_>,
    held: &mut Held,
    conn: &mut Conn<'_, L>,
    desk: &mut D,
    prompter: &mut P,
    keys: &mut K,
) -> Result<Reply, Refusal>
    requires free { held.old ≡ None }
    requires open { IsOpen conn.old }
    requires ready { IsReady (D.at desk.old) (P.at prompter.old) held.old }
    ensures carries { (wraps : Wraps) (dice : Side) → CarriesOut D.turned P.prompted
        (VerifyReplies asking.now.rules.now asking.now.options.now wraps asking.now.grip.now) wraps
        (key_state D.turned P.prompted conn.old desk.old prompter.old (K.keys keys.old) dice)
        result wraps held.new
        (key_state D.turned P.prompted conn.new desk.new prompter.new (K.keys keys.new) dice) }
    ensures ready { IsReady (D.at desk.new) (P.at prompter.new) held.new }
{
    let file = read_file(asking.alloc, asking.grip, keys)?;
    let opened = verified_passphrase(asking, file.key, held, conn, desk, prompter)?;
    close(opened.by, held, desk);
    Ok(Reply::Ok)
}

/// PASSWD: a key's file is protected by a new passphrase.
pub(crate) fn change_passphrase<L: Link, D: Desk, P: Prompter, K: Keys, R: Dice>(
    asking: &Asking<'_>,
    nonce: &Option<CacheId>,
    new_nonce: &Option<CacheId>,
    held: &mut Held,
    conn: &mut Conn<'_, L>,
    desk: &mut D,
    prompter: &mut P,
    keys: &mut K,
    dice: &mut R,
) -> Result<Reply, Refusal>
    requires free { held.old ≡ None }
    requires open { IsOpen conn.old }
    requires ready { IsReady (D.at desk.old) (P.at prompter.old) held.old }
    ensures carries { (wraps : Wraps) → CarriesOut D.turned P.prompted
        (PasswdReplies asking.now.rules.now asking.now.options.now wraps asking.now.grip.now
        nonce.now new_nonce.now) wraps (key_state D.turned P.prompted conn.old desk.old prompter.old
        (K.keys keys.old) (R.draws dice.old)) result wraps held.new
        (key_state D.turned P.prompted conn.new desk.new prompter.new (K.keys keys.new)
        (R.draws dice.new)) }
    ensures ready { IsReady (D.at desk.new) (P.at prompter.new) held.new }
{
    let file = read_file(asking.alloc, asking.grip, keys)?;
    let opened = old_passphrase(asking, nonce, file.key, held, conn, desk, prompter)?;
    check_len(&opened.key)?;
    let found = look_for_nonce(new_nonce, held, desk)?;
    let pass = found_or_new(found, asking, held, conn, desk, prompter)?;
    let bytes = file.bytes.as_slice();
    rewrite_file(asking, bytes, &opened.key, &pass, held, desk, keys, dice)?;
    Ok(Reply::Ok)
}

/// Writes a key's file anew in its own format, protected by this passphrase, which is kept then.
fn rewrite_file<D: Desk, K: Keys, R: Dice>(
    asking: &Asking<'_>,
    file: &[u8],
    key: &KeyList,
    pass: &Secret,
    held: &mut Held,
    desk: &mut D,
    keys: &mut K,
    dice: &mut R,
) -> Result<(), Refusal>
    requires file { IsSomeKey file.now }
    requires usable { IsUsable key.now }
    requires short { length (key_list_of key.now) ≤ MAX_LIST_LEN }
    requires out { (D.at desk.old).out ≡ held.old }
    ensures does { (conn : Connection) → IsOpen conn
        → DoesKeyAction D.turned NoCall (RewritesFile asking.now.rules.now
        asking.now.options.now asking.now.grip.now file.now key.now pass.now) held.old
        (key_state D.turned NoCall conn desk.old tt (K.keys keys.old) (R.draws dice.old)) result
        held.new (key_state D.turned NoCall conn desk.new tt (K.keys keys.new) (R.draws dice.new)) }
    ensures out { (D.at desk.new).out ≡ held.new }
{
    let drawn: Drawn<20> = draw(dice)?;
    let (salt, iv) = salt_and_iv(drawn.bytes());
    let count = asking.options.s2k_count();
    let list = protected_key(asking.alloc, key, pass, &salt, &iv, count)?;
    let new = rewrite(asking.alloc, file, list)?;
    replace_file(asking.alloc, asking.grip, new.as_slice(), keys)?;
    keep_new(asking.grip, pass, held, desk)
}
