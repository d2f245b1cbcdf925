//! IMPORT_KEY: a wrapped key of the client becomes a file, protected by a passphrase, which is
//! cached under a drawn nonce. It works on the connection, the desk (cache handle), the prompter,
//! the keys and the dice. Begin with `import_key`; its events are `ImportKeyReplies`
//! (`specs/Exchanges`).

ghost use Rattle.std.specs.Prelude.{◌≡◌, ◌≤◌, length, take, drop, None};
ghost use Rattle.agent_ask.specs.Seats.{IsReady};
ghost use Rattle.assuan_server.specs.Connections.{Connection, IsOpen};
ghost use Rattle.{assuan_escape.specs.Escapes.hex_text, sexp_keys.specs.Lists.key_list_of};
ghost use Rattle.key_commands.specs.{Lines.nonce_line, Exchanges.{ImportKeyReplies, StoresKey}};
ghost use Rattle.key_commands.specs.{Partial.{DoesKeyAction, NoCall}, Replies.CarriesOut};
ghost use Rattle.key_commands.specs.{States.key_state, Trials.IsUsable};
ghost use Rattle.key_commands.specs.declared.wrapping.TheConstants.{MAX_LIST_LEN};

use crate::asking::Asking;
use crate::drawing::draw;
use crate::key_calls::replace_file;
use crate::keywrap_key::WrapKeys;
use crate::new::found_or_new;
use crate::protecting::{keep_new, protected_key};
use crate::receiving::{check_free, look_over, name_key, receive_key};
use crate::reply::Reply;
use crate::texts::StatusLine;
use crate::turns::keep_by_nonce;
use agent_ask::{Held, Prompter};
use agent_ports::{Dice, Keys, Link};
use arrayvec::ArrayVec;
use assuan_escape::upper_hex;
use assuan_server::{Code, Conn};
use cache_policy::{CacheId, Desk, Secret};
use session_client::Refusal;
use session_options::{Options, Rules};
use sexp_keys::KeyList;
use std::alloc::Global;

/// IMPORT_KEY: a wrapped key is taken from the client and written to its file, protected by a
/// passphrase.
pub(crate) fn import_key<L: Link, D: Desk, P: Prompter, K: Keys, R: Dice>(
    alloc: Global,
    force: bool,
    nonce: &Option<CacheId>,
    rules: &Rules,
    options: &Options,
    wraps: &WrapKeys,
    held: &mut Held,
    conn: &mut Conn<'_, L>,
    desk: &mut D,
    prompter: &mut P,
    keys: &mut K,
    dice: &mut R,
) -> Result<Reply, Refusal>
    requires free { held.old ≡ None }
    requires open { IsOpen conn.old }
    requires ready { IsReady (D.at desk.old) (P.at prompter.old) held.old }
    ensures carries { CarriesOut D.turned P.prompted
        (ImportKeyReplies rules.now options.now wraps.now force nonce.now) wraps.now
        (key_state D.turned P.prompted conn.old desk.old prompter.old
        (K.keys keys.old) (R.draws dice.old)) result wraps.now held.new
        (key_state D.turned P.prompted conn.new desk.new prompter.new (K.keys keys.new)
        (R.draws dice.new)) }
    ensures ready { IsReady (D.at desk.new) (P.at prompter.new) held.new }
{
    let Some(wrap) = &wraps.import else {
        return Err(Refusal::Agent(Code::Parameter));
    };
    let key = receive_key(alloc, wrap.bytes(), conn)?;
    let grip = name_key(alloc, &key)?;
    check_free(alloc, force, &grip, keys)?;
    let asking = Asking {
        alloc,
        grip: &grip,
        rules,
        options,
    };
    let found = look_over(nonce, held, desk)?;
    let pass = found_or_new(found, &asking, held, conn, desk, prompter)?;
    let cache_nonce = store_key(&key, &pass, &asking, held, desk, keys, dice)?;
    Ok(Reply::Status(nonce_line(&cache_nonce)))
}

/// Writes a key to its file, protected by a passphrase, which is cached under a new nonce before.
/// Gives the nonce.
fn store_key<D: Desk, K: Keys, R: Dice>(
    key: &KeyList,
    pass: &Secret,
    asking: &Asking<'_>,
    held: &mut Held,
    desk: &mut D,
    keys: &mut K,
    dice: &mut R,
) -> Result<[u8; 12], Refusal>
    requires usable { IsUsable key.now }
    requires short { length (key_list_of key.now) ≤ MAX_LIST_LEN }
    requires out { (D.at desk.old).out ≡ held.old }
    ensures stores { (conn : Connection) → IsOpen conn → DoesKeyAction D.turned NoCall
        (StoresKey asking.now.options.now.s2k_count key.now asking.now.grip.now pass.now) held.old
        (key_state D.turned NoCall conn desk.old tt (K.keys keys.old) (R.draws dice.old)) result
        held.new (key_state D.turned NoCall conn desk.new tt (K.keys keys.new) (R.draws dice.new)) }
    ensures out { (D.at desk.new).out ≡ held.new }
{
    let drawn = draw::<32, R>(dice)?;
    let (salt, iv, nonce) = split_draw(drawn.bytes());
    let count = asking.options.s2k_count();
    let file = protected_key(asking.alloc, key, pass, &salt, &iv, count)?;
    keep_by_nonce(&nonce, pass, held, desk)?;
    replace_file(asking.alloc, asking.grip, file.as_slice(), keys)?;
    keep_new(asking.grip, pass, held, desk)?;
    Ok(nonce)
}

/// A salt, an initialization vector and a nonce of random bytes.
fn split_draw(drawn: &[u8; 32]) -> ([u8; 8], [u8; 12], [u8; 12])
    ensures salt { result.0 ≡ take 8 drawn.now }
    ensures iv { result.1 ≡ take 12 (drop 8 drawn.now) }
    ensures nonce { result.2 ≡ drop 20 drawn.now }
{
    let mut salt = [0; 8];
    let mut iv = [0; 12];
    let mut nonce = [0; 12];
    salt.copy_from_slice(&drawn[..8]);
    iv.copy_from_slice(&drawn[8..20]);
    nonce.copy_from_slice(&drawn[20..]);
    (salt, iv, nonce)
}

/// The line of the nonce under which a passphrase was cached.
fn nonce_line(nonce: &[u8; 12]) -> StatusLine
    ensures { result ≡ nonce_line (hex_text nonce.now) }
{
    let mut text = ArrayVec::new();
    text.try_extend_from_slice(&upper_hex(nonce)).unwrap();
    StatusLine {
        word: b"CACHE_NONCE",
        text,
    }
}
