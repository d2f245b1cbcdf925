//! KEYINFO: what is known of a key, or of each. It calls the keys, looks at the desk (cache handle)
//! whether a passphrase is cached, and writes status lines. Begin with `key_info` and `list_keys`;
//! these are `KeyInfoReplies` and `ListKeysReplies` (`specs/Exchanges`).

ghost use Rattle.std.specs.Prelude.{◌≡◌, false, None};
ghost use Rattle.agent_ports.specs.Sides.{Side};
ghost use Rattle.assuan_server.specs.Connections.{Connection, IsOpen};
ghost use Rattle.session_options.specs.OptionValues.{OptionValues};
ghost use Rattle.session_options.specs.declared.rules.Rules.{Rules as TheRules};
ghost use Rattle.assuan_text.specs.LineEnds.{has_lf};
ghost use Rattle.key_commands.specs.Exchanges.{KeyInfoReplies, ListKeysReplies};
ghost use Rattle.key_commands.specs.{KeyActions.WritesInfos, Lines.{info_line, info_text}};
ghost use Rattle.key_commands.specs.{Partial.{DoesKeyAction, NoCall}, Replies.CarriesOut};
ghost use Rattle.key_commands.specs.{States.key_state, declared.keywrap_key.WrapKeys.WrapKeys};

use crate::key_calls::{list_grips, read_file, read_listed};
use crate::reply::Reply;
use crate::texts::{MAX_STATUS_LEN, StatusLine, digits_of};
use crate::turns::peek;
use agent_ask::Held;
use agent_ports::{Grip, Keys, Link};
use arrayvec::ArrayVec;
use assuan_server::Conn;
use cache_policy::Desk;
use session_client::Refusal;
use std::alloc::Global;

/// KEYINFO: what is known of a key.
pub(crate) fn key_info<D: Desk, K: Keys>(
    alloc: Global,
    grip: &Grip,
    held: &Held,
    desk: &mut D,
    keys: &mut K,
) -> Result<Reply, Refusal>
    requires none { held.now ≡ None }
    requires out { (D.at desk.old).out ≡ held.now }
    ensures tells { (rules : TheRules)
        (options : OptionValues) (wraps : WrapKeys) (conn : Connection) (dice : Side) → IsOpen conn
        → CarriesOut D.turned NoCall (KeyInfoReplies rules options wraps grip.now) wraps
        (key_state D.turned NoCall conn desk.old tt (K.keys keys.old) dice) result wraps None
        (key_state D.turned NoCall conn desk.new tt (K.keys keys.new) dice) }
    ensures out { (D.at desk.new).out ≡ held.now }
{
    let file = read_file(alloc, grip, keys)?;
    let cached = peek(grip, held, desk)?;
    let line = info_line(grip, cached, file.key.is_clear());
    Ok(Reply::Status(line))
}

/// KEYINFO --list: writes what is known of each key that there is.
pub(crate) fn list_keys<L: Link, D: Desk, K: Keys>(
    alloc: Global,
    held: &Held,
    conn: &mut Conn<'_, L>,
    desk: &mut D,
    keys: &mut K,
) -> Result<Reply, Refusal>
    requires open { IsOpen conn.old }
    requires none { held.now ≡ None }
    requires out { (D.at desk.old).out ≡ held.now }
    ensures tells { (rules : TheRules) (options : OptionValues) (wraps : WrapKeys) (dice : Side)
        → CarriesOut D.turned NoCall (ListKeysReplies rules options wraps) wraps
        (key_state D.turned NoCall conn.old desk.old tt (K.keys keys.old) dice) result wraps None
        (key_state D.turned NoCall conn.new desk.new tt (K.keys keys.new) dice) }
    ensures out { (D.at desk.new).out ≡ held.now }
{
    let grips = list_grips(alloc, keys)?;
    write_infos(alloc, &grips, held, conn, desk, keys)?;
    Ok(Reply::Ok)
}

/// Writes a line for each of these keys that isn't passed over.
fn write_infos<L: Link, D: Desk, K: Keys>(
    alloc: Global,
    grips: &[Grip],
    held: &Held,
    conn: &mut Conn<'_, L>,
    desk: &mut D,
    keys: &mut K,
) -> Result<(), Refusal>
    requires open { IsOpen conn.old }
    requires out { (D.at desk.old).out ≡ held.now }
    ensures writes { (dice : Side) → DoesKeyAction D.turned NoCall (WritesInfos grips.now) held.now
        (key_state D.turned NoCall conn.old desk.old tt (K.keys keys.old) dice) result held.now
        (key_state D.turned NoCall conn.new desk.new tt (K.keys keys.new) dice) }
    ensures out { (D.at desk.new).out ≡ held.now }
{
    for grip in grips {
        let Some(key) = read_listed(alloc, grip, keys)? else {
            continue;
        };
        let cached = peek(grip, held, desk)?;
        info_line(grip, cached, key.is_clear()).write(conn)?;
    }
    Ok(())
}

/// The line of a key: whether its passphrase is cached, and whether its file is clear.
fn info_line(grip: &Grip, cached: bool, clear: bool) -> StatusLine
    ensures { result ≡ info_line grip.now cached clear }
{
    StatusLine {
        word: b"KEYINFO",
        text: info_text(grip, cached, clear),
    }
}

/// What KEYINFO tells of a key behind the word of its line.
fn info_text(grip: &Grip, cached: bool, clear: bool) -> ArrayVec<u8, MAX_STATUS_LEN>
    ensures text { result.items ≡ info_text grip.now cached clear }
    ensures one_line { has_lf result.items ≡ false }
{
    let mut text = ArrayVec::new();
    text.try_extend_from_slice(&digits_of(grip)).unwrap();
    text.try_extend_from_slice(b" D - - ").unwrap();
    text.try_extend_from_slice(if cached { b"1" } else { b"-" })
        .unwrap();
    text.try_extend_from_slice(b" ").unwrap();
    text.try_extend_from_slice(if clear { b"C" } else { b"P" })
        .unwrap();
    text.try_extend_from_slice(b" - - -").unwrap();
    text
}
