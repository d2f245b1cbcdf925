//! The old passphrase of a key: from the cache, the user, or the client itself. It takes turns at
//! the desk (cache handle), and calls the prompter and the client; the key is opened in memory.
//! Begin with `old_passphrase`, and with `verified_passphrase` for a PASSWD --verify;
//! `specs/Passphrases` defines both.

ghost use Rattle.std.specs.Prelude.{◌≡◌, IfOk, None};
ghost use Rattle.{agent_ask.specs.Seats.IsReady, assuan_server.specs.Connections.IsOpen};
ghost use Rattle.secret_file.specs.Opens.{FitsFile};
ghost use Rattle.key_commands.specs.Partial.{DoesAtDesk, LeavesKeys};
ghost use Rattle.key_commands.specs.Passphrases.{ClientOld, UncachedOld, OldPassphrase};
ghost use Rattle.key_commands.specs.{Passphrases.{VerifiesPassphrase, way_of}, Trials.IsUsable};

use crate::asking::Asking;
use crate::inquiries::ask_client;
use crate::nonces::look_for_nonce;
use crate::opened::{OpenedKey, lock_of, try_found, try_pass};
use crate::prompting::prompt_old;
use crate::texts::key_id;
use crate::turns::{keep_pass, take_seat};
use agent_ask::{Held, Prompter, ask_cache};
use agent_ports::Link;
use assuan_server::{Code, Conn};
use cache_policy::{CacheId, Desk, Mode, Way};
use secret_file::Locked;
use session_client::Refusal;
use session_options::PinMode;
use sexp_keys::KeyList;

/// The clear key: a protected one is opened by what is cached under the nonce or under the key, or
/// else as the client wants it. A clear one needs no passphrase. The ticket of a prompt is held
/// when it returns.
pub(crate) fn old_passphrase<L: Link, D: Desk, P: Prompter>(
    asking: &Asking<'_>,
    nonce: &Option<CacheId>,
    key: KeyList,
    held: &mut Held,
    conn: &mut Conn<'_, L>,
    desk: &mut D,
    prompter: &mut P,
) -> Result<OpenedKey, Refusal>
    requires fits { FitsFile key }
    requires free { held.old ≡ None }
    requires open { IsOpen conn.old }
    requires ready { IsReady (D.at desk.old) (P.at prompter.old) held.old }
    ensures does { LeavesKeys D.turned P.prompted
        (OldPassphrase asking.now.rules.now asking.now.options.now asking.now.grip.now
        nonce.now key) held.old conn.old desk.old prompter.old result held.new
        conn.new desk.new prompter.new }
    ensures ready { IsReady (D.at desk.new) (P.at prompter.new) held.new }
    ensures usable { IfOk result (λ opened. IsUsable opened.key) }
{
    if key.is_clear() {
        return Ok(OpenedKey { key, by: None });
    }
    let locked = lock_of(asking.alloc, key)?;
    let found = look_for_nonce(nonce, held, desk)?;
    if let Some(opened) = try_found(asking.alloc, &locked, found)? {
        return Ok(opened);
    }
    let way = way_of(asking.options.mode());
    let cached = ask_cache(key_id(asking.grip), Mode::Normal, way, held, desk)?;
    if let Some(opened) = try_found(asking.alloc, &locked, cached)? {
        return Ok(opened);
    }
    open_uncached(asking, &locked, held, conn, desk, prompter)
}

/// The clear key, by a passphrase that is asked for, whatever is cached. A clear one needs none.
pub(crate) fn verified_passphrase<L: Link, D: Desk, P: Prompter>(
    asking: &Asking<'_>,
    key: KeyList,
    held: &mut Held,
    conn: &mut Conn<'_, L>,
    desk: &mut D,
    prompter: &mut P,
) -> Result<OpenedKey, Refusal>
    requires fits { FitsFile key }
    requires open { IsOpen conn.old }
    requires ready { IsReady (D.at desk.old) (P.at prompter.old) held.old }
    ensures does { LeavesKeys D.turned P.prompted
        (VerifiesPassphrase asking.now.rules.now asking.now.options.now asking.now.grip.now key)
        held.old conn.old desk.old prompter.old result held.new conn.new desk.new prompter.new }
    ensures ready { IsReady (D.at desk.new) (P.at prompter.new) held.new }
    ensures usable { IfOk result (λ opened. IsUsable opened.key) }
{
    if key.is_clear() {
        return Ok(OpenedKey { key, by: None });
    }
    let locked = lock_of(asking.alloc, key)?;
    open_uncached(asking, &locked, held, conn, desk, prompter)
}

/// Whether a request may open a prompt: where its client wants one.
fn way_of(mode: PinMode) -> Way
    ensures { result ≡ way_of mode }
{
    match mode {
        PinMode::Ask => Way::Prompt,
        _ => Way::Quiet,
    }
}

/// Opens a locked key by a passphrase that comes from no cache.
fn open_uncached<L: Link, D: Desk, P: Prompter>(
    asking: &Asking<'_>,
    locked: &Locked,
    held: &mut Held,
    conn: &mut Conn<'_, L>,
    desk: &mut D,
    prompter: &mut P,
) -> Result<OpenedKey, Refusal>
    requires open { IsOpen conn.old }
    requires ready { IsReady (D.at desk.old) (P.at prompter.old) held.old }
    ensures does { LeavesKeys D.turned P.prompted (UncachedOld asking.now.rules.now
        asking.now.options.now asking.now.grip.now asking.now.options.now.mode locked.now)
        held.old conn.old desk.old prompter.old result held.new conn.new desk.new prompter.new }
    ensures ready { IsReady (D.at desk.new) (P.at prompter.new) held.new }
    ensures usable { IfOk result (λ opened. IsUsable opened.key) }
{
    match asking.options.mode() {
        PinMode::Ask => {
            take_seat(asking.grip, held, desk)?;
            prompt_old(asking, locked, held, conn, prompter)
        }
        PinMode::Cancel => Err(Refusal::Agent(Code::Cancelled)),
        PinMode::Error => Err(Refusal::Agent(Code::NoPinentry)),
        PinMode::Loopback => open_by_client(asking, locked, held, conn, desk),
    }
}

/// Opens a locked key by the passphrase that the client itself gives, which is kept.
fn open_by_client<L: Link, D: Desk>(
    asking: &Asking<'_>,
    locked: &Locked,
    held: &Held,
    conn: &mut Conn<'_, L>,
    desk: &mut D,
) -> Result<OpenedKey, Refusal>
    requires open { IsOpen conn.old }
    requires out { (D.at desk.old).out ≡ held.now }
    ensures does { DoesAtDesk
        (ClientOld asking.now.rules.now asking.now.options.now asking.now.grip.now locked.now)
        D.turned held.now conn.old desk.old result held.now conn.new desk.new }
    ensures out { (D.at desk.new).out ≡ held.now }
    ensures usable { IfOk result (λ opened. IsUsable opened.key) }
{
    let pass = ask_client(b"PASSPHRASE", conn)?;
    let Some(opened) = try_pass(asking.alloc, locked, pass.copy())? else {
        return Err(Refusal::Agent(Code::BadPass));
    };
    keep_pass(asking.grip, &pass, held, desk)?;
    Ok(opened)
}
