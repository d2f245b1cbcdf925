//! GET_PASSPHRASE: by the cache, a prompt, or the client itself (OPTION `pinentry-mode=loopback`).
//! It takes turns at the desk (cache handle), holds the ticket (permit) of a prompt, and calls the
//! prompter and the client. Begin with `get_passphrase`; `specs/Passphrases` has a definition for
//! each of the ways, as `ByUser` and `ByCache`.

ghost use Rattle.std.specs.Prelude.{◌≡◌, ◌≢◌, None, Ok, is_some, true};
ghost use Rattle.agent_ask.specs.{Prompters.IsShut, Session.ActionStates.{DoesAction, DoesPrompts, DoesTurn, DoesTurns}};
ghost use Rattle.assuan_server.specs.{Clients.connection_views, Connections.IsOpen};
ghost use Rattle.agent_commands.specs.Passphrases.{ByCache, ByClient, ByUser, KeepsUnder, LooksFor};
ghost use Rattle.agent_commands.specs.Passphrases.{PromptsAny, Uncached, WantsPrompt};
ghost use Rattle.agent_commands.specs.{Passphrases.WithoutPrompt, States.prompt_state};
ghost use Rattle.agent_commands.specs.Steps.{DoesAtDesk, DoesAtPrompter, IsGet, PassphraseOf};
ghost use Rattle.session_options.specs.declared.options.PinMode.TheVariants as pin_mode;

use crate::found::Found;
use crate::inquiry::ask_client;
use crate::{CacheCommand, Texts};
use agent_ask::{
    AnyPin, Held, Prompter, ask_cache, ask_plan, ask_user, change, close, hold_seat, prompt_spec,
    without_memory,
};
use agent_ports::Link;
use assuan_server::{Code, Conn};
use cache_policy::{CacheId, Desk, Life, Mode, Refused, Reply, Secret, Step, Way};
use session_client::Refusal;
use session_options::{Options, PinMode, Rules};

/// GET_PASSPHRASE: from the cache, or else as the client wants it: by a prompt, or without one.
pub(crate) fn get_passphrase<L: Link, D: Desk, P: Prompter>(
    command: &CacheCommand,
    rules: &Rules,
    options: &Options,
    held: &mut Held,
    conn: &mut Conn<'_, L>,
    desk: &mut D,
    prompter: &mut P,
) -> Result<Found, Refusal>
    requires get { IsGet command.now }
    requires none { held.old ≡ None }
    requires open { IsOpen conn.old }
    requires out { (D.at desk.old).out ≡ held.old }
    requires shut { IsShut (P.at prompter.old) }
    ensures comes { DoesAction connection_views D.turned (DoesPrompts P.prompted)
        (PassphraseOf rules.now options.now command.now) held.old
        (prompt_state D.turned P.prompted conn.old desk.old prompter.old) result held.new
        (prompt_state D.turned P.prompted conn.new desk.new prompter.new) }
    ensures out { (D.at desk.new).out ≡ held.new }
    ensures shut { IsShut (P.at prompter.new) }
{
    let CacheCommand::GetPassphrase {
        plain: _,
        check,
        no_ask,
        repeat,
        quality,
        id,
        texts,
    } = command
    else {
        unreachable!()
    };
    match texts {
        Some(texts) if !*no_ask => match options.mode() {
            PinMode::Ask => {
                let asking = Asking {
                    rules,
                    options,
                    texts,
                    check: *check,
                    quality: *quality,
                    repeat: *repeat,
                };
                by_user(&asking, id, held, conn, desk, prompter)
            }
            mode => without_prompt(mode, id, conn, desk),
        },
        _ => by_cache(id, desk),
    }
}

/// A passphrase from the cache alone.
pub(crate) fn by_cache<D: Desk>(id: &Option<CacheId>, desk: &mut D) -> Result<Found, Refusal>
    ensures turn { DoesTurns D.turned (ByCache id.now) None desk.old result None desk.new }
    ensures out { (D.at desk.new).out ≡ (D.at desk.old).out }
{
    match look(id, desk)? {
        Some(found) => Ok(found),
        None => Err(Refusal::Agent(Code::NoData)),
    }
}

/// What is cached, where there is an id.
fn look<D: Desk>(id: &Option<CacheId>, desk: &mut D) -> Result<Option<Found>, Refusal>
    ensures turn { DoesTurns D.turned (LooksFor id.now) None desk.old result None desk.new }
    ensures out { (D.at desk.new).out ≡ (D.at desk.old).out }
{
    let Some(id) = id else {
        return Ok(None);
    };
    match desk.turn(Step::Ask {
        id: id.copy(),
        mode: Mode::User,
        way: Way::Quiet,
        wait: None,
    }) {
        Ok(Reply::Given(grant)) => Ok(Some(Found::cached(grant))),
        Ok(Reply::Empty) => Ok(None),
        Ok(Reply::Stopping) => Err(Refusal::Agent(Code::Cancelled)),
        Ok(_) => unreachable!(),
        Err(Refused { step }) => Err(without_memory(step)),
    }
}

/// A passphrase from the cache, or else as the client wants it where it wants no prompt.
fn without_prompt<L: Link, D: Desk>(
    mode: PinMode,
    id: &Option<CacheId>,
    conn: &mut Conn<'_, L>,
    desk: &mut D,
) -> Result<Found, Refusal>
    requires open { IsOpen conn.old }
    requires mode { mode ≢ pin_mode.Ask }
    ensures comes { DoesAtDesk (WithoutPrompt id.now mode) D.turned
        conn.old desk.old result conn.new desk.new }
    ensures out { (D.at desk.new).out ≡ (D.at desk.old).out }
{
    match look(id, desk)? {
        Some(found) => Ok(found),
        None => uncached(mode, id, conn, desk),
    }
}

/// A passphrase that isn't cached, where the client wants no prompt.
fn uncached<L: Link, D: Desk>(
    mode: PinMode,
    id: &Option<CacheId>,
    conn: &mut Conn<'_, L>,
    desk: &mut D,
) -> Result<Found, Refusal>
    requires open { IsOpen conn.old }
    requires mode { mode ≢ pin_mode.Ask }
    ensures comes { DoesAtDesk (Uncached id.now mode) D.turned
        conn.old desk.old result conn.new desk.new }
    ensures out { (D.at desk.new).out ≡ (D.at desk.old).out }
{
    match mode {
        PinMode::Cancel => Err(Refusal::Agent(Code::Cancelled)),
        PinMode::Error => Err(Refusal::Agent(Code::NoPinentry)),
        PinMode::Loopback => by_client(id, conn, desk),
        PinMode::Ask => unreachable!(),
    }
}

/// Asks the client for the passphrase, and keeps it.
fn by_client<L: Link, D: Desk>(
    id: &Option<CacheId>,
    conn: &mut Conn<'_, L>,
    desk: &mut D,
) -> Result<Found, Refusal>
    requires open { IsOpen conn.old }
    ensures comes { DoesAtDesk (ByClient id.now) D.turned
        conn.old desk.old result conn.new desk.new }
    ensures out { (D.at desk.new).out ≡ (D.at desk.old).out }
{
    let secret = ask_client(conn)?;
    keep(id, &secret, desk)?;
    Ok(Found::own(secret))
}

/// Keeps what the client gave, where there is an id.
fn keep<D: Desk>(id: &Option<CacheId>, secret: &Secret, desk: &mut D) -> Result<(), Refusal>
    ensures turn { DoesTurns D.turned
        (KeepsUnder id.now secret.now) None desk.old result None desk.new }
    ensures out { (D.at desk.new).out ≡ (D.at desk.old).out }
{
    let Some(id) = id else {
        return Ok(());
    };
    let step = Step::Put {
        id: id.copy(),
        mode: Mode::User,
        life: Life::Default,
        secret: secret.copy(),
    };
    change(step, desk)
}

/// What is cached, or else the seat for a prompt, which the request holds then.
fn want_prompt<D: Desk>(
    id: &Option<CacheId>,
    held: &mut Held,
    desk: &mut D,
) -> Result<Option<Secret>, Refusal>
    requires none { held.old ≡ None }
    requires out { (D.at desk.old).out ≡ held.old }
    ensures turn { DoesTurn D.turned
        (WantsPrompt id.now) held.old desk.old result held.new desk.new }
    ensures out { (D.at desk.new).out ≡ held.new }
    ensures seated { result ≡ Ok None → is_some held.new ≡ true }
{
    match id {
        Some(id) => ask_cache(id.copy(), Mode::User, Way::Prompt, held, desk),
        None => {
            hold_seat(None, held, desk)?;
            Ok(None)
        }
    }
}

/// By what the user is asked for a passphrase.
#[derive(Drop)]
struct Asking<'a> {
    rules: &'a Rules,
    options: &'a Options,
    texts: &'a Texts,
    check: bool,
    quality: bool,
    repeat: u8,
}

/// A passphrase from the cache, or else by a prompt.
fn by_user<L: Link, D: Desk, P: Prompter>(
    asking: &Asking<'_>,
    id: &Option<CacheId>,
    held: &mut Held,
    conn: &mut Conn<'_, L>,
    desk: &mut D,
    prompter: &mut P,
) -> Result<Found, Refusal>
    requires none { held.old ≡ None }
    requires open { IsOpen conn.old }
    requires out { (D.at desk.old).out ≡ held.old }
    requires shut { IsShut (P.at prompter.old) }
    ensures comes { DoesAction connection_views D.turned (DoesPrompts P.prompted)
        (ByUser asking.now.rules.now asking.now.options.now asking.now.texts.now
        asking.now.check asking.now.quality asking.now.repeat id.now) held.old
        (prompt_state D.turned P.prompted conn.old desk.old prompter.old) result held.new
        (prompt_state D.turned P.prompted conn.new desk.new prompter.new) }
    ensures out { (D.at desk.new).out ≡ held.new }
    ensures shut { IsShut (P.at prompter.new) }
{
    if let Some(found) = want_prompt(id, held, desk)? {
        return Ok(Found::own(found));
    }
    let pin = prompt(asking, held, conn, prompter)?;
    close(Some(pin.copy()), held, desk);
    Ok(Found::own(pin))
}

/// Asks the user by one prompt under the ticket that the request holds.
fn prompt<L: Link, P: Prompter>(
    asking: &Asking<'_>,
    held: &Held,
    conn: &mut Conn<'_, L>,
    prompter: &mut P,
) -> Result<Secret, Refusal>
    requires open { IsOpen conn.old }
    requires shut { IsShut (P.at prompter.old) }
    requires seated { is_some held.now ≡ true }
    ensures prompts { DoesAtPrompter
        (PromptsAny asking.now.rules.now asking.now.options.now asking.now.texts.now
        asking.now.check asking.now.quality asking.now.repeat) P.prompted held.now
        conn.old prompter.old result conn.new prompter.new }
    ensures shut { IsShut (P.at prompter.new) }
{
    let (texts, rules, options) = (asking.texts, asking.rules, asking.options);
    let spec = prompt_spec(
        &texts.description,
        &texts.prompt,
        asking.quality,
        rules,
        options,
    );
    let plan = ask_plan(&texts.error, asking.check, asking.repeat, rules, options);
    ask_user(held.ticket(), &spec, &plan, &mut AnyPin, conn, prompter)
}
