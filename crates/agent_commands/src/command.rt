//! A command on the cache or on the session, carried out and answered. It works on the connection,
//! the desk (cache handle), the prompter and the session's options, and leaves no ticket (permit)
//! out. Begin with `run_cache`, and with `run_quiet` for the cache alone; what is done is
//! `CacheExchange` (`specs/Exchanges`).

ghost use Rattle.std.specs.Prelude.{◌≡◌, ℕ, List, None, Some};
ghost use Rattle.agent_ask.specs.{Prompters.IsShut, Session.ActionStates.{DoesPrompts, DoesWithClient, NoEnd, action_state}};
ghost use Rattle.{agent_ask.specs.Seats.ChangesCache, assuan_server.specs.Clients.connection_views};
ghost use Rattle.assuan_server.specs.Connections.{Connection, IsOpen};
ghost use Rattle.cache_policy.specs.declared.mark.MarkStep.TheVariants.{Clear};
ghost use Rattle.session_options.specs.OptionValues.{OptionValues};
ghost use Rattle.session_options.specs.declared.rules.Rules.{Rules as TheRules};
ghost use Rattle.agent_commands.specs.Exchanges.{LineExchange, quiet_of, CacheExchange};
ghost use Rattle.agent_commands.specs.Exchanges.{CacheReplies, GivenOrAsked, Presets};
ghost use Rattle.agent_commands.specs.Outside.{prompt_world, world};
ghost use Rattle.agent_commands.specs.Requests.{request_of};
ghost use Rattle.agent_commands.specs.States.{served_state, prompt_state, AnswersRequest};
ghost use Rattle.agent_commands.specs.Steps.{AsksNobody, CarriesOut, DoesAtDesk, TellsCached};
ghost use Rattle.agent_commands.specs.Steps.{info_response, option_reply};
ghost use Rattle.agent_commands.specs.declared.request.Request.TheVariants as request;

use crate::inquiry::ask_client;
use crate::passphrase::{by_cache, get_passphrase};
use crate::read::text_of;
use crate::response::{Response, respond};
use crate::{CacheCommand, Info, QuietRequest, Went};
use agent_ask::{Held, Prompter, agree_by_mode, change, close};
use agent_ports::Link;
use assuan_server::{Code, Conn};
use cache_policy::{CacheId, Desk, Life, Mode, Secret, Step};
use session_client::Refusal;
use session_options::{OptionAnswer, Options, Rules};

/// Does what a command asks for, answers it, and says how the session goes on. No ticket is out and
/// no prompt is open when it returns.
// Apart from the session's loop, where its places would be filled anew for each line.
#[inline(never)]
pub fn run_cache<L: Link, D: Desk, P: Prompter>(
    command: &CacheCommand,
    rules: &Rules,
    options: &mut Options,
    conn: &mut Conn<'_, L>,
    desk: &mut D,
    prompter: &mut P,
) -> Went
    requires open { IsOpen conn.old }
    requires free { (D.at desk.old).out ≡ None }
    requires shut { IsShut (P.at prompter.old) }
    ensures answers { AnswersRequest {w = prompt_world D.turned P.prompted}
        (λ before. CacheExchange rules.now before (request.Cache command.now)) options.old
        (prompt_state D.turned P.prompted conn.old desk.old prompter.old) result options.new
        (prompt_state D.turned P.prompted conn.new desk.new prompter.new) }
    ensures free { (D.at desk.new).out ≡ None }
    ensures shut { IsShut (P.at prompter.new) }
{
    let mut held = Held::new();
    let reply = carry_out(command, rules, options, &mut held, conn, desk, prompter);
    close(None, &mut held, desk);
    held.end();
    respond(&reply, conn)
}

/// Answers a request that asks the cache alone, and says how the session goes on.
pub fn run_quiet<L: Link, D: Desk>(
    request: &QuietRequest,
    conn: &mut Conn<'_, L>,
    desk: &mut D,
) -> Went
    requires { IsOpen conn.old }
    ensures answers { (rules : TheRules) (options : OptionValues) (line : List ℕ)
        → quiet_of (request_of line) ≡ Some request.now
        → AnswersRequest {w = world D.turned} (λ before. LineExchange rules before line) options
        (served_state D.turned conn.old desk.old) result options
        (served_state D.turned conn.new desk.new) }
    ensures out { (D.at desk.new).out ≡ (D.at desk.old).out }
{
    let reply = cached_reply(request, desk);
    respond(&reply, conn)
}

/// The reply of a request that asks the cache alone.
fn cached_reply<D: Desk>(request: &QuietRequest, desk: &mut D) -> Result<Response, Refusal>
    ensures tells { TellsCached D.turned request.now.plain request.now.id
        desk.old result desk.new }
    ensures out { (D.at desk.new).out ≡ (D.at desk.old).out }
{
    let secret = by_cache(&request.id, desk)?;
    Ok(Response::Passphrase {
        secret,
        plain: request.plain,
    })
}

/// Does what a command asks for, and gives its reply, or how it is refused. A ticket may be held
/// when it returns.
fn carry_out<L: Link, D: Desk, P: Prompter>(
    command: &CacheCommand,
    rules: &Rules,
    options: &mut Options,
    held: &mut Held,
    conn: &mut Conn<'_, L>,
    desk: &mut D,
    prompter: &mut P,
) -> Result<Response, Refusal>
    requires none { held.old ≡ None }
    requires open { IsOpen conn.old }
    requires out { (D.at desk.old).out ≡ held.old }
    requires shut { IsShut (P.at prompter.old) }
    ensures carries { CarriesOut D.turned (DoesPrompts P.prompted)
        (CacheReplies rules.now options.old command.now) options.old
        (prompt_state D.turned P.prompted conn.old desk.old prompter.old)
        result options.new held.new
        (prompt_state D.turned P.prompted conn.new desk.new prompter.new) }
    ensures out { (D.at desk.new).out ≡ held.new }
    ensures shut { IsShut (P.at prompter.new) }
{
    match command {
        CacheCommand::GetPassphrase { plain, .. } => {
            let secret = get_passphrase(command, rules, options, held, conn, desk, prompter)?;
            Ok(Response::Passphrase {
                secret,
                plain: *plain,
            })
        }
        CacheCommand::PresetPassphrase { id, life, secret } => {
            preset(id, *life, secret, rules, conn, desk)?;
            Ok(Response::Ok)
        }
        CacheCommand::GetConfirmation { description } => {
            agree_by_mode(description, rules, options, held, conn, desk, prompter)?;
            Ok(Response::Ok)
        }
        command => carry_alone(command, rules, options, desk),
    }
}

/// Does what a command asks for that wants nothing of the client or the user.
fn carry_alone<D: Desk>(
    command: &CacheCommand,
    rules: &Rules,
    options: &mut Options,
    desk: &mut D,
) -> Result<Response, Refusal>
    requires { AsksNobody command.now }
    ensures carries { (conn : Connection) → IsOpen conn → CarriesOut D.turned NoEnd
        (CacheReplies rules.now options.old command.now) options.old
        (action_state connection_views D.turned NoEnd conn desk.old tt) result options.new None
        (action_state connection_views D.turned NoEnd conn desk.new tt) }
    ensures out { (D.at desk.new).out ≡ (D.at desk.old).out }
{
    match command {
        CacheCommand::Nop => Ok(Response::Ok),
        CacheCommand::Reset => {
            options.reset();
            Ok(Response::Ok)
        }
        CacheCommand::Bye => Ok(Response::Bye),
        CacheCommand::Help => Ok(Response::Help),
        CacheCommand::SetOption { text } => set_option(options.set(text)),
        CacheCommand::SetKeyDesc { text } => {
            options.describe(text_of(text));
            Ok(Response::Ok)
        }
        CacheCommand::GetInfo(info) => Ok(info_response(*info, rules)),
        CacheCommand::ClearPassphrase { id, mode } => {
            clear(id, *mode, desk)?;
            Ok(Response::Ok)
        }
        CacheCommand::ReloadAgent => {
            change(Step::Flush, desk)?;
            Ok(Response::Ok)
        }
        CacheCommand::KillAgent => {
            change(Step::Stop, desk)?;
            Ok(Response::Killed)
        }
        _ => unreachable!(),
    }
}

/// What OPTION is answered.
fn set_option(answer: OptionAnswer) -> Result<Response, Refusal>
    ensures { result ≡ option_reply answer }
{
    match answer {
        OptionAnswer::Set => Ok(Response::Ok),
        OptionAnswer::Unknown => Err(Refusal::Agent(Code::UnknownOption)),
        OptionAnswer::Parameter => Err(Refusal::Agent(Code::Parameter)),
        OptionAnswer::NotSupported => Err(Refusal::Agent(Code::NotSupported)),
    }
}

fn info_response(info: Info, rules: &Rules) -> Response
    ensures { result ≡ info_response rules.now info }
{
    match info {
        Info::Version => Response::Version(rules.version.copied()),
        Info::Pid => Response::Number(rules.pid as u64),
        Info::S2kCount => Response::Number(rules.s2k_count),
        Info::Listed => Response::Ok,
    }
}

/// PRESET_PASSPHRASE.
fn preset<L: Link, D: Desk>(
    id: &CacheId,
    life: Life,
    secret: &Option<Secret>,
    rules: &Rules,
    conn: &mut Conn<'_, L>,
    desk: &mut D,
) -> Result<(), Refusal>
    requires { IsOpen conn.old }
    ensures presets { DoesAtDesk (Presets rules.now id.now life secret.now) D.turned
        conn.old desk.old result conn.new desk.new }
    ensures out { (D.at desk.new).out ≡ (D.at desk.old).out }
{
    if !rules.allow_preset {
        return Err(Refusal::Agent(Code::NotSupported));
    }
    let secret = given_or_asked(secret, conn)?;
    let step = Step::Put {
        id: id.copy(),
        mode: Mode::Any,
        life,
        secret,
    };
    change(step, desk)
}

/// The passphrase that the line has, or that the client is asked for.
fn given_or_asked<L: Link>(
    secret: &Option<Secret>,
    conn: &mut Conn<'_, L>,
) -> Result<Secret, Refusal>
    requires { IsOpen conn.old }
    ensures { DoesWithClient connection_views (GivenOrAsked secret.now) conn.old result conn.new }
{
    match secret {
        Some(secret) => Ok(secret.copy()),
        None => ask_client(conn),
    }
}

/// CLEAR_PASSPHRASE.
fn clear<D: Desk>(id: &CacheId, mode: Mode, desk: &mut D) -> Result<(), Refusal>
    ensures turn { ChangesCache D.turned (Clear id.now mode) desk.old result desk.new }
    ensures out { (D.at desk.new).out ≡ (D.at desk.old).out }
{
    let step = Step::Clear {
        id: id.copy(),
        mode,
    };
    change(step, desk)
}
