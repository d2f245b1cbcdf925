//! A request of any session, answered: first by the door that it came in by, where it did, else on
//! the cache, on the session or on keys. It works on all that a session has, and overwrites the
//! stack behind a request that may have had a passphrase. Begin with `answer`; what it does is
//! `exchange_at` (`specs/DoorSessions`).

ghost use Rattle.std.specs.Prelude.{◌≡◌, None};
ghost use Rattle.{agent_ask.specs.Prompters.IsShut};
ghost use Rattle.assuan_server.specs.{Connections.IsOpen, Written.failed};
ghost use Rattle.agent_commands.specs.{Requests.request_of, States.AnswersRequest};
ghost use Rattle.key_commands.specs.States.{KeyWorld, key_state};
ghost use Rattle.command_table.specs.Commands.{command_in};
ghost use Rattle.agent_origin.specs.SessionExchanges.{went_after_key, described_after};
ghost use Rattle.agent_origin.specs.SessionExchanges.{RequestExchange};
ghost use Rattle.agent_origin.specs.Serving.{SaysText, is_on_keys};
ghost use Rattle.agent_origin.specs.{DoorSessions.exchange_at, PortStates.{PortWorld, port_state}};

use crate::door_session::{DoorCommand, answer_trust, door_command, help, may_say, say_ok};
use crate::{Door, SessionState};
use agent_ask::{Prompter, unless_cut};
use agent_commands::{LineRequest, SessionEnd, Went, run_cache, run_quiet};
use agent_ports::{Dice, Keys, Link, TrustFile};
use assuan_server::{Code, Conn, Origin};
use cache_policy::Desk;
use command_table::{Command, CutLine};
use key_commands::{KeyWent, read_key_cut, run_key};
use session_options::{Options, Rules};
use std::alloc::Global;
use wiping::wipe_stack;

/// Answers the request of a line, and says how the session goes on. Where the session came in by no
/// door, no command is a door's own, none is forbidden, and the trust file isn't called.
///
/// The line is read once; for a request that asks the cache alone the texts, which are long, are
/// not made. Behind any other one the stack that it used is overwritten: it may have had a
/// passphrase in hand. Behind one that asks the cache alone that would take longer than the
/// request.
pub(crate) fn answer<L: Link, D: Desk, P: Prompter, K: Keys, R: Dice, T: TrustFile>(
    door: Option<Door>,
    alloc: Global,
    line: &CutLine<'_>,
    rules: &Rules,
    kept: &mut SessionState,
    conn: &mut Conn<'_, L>,
    desk: &mut D,
    prompter: &mut P,
    keys: &mut K,
    dice: &mut R,
    trust: &mut T,
) -> Went
    requires open { IsOpen conn.old }
    requires free { (D.at desk.old).out ≡ None }
    requires shut { IsShut (P.at prompter.old) }
    ensures answers { AnswersRequest {w = PortWorld D.turned P.prompted}
        (λ before. exchange_at door rules.now before line.now) kept.old
        (port_state D.turned P.prompted conn.old desk.old prompter.old
        (K.keys keys.old) (R.draws dice.old) (T.trust trust.old)) result kept.new
        (port_state D.turned P.prompted conn.new desk.new prompter.new (K.keys keys.new)
        (R.draws dice.new) (T.trust trust.new)) }
    ensures free { (D.at desk.new).out ≡ None }
    ensures shut { IsShut (P.at prompter.new) }
{
    if !may_say(door, line) {
        return refuse(Code::Forbidden, conn);
    }
    match door_command(door, line) {
        Some(DoorCommand::Help) => return help(conn),
        Some(DoorCommand::Terminal) => return say_ok(conn),
        Some(DoorCommand::Trust) => {
            let options = &kept.options;
            return answer_trust(alloc, line, rules, options, conn, desk, prompter, trust);
        }
        None => {}
    }
    let request = LineRequest::of_cut(line);
    if let Some(quiet) = request.quiet() {
        return run_quiet(&quiet, conn, desk);
    }
    let went = answer_whole(
        alloc, line, &request, rules, kept, conn, desk, prompter, keys, dice,
    );
    wipe_stack();
    went
}

/// Answers one request by all that its line says.
// Apart from the session's loop, where a place for the request would be filled anew for each line.
#[inline(never)]
fn answer_whole<L: Link, D: Desk, P: Prompter, K: Keys, R: Dice>(
    alloc: Global,
    line: &CutLine<'_>,
    request: &LineRequest<'_>,
    rules: &Rules,
    kept: &mut SessionState,
    conn: &mut Conn<'_, L>,
    desk: &mut D,
    prompter: &mut P,
    keys: &mut K,
    dice: &mut R,
) -> Went
    requires read { request.now ≡ line.now }
    requires open { IsOpen conn.old }
    requires free { (D.at desk.old).out ≡ None }
    requires shut { IsShut (P.at prompter.old) }
    ensures answers { AnswersRequest {w = KeyWorld D.turned P.prompted}
        (λ before. RequestExchange rules.now before (request_of line.now)) kept.old
        (key_state D.turned P.prompted conn.old desk.old prompter.old
        (K.keys keys.old) (R.draws dice.old)) result kept.new
        (key_state D.turned P.prompted conn.new desk.new prompter.new (K.keys keys.new)
        (R.draws dice.new)) }
    ensures free { (D.at desk.new).out ≡ None }
    ensures shut { IsShut (P.at prompter.new) }
{
    if is_on_keys(line) {
        let request = read_key_cut(line);
        let went = run_key(
            alloc,
            &request,
            rules,
            &kept.options,
            &mut kept.wraps,
            conn,
            desk,
            prompter,
            keys,
            dice,
        );
        end_description(line, &mut kept.options);
        return went_after_key(went);
    }
    match request.cache_command() {
        Ok(command) => run_cache(&command, rules, &mut kept.options, conn, desk, prompter),
        Err(code) => refuse(code, conn),
    }
}

/// Whether its command is one on keys.
fn is_on_keys(line: &CutLine<'_>) -> bool
    ensures { result ≡ is_on_keys (command_in line.now) }
{
    matches!(line.command(), Some(Command::Key(_)))
}

/// Ends the description of prompts behind a line with a command on keys, where that one may prompt.
fn end_description(line: &CutLine<'_>, options: &mut Options)
    ensures { options.new ≡ described_after line.now options.old }
{
    if line.ends_description() {
        options.end_description();
    }
}

/// Refuses a request.
pub(crate) fn refuse<L: Link>(code: Code, conn: &mut Conn<'_, L>) -> Went
    ensures { SaysText (failed code) conn.old result conn.new }
{
    let cut = Went::End(SessionEnd::WriteFault);
    unless_cut(Went::On, cut, conn.err(code, Origin::Agent).whole())
}

/// How the session goes on after a request on keys.
fn went_after_key(went: KeyWent) -> Went
    ensures { result ≡ went_after_key went }
{
    match went {
        KeyWent::On => Went::On,
        KeyWent::Gone(gone) => Went::End(SessionEnd::from(gone)),
    }
}
