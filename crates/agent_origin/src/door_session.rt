//! A session by the door that it came in: the outer one (gpg-agent's `--extra-socket`) forbids
//! lines, and both answer HELP and the commands on the trust list themselves. It works on all that
//! a session has. Begin with `serve_door`; it is `ServesDoor`, and each line `DoorExchange`
//! (`specs/DoorSessions`).

ghost use Rattle.std.specs.Prelude.{◌≡◌, None};
ghost use Rattle.{agent_ask.specs.Prompters.IsShut, assuan_server.specs.Connections.IsOpen};
ghost use Rattle.assuan_server.specs.Written.{ok};
ghost use Rattle.agent_origin.specs.DoorSessions.{door_help, ServesDoor};
ghost use Rattle.agent_origin.specs.{TrustExchanges.AnswersTrust, PortStates.surroundings};
ghost use Rattle.agent_origin.specs.TrustRequests.{trust_request_of};
ghost use Rattle.agent_origin.specs.Serving.{SaysText, may_say, command_at};

use crate::door::{Door, allows, sets_terminal};
use crate::trust::read_trust_cut;
use crate::{run_trust, serve};
use agent_ask::{Prompter, unless_cut};
use agent_commands::{LineRequest, SessionEnd, Went, write_help};
use agent_ports::{Dice, Keys, Link, TrustFile};
use assuan_server::Conn;
use cache_policy::Desk;
use command_table::{Command, CommandName, CutLine};
use session_options::{Options, Rules};
use std::alloc::Global;

/// What a session that came in by a door does with a command for itself. All others are those of
/// every session.
#[derive(Clone, Copy, PartialEq, Eq)]
pub(crate) enum DoorCommand {
    /// HELP, which tells the commands on the trust list too.
    Help,
    /// One on the trust list.
    Trust,
    /// OPTION of the terminal or of the language, at the outer door. What another machine names is
    /// its own, so it has no effect here.
    Terminal,
}

/// Whether a session that came in by this door, or by none, may say a line.
pub(crate) fn may_say(door: Option<Door>, line: &CutLine<'_>) -> bool
    ensures { result ≡ may_say door line.now }
{
    match door {
        Some(door) => allows(door, line),
        None => true,
    }
}

/// What such a session does for itself with a line.
// Apart from the session's loop, where a place for the request would be filled anew for each line.
#[inline(never)]
pub(crate) fn door_command(door: Option<Door>, line: &CutLine<'_>) -> Option<DoorCommand>
    ensures { result ≡ command_at door line.now }
{
    if door? == Door::Outer && sets_terminal(&LineRequest::of_cut(line).whole()) {
        return Some(DoorCommand::Terminal);
    }
    match line.command() {
        Some(Command::Cache(CommandName::Help)) => Some(DoorCommand::Help),
        Some(Command::Trust(_)) => Some(DoorCommand::Trust),
        _ => None,
    }
}

/// HELP, which tells the commands on the trust list too.
pub(crate) fn help<L: Link>(conn: &mut Conn<'_, L>) -> Went
    ensures { SaysText door_help conn.old result conn.new }
{
    let cut = Went::End(SessionEnd::WriteFault);
    unless_cut(Went::On, cut, write_help(conn, true))
}

/// Says that all is well, as NOP does.
pub(crate) fn say_ok<L: Link>(conn: &mut Conn<'_, L>) -> Went
    ensures { SaysText ok conn.old result conn.new }
{
    let cut = Went::End(SessionEnd::WriteFault);
    unless_cut(Went::On, cut, conn.ok(b"").whole())
}

/// Reads a request on the trust list, and answers it.
// Apart from the session's loop, where a place for the request would be filled anew for each line.
#[inline(never)]
pub(crate) fn answer_trust<L: Link, D: Desk, P: Prompter, T: TrustFile>(
    alloc: Global,
    line: &CutLine<'_>,
    rules: &Rules,
    options: &Options,
    conn: &mut Conn<'_, L>,
    desk: &mut D,
    prompter: &mut P,
    trust: &mut T,
) -> Went
    requires open { IsOpen conn.old }
    requires free { (D.at desk.old).out ≡ None }
    requires shut { IsShut (P.at prompter.old) }
    ensures answers { AnswersTrust D.turned P.prompted rules.now options.now
        (trust_request_of line.now) conn.old desk.old prompter.old
        (T.trust trust.old) result conn.new desk.new prompter.new (T.trust trust.new) }
    ensures free { (D.at desk.new).out ≡ None }
    ensures shut { IsShut (P.at prompter.new) }
{
    let request = read_trust_cut(line);
    run_trust(alloc, &request, rules, options, conn, desk, prompter, trust)
}

/// Serves a session that came in by this door: greets, and answers request after request until the
/// session ends. No ticket of the session is out and no prompt is open when it returns. Its
/// wrapping keys are overwritten in the end.
///
/// At the outer door a known command that isn't allowed there is answered `Forbidden`, and nothing
/// else is done. An option of the terminal or of the language is answered OK there, and sets
/// nothing.
pub fn serve_door<L: Link, D: Desk, P: Prompter, K: Keys, R: Dice, T: TrustFile>(
    alloc: Global,
    door: Door,
    rules: &Rules,
    link: &mut L,
    desk: &mut D,
    prompter: &mut P,
    keys: &mut K,
    dice: &mut R,
    trust: &mut T,
) -> SessionEnd
    requires free { (D.at desk.old).out ≡ None }
    requires shut { IsShut (P.at prompter.old) }
    ensures serves { ServesDoor D.turned P.prompted door rules.now
        (surroundings D.turned P.prompted (L.input link.old) (L.output link.old)
        desk.old prompter.old (K.keys keys.old) (R.draws dice.old) (T.trust trust.old)) result
        (surroundings D.turned P.prompted (L.input link.new) (L.output link.new) desk.new
        prompter.new (K.keys keys.new) (R.draws dice.new) (T.trust trust.new)) }
    ensures free { (D.at desk.new).out ≡ None }
    ensures shut { IsShut (P.at prompter.new) }
{
    let door = Some(door);
    serve(door, alloc, rules, link, desk, prompter, keys, dice, trust)
}
