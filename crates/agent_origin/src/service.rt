//! The frame of every session: its greeting, its requests one after another, and its end. It works
//! on all that a session has, and overwrites its wrapping keys and its stack at the end. Begin with
//! `serve`; definitions begin in `specs/Sessions`.

ghost use Rattle.std.specs.Prelude.{◌≡◌, None};
ghost use Rattle.{agent_ask.specs.Prompters.IsShut, assuan_server.specs.Connections.IsOpen};
ghost use Rattle.agent_origin.specs.PortStates.{PortWorld, port_state, surroundings};
ghost use Rattle.agent_origin.specs.{DoorSessions.exchange_at, Serving.{ServesRequests}};
ghost use Rattle.agent_origin.specs.{SessionExchanges.kept_at_start, Sessions.ServesSession};

use crate::answering::answer;
use crate::{Door, SessionState};
use agent_ask::Prompter;
use agent_commands::{SessionEnd, Went};
use agent_ports::{Dice, Keys, Link, TrustFile, WriteFault};
use assuan_line::{BUDGET, Took};
use assuan_server::{Code, Conn, Origin};
use cache_policy::Desk;
use command_table::CutLine;
use session_options::Rules;
use std::alloc::Global;
use wiping::wipe_stack;

/// Serves a session on a link: greets, and answers request after request until the session ends, as
/// `serve_door` does where it came in by a door. No ticket of the session is out and no prompt is
/// open when it returns. Its wrapping keys are overwritten in the end.
pub fn serve<L: Link, D: Desk, P: Prompter, K: Keys, R: Dice, T: TrustFile>(
    door: Option<Door>,
    alloc: Global,
    rules: &Rules,
    link: &mut L,
    desk: &mut D,
    prompter: &mut P,
    keys: &mut K,
    dice: &mut R,
    trust: &mut T,
) -> SessionEnd
    requires free { (D.at desk.old).out ≡ None }
    requires shut { IsShut (P.at prompter.old) }
    ensures serves { ServesSession {w = PortWorld D.turned P.prompted}
        (exchange_at door rules.now) (kept_at_start rules.now)
        (surroundings D.turned P.prompted (L.input link.old) (L.output link.old)
        desk.old prompter.old (K.keys keys.old) (R.draws dice.old) (T.trust trust.old)) result
        (surroundings D.turned P.prompted (L.input link.new) (L.output link.new) desk.new
        prompter.new (K.keys keys.new) (R.draws dice.new) (T.trust trust.new)) }
    ensures free { (D.at desk.new).out ≡ None }
    ensures shut { IsShut (P.at prompter.new) }
{
    let mut conn = Conn::new(alloc, link, BUDGET);
    match conn.greet().whole() {
        Ok(()) => {
            let mut kept = SessionState::new(rules);
            let end = serve_requests(
                door, alloc, rules, &mut kept, &mut conn, desk, prompter, keys, dice, trust,
            );
            kept.wraps.clear();
            wipe_stack();
            // So what the connection did is known of the link.
            conn.into_link();
            end
        }
        Err(WriteFault) => {
            conn.into_link();
            SessionEnd::WriteFault
        }
    }
}

/// Answers requests up to the end of the session.
fn serve_requests<L: Link, D: Desk, P: Prompter, K: Keys, R: Dice, T: TrustFile>(
    door: Option<Door>,
    alloc: Global,
    rules: &Rules,
    kept: &mut SessionState,
    conn: &mut Conn<'_, L>,
    desk: &mut D,
    prompter: &mut P,
    keys: &mut K,
    dice: &mut R,
    trust: &mut T,
) -> SessionEnd
    requires open { IsOpen conn.old }
    requires free { (D.at desk.old).out ≡ None }
    requires shut { IsShut (P.at prompter.old) }
    ensures serves { ServesRequests
        {w = PortWorld D.turned P.prompted} (exchange_at door rules.now) kept.old
        (port_state D.turned P.prompted conn.old desk.old prompter.old
        (K.keys keys.old) (R.draws dice.old) (T.trust trust.old)) result
        (port_state D.turned P.prompted conn.new desk.new prompter.new (K.keys keys.new)
        (R.draws dice.new) (T.trust trust.new)) }
    ensures free { (D.at desk.new).out ≡ None }
    ensures shut { IsShut (P.at prompter.new) }
{
    loop {
        let mut took = conn.next_request();
        match &mut took {
            Took::Line(line) => {
                let went = answer(
                    door,
                    alloc,
                    &CutLine::of(line),
                    rules,
                    kept,
                    conn,
                    desk,
                    prompter,
                    keys,
                    dice,
                    trust,
                );
                line.clear();
                match went {
                    Went::On => {}
                    Went::End(end) => return end,
                }
            }
            Took::TooLong => match conn.err(Code::LineTooLong, Origin::Agent).whole() {
                Ok(()) => return SessionEnd::TooLong,
                Err(WriteFault) => return SessionEnd::WriteFault,
            },
            Took::End => return SessionEnd::Ended,
            Took::Spent => return SessionEnd::Spent,
            Took::ReadFault => return SessionEnd::ReadFault,
        }
    }
}
