//! A request on the trust list, carried out and answered. It works on the connection, the desk
//! (cache handle), the prompter and the trust file, and leaves no ticket (permit) out. Begin with
//! `run_trust`; what it does is `AnswersTrust` (`specs/TrustExchanges`).

ghost use Rattle.std.specs.Prelude.{◌≡◌, None};
ghost use Rattle.agent_ask.specs.{Prompters.IsShut, Seats.IsReady};
ghost use Rattle.assuan_server.specs.Connections.{IsOpen};
ghost use Rattle.agent_origin.specs.TrustExchanges.{AnswersTrust, Carried};
ghost use Rattle.agent_origin.specs.TrustStates.{LeavesKeys};

use super::TrustRequest;
use super::calls::trusted_now;
use super::marking::{Marking, mark_trusted};
use super::reply::respond;
use agent_ask::{Held, Prompter, close};
use agent_commands::Went;
use agent_ports::{Link, TrustFile};
use assuan_server::Conn;
use cache_policy::Desk;
use session_client::Refusal;
use session_options::{Options, Rules};
use std::alloc::Global;

/// Does what a request asks for, answers it, and says how the session goes on. No ticket is out and
/// no prompt is open when it returns.
pub fn run_trust<L: Link, D: Desk, P: Prompter, T: TrustFile>(
    alloc: Global,
    request: &TrustRequest,
    rules: &Rules,
    options: &Options,
    conn: &mut Conn<'_, L>,
    desk: &mut D,
    prompter: &mut P,
    trust: &mut T,
) -> Went
    requires open { IsOpen conn.old }
    requires free { (D.at desk.old).out ≡ None }
    requires shut { IsShut (P.at prompter.old) }
    ensures answers { AnswersTrust D.turned P.prompted rules.now options.now request.now
        conn.old desk.old prompter.old (T.trust trust.old) result conn.new desk.new prompter.new
        (T.trust trust.new) }
    ensures free { (D.at desk.new).out ≡ None }
    ensures shut { IsShut (P.at prompter.new) }
{
    let mut held = Held::new();
    let carried = carry_out(
        alloc, request, rules, options, &mut held, conn, desk, prompter, trust,
    );
    close(None, &mut held, desk);
    held.end();
    respond(carried, conn)
}

/// Does what a request asks for, or says why it is refused. A ticket may be held when it returns.
fn carry_out<L: Link, D: Desk, P: Prompter, T: TrustFile>(
    alloc: Global,
    request: &TrustRequest,
    rules: &Rules,
    options: &Options,
    held: &mut Held,
    conn: &mut Conn<'_, L>,
    desk: &mut D,
    prompter: &mut P,
    trust: &mut T,
) -> Result<(), Refusal>
    requires none { held.old ≡ None }
    requires open { IsOpen conn.old }
    requires ready { IsReady (D.at desk.old) (P.at prompter.old) held.old }
    ensures carries { LeavesKeys D.turned P.prompted
        (Carried rules.now options.now request.now) None conn.old desk.old prompter.old
        (T.trust trust.old) result held.new conn.new desk.new prompter.new (T.trust trust.new) }
    ensures ready { IsReady (D.at desk.new) (P.at prompter.new) held.new }
{
    match request {
        TrustRequest::IsTrusted { fingerprint } => trusted_now(alloc, fingerprint, trust),
        TrustRequest::MarkTrusted {
            fingerprint,
            purpose,
            name,
        } => {
            let marking = Marking {
                alloc,
                rules,
                options,
                fingerprint,
                purpose: *purpose,
                name,
            };
            mark_trusted(&marking, held, conn, desk, prompter, trust)
        }
        TrustRequest::Bad(code) => Err(Refusal::Agent(*code)),
    }
}
