//! MARKTRUSTED: two consents of the user under one ticket (permit), and then an entry in the trust
//! list. It works on the desk (cache handle), the prompter, the client and the trust file. Begin
//! with `mark_trusted`; its events are `Marked` (`specs/TrustExchanges`).

ghost use Rattle.std.specs.Prelude.{◌≡◌, None, Some};
ghost use Rattle.agent_ask.specs.{Session.ActionStates.NoTurn, Prompters.IsShut, Seats.IsReady};
ghost use Rattle.assuan_server.specs.Connections.{IsOpen};
ghost use Rattle.agent_origin.specs.TrustExchanges.{Consented, Marked, asked_in};
ghost use Rattle.agent_origin.specs.TrustStates.{LeavesKeys};

use super::calls::{read_file, store_unsaid};
use super::questions::{fingerprint_question, trust_question};
use super::{OwnerName, TrustPurpose};
use agent_ask::{Held, Prompter, agree, seat_by_mode};
use agent_ports::{Grip, Link, TrustFile};
use assuan_server::{Code, Conn};
use cache_policy::Desk;
use prompt_seat::Ticket;
use session_client::Refusal;
use session_options::{Options, Rules};
use std::alloc::Global;
use trust_list::trusted;

/// The certificate that is to be trusted, and by what the user is asked.
#[derive(Drop)]
pub(crate) struct Marking<'a> {
    pub(crate) alloc: Global,
    pub(crate) rules: &'a Rules,
    pub(crate) options: &'a Options,
    pub(crate) fingerprint: &'a Grip,
    pub(crate) purpose: TrustPurpose,
    pub(crate) name: &'a OwnerName,
}

/// Marks a certificate as trusted, unless the file says already whether it is.
pub(crate) fn mark_trusted<L: Link, D: Desk, P: Prompter, T: TrustFile>(
    marking: &Marking<'_>,
    held: &mut Held,
    conn: &mut Conn<'_, L>,
    desk: &mut D,
    prompter: &mut P,
    trust: &mut T,
) -> Result<(), Refusal>
    requires none { held.old ≡ None }
    requires open { IsOpen conn.old }
    requires ready { IsReady (D.at desk.old) (P.at prompter.old) held.old }
    ensures marks { LeavesKeys D.turned P.prompted
        (Marked marking.now.rules.now marking.now.options.now marking.now.fingerprint.now
        marking.now.purpose marking.now.name.now.items) None conn.old desk.old prompter.old
        (T.trust trust.old) result held.new conn.new desk.new prompter.new (T.trust trust.new) }
    ensures ready { IsReady (D.at desk.new) (P.at prompter.new) held.new }
{
    let file = read_file(marking.alloc, trust)?;
    match trusted(&file, marking.fingerprint) {
        Some(true) => Ok(()),
        Some(false) => Err(Refusal::Agent(Code::NotTrusted)),
        None => ask(marking, held, conn, desk, prompter, trust),
    }
}

/// Asks the user, where the client wants prompts. The ticket of the prompts may be held when it
/// returns.
fn ask<L: Link, D: Desk, P: Prompter, T: TrustFile>(
    marking: &Marking<'_>,
    held: &mut Held,
    conn: &mut Conn<'_, L>,
    desk: &mut D,
    prompter: &mut P,
    trust: &mut T,
) -> Result<(), Refusal>
    requires none { held.old ≡ None }
    requires open { IsOpen conn.old }
    requires ready { IsReady (D.at desk.old) (P.at prompter.old) held.old }
    ensures asks { LeavesKeys D.turned P.prompted
        (asked_in marking.now.rules.now marking.now.options.now marking.now.fingerprint.now
        marking.now.purpose marking.now.name.now.items marking.now.options.now.mode)
        None conn.old desk.old prompter.old (T.trust trust.old) result held.new conn.new
        desk.new prompter.new (T.trust trust.new) }
    ensures ready { IsReady (D.at desk.new) (P.at prompter.new) held.new }
{
    seat_by_mode(marking.options.mode(), held, desk)?;
    mark_consented(marking, held.ticket(), conn, prompter, trust)
}

/// Asks the user twice under the ticket, and only then reads the file from which the new one is
/// made.
fn mark_consented<L: Link, P: Prompter, T: TrustFile>(
    marking: &Marking<'_>,
    ticket: &Ticket,
    conn: &mut Conn<'_, L>,
    prompter: &mut P,
    trust: &mut T,
) -> Result<(), Refusal>
    requires open { IsOpen conn.old }
    requires shut { IsShut (P.at prompter.old) }
    ensures marks { LeavesKeys NoTurn P.prompted
        (Consented marking.now.rules.now marking.now.options.now marking.now.fingerprint.now
        marking.now.purpose marking.now.name.now.items) (Some ticket.now) conn.old tt prompter.old
        (T.trust trust.old) result (Some ticket.now) conn.new tt prompter.new
        (T.trust trust.new) }
    ensures shut { IsShut (P.at prompter.new) }
{
    let (rules, options) = (marking.rules, marking.options);
    let trusts = trust_question(marking.name);
    agree(&trusts, rules, options, ticket, conn, prompter)?;
    let is_right = fingerprint_question(marking.fingerprint, marking.name);
    agree(&is_right, rules, options, ticket, conn, prompter)?;
    store_unsaid(marking.alloc, marking.fingerprint, marking.purpose, trust)
}
