//! A new passphrase for a key: from the user, or the client itself. It takes turns at the desk
//! (cache handle), and calls the prompter and the client. Begin with `found_or_new`, which is
//! `NewPassphrase` (`specs/Passphrases`) where the cache had none.

ghost use Rattle.agent_ask.specs.Session.{Actions.or_else, ActionStates.DoesWithClient};
ghost use Rattle.{agent_ask.specs.Seats.IsReady, assuan_server.specs.Connections.IsOpen};
ghost use Rattle.assuan_server.specs.Clients.{connection_views};
ghost use Rattle.key_commands.specs.{Partial.LeavesKeys, Passphrases.{ClientNew, NewPassphrase}};

use crate::asking::Asking;
use crate::inquiries::ask_client;
use crate::prompting::prompt_new;
use crate::turns::take_seat;
use agent_ask::{Held, Prompter};
use agent_ports::Link;
use assuan_server::{Code, Conn};
use cache_policy::{Desk, Secret};
use session_client::Refusal;
use session_options::PinMode;

/// The passphrase that protects a key's new file: what was found cached, or else a new one, as the
/// client wants it. The ticket of a prompt is held when it returns.
pub(crate) fn found_or_new<L: Link, D: Desk, P: Prompter>(
    found: Option<Secret>,
    asking: &Asking<'_>,
    held: &mut Held,
    conn: &mut Conn<'_, L>,
    desk: &mut D,
    prompter: &mut P,
) -> Result<Secret, Refusal>
    requires open { IsOpen conn.old }
    requires ready { IsReady (D.at desk.old) (P.at prompter.old) held.old }
    ensures does { LeavesKeys D.turned P.prompted (or_else found
        (NewPassphrase asking.now.rules.now asking.now.options.now asking.now.grip.now))
        held.old conn.old desk.old prompter.old result held.new conn.new desk.new prompter.new }
    ensures ready { IsReady (D.at desk.new) (P.at prompter.new) held.new }
{
    if let Some(pass) = found {
        return Ok(pass);
    }
    match asking.options.mode() {
        PinMode::Ask => {
            take_seat(asking.grip, held, desk)?;
            prompt_new(asking, held, conn, prompter)
        }
        PinMode::Cancel => Err(Refusal::Agent(Code::Cancelled)),
        PinMode::Error => Err(Refusal::Agent(Code::NoPinentry)),
        PinMode::Loopback => new_by_client(conn),
    }
}

/// One that the client itself gives, which isn't empty.
fn new_by_client<L: Link>(conn: &mut Conn<'_, L>) -> Result<Secret, Refusal>
    requires open { IsOpen conn.old }
    ensures { DoesWithClient connection_views ClientNew conn.old result conn.new }
{
    let pass = ask_client(b"NEW_PASSPHRASE", conn)?;
    if pass.bytes().is_empty() {
        return Err(Refusal::Agent(Code::BadPass));
    }
    Ok(pass)
}
