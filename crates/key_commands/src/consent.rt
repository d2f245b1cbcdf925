//! The user's consent, as an action of a request: DELETE_KEY asks for it unless `--force` is
//! given. It takes the seat (lock: the right to prompt) at the desk (cache handle), and calls the
//! prompter and the client. Begin with `consent`; it is `Consents` (`specs/KeyActions`).

ghost use Rattle.std.specs.Prelude.{◌≡◌, None};
ghost use Rattle.{agent_ask.specs.Seats.IsReady, assuan_server.specs.Connections.IsOpen};
ghost use Rattle.key_commands.specs.{KeyActions.Consents, Partial.LeavesKeys};

use crate::asking::Asking;
use crate::texts::{delete_description, described};
use agent_ask::{Held, Prompter, agree_by_mode};
use agent_ports::Link;
use assuan_server::Conn;
use cache_policy::Desk;
use session_client::Refusal;

/// The user agrees that a key is deleted, unless nobody is to be asked.
pub(crate) fn consent<L: Link, D: Desk, P: Prompter>(
    force: bool,
    asking: &Asking<'_>,
    held: &mut Held,
    conn: &mut Conn<'_, L>,
    desk: &mut D,
    prompter: &mut P,
) -> Result<(), Refusal>
    requires open { IsOpen conn.old }
    requires none { held.old ≡ None }
    requires ready { IsReady (D.at desk.old) (P.at prompter.old) held.old }
    ensures consents { LeavesKeys D.turned P.prompted
        (Consents asking.now.rules.now asking.now.options.now force asking.now.grip.now)
        held.old conn.old desk.old prompter.old result held.new conn.new desk.new prompter.new }
    ensures ready { IsReady (D.at desk.new) (P.at prompter.new) held.new }
{
    if force {
        return Ok(());
    }
    let question = described(asking.options, delete_description(asking.grip));
    let (rules, options) = (asking.rules, asking.options);
    agree_by_mode(&question, rules, options, held, conn, desk, prompter)
}
