//! The client is asked for a passphrase, as an action of a request: a status with the limit,
//! and an inquiry (Assuan manual, "server responses"). It works on the connection alone. Begin with
//! `ask_client`; its events are `AsksPassphrase` (`specs/Actions`).

ghost use Rattle.assuan_server.specs.{Clients.connection_views, Connections.IsOpen};
ghost use Rattle.agent_ask.specs.Session.ActionStates.{DoesWithClient};
ghost use Rattle.agent_commands.specs.Actions.{AsksPassphrase};

use agent_ports::Link;
use assuan_server::Conn;
use cache_policy::{MAX_SECRET_LEN, Secret};
use session_client::Refusal;

/// Asks the client for a passphrase. It is told first how many bytes are taken.
pub(crate) fn ask_client<L: Link>(conn: &mut Conn<'_, L>) -> Result<Secret, Refusal>
    requires { IsOpen conn.old }
    ensures { DoesWithClient connection_views AsksPassphrase conn.old result conn.new }
{
    conn.tell_limit(MAX_SECRET_LEN)?;
    Ok(conn.ask_secret(b"PASSPHRASE", b"")?)
}
