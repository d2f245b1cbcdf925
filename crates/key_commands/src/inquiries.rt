//! What the client is told and asked, as actions of a request: the status INQUIRE_MAXLEN
//! and an inquiry (Assuan manual, "server responses"). It works on the connection alone. Begin with
//! `ask_client`; its events are `AsksSecret` (`specs/Passphrases`).

ghost use Rattle.std.specs.Prelude.{[]};
ghost use Rattle.{assuan_line.specs.Lines.IsLine, assuan_server.specs.Clients.connection_views};
ghost use Rattle.assuan_server.specs.{Connections.IsOpen, Inquiries.inquire_text};
ghost use Rattle.{assuan_server.specs.Written.limit_line, agent_ask.specs.Session.ClientActions.Writes};
ghost use Rattle.agent_ask.specs.Session.ActionStates.{DoesWithClient};
ghost use Rattle.key_commands.specs.Passphrases.{AsksSecret};

use agent_ports::Link;
use assuan_server::Conn;
use cache_policy::{MAX_SECRET_LEN, Secret};
use session_client::Refusal;

/// Asks the client for a passphrase by this word. It is told first how many bytes are taken.
pub(crate) fn ask_client<L: Link>(word: &[u8], conn: &mut Conn<'_, L>) -> Result<Secret, Refusal>
    requires open { IsOpen conn.old }
    requires one_line { IsLine (inquire_text word.now []) }
    ensures { DoesWithClient connection_views (AsksSecret word.now) conn.old result conn.new }
{
    tell_limit(MAX_SECRET_LEN, conn)?;
    Ok(conn.ask_secret(word, b"")?)
}

/// Tells the client how many bytes are taken of what it is asked for.
pub(crate) fn tell_limit<L: Link>(limit: usize, conn: &mut Conn<'_, L>) -> Result<(), Refusal>
    requires { IsOpen conn.old }
    ensures { DoesWithClient connection_views (Writes (limit_line limit)) conn.old result conn.new }
{
    Ok(conn.tell_limit(limit)?)
}
