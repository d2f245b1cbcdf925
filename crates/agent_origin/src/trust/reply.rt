//! What is written for a request, once all else is done for it: OK, or its error line. It writes on
//! the connection alone. It has one function, `respond`, which also says how the session goes on.

ghost use Rattle.std.specs.Prelude.{◌≡◌};
ghost use Rattle.agent_commands.specs.Steps.{RespondsTo, ok_by};

use agent_ask::unless_cut;
use agent_commands::{SessionEnd, Went, went_after};
use agent_ports::Link;
use assuan_server::Conn;
use session_client::Refusal;

/// Writes that a request was carried out, or why it wasn't, and says how the session goes on.
pub(crate) fn respond<L: Link>(carried: Result<(), Refusal>, conn: &mut Conn<'_, L>) -> Went
    ensures { RespondsTo conn.old (ok_by carried) result conn.new }
{
    let cut = Went::End(SessionEnd::WriteFault);
    match carried {
        Ok(()) => unless_cut(Went::On, cut, conn.ok(b"").whole()),
        Err(why) => unless_cut(went_after(why), cut, conn.refuse(why)),
    }
}
