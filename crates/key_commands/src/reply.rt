//! What is written for a request, once all else is done for it (Assuan manual, "server responses").
//! It writes on the connection alone. Begin with `respond`; what it writes is `RespondsTo`
//! (`specs/Replies`).

ghost use Rattle.std.specs.Prelude.{◌≡◌, ℕ, List};
ghost use Rattle.{assuan_server.specs.Written.WritesText, session_client.specs.Refusals.gone_by};
ghost use Rattle.key_commands.specs.{Actions.key_went_after, Replies.{IsReply, RespondsTo}};

use crate::drawing::Drawn;
use crate::texts::StatusLine;
use crate::went::KeyWent;
use agent_ask::unless_cut;
use agent_ports::{Link, WriteFault};
use assuan_server::Conn;
use session_client::{Gone, Refusal};
use sexp_canonical::Bytes;

/// What a request is answered where it isn't refused.
#[derive(Drop)]
pub(crate) enum Reply {
    Ok,
    /// A status line, and OK.
    Status(StatusLine),
    /// A wrapping key by data lines.
    WrapKey(Drawn<16>),
    /// Bytes by data lines, which are overwritten.
    Data(Bytes),
}

/// Writes the reply of a request, or how it is refused, and says how the session goes on.
pub(crate) fn respond<L: Link>(reply: &Result<Reply, Refusal>, conn: &mut Conn<'_, L>) -> KeyWent
    ensures { RespondsTo conn.old reply.now result conn.new }
{
    let cut = KeyWent::Gone(Gone::WriteFault);
    match reply {
        Ok(reply) => unless_cut(KeyWent::On, cut, write_reply(reply, conn)),
        Err(why) => unless_cut(went_after(*why), cut, conn.refuse(*why)),
    }
}

/// Writes a reply.
fn write_reply<L: Link>(reply: &Reply, conn: &mut Conn<'_, L>) -> Result<(), WriteFault>
    ensures { (text : List ℕ) × IsReply reply.now text × WritesText text conn.old result conn.new }
{
    match reply {
        Reply::Ok => conn.ok(b"").whole(),
        Reply::Status(line) => {
            line.write(conn)?;
            conn.ok(b"").whole()
        }
        Reply::WrapKey(key) => conn.last_data(key.bytes()).whole(),
        Reply::Data(bytes) => conn.last_data(bytes.as_slice()).whole(),
    }
}

/// How a session goes on after a refusal.
fn went_after(why: Refusal) -> KeyWent
    ensures { result ≡ key_went_after (gone_by why) }
{
    match why.gone() {
        Some(how) => KeyWent::Gone(how),
        None => KeyWent::On,
    }
}
