//! What is written for a request that is carried out or refused (Assuan manual, "Server
//! responses"). It writes on the connection, and overwrites the digits that it made of a
//! passphrase. Begin with `respond`; what it writes is `RespondsTo` (`specs/Steps`), and the text
//! of each response `IsText`.

ghost use Rattle.std.specs.Prelude.{◌≡◌, ◌<◌, ℕ, List, [], All, if◌then◌else◌, true};
ghost use Rattle.{assuan_line.specs.Lines.IsLine, assuan_text.specs.LineEnds.line_of};
ghost use Rattle.{assuan_text.specs.Rows.rows_of, assuan_escape.specs.Escapes.hex_text};
ghost use Rattle.assuan_server.specs.Written.{comment_text, ok_text, IsDataAnswer, WritesText};
ghost use Rattle.{command_table.specs.Commands.names_told, session_client.specs.Refusals.gone_by};
ghost use Rattle.agent_commands.specs.Answers.{IsPassphrase, comments, help_with};
ghost use Rattle.agent_commands.specs.{Endings.went_after, Steps.{IsText, RespondsTo, went_of}};

use crate::found::Found;
use crate::{SessionEnd, Went};
use agent_ask::unless_cut;
use agent_ports::{Link, WriteFault};
use assuan_escape::upper_hex;
use assuan_server::Conn;
use cache_policy::Secret;
use command_table::{COMMANDS, Command};
use itoa::Buffer;
use session_client::Refusal;
use session_options::Version;
use wiping::wipe;

/// What a request is answered where it isn't refused.
#[derive(Drop)]
pub(crate) enum Response {
    Ok,
    /// The client ends its session.
    Bye,
    /// The agent stops.
    Killed,
    Help,
    Version(Version),
    Number(u64),
    Passphrase {
        secret: Found,
        /// By data lines, and else in hexadecimal digits.
        plain: bool,
    },
}

/// Writes the response of a request, or how it is refused, and says how the session goes on.
pub(crate) fn respond<L: Link>(reply: &Result<Response, Refusal>, conn: &mut Conn<'_, L>) -> Went
    ensures { RespondsTo conn.old reply.now result conn.new }
{
    let cut = Went::End(SessionEnd::WriteFault);
    match reply {
        Ok(response) => unless_cut(response.went(), cut, write_response(conn, response)),
        Err(why) => unless_cut(went_after(*why), cut, conn.refuse(*why)),
    }
}

/// How a session goes on after a refusal.
pub fn went_after(why: Refusal) -> Went
    ensures { result ≡ went_after (gone_by why) }
{
    match why.gone() {
        Some(how) => Went::End(SessionEnd::from(how)),
        None => Went::On,
    }
}

impl Response {
    /// How the session goes on after it.
    fn went(&self) -> Went
        ensures { result ≡ went_of self.now }
    {
        match self {
            Response::Bye => Went::End(SessionEnd::Bye),
            Response::Killed => Went::End(SessionEnd::Killed),
            _ => Went::On,
        }
    }
}

/// Writes a response.
fn write_response<L: Link>(conn: &mut Conn<'_, L>, response: &Response) -> Result<(), WriteFault>
    ensures { (text : List ℕ) × IsText response.now text
        × WritesText text conn.old result conn.new }
{
    match response {
        Response::Ok => conn.ok(b"").whole(),
        Response::Bye | Response::Killed => conn.ok(b"closing connection").whole(),
        Response::Help => write_help(conn, false),
        Response::Version(version) => write_data(conn, &version.bytes),
        Response::Number(number) => write_data(conn, Buffer::new().format(*number).as_bytes()),
        Response::Passphrase { secret, plain } => write_passphrase(conn, secret.secret(), *plain),
    }
}

/// Writes a passphrase, by data lines or in hexadecimal digits, and that this is all.
fn write_passphrase<L: Link>(
    conn: &mut Conn<'_, L>,
    secret: &Secret,
    plain: bool,
) -> Result<(), WriteFault>
    ensures { (text : List ℕ) × IsPassphrase plain secret.now text
        × WritesText text conn.old result conn.new }
{
    let bytes = secret.bytes();
    // No definition of the cache or of prompts says so, but there is no other passphrase.
    prove!(are_bytes(bytes));
    if plain {
        write_data(conn, bytes)
    } else {
        write_digits(conn, secret)
    }
}

/// They are bytes, as all are: contracts learn that of those that are looked at.
fn are_bytes(bytes: &[u8]) -> bool
    ensures always { result ≡ true }
    ensures each { All (λ byte. byte < 256) bytes.now }
{
    bytes.iter().all(|byte| *byte <= u8::MAX)
}

/// Writes these bytes as data lines, and that this is all.
fn write_data<L: Link>(conn: &mut Conn<'_, L>, bytes: &[u8]) -> Result<(), WriteFault>
    ensures { (text : List ℕ) × IsDataAnswer bytes.now text
        × WritesText text conn.old result conn.new }
{
    conn.last_data(bytes).whole()
}

/// Writes that all is well, with a secret in hexadecimal digits, which are overwritten.
#[tactic(auto, using(assuan_server::proofs::Saying::said))]
fn write_digits<L: Link>(conn: &mut Conn<'_, L>, secret: &Secret) -> Result<(), WriteFault>
    ensures { WritesText (line_of (ok_text (hex_text secret.now))) conn.old result conn.new }
{
    let mut digits = upper_hex(secret.bytes());
    let sent = conn.ok(&digits);
    wipe(&mut digits);
    sent.whole()
}

/// Writes a comment for each command that HELP tells, in a session that has to do with the trust
/// list or in another one, and that this is all.
pub fn write_help<L: Link>(conn: &mut Conn<'_, L>, trusts: bool) -> Result<(), WriteFault>
    ensures { WritesText (help_with trusts) conn.old result conn.new }
{
    write_names(conn, &COMMANDS, trusts)?;
    conn.ok(b"").whole()
}

/// Writes a comment for each row of a table that HELP tells, with its name.
fn write_names<L: Link>(
    conn: &mut Conn<'_, L>,
    rows: &[(&[u8], Command)],
    trusts: bool,
) -> Result<(), WriteFault>
    requires { All (λ row. IsLine (comment_text row.0.now)) rows.now }
    ensures { WritesText (comments (names_told trusts (rows_of rows.now))) conn.old result conn.new }
{
    for (name, command) in rows {
        write_name(conn, name, command.is_told(trusts))?;
    }
    Ok(())
}

/// Writes a comment with this name, where it is told.
fn write_name<L: Link>(conn: &mut Conn<'_, L>, name: &[u8], told: bool) -> Result<(), WriteFault>
    requires { IsLine (comment_text name.now) }
    ensures { WritesText (if told then line_of (comment_text name.now) else []) conn.old result
        conn.new }
{
    if told {
        return conn.comment(name).whole();
    }
    Ok(())
}
