//! A whole session of the scripted pinentry: the file checked, the greeting, and line after line up
//! to the end. It reads and writes the link alone, and takes memory for its reader. Begin with
//! `run_script`; `RunsSession` of `specs/Sessions` says what is written.

ghost use Rattle.std.specs.Prelude.{◌≡◌, true, false, [], None};
ghost use Rattle.assuan_line.specs.{Next.next_of, Reading.HasRead, Skipping.ReadsNext};
ghost use Rattle.pinentry_script.specs.{Entries.is_script, Sessions.{RunsSession, status_of}};

use crate::ScriptEnd;
use crate::entries::is_script;
use crate::response::{Phrase, Response, write_response};
use crate::session::{Session, Stage};
use agent_ports::{Link, WriteFault};
use assuan_line::{BUDGET, LineReader, Took};
use std::alloc::Global;

/// The status where the file is no script. Nothing is read or written then.
pub const BAD_SCRIPT: u8 = 2;

/// Answers as a pinentry, by the lines of a file, and gives the exit status. The lines are `pid N`,
/// `quality TEXT`, `pin TEXT`, `cancel`, `timeout`, `yes` and `no`, of at most 900 bytes each and a
/// line feed; a text is written as it stands, escapes, a carriage return and all.
pub fn run_script<S: Link>(alloc: Global, answers: &[u8], stdio: &mut S) -> u8
    ensures refused { is_script answers.now ≡ false
        → (result ≡ BAD_SCRIPT) × (stdio.new ≡ stdio.old) }
    ensures served { is_script answers.now ≡ true → (end : ScriptEnd) × (result ≡ status_of end)
        × RunsSession answers.now (S.input stdio.old) (S.output stdio.old) end (S.input stdio.new)
        (S.output stdio.new) }
{
    if !is_script(answers) {
        return BAD_SCRIPT;
    }
    serve(alloc, answers, stdio).status()
}

/// Greets, and answers line after line up to the end.
fn serve<S: Link>(alloc: Global, file: &[u8], link: &mut S) -> ScriptEnd
    ensures { RunsSession file.now (S.input link.old) (S.output link.old) result (S.input link.new)
        (S.output link.new) }
{
    if let Err(WriteFault) = write_response(link, Response::Say(Phrase::Greeting)) {
        return ScriptEnd::WriteFault;
    }
    let mut reader = LineReader::new(alloc, BUDGET);
    let mut session = Session::new(file);
    while session.stage != Stage::Closed {
        let line = match next_line(&mut reader, link) {
            Took::Line(line) => line,
            Took::TooLong => return ScriptEnd::TooLong,
            Took::End => return ScriptEnd::Ended,
            Took::Spent => return ScriptEnd::Spent,
            Took::ReadFault => return ScriptEnd::ReadFault,
        };
        let response = session.turn(line.bytes());
        if let Err(WriteFault) = write_response(link, response) {
            return ScriptEnd::WriteFault;
        }
    }
    ScriptEnd::Bye
}

/// Reads the next line.
fn next_line<S: Link>(reader: &mut LineReader, link: &mut S) -> Took
    requires { reader.old.ended ≡ None }
    ensures read { HasRead (λ bytes. next_of bytes ≡ Took.End) ReadsNext reader.old
        (S.input link.old) result reader.new (S.input link.new) }
    ensures output { S.output link.new ≡ S.output link.old }
{
    reader.next(link)
}
