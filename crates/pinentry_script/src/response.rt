//! What is said to a line of the agent, and its writing. It writes to the link alone, and takes no
//! memory. Begin with `write_response`; `says` of `specs/Responses` has the lines of each response.

ghost use Rattle.std.specs.{Prelude.◌≡◌, List.flat_map};
ghost use Rattle.{agent_ports.specs.Writing.Writes, assuan_line.specs.Lines.IsLine};
ghost use Rattle.assuan_text.specs.LineEnds.{line_of};
ghost use Rattle.pinentry_script.specs.{Responses.{phrase_text, give, says}, Sessions.text_of};
ghost use Rattle.pinentry_script.specs.Writing.{IsShort, IsShortText};

use agent_ports::{Link, WriteFault};
use assuan_line::write_text;

/// A line that is always the same.
#[derive(Clone, Copy, PartialEq, Eq)]
pub(crate) enum Phrase {
    Greeting,
    Done,
    Closing,
    Cancelled,
    TimedOut,
    NotConfirmed,
    Unknown,
}

impl Phrase {
    fn text(self) -> &'static [u8]
        ensures { result.now ≡ phrase_text self }
    {
        match self {
            Phrase::Greeting => b"OK Pleased to meet you",
            Phrase::Done => b"OK",
            Phrase::Closing => b"OK closing connection",
            Phrase::Cancelled => b"ERR 83886179 Operation cancelled <Pinentry>",
            Phrase::TimedOut => b"ERR 83886142 Timeout <Pinentry>",
            Phrase::NotConfirmed => b"ERR 83886194 Not confirmed <Pinentry>",
            Phrase::Unknown => b"ERR 83886355 Unknown IPC command <Pinentry>",
        }
    }
}

/// What is said to a line.
#[derive(Clone, Copy)]
pub(crate) enum Response<'a> {
    Nothing,
    Say(Phrase),
    /// The text as data, left out where it is empty, and OK.
    Give(&'a [u8]),
    /// An inquiry for the quality of the text.
    Inquire(&'a [u8]),
}

/// Writes the lines of the response.
#[tactic(auto, using(agent_ports::proofs::Writing::writes_nothing))]
pub(crate) fn write_response<S: Link>(
    link: &mut S,
    response: Response<'_>,
) -> Result<(), WriteFault>
    requires { IsShort response }
    ensures said { Writes (text_of (says response.entry)) (S.output link.old) result
        (S.output link.new) }
    ensures input { S.input link.new ≡ S.input link.old }
{
    match response {
        Response::Nothing => Ok(()),
        Response::Say(phrase) => say(link, &[phrase.text()]),
        Response::Give(text) => give(link, text),
        Response::Inquire(text) => say(link, &[b"INQUIRE QUALITY ", text]),
    }
}

/// Writes the text as data, where it isn't empty, and OK.
fn give<S: Link>(link: &mut S, text: &[u8]) -> Result<(), WriteFault>
    requires { IsShortText text.now }
    ensures said { Writes (text_of (give text.now)) (S.output link.old) result (S.output link.new) }
    ensures input { S.input link.new ≡ S.input link.old }
{
    if text.is_empty() {
        return say(link, &[b"OK"]);
    }
    say(link, &[b"D ", text])?;
    say(link, &[b"OK"])
}

/// Writes one line, whose text is the parts one behind another.
#[tactic(auto, using(assuan_line::proofs::Sending::sent_whole))]
fn say<S: Link>(link: &mut S, parts: &[&[u8]]) -> Result<(), WriteFault>
    requires { IsLine (flat_map (λ part. part.now) parts.now) }
    ensures said { Writes (line_of (flat_map (λ part. part.now) parts.now))
        (S.output link.old) result (S.output link.new) }
    ensures input { S.input link.new ≡ S.input link.old }
{
    write_text(link, parts).whole()
}
