//! A server's connection to its client: the lines that it writes, and the requests that it reads.
//! It works on the link that it was lent and on its reader's bytes, and knows nothing of a session.
//! Begin with `Conn::next_request` and `Conn::ok`; `Connection` of `specs/Connections` is what
//! contracts see, and `HasWritten` of `specs/Written` what a write does.

ghost use Rattle.std.specs.Prelude.{◌≡◌, ◌≤◌, ◌+◌, [], length, false, None, Some, List, ℕ, OnSome};
ghost use Rattle.std.specs.List.{flat_map};
ghost use Rattle.assuan_line.specs.{Lines.IsLine, Reading.HasRead, Skipping.{IsUndecided, ReadsOn}};
ghost use Rattle.assuan_text.specs.{LineEnds.{has_lf, line_of}, declared.TheConstants.MAX_LINE_LEN};
ghost use Rattle.assuan_server.specs.{Connections.IsOpen, Requests.NextRequest, Errors.error_text};
ghost use Rattle.assuan_server.specs.Written.{greeting, ok_text, status_text, comment_text};
ghost use Rattle.assuan_server.specs.Written.{HasWritten, WritesLine, refusal_line};

use crate::errors::{Origin, error_text};
use crate::request::Ignored;
use agent_ports::{Link, Sent, WriteFault};
use assuan_line::{LineFilter, LineReader, Took, next_after_skipped, write_text};
use session_client::{Code, Refusal};
use std::alloc::Global;
use std::marker::Model;

/// A server's connection to its client, over a link that it borrows: the server's side of the
/// Assuan protocol (Assuan manual, "server responses" and "client requests"). Each line has at most
/// 1,000 bytes before its line feed.
///
/// A session goes so: `greet` once, then `next_request` up to an answer that is no line. Each
/// request is answered by any number of `status`, `comment` and `data`, and of inquiries where the
/// client is to give something, and at last by one `ok` or `err`. Once a call has answered that the
/// input ended, or that a line was too long, nothing is read any more. At the end `into_link` gives
/// the link back.
///
/// A call that writes answers how much of its lines went, and leaves the input alone. Contracts see
/// the link's two sides and the reader of its lines.
#[derive(Drop)]
pub struct Conn<'a, L: Link> {
    link: &'a mut L,
    reader: LineReader,
}

impl<'a, L: Link> Model for Conn<'a, L> {
    ghost use Rattle.assuan_server.specs.Connections.{Connection};

    ghost Value = { Connection };

    ghost view = { λ c. record {
      link = c.link.ghost_name;
      input = L.input c.link.now;
      output = L.output c.link.now;
      reader = c.reader;
    } };
}

impl<'a, L: Link> Conn<'a, L> {
    /// A connection over this link, which takes at most `budget` bytes from it.
    pub fn new(alloc: Global, link: &'a mut L, budget: u64) -> Self
        ensures link { result.link ≡ link.entry.ghost_name }
        ensures input { result.input ≡ L.input link.old }
        ensures output { result.output ≡ L.output link.old }
        ensures reader { result.reader ≡ record { ahead = []; left = budget; ended = None } }
    {
        Conn {
            link,
            reader: LineReader::new(alloc, budget),
        }
    }

    /// A connection over this link as `new` makes it where it finds no memory.
    pub fn without_memory(link: &'a mut L, budget: u64) -> Self
        ensures link { result.link ≡ link.entry.ghost_name }
        ensures input { result.input ≡ L.input link.old }
        ensures output { result.output ≡ L.output link.old }
        ensures reader { result.reader ≡ record { ahead = []; left = budget; ended = None } }
    {
        let reader = LineReader::without_memory(budget);
        Conn { link, reader }
    }

    /// Gives the link back. A caller whose own contract speaks of the link ends a connection so:
    /// what the connection did is then known of the link.
    pub fn into_link(self) -> &'a mut L
        ensures link { result.ghost_name ≡ self.entry.link }
        ensures input { L.input result.now ≡ self.entry.input }
        ensures output { L.output result.now ≡ self.entry.output }
    {
        let Conn { link, reader: _ } = self;
        link
    }

    /// Greets the client, as a server does before it reads.
    pub fn greet(&mut self) -> Sent
        ensures { HasWritten (line_of greeting) self.old result self.new }
    {
        self.say(&[b"OK Pleased to meet you"])
    }

    /// Says that a command was carried out: `OK`, and the text behind a blank where it isn't empty.
    pub fn ok(&mut self, text: &[u8]) -> Sent
        requires short { 3 + length text.now ≤ MAX_LINE_LEN }
        requires one_line { has_lf text.now ≡ false }
        ensures { HasWritten (line_of (ok_text text.now)) self.old result self.new }
    {
        if text.is_empty() {
            return self.say(&[b"OK"]);
        }
        self.say(&[b"OK ", text])
    }

    /// Says that a command failed: `ERR`, the error's number, its description, and in angle
    /// brackets where it comes from.
    pub fn err(&mut self, code: Code, origin: Origin) -> Sent
        ensures { HasWritten (line_of (error_text code origin)) self.old result self.new }
    {
        self.say(&[&error_text(code, origin)])
    }

    /// Says why a request isn't carried out, where its client is to be told.
    #[tactic(auto, using(crate::proofs::Saying::said))]
    pub fn refuse(&mut self, why: Refusal) -> Result<(), WriteFault>
        ensures { WritesLine (refusal_line why) self.old result self.new }
    {
        let (code, origin) = match why {
            Refusal::Agent(code) => (code, Origin::Agent),
            Refusal::Pinentry(code) => (code, Origin::Pinentry),
            Refusal::Client(why) => match Code::refusing(why) {
                Some(code) => (code, Origin::Agent),
                None => return Ok(()),
            },
        };
        self.err(code, origin).whole()
    }

    /// Writes a status line, `S`, the word and the text, each behind a blank.
    pub fn status(&mut self, word: &[u8], text: &[u8]) -> Sent
        requires { IsLine (status_text word.now text.now) }
        ensures { HasWritten (line_of (status_text word.now text.now)) self.old result self.new }
    {
        self.say(&[b"S ", word, b" ", text])
    }

    /// Writes a comment, `#` and the text behind a blank, which the client passes over.
    pub fn comment(&mut self, text: &[u8]) -> Sent
        requires { IsLine (comment_text text.now) }
        ensures { HasWritten (line_of (comment_text text.now)) self.old result self.new }
    {
        self.say(&[b"# ", text])
    }

    /// Reads the next request: the next line that isn't empty, nor nothing but blanks and tabs, nor
    /// a comment. It isn't split into words. After any answer but a line no more is read.
    pub fn next_request(&mut self) -> Took
        requires { IsOpen self.old }
        ensures { NextRequest self.old result self.new }
    {
        self.next_after(&mut Ignored)
    }

    /// Reads on over the lines that the filter skips.
    pub(crate) fn next_after<F: LineFilter>(&mut self, filter: &mut F) -> Took
        requires { IsOpen self.old }
        ensures read { (before : List (List ℕ)) → F.keeps filter.old before
            → HasRead (IsUndecided F.skips before) (ReadsOn F.skips before (F.keeps filter.new))
            self.old.reader self.old.input result self.new.reader self.new.input }
        ensures limit { F.limit filter.new ≡ F.limit filter.old }
        ensures output { self.new.output ≡ self.old.output }
        ensures link { self.new.link ≡ self.old.link }
    {
        next_after_skipped(&mut self.reader, self.link, filter)
    }

    /// Writes one line, whose text is the parts one behind another.
    pub(crate) fn say(&mut self, parts: &[&[u8]]) -> Sent
        requires { IsLine (flat_map (λ part. part.now) parts.now) }
        ensures { HasWritten
            (line_of (flat_map (λ part. part.now) parts.now)) self.old result self.new }
    {
        write_text(self.link, parts)
    }
    /// Writes these bytes in one piece.
    #[tactic(auto, using(assuan_line::proofs::Sending::has_sent))]
    pub(crate) fn put(&mut self, bytes: &[u8]) -> Sent
        requires { length bytes.now ≤ MAX_LINE_LEN }
        ensures { HasWritten bytes.now self.old result self.new }
    {
        self.link.put(bytes)
    }
}
