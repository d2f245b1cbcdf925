//! The client's side of a connection: commands out, and for each the one answer that the server's
//! lines come to. It owns its link and its reader's memory. Begin with `Peer::command`; `Command`
//! of `specs/Writing` is its contract, and `ReadOn` of `specs/Answers` what reading comes to.

ghost use Rattle.std.specs.Prelude.{◌≡◌, ◌≢◌, ◌++◌, [], None, List, ℕ};
ghost use Rattle.{assuan_line.specs.Next.Reader, assuan_text.specs.LineEnds.line_of};
ghost use Rattle.assuan_client.specs.Answers.{Answers, ReadOn};
ghost use Rattle.assuan_client.specs.Skipping.{Tally as TallyValue, nothing};
ghost use Rattle.assuan_client.specs.Writing.{Command, Reply, cancel_text};

use crate::data::{send_line, send_reply};
use crate::tally::Tally;
use crate::{Answer, State};
use agent_ports::Link;
use assuan_line::{Line, LineReader, Took, next_after_skipped};
use std::alloc::Global;
use std::marker::Model;

/// A client's connection to its server, over a link of its own: the client's side of the Assuan
/// protocol (Assuan manual, "client requests"). Each line has at most 1,000 bytes before its line
/// feed.
///
/// A session goes so: `hello` once, then `command` for each command. Each call gives the one answer
/// that the server's lines come to: comments, status lines and data lines are skipped up to the
/// next end, at most 10,000 comments, status lines and inquiries and at most 255 bytes of data for
/// one command. Where the answer is an inquiry, `reply` or `cancel` goes on with the same command.
/// After `Broken`, `ReadFault` or `WriteFault` nothing more may be said. At the end `into_link`
/// gives the link back.
///
/// Contracts see the link's two sides, the reader of its lines, what came in the command so far,
/// and how the connection stands.
#[derive(Drop)]
pub struct Peer<L: Link> {
    link: L,
    reader: LineReader,
    tally: Tally,
    state: State,
}

impl<L: Link> Model for Peer<L> {
    ghost use Rattle.assuan_client.specs.Connections.{Connection, IsReadable};

    ghost Value = { Connection };

    ghost view = { λ p. record {
      input = L.input p.link;
      output = L.output p.link;
      reader = p.reader;
      tally = p.tally;
      state = p.state;
    } };

    ghost invariant = { λ p. IsReadable p.state p.reader };
}

impl<L: Link> Peer<L> {
    /// A connection over this link, which takes at most `budget` bytes from it.
    pub fn new(alloc: Global, link: L, budget: u64) -> Self
        ensures { result ≡ record {
          input = L.input link;
          output = L.output link;
          reader = record { ahead = []; left = budget; ended = None };
          tally = nothing;
          state = State.Ready;
        } }
    {
        Peer {
            link,
            reader: LineReader::new(alloc, budget),
            tally: Tally::new(),
            state: State::Ready,
        }
    }

    /// Gives the link back.
    pub fn into_link(self) -> L
        ensures input { L.input result ≡ self.input }
        ensures output { L.output result ≡ self.output }
    {
        let Peer {
            link,
            reader: _,
            tally: _,
            state: _,
        } = self;
        link
    }

    /// Reads the greeting.
    pub fn hello(&mut self) -> Answer
        requires { self.old.state ≢ State.Broken }
        ensures { ReadOn nothing result self.old self.new }
    {
        self.tally.clear();
        self.read_on()
    }

    /// Writes the line, and reads up to the next end.
    pub fn command(&mut self, line: &Line) -> Answer
        requires { self.old.state ≢ State.Broken }
        ensures { Command (line_of line.now) nothing result self.old self.new }
    {
        if send_line(&mut self.link, line.bytes()).is_err() {
            return self.cut();
        }
        self.tally.clear();
        self.read_on()
    }

    /// Answers the inquiry by these bytes, as data lines and `END`, and reads on.
    pub fn reply(&mut self, bytes: &[u8]) -> Answer
        requires { self.old.state ≡ State.Asked }
        ensures { Reply bytes.now result self.old self.new }
    {
        if send_reply(&mut self.link, bytes).is_err() {
            return self.cut();
        }
        self.read_on()
    }

    /// Answers the inquiry by `CAN`, and reads on.
    pub fn cancel(&mut self) -> Answer
        requires { self.old.state ≡ State.Asked }
        ensures { Command cancel_text self.old.tally result self.old self.new }
    {
        if send_line(&mut self.link, b"CAN").is_err() {
            return self.cut();
        }
        self.read_on()
    }

    /// Reads up to the next end. What came is kept only for an inquiry.
    fn read_on(&mut self) -> Answer
        requires { self.old.state ≢ State.Broken }
        ensures { ReadOn self.old.tally result self.old self.new }
    {
        let mut took = next_after_skipped(&mut self.reader, &mut self.link, &mut self.tally);
        let answer = self.tally.answer(&mut took);
        self.state = answer.state();
        self.tally.settle(&answer);
        answer
    }

    /// The answer where a line couldn't be written whole.
    fn cut(&mut self) -> Answer
        ensures answer { result ≡ Answer.WriteFault }
        ensures stands { self.new ≡ record {
          input = self.old.input;
          output = self.old.output;
          reader = self.old.reader;
          tally = nothing;
          state = State.Broken;
        } }
    {
        self.tally.clear();
        self.state = State::Broken;
        Answer::WriteFault
    }
}

/// A law: the bytes decide which answer a line gives, and which bytes are left behind it.
pub fn answers_are_the_only_ones()
    ensures { (tally after later : TallyValue) (bytes line other : List ℕ)
        (first second : Answer) (reader reader_later : Reader) (left rest : List ℕ)
        → Answers tally bytes (Took.Line line) first after reader left
        → Answers tally bytes (Took.Line other) second later reader_later rest
        → (first ≡ second) × (reader.ahead ++ left ≡ reader_later.ahead ++ rest) }
{}
