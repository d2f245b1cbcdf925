//! Lines of a source, whatever pieces its bytes come in. It reads that source alone, within a
//! budget, and holds what it read ahead; once it has ended it gives its last answer again. Begin
//! with `LineReader::next`; `next_of` of `specs/Next` says which line or end that is.

ghost use Rattle.std.specs.Prelude.{◌≡◌, ◌≢◌, ◌≤◌, ◌+◌, ◌<◌, ◌∷◌, [], ◌++◌, ℕ, List, length};
ghost use Rattle.std.specs.{Prelude.{IsSome, IfSome, OnOk, IfErr, None}, Option.option_map};
ghost use Rattle.agent_ports.specs.{Counts.Rose, Sides.WhereKnown};
ghost use Rattle.assuan_line.specs.Ahead.{bytes_ahead, IsWithin};
ghost use Rattle.assuan_line.specs.Lines.{after_line, lines_of, rest_of};
ghost use Rattle.assuan_line.specs.Next.{next_of, IsNext, TakesWhatItNeeds, ended_by, OnLine, held};
ghost use Rattle.assuan_line.specs.Stops.{took_of, reader_at, ReadAhead, Decides, TakeLine};

use crate::Line;
use crate::buffer::{Ahead, MAX_AHEAD};
use agent_ports::{Got, Source};
use std::alloc::Global;
use std::marker::Model;

/// How many bytes one side of a connection takes from the other at most.
pub const BUDGET: u64 = 1 << 40;

/// What a read of a line gave.
#[derive(Drop)]
pub enum Took {
    /// The next line.
    Line(Line),
    /// No line feed stands where a line of at most 1,000 bytes would end.
    TooLong,
    /// The source ended. Bytes after the last line feed are dropped.
    End,
    /// The budget was taken, and holds no whole line more.
    Spent,
    /// A read failed.
    ReadFault,
}

impl Took {
    /// Why the reader has ended, if this is no line.
    fn stop(&self) -> Option<Stop>
        ensures { option_map took_of result ≡ ended_by self.now }
    {
        match self {
            Took::Line(_) => None,
            Took::TooLong => Some(Stop::TooLong),
            Took::End => Some(Stop::End),
            Took::Spent => Some(Stop::Spent),
            Took::ReadFault => Some(Stop::ReadFault),
        }
    }
}

/// Why a reader has ended.
#[derive(Clone, Copy)]
enum Stop {
    TooLong,
    End,
    Spent,
    ReadFault,
}

impl From<Stop> for Took {
    ghost from_gives = { λ stop took. took ≡ took_of stop };

    fn from(stop: Stop) -> Took {
        match stop {
            Stop::TooLong => Took::TooLong,
            Stop::End => Took::End,
            Stop::Spent => Took::Spent,
            Stop::ReadFault => Took::ReadFault,
        }
    }
}

/// Reads lines from a source, whatever pieces their bytes come in. It reads ahead, and only where
/// the bytes that it holds tell neither a line nor that one is too long.
#[derive(Drop)]
pub struct LineReader {
    ahead: Ahead,
    left: u64,
    stop: Option<Stop>,
}

impl Model for LineReader {
    ghost use Rattle.std.specs.Option.{option_map};
    ghost use Rattle.assuan_line.specs.{Ahead.{bytes_ahead, IsWithin}, Next.Reader, Stops.took_of};

    ghost Value = { Reader };

    ghost view = { λ r.
        record { ahead = bytes_ahead r.ahead; left = r.left; ended = option_map took_of r.stop } };

    ghost invariant = { λ r. IsWithin r.ahead };
}

impl LineReader {
    /// A reader that takes at most `budget` bytes.
    pub fn new(alloc: Global, budget: u64) -> Self
        ensures { result ≡ record { ahead = []; left = budget; ended = None } }
    {
        LineReader {
            ahead: Ahead::new(alloc),
            left: budget,
            stop: None,
        }
    }

    /// A reader that takes at most `budget` bytes and no memory: it reads as one of `new` does
    /// where there is none for its ring.
    pub fn without_memory(budget: u64) -> Self
        ensures { result ≡ record { ahead = []; left = budget; ended = None } }
    {
        LineReader {
            ahead: Ahead::without_memory(),
            left: budget,
            stop: None,
        }
    }

    /// Reads the next line. After any answer but a line the reader has ended, and gives that answer
    /// again and again.
    pub fn next<S: Source>(&mut self, source: &mut S) -> Took
        // What it says of the bytes, where the source's bytes are known, until it has ended.
        ensures known { self.old.ended ≡ None → WhereKnown (S.input source.old).bytes
            (S.input source.new).bytes (λ rest left. IsNext self.old rest result self.new left) }
        // It takes no byte beyond its budget.
        ensures budget { WhereKnown (S.input source.old).bytes (S.input source.new).bytes
            (λ rest left. length rest + self.new.left ≡ length left + self.old.left) }
        // It takes what it needs, and of that one read at most more.
        ensures needed { WhereKnown (S.input source.old).bytes (S.input source.new).bytes
            (TakesWhatItNeeds self.old.ahead) }
        // Where the bytes ahead decide, it leaves the source alone.
        ensures alone { next_of self.old.ahead ≢ Took.End → source.new ≡ source.old }
        // No byte is lost but those of its lines.
        ensures kept { IsSome self.new.ended
            → WhereKnown (S.input source.old).bytes (S.input source.new).bytes
            (λ rest left. self.new.ahead ++ left ≡ self.old.ahead ++ rest) }
        ensures within { length self.new.ahead ≤ MAX_AHEAD }

        // A line uses up a byte at least.
        ensures progress { OnLine result (held self.new < held self.old) }

        ensures spent { self.old.ended ≡ None → result ≡ Took.Spent → self.new.left ≡ 0 }
        ensures fault { self.old.ended ≡ None → result ≡ Took.ReadFault
            → Rose (S.input source.old).faults (S.input source.new).faults }
        ensures faults { (S.input source.old).faults ≤ (S.input source.new).faults }
        ensures beside { S.beside_input source.new ≡ S.beside_input source.old }

        ensures ended { self.new.ended ≡ ended_by result }
        ensures again { IfSome self.old.ended (λ took. (result ≡ took) × (self.new ≡ self.old)
            × (source.new ≡ source.old)) }
    {
        if let Some(stop) = self.stop {
            return stop.into();
        }
        let took = take_line(&mut self.ahead, &mut self.left, source);
        self.stop = took.stop();
        took
    }
}

/// A law: line by line, a reader gives all lines of the bytes in order, as long as none is too
/// long; at the end the bytes after the last line feed are left.
pub fn lines_come_in_order()
    ensures line { (bytes line : List ℕ) → next_of bytes ≡ Took.Line line
        → (lines_of bytes ≡ line ∷ lines_of (after_line bytes))
        × (rest_of bytes ≡ rest_of (after_line bytes)) }
    ensures end { (bytes : List ℕ) → next_of bytes ≡ Took.End
        → (lines_of bytes ≡ []) × (rest_of bytes ≡ bytes) }
{}

/// Reads until the bytes ahead tell a line or that one is too long, or no more can be read.
fn take_line<S: Source>(ahead: &mut Ahead, left: &mut u64, source: &mut S) -> Took
    requires { IsWithin ahead.old }
    ensures taken { TakeLine (reader_at ahead.old left.old) (S.input source.old) result
        (reader_at ahead.new left.new) (S.input source.new) }
    ensures alone { next_of (bytes_ahead ahead.old) ≢ Took.End → source.new ≡ source.old }
    ensures beside { S.beside_input source.new ≡ S.beside_input source.old }
    ensures within { IsWithin ahead.new }
{
    loop {
        match ahead.take_line() {
            Took::End => {}
            took => return took,
        }
        if let Err(took) = read_ahead(ahead, left, source) {
            return took;
        }
    }
}

/// Reads once, within the budget.
fn read_ahead<S: Source>(ahead: &mut Ahead, left: &mut u64, source: &mut S) -> Result<(), Took>
    requires undecided { next_of (bytes_ahead ahead.old) ≡ Took.End }
    requires within { IsWithin ahead.old }
    ensures read { ReadAhead (reader_at ahead.old left.old) (S.input source.old)
        (reader_at ahead.new left.new) (S.input source.new) }
    ensures progress { OnOk result (left.new < left.old) }
    ensures stop { IfErr result (λ took. Decides (reader_at ahead.new left.new) (S.input source.old)
        took (reader_at ahead.new left.new) (S.input source.new)) }
    ensures beside { S.beside_input source.new ≡ S.beside_input source.old }
    ensures within { IsWithin ahead.new }
{
    if *left == 0 {
        return Err(Took::Spent);
    }
    match ahead.read(*left, source) {
        Got::Bytes(count) => {
            *left -= count as u64;
            Ok(())
        }
        Got::End => Err(Took::End),
        Got::Failed => Err(Took::ReadFault),
    }
}
