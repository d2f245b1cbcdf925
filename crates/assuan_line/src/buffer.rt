//! The bytes that a reader holds ahead of its lines: a ring, or one line's bytes in place where
//! there is no memory for that. It reads the source, and overwrites what it has given out. Begin
//! with `Ahead::take_line` and `Ahead::read`; `next_of` of `specs/Next` says which line comes next.

ghost use Rattle.std.specs.Prelude.{◌≡◌, ◌≤◌, ◌<◌, ◌+◌, ◌↔◌, [], ◌++◌, ℕ, List, false, length};
ghost use Rattle.std.specs.{Prelude.{take, drop, IsSome, IfSome}, List.position};
ghost use Rattle.agent_ports.specs.{Counts.Rose, Sides.{followed_by, taken_by, IfBytes}};
ghost use Rattle.assuan_text.specs.LineEnds.{is_lf, has_lf, without_cr};
ghost use Rattle.assuan_line.specs.{Ahead.{bytes_ahead, room_ahead, IsWithin}, Lines.after_line};
ghost use Rattle.assuan_line.specs.{Next.{next_of, ended_by, OnLine}, Stops.line_or_too_long};

use crate::line::{CR, LF};
use crate::{Line, Took};
use agent_ports::{Got, Source};
use assuan_text::MAX_LINE_LEN;
use circular_buffer::HeapCircularBuffer;
use std::alloc::Global;
use wiping::{Wiped, wipe};

/// The most bytes that a reader holds ahead of the lines that it gave.
pub const MAX_AHEAD: usize = 4096;

/// The bytes of the longest line and of its line end, CR LF. A reader that holds as many knows the
/// line, or that it is too long.
pub const MAX_UNDECIDED: usize = MAX_LINE_LEN + 2;

/// The bytes that a reader took, and that belong to no line that it gave. They are overwritten when
/// it is dropped.
pub(crate) enum Ahead {
    Ring(HeapCircularBuffer<u8>),
    /// Where there is no memory for a ring: the bytes of one line.
    Piece(Wiped<MAX_UNDECIDED>),
}

impl Ahead {
    /// No bytes, in a ring where there is memory for one.
    pub(crate) fn new(alloc: Global) -> Self
        ensures none { bytes_ahead result ≡ [] }
        ensures within { IsWithin result }
    {
        match HeapCircularBuffer::with_capacity(alloc, MAX_AHEAD) {
            Ok(ring) => Ahead::Ring(ring),
            Err(_) => Ahead::without_memory(),
        }
    }

    /// No bytes, and no memory for a ring.
    pub(crate) fn without_memory() -> Self
        ensures none { bytes_ahead result ≡ [] }
        ensures within { IsWithin result }
    {
        Ahead::Piece(Wiped::new())
    }

    /// Takes out the next line. `End` says that the bytes tell neither a line nor that one is too
    /// long.
    pub(crate) fn take_line(&mut self) -> Took
        requires { IsWithin self.old }
        ensures took { result ≡ next_of (bytes_ahead self.old) }
        ensures line { OnLine result (bytes_ahead self.new ≡ after_line (bytes_ahead self.old)) }
        ensures others { IsSome (ended_by result) → self.new ≡ self.old }
        ensures within { IsWithin self.new }
    {
        match self.line_feed() {
            Some(end) => {
                let took = self.line_before(end);
                if let Took::Line(_) = &took {
                    self.remove(end + 1);
                }
                took
            }
            None if self.len() < MAX_UNDECIDED => Took::End,
            None => Took::TooLong,
        }
    }

    /// Reads once, at most `most` bytes and no more than there is room for, and appends what came.
    /// A piece has room for a byte, so that none is ever behind a line feed.
    pub(crate) fn read<S: Source>(&mut self, most: u64, source: &mut S) -> Got
        requires some { 0 < most }
        requires room { length (bytes_ahead self.old) < MAX_UNDECIDED }
        requires within { IsWithin self.old }
        ensures count { IfBytes result (λ n. (1 ≤ n) × (n ≤ most) × (n ≤ MAX_AHEAD)) }
        ensures read { IfBytes result (λ n. (read : List ℕ) × (length read ≡ n)
            × (bytes_ahead self.new ≡ bytes_ahead self.old ++ read)
            × ((S.input source.old).bytes ≡ followed_by read (S.input source.new).bytes)) }
        ensures nothing { taken_by result ≡ 0
            → (self.new ≡ self.old) × ((S.input source.new).bytes ≡ (S.input source.old).bytes) }
        ensures within { IsWithin self.new }
        ensures end { result ≡ Got.End → IfSome (S.input source.old).bytes (λ rest. rest ≡ []) }
        ensures fault { result ≡ Got.Failed
            → Rose (S.input source.old).faults (S.input source.new).faults }
        ensures faults { (S.input source.old).faults ≤ (S.input source.new).faults }
        ensures beside { S.beside_input source.new ≡ S.beside_input source.old }
    {
        let room = match self {
            Ahead::Ring(ring) => MAX_AHEAD - ring.len(),
            Ahead::Piece(_) => 1,
        };
        let count = most.min(room as u64) as usize;
        let mut piece = [0u8; MAX_AHEAD];
        let got = source.read(&mut piece[..count]);
        if let Got::Bytes(n) = got {
            self.append(&piece[..n]);
        }
        wipe(&mut piece[..count]);
        got
    }

    /// Appends the bytes. There must be room for them.
    fn append(&mut self, bytes: &[u8])
        requires room { length bytes.now ≤ room_ahead self.old }
        requires within { IsWithin self.old }
        ensures bytes { bytes_ahead self.new ≡ bytes_ahead self.old ++ bytes.now }
        ensures within { IsWithin self.new }
    {
        match self {
            Ahead::Ring(ring) => {
                ring.fill_from_slice(bytes);
            }
            Ahead::Piece(piece) => {
                let _ = piece.try_extend_from_slice(bytes);
            }
        }
    }

    /// Removes the first `count` bytes.
    fn remove(&mut self, count: usize)
        requires some { count ≤ length (bytes_ahead self.old) }
        requires within { IsWithin self.old }
        ensures rest { bytes_ahead self.new ≡ drop count (bytes_ahead self.old) }
        ensures within { IsWithin self.new }
    {
        match self {
            Ahead::Ring(ring) => {
                ring.truncate_front(ring.len() - count);
                overwrite_if_empty(ring);
            }
            Ahead::Piece(piece) => {
                let rest = Wiped::of(&piece.bytes()[count..]).unwrap();
                piece.clear();
                *piece = rest;
            }
        }
    }

    fn len(&self) -> usize
        ensures { result ≡ length (bytes_ahead self.now) }
    {
        match self {
            Ahead::Ring(ring) => ring.len(),
            Ahead::Piece(piece) => piece.len(),
        }
    }

    /// The bytes, in two slices.
    fn as_slices(&self) -> (&[u8], &[u8])
        ensures { result.0.now ++ result.1.now ≡ bytes_ahead self.now }
    {
        match self {
            Ahead::Ring(ring) => ring.as_slices(),
            Ahead::Piece(piece) => (piece.bytes(), &[]),
        }
    }

    /// Where the first line feed is.
    fn line_feed(&self) -> Option<usize>
        ensures { result ≡ position is_lf (bytes_ahead self.now) }
    {
        let (front, back) = self.as_slices();
        match line_feed(front) {
            Some(end) => Some(end),
            None => {
                let end = line_feed(back)?;
                Some(front.len() + end)
            }
        }
    }

    /// The line that the first `end` bytes are, or that it is too long.
    fn line_before(&self, end: usize) -> Took
        requires within { end ≤ length (bytes_ahead self.now) }
        requires whole { has_lf (take end (bytes_ahead self.now)) ≡ false }
        ensures { result ≡ line_or_too_long (without_cr (take end (bytes_ahead self.now))) }
    {
        let (front, back) = self.as_slices();
        if end <= front.len() {
            return line_of(&front[..end]);
        }
        line_across(front, &back[..end - front.len()])
    }
}

impl Drop for Ahead {
    fn drop(self) {
        match self {
            Ahead::Ring(mut ring) => overwrite(&mut ring),
            Ahead::Piece(_) => {}
        }
    }
}

/// A ring leaves the bytes that it gave where they were: so one that holds none is overwritten.
fn overwrite_if_empty(ring: &mut HeapCircularBuffer<u8>)
    ensures { ring.new ≡ ring.old }
{
    if ring.is_empty() {
        overwrite(ring);
        ring.clear();
    }
}

/// Fills the ring, and overwrites all of it.
fn overwrite(ring: &mut HeapCircularBuffer<u8>)
    ensures { ring.new.capacity ≡ ring.old.capacity }
{
    ring.fill_from_slice(&[0; MAX_AHEAD]);
    wipe(ring.make_contiguous());
}

/// Where the first line feed is.
fn line_feed(bytes: &[u8]) -> Option<usize>
    ensures { result ≡ position is_lf bytes.now }
{
    bytes.iter().position(|byte| *byte == LF)
}

/// The line that these bytes before a line feed are, or that it is too long.
fn line_of(piece: &[u8]) -> Took
    requires { has_lf piece.now ≡ false }
    ensures { result ≡ line_or_too_long (without_cr piece.now) }
{
    let line = match piece {
        [line @ .., CR] => line,
        line => line,
    };
    match Line::of(line) {
        Some(line) => Took::Line(line),
        None => Took::TooLong,
    }
}

/// The same of bytes in two slices.
fn line_across(front: &[u8], back: &[u8]) -> Took
    requires { has_lf (front.now ++ back.now) ≡ false }
    ensures { result ≡ line_or_too_long (without_cr (front.now ++ back.now)) }
{
    let mut piece: Wiped<MAX_UNDECIDED> = Wiped::new();
    if front.len() > MAX_UNDECIDED || back.len() > MAX_UNDECIDED - front.len() {
        return Took::TooLong;
    }
    piece.try_extend_from_slice(front).unwrap();
    piece.try_extend_from_slice(back).unwrap();
    let took = line_of(piece.bytes());
    piece.clear();
    took
}
