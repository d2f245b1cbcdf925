//! Inquiries (Assuan manual, INQUIRE): a question to the client, and its data lines up to END or
//! CAN. They go over the connection's link, and `inquire` alone takes memory. Begin with
//! `Conn::inquire`, whose two siblings differ in what is kept of the bytes; `Inquire` of
//! `specs/Asking` is the contract, and `ComesTo` of `specs/Inquiries` the outcome.

ghost use Rattle.std.specs.Prelude.{◌≡◌, ◌≢◌, ◌≤◌, ◌∷◌, ◌++◌, [], ℕ, List, length, codes, None};
ghost use Rattle.std.specs.{Prelude.{Err, IfOk, IfErr, OnOk, MatchResult}, List.flat_map};
ghost use Rattle.assuan_line.specs.{Lines.IsLine, Next.Reader, Skipping.ReadsOn};
ghost use Rattle.{assuan_text.specs.LineEnds.line_of, assuan_escape.specs.DataLines.carried};
ghost use Rattle.cache_policy.specs.declared.secret.TheConstants.{MAX_SECRET_LEN};
ghost use Rattle.assuan_server.specs.Asking.{Gather, Asks, NotWritten, not_written};
ghost use Rattle.assuan_server.specs.{Buffers.{IsVecOf, IsSecretOf, IsCountOf}, Connections.IsOpen};
ghost use Rattle.assuan_server.specs.Inquiries.{inquire_text, Inquiry, Outcome, ComesTo, IsWord};
ghost use Rattle.assuan_server.specs.Inquiries.{IfData, IsClosed, Answers, AnswersDropped};
ghost use Rattle.assuan_server.specs.Inquiries.{outcome_of, outcome_of_secret, outcome_of_dropped};
ghost use Rattle.assuan_server.specs.Inquiries.{is_skipped, secret_outcome, drop_outcome};
ghost use Rattle.assuan_server.specs.{Ends.IsAnswer, Written.{HasWritten, WritesText, limit_line}};

mod buffer;
mod end;

use crate::conn::Conn;
use agent_ports::{Link, Sent, WriteFault};
use assuan_line::Took;
use buffer::{Buffer as Bytes, ByteCounter, InquiryLines, Overflow, SecretBuffer, VecBuffer};
use cache_policy::{MAX_SECRET_LEN, Secret};
use end::end_of;
use itoa::Buffer;
use session_client::{ClientError, Gone};
use std::alloc::Global;

/// What an inquiry came to. After `Ended`, `TooLong`, `Spent` and `ReadFault` no more is read.
#[derive(Drop)]
pub enum Inquired {
    /// The bytes that the client sent.
    Data(Vec<u8>),
    /// The client sent `CAN`.
    Cancelled,
    /// The client sent `END` behind more bytes than the limit.
    TooMuch,
    /// The client sent a line that belongs to no inquiry. It is consumed.
    Unexpected,
    /// The source ended.
    Ended,
    /// A line was too long.
    TooLong,
    /// The budget was taken, and holds no whole line more.
    Spent,
    /// A read failed.
    ReadFault,
    /// The line `INQUIRE` couldn't be written whole, and nothing was read.
    WriteFault,
    /// The client sent `END`, but there was no memory for its bytes.
    NoMemory,
}

/// What an inquiry for a secret came to, as `Inquired`.
#[derive(Drop)]
pub enum InquiredSecret {
    /// The bytes that the client sent.
    Secret(Secret),
    /// The client sent `CAN`.
    Cancelled,
    /// The client sent `END` behind more than 255 bytes.
    TooMuch,
    /// The client sent a line that belongs to no inquiry. It is consumed.
    Unexpected,
    /// The source ended.
    Ended,
    /// A line was too long.
    TooLong,
    /// The budget was taken, and holds no whole line more.
    Spent,
    /// A read failed.
    ReadFault,
    /// The line `INQUIRE` couldn't be written whole, and nothing was read.
    WriteFault,
}

/// What an inquiry came to whose bytes are dropped, as `Inquired`.
#[derive(Clone, Copy, PartialEq, Eq)]
pub enum Dropped {
    /// The client sent `END` behind no more bytes than the limit.
    Done,
    /// The client sent `CAN`.
    Cancelled,
    /// The client sent `END` behind more bytes than the limit.
    TooMuch,
    /// The client sent a line that belongs to no inquiry. It is consumed.
    Unexpected,
    /// The source ended.
    Ended,
    /// A line was too long.
    TooLong,
    /// The budget was taken, and holds no whole line more.
    Spent,
    /// A read failed.
    ReadFault,
    /// The line `INQUIRE` couldn't be written whole, and nothing was read.
    WriteFault,
}

impl<'a, L: Link> Conn<'a, L> {
    /// Asks the client for bytes (Assuan manual, INQUIRE), by `INQUIRE`, the word, and the
    /// parameters where there are some. Then it reads data lines up to `END` or `CAN`, or to a line
    /// that is neither, nor empty, nor blank, nor a comment.
    ///
    /// At most `limit` bytes are kept. Bytes past it, and those for which there is no memory, are
    /// read and dropped.
    pub fn inquire(&mut self, alloc: Global, word: &[u8], params: &[u8], limit: usize) -> Inquired
        requires going { IsOpen self.old }
        requires one_line { IsLine (inquire_text word.now params.now) }
        ensures asks { Asks Inquired.WriteFault limit (inquire_text word.now params.now) result
            (Answers (outcome_of result)) self.old self.new }
        ensures within { IfData result (λ bytes. length bytes ≤ limit) }
    {
        let mut lines = InquiryLines {
            buffer: VecBuffer::new(alloc, limit),
        };
        match &mut self.gather(word, params, &mut lines) {
            Ok(took) => collected(took, lines.buffer),
            Err(_) => Inquired::WriteFault,
        }
    }

    /// Asks the client for a passphrase of at most 255 bytes, as `inquire` does for bytes. It takes
    /// no memory.
    pub fn inquire_secret(&mut self, word: &[u8], params: &[u8]) -> InquiredSecret
        requires going { IsOpen self.old }
        requires one_line { IsLine (inquire_text word.now params.now) }
        ensures { Asks InquiredSecret.WriteFault MAX_SECRET_LEN (inquire_text word.now params.now)
            result (Answers (outcome_of_secret result)) self.old self.new }
    {
        match self.ask_secret(word, params) {
            Ok(secret) => InquiredSecret::Secret(secret),
            Err(error) => error.into(),
        }
    }

    /// Asks as `inquire_secret` does.
    pub fn ask_secret(&mut self, word: &[u8], params: &[u8]) -> Result<Secret, ClientError>
        requires going { IsOpen self.old }
        requires one_line { IsLine (inquire_text word.now params.now) }
        ensures { Asks (Err not_written) MAX_SECRET_LEN (inquire_text word.now params.now)
            result (Answers (secret_outcome result)) self.old self.new }
    {
        let mut lines = InquiryLines {
            buffer: SecretBuffer::new(),
        };
        let mut took = self.gather(word, params, &mut lines)?;
        let secret = buffered(&mut took, &lines.buffer);
        lines.buffer.bytes.clear();
        secret
    }

    /// Asks the client as `inquire` does, for bytes that nobody needs: they are counted and
    /// dropped. It takes no memory.
    pub fn inquire_drop(&mut self, word: &[u8], params: &[u8], limit: usize) -> Dropped
        requires going { IsOpen self.old }
        requires one_line { IsLine (inquire_text word.now params.now) }
        ensures { Asks Dropped.WriteFault limit (inquire_text word.now params.now) result
            (AnswersDropped (outcome_of_dropped result)) self.old self.new }
    {
        match self.ask_dropped(word, params, limit) {
            Ok(()) => Dropped::Done,
            Err(error) => error.into(),
        }
    }

    /// Asks as `inquire_drop` does.
    pub(crate) fn ask_dropped(
        &mut self,
        word: &[u8],
        params: &[u8],
        limit: usize,
    ) -> Result<(), ClientError>
        requires going { IsOpen self.old }
        requires one_line { IsLine (inquire_text word.now params.now) }
        ensures { Asks (Err not_written) limit (inquire_text word.now params.now) result
            (AnswersDropped (drop_outcome result)) self.old self.new }
    {
        let mut lines = InquiryLines {
            buffer: ByteCounter::new(limit),
        };
        let mut took = self.gather(word, params, &mut lines)?;
        counted(&mut took, lines.buffer)
    }

    /// Tells the client how many bytes are taken of what it is asked for.
    #[tactic(auto, using(crate::proofs::Saying::said))]
    pub fn tell_limit(&mut self, limit: usize) -> Result<(), WriteFault>
        ensures { WritesText (limit_line limit) self.old result self.new }
    {
        let mut digits = Buffer::new();
        self.status(b"INQUIRE_MAXLEN", digits.format(limit).as_bytes())
            .whole()
    }

    /// Asks the client, and reads up to the first line that isn't skipped, unless the question
    /// couldn't be written.
    fn gather<B: Bytes + Drop>(
        &mut self,
        word: &[u8],
        params: &[u8],
        lines: &mut InquiryLines<B>,
    ) -> Result<Took, ClientError>
        requires going { IsOpen self.old }
        requires one_line { IsLine (inquire_text word.now params.now) }
        ensures gathered { B.keeps lines.old.buffer
            [] → IfOk result (λ took. Gather (ReadsOn (λ before line. is_skipped line)
            [] (λ skipped. B.keeps lines.new.buffer (flat_map carried skipped)))
            (inquire_text word.now params.now) self.old took self.new) }
        ensures cut { IfErr result
            (NotWritten (inquire_text word.now params.now) self.old self.new) }
        ensures limit { B.limit lines.new.buffer ≡ B.limit lines.old.buffer }
    {
        match self.ask(word, params) {
            Sent::All => Ok(self.next_after(lines)),
            Sent::Failed { .. } => Err(ClientError::Gone(Gone::WriteFault)),
        }
    }

    /// Writes the line that asks.
    fn ask(&mut self, word: &[u8], params: &[u8]) -> Sent
        requires { IsLine (inquire_text word.now params.now) }
        ensures { HasWritten (line_of (inquire_text word.now params.now)) self.old result self.new }
    {
        if params.is_empty() {
            return self.say(&[b"INQUIRE ", word]);
        }
        self.say(&[b"INQUIRE ", word, b" ", params])
    }
}

/// A law: the bytes decide what an inquiry comes to that a line closes, and which bytes are left
/// behind that line.
pub fn inquiries_come_to_one_outcome()
    ensures { (limit : ℕ) (bytes : List ℕ) (took other_took : Took) (outcome other : Outcome)
        (after later : Reader) (left rest : List ℕ) → IsClosed outcome → IsClosed other
        → Inquiry limit bytes took outcome after left
        → Inquiry limit bytes other_took other later rest
        → (outcome ≡ other) × (after.ahead ++ left ≡ later.ahead ++ rest) }
{}

/// What an inquiry comes to whose bytes are kept so, by the answer after its data lines.
fn collected(took: &mut Took, buffer: VecBuffer) -> Inquired
    ensures answer { IsAnswer buffer.limit (IsVecOf buffer.limit buffer.bytes.items buffer.overflow)
        took.old (Answers (outcome_of result)) }
    ensures within { IfData result (λ bytes. length bytes ≤ buffer.limit) }
    ensures others { result ≢ Inquired.WriteFault }
{
    if let Err(error) = end_of(took) {
        return error.into();
    }
    match buffer.overflow {
        Overflow::None => Inquired::Data(buffer.into_bytes()),
        Overflow::TooMuch => Inquired::TooMuch,
        Overflow::NoMemory => Inquired::NoMemory,
    }
}

/// What an inquiry for a secret comes to whose bytes are kept so, by the answer after its data
/// lines.
fn buffered(took: &mut Took, buffer: &SecretBuffer) -> Result<Secret, ClientError>
    ensures answer { IsAnswer MAX_SECRET_LEN (IsSecretOf buffer.now.bytes buffer.now.too_much)
        took.old (Answers (secret_outcome result)) }
    ensures others { result ≢ Err not_written }
{
    end_of(took)?;
    match buffer.secret() {
        Some(secret) => Ok(secret),
        None => Err(ClientError::TooMuch),
    }
}

/// What an inquiry comes to whose bytes are counted so, by the answer after its data lines.
fn counted(took: &mut Took, counter: ByteCounter) -> Result<(), ClientError>
    ensures answer { IsAnswer counter.limit (IsCountOf counter.limit counter.left counter.past)
        took.old (AnswersDropped (drop_outcome result)) }
    ensures others { result ≢ Err not_written }
{
    end_of(took)?;
    if counter.past {
        Err(ClientError::TooMuch)
    } else {
        Ok(())
    }
}
