//! Client errors: what came of a question to the client in place of an answer, down to a lost
//! connection. Plain data. Begin with `ClientError`; `refusal_code` of `specs/Refusals` says by
//! which error each is answered.

/// How the client's connection was lost.
#[derive(Clone, Copy, PartialEq, Eq)]
pub enum Gone {
    /// The source ended.
    Ended,
    /// A line was too long.
    TooLong,
    /// As many bytes were taken as a session may take.
    Spent,
    /// A read failed.
    ReadFault,
    /// A write failed.
    WriteFault,
}

/// What came of a question to the client in place of what was wanted.
#[derive(Clone, Copy, PartialEq, Eq)]
pub enum ClientError {
    /// It cancelled.
    Cancelled,
    /// It sent more bytes than the limit.
    TooMuch,
    /// It sent a line that belongs to no answer.
    Unexpected,
    /// Its connection was lost.
    Gone(Gone),
}
