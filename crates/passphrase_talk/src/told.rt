//! What a contact with an agent comes to: a passphrase, OK, an error, or how the agent was lost.
//! Plain data; a passphrase in it is overwritten when it is dropped. Begin with `Told`; which
//! answer is which says `told_of` (`specs/Dialogues`).

use cache_policy::Secret;

/// What a contact with an agent comes to. It may hold a passphrase, so it isn't printed.
#[derive(Drop)]
pub enum Told {
    /// `OK`, after a passphrase of 1 to 255 bytes.
    Passphrase(Secret),
    /// `OK`, and no byte of data before it.
    Done,
    /// `ERR` with its number, and whether the agent said that it launched a pinentry for the
    /// request.
    Refused { code: u32, launched: bool },
    /// The agent inquired what this program doesn't answer, and was told `CAN`: the number of the
    /// `ERR` that came then, or none where it was `OK`, of which no data count.
    Cancelled(Option<u32>),
    /// No memory for a connection.
    NoMemory,
    /// There was no whole answer.
    Lost(Loss),
}

/// Why there is no whole answer.
#[derive(Clone, Copy, Debug, PartialEq, Eq)]
pub enum Loss {
    /// No connection could be made.
    Unmet,
    /// A read failed.
    Read,
    /// A write failed.
    Write,
    /// The agent ended the connection.
    Ended,
    /// The agent broke the protocol, or its greeting was an error. Nothing more was said to it.
    Broken,
}
