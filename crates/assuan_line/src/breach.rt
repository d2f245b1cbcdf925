//! How a server broke the protocol, as its client finds it: a pinentry, or the agent that
//! `passphrase` asks. Plain data. It stands in this crate since the client that finds a breach and
//! the prompts that report one both stand on it.

use crate::Line;

/// How a child broke the protocol. It may hold a line of the child's, so it isn't printed.
#[derive(Drop)]
pub enum Breach {
    /// The first line that has none of the forms of a server's lines.
    Line(Line),
    /// The child's bytes ended.
    Ended,
    /// A line was too long.
    TooLong,
    /// The budget was taken, and holds no whole line more.
    Spent,
    /// More than 10,000 comments, status lines and inquiries in one command.
    Many,
    /// More than 255 bytes of data in one command.
    TooMuch,
    /// An error, by its number, where none is allowed.
    Code(u32),
    /// Data where none are allowed.
    Data,
    /// An inquiry where none is allowed.
    Inquiry,
}
