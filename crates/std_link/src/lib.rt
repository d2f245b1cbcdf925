//! Any reader and writer of std as a link, as a program's standard input and output, and any stream
//! that is both, as a socket. As a link neither shows what it holds.
//!
//! Begin with [`StdLink::new`] or [`StreamLink::new`]. Their `read` and `put` are proved over any
//! reader and writer: what they take is what they give, which is nothing only at the end, and a
//! write appends its bytes, or a prefix where it failed. Each fault is counted. The definitions
//! begin in `specs/Streams` and in `agent_ports` (`specs/Sides`).
#![tactic(auto)]

mod link_state;
mod stdio;
mod stream;

pub use stdio::StdLink;
pub use stream::StreamLink;
