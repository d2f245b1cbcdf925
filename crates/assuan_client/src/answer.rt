//! What a server's answer to a command comes to, and how the connection stands behind it. Plain
//! data, which may hold what a user typed. Begin with `Answer`; which one the server's bytes come
//! to say `specs/Answers`.

ghost use Rattle.std.specs.Prelude.{◌≡◌};
ghost use Rattle.assuan_client.specs.Answers.{state_after};

use assuan_line::Breach;
use assuan_text::MAX_LINE_LEN;
use cache_policy::Secret;
use wiping::Wiped;

/// What a server answers to a command, to a reply or to a cancel. It may hold what was typed, so it
/// isn't printed.
#[derive(Drop)]
pub enum Answer {
    /// `OK`, and no byte of data before it.
    Ok,
    /// `OK` after these bytes of data, at least one and at most 255.
    Got(Secret),
    /// `ERR` with its number.
    Err(u32),
    /// An inquiry. Data that came before it counts with the data after it.
    Asked {
        word: Wiped<MAX_LINE_LEN>,
        text: Wiped<MAX_LINE_LEN>,
    },
    /// The server broke the protocol.
    Broken(Breach),
    /// A read failed.
    ReadFault,
    /// The lines couldn't be written whole, and nothing was read.
    WriteFault,
}

impl Answer {
    /// How a connection stands after this answer.
    pub(crate) fn state(&self) -> State
        ensures { result ≡ state_after self.now }
    {
        match self {
            Answer::Ok | Answer::Got(_) | Answer::Err(_) => State::Ready,
            Answer::Asked { .. } => State::Asked,
            Answer::Broken(_) | Answer::ReadFault | Answer::WriteFault => State::Broken,
        }
    }
}

/// How a connection stands.
#[derive(Clone, Copy, PartialEq, Eq)]
pub enum State {
    /// A command may be given.
    Ready,
    /// The server waits for what it inquired. A command may be given too.
    Asked,
    /// Nothing more may be said.
    Broken,
}
