//! Any client of a session as the `Caller` of a prompt. It calls the client's `tell` and `ask`, and
//! nothing else. Begin with `Caller`; `specs/Clients` says what a client is heard to say (`Hears`).

pub(crate) mod caller;

use crate::{Caller, Heard};
use cache_policy::Secret;
use session_client::{Client, ClientError};

impl<C: Client<Secret>> Caller for C {
    ghost use Rattle.session_client.specs.Lines.{IsOpen};
    ghost use Rattle.agent_ask.specs.Clients.{Hears, hearing};

    ghost listens = { IsOpen C.views };

    ghost heard = { Hears C.views C.wished };

    ghost promise = { λ before question answer after listens heard.
        hearing C.views C.wished heard };

    fn launched(&mut self, pid: u32) -> Heard {
        match self.tell(pid) {
            Ok(()) => Heard::Fine,
            Err(why) => why.into(),
        }
    }

    fn note(&mut self, pid: u32) -> Result<(), ClientError> {
        self.tell(pid)
    }

    fn secret(&mut self, word: &[u8]) -> Heard {
        match self.ask(word) {
            Ok(secret) => Heard::Secret(secret),
            Err(why) => why.into(),
        }
    }
}
