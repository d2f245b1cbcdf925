//! Why a request isn't carried out: an error of the agent, one of its pinentry, or a client that
//! gave nothing. Plain data, the error type of commands. Begin with `Refusal`; what a server says
//! to it stands in `assuan_server`.

ghost use Rattle.std.specs.Prelude.{◌≡◌};
ghost use Rattle.session_client.specs.Refusals.{gone_by};

use crate::{ClientError, Code, Gone};
use agent_ports::WriteFault;

/// Why a request isn't carried out further, once it was read.
#[derive(Clone, Copy, PartialEq, Eq)]
pub enum Refusal {
    /// By an error of the agent's own.
    Agent(Code),
    /// By one that the pinentry gave.
    Pinentry(Code),
    /// The client gave nothing of what was wanted, or is gone.
    Client(ClientError),
}

impl From<ClientError> for Refusal {
    ghost use Rattle.std.specs.Prelude.{◌≡◌};
    ghost use Rattle.session_client.specs.declared.refusal.Refusal.TheVariants.{Client};

    ghost from_gives = { λ error why. why ≡ Client error };

    fn from(error: ClientError) -> Refusal {
        Refusal::Client(error)
    }
}

impl From<WriteFault> for Refusal {
    ghost use Rattle.std.specs.Prelude.{◌≡◌};
    ghost use Rattle.session_client.specs.declared.refusal.Refusal.TheVariants.{Client};
    ghost use Rattle.session_client.specs.declared.client_error.Gone.TheVariants as gone;
    ghost use Rattle.session_client.specs.declared.client_error.ClientError.TheVariants.{Gone};

    ghost from_gives = { λ _ why. why ≡ Client (Gone gone.WriteFault) };

    fn from(_fault: WriteFault) -> Refusal {
        Refusal::Client(ClientError::Gone(Gone::WriteFault))
    }
}

impl Refusal {
    /// How the client is gone by whom the request is refused, where it is.
    pub fn gone(self) -> Option<Gone>
        ensures { result ≡ gone_by self }
    {
        match self {
            Refusal::Client(ClientError::Gone(how)) => Some(how),
            Refusal::Agent(_) | Refusal::Pinentry(_) | Refusal::Client(_) => None,
        }
    }
}
