//! Draws of random bytes, as actions of a request. They call the dice alone; what was drawn
//! is overwritten when it is dropped. Begin with `draw` and `Drawn`; a draw is `Draws`
//! (`specs/Actions`).

ghost use Rattle.std.specs.Prelude.{◌≡◌, replicate};
ghost use Rattle.key_commands.specs.{Actions.Draws, Steps.DoesDrawing};

use agent_ports::Dice;
use assuan_server::Code;
use session_client::Refusal;
use std::marker::Model;
use wiping::wipe;

/// Random bytes, which are overwritten when they are dropped. Contracts see them as a list.
pub struct Drawn<const N: usize> {
    bytes: [u8; N],
}

impl<const N: usize> Model for Drawn<N> {
    ghost use Rattle.std.specs.Prelude.{◌≡◌, ℕ, List, length};

    ghost Value = { List ℕ };

    ghost view = { λ drawn. drawn.bytes };

    ghost invariant = { λ drawn. length drawn.bytes ≡ N };
}

impl<const N: usize> Drawn<N> {
    pub(crate) fn bytes(&self) -> &[u8; N]
        ensures { result.now ≡ self.now }
    {
        &self.bytes
    }

    /// The same bytes once more.
    pub(crate) fn copy(&self) -> Drawn<N>
        ensures { result ≡ self.now }
    {
        Drawn { bytes: self.bytes }
    }

    /// Overwrites the bytes where they lie.
    pub(crate) fn clear(&mut self)
        ensures { self.new ≡ replicate N 0 }
    {
        wipe(&mut self.bytes);
    }
}

/// Draws `N` random bytes.
pub(crate) fn draw<const N: usize, R: Dice>(dice: &mut R) -> Result<Drawn<N>, Refusal>
    ensures { DoesDrawing (Draws N) (R.draws dice.old) result (R.draws dice.new) }
{
    let mut drawn = Drawn { bytes: [0; N] };
    if dice.fill(&mut drawn.bytes) {
        Ok(drawn)
    } else {
        Err(Refusal::Agent(Code::General))
    }
}

impl<const N: usize> Drop for Drawn<N> {
    fn drop(self) {
        let Drawn { mut bytes } = self;
        wipe(&mut bytes);
    }
}
