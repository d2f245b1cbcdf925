//! Random bytes of the system, for salts, nonces and wrapping keys. It reads `/dev/urandom`, and
//! counts what fails. Begin with `SystemDice`; the promise is that of `Dice` (`agent_ports`).

ghost use Rattle.std.specs.Prelude.{◌≡◌, None};

use crate::faults::count;
use agent_ports::Dice;
use std::fs::{File, Files};
use std::io;
use std::io::Read;

/// Where the system gives random bytes.
const SOURCE: &str = "/dev/urandom";

/// The system's random bytes, of `/dev/urandom`, which is opened for each draw. None of them are
/// known. A draw that can't be read whole is a fault, and leaves zeros.
#[derive(Drop)]
pub struct SystemDice<'a, R> {
    rt: &'a R,
    faults: u64,
}

impl<'a, R: Files<File = File>> SystemDice<'a, R> {
    /// Dice that drew nothing yet.
    pub fn new(rt: &'a R) -> Self
        ensures { ⟦<SystemDice<'a, R> as Dice>⟧.draws result ≡ record { bytes = None; faults = 0 } }
    {
        SystemDice { rt, faults: 0 }
    }
}

impl<R: Files<File = File>> Dice for SystemDice<'_, R> {
    ghost draws = { λ d. record { bytes = None; faults = d.faults } };

    fn fill(&mut self, out: &mut [u8]) -> bool {
        let drawn = read_random(self.rt, out).is_ok();
        if !drawn {
            out.fill(0);
        }
        count(&mut self.faults, !drawn);
        drawn
    }
}

/// Fills the buffer from the system's source. After an `Err` it may have bytes of it.
fn read_random<R: Files<File = File>>(rt: &R, out: &mut [u8]) -> io::Result<()> {
    File::open(rt, SOURCE)?.read_exact(out)
}

#[cfg(test)]
mod tests {
    use super::*;

    #[test]
    fn each_draw_has_bytes_of_its_own(rt: HostRuntime) {
        let mut dice = SystemDice::new(&rt);
        let mut first = [0u8; 32];
        let mut second = [0u8; 32];
        assert!(rt; dice.fill(&mut first));
        assert!(rt; dice.fill(&mut second));
        // That 32 random bytes are zeros, or those of another draw, doesn't happen.
        assert!(rt; first != [0u8; 32]);
        assert!(rt; second != [0u8; 32]);
        assert!(rt; first != second);
        assert_eq!(rt; dice.faults, 0);
    }
}
