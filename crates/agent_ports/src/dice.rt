//! The port of random bytes, for salts, nonces and wrapping keys. A draw fills the caller's buffer
//! and touches nothing else. `IsDrawn` of `specs/Draws` says what one does; `mem::dice` has those
//! of tests, `agent_host` the machine's.

ghost use Rattle.agent_ports.specs.{Draws.IsDrawn, Sides.Side};

/// Where random bytes come from.
pub trait Dice {
    /// The bytes to come, where they are known, and how many draws failed.
    ghost draws: { Self → Side };

    /// Fills the buffer with the next bytes, and says whether it could. A draw that failed leaves
    /// zeros in it.
    fn fill(&mut self, out: &mut [u8]) -> bool
        ensures { IsDrawn (draws self.old) result out.new (draws self.new) };
}
