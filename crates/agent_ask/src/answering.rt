//! How a session goes on behind its reply: as it would, unless the write failed. Pure. It has one
//! function, `unless_cut`, which ends every writer of replies (`specs/Session/Answering`).

ghost use Rattle.std.specs.Prelude.{◌≡◌};
ghost use Rattle.agent_ask.specs.Session.Answering.{unless_cut};

use agent_ports::WriteFault;

/// How a session goes on whose last write came to this: where it was whole, as it would go on.
pub fn unless_cut<W: Copy>(whole: W, cut: W, written: Result<(), WriteFault>) -> W
    ensures { result ≡ unless_cut whole cut written }
{
    match written {
        Ok(()) => whole,
        Err(WriteFault) => cut,
    }
}
