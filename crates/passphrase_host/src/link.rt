//! One connection to an agent, as a link whose failed calls are counted. It reads and writes a
//! socket, by `Wire`, which knows its time. Begin with `AgentLink`; the promise is that of `Link`
//! (`agent_ports`).

ghost use Rattle.std.specs.Prelude.{◌≡◌, length, None, refl};

use crate::asked::Opened;
use crate::reach::Reached;
use crate::wire::{Wire, WireLoss};
use agent_ports::{Got, Link, Sent, Sink, Source};
use std::rt::Clock;

/// One connection to an agent, whose time is limited as a whole. What was read of it beforehand it
/// gives first. It doesn't show what it holds.
#[derive(Drop)]
pub struct AgentLink<'a, R> {
    wire: Wire<'a, R>,
    /// Where the agent was looked for, and the path of its socket that the system was handed.
    at: String,
    path: String,
    ended: bool,
    read_faults: u64,
    write_faults: u64,
}

impl<'a, R: Clock + Eprint> AgentLink<'a, R> {
    /// A link over this connection, of which no call has failed, and of which this was read already.
    /// It has so many seconds. It says that another prompt is open where a user may have to type.
    pub(crate) fn new(rt: &'a R, opened: Opened, seconds: u32, prompts: bool) -> Self
        ensures fresh { (result.read_faults ≡ 0) × (result.write_faults ≡ 0) }
        ensures at { result.at ≡ opened.reached.at }
        ensures path { result.path ≡ opened.reached.path }
    {
        let Opened { reached, ahead } = opened;
        let Reached { stream, at, path } = reached;
        AgentLink {
            wire: Wire::new(rt, stream, ahead, seconds, prompts),
            at,
            path,
            ended: false,
            read_faults: 0,
            write_faults: 0,
        }
    }
}

impl<R> AgentLink<'_, R> {
    /// What it was lost by, if it was.
    pub(crate) fn loss(&self) -> Option<WireLoss> {
        let has_ended = self.ended || self.read_faults > 0 || self.write_faults > 0;
        self.wire.loss(has_ended)
    }

    /// How many of its calls failed.
    pub(crate) fn faults(&self) -> (u64, u64)
        ensures reads { result.0 ≡ self.now.read_faults }
        ensures writes { result.1 ≡ self.now.write_faults }
    {
        (self.read_faults, self.write_faults)
    }
}

impl<R: Clock + Eprint> Source for AgentLink<'_, R> {
    ghost input = { λ link. record { bytes = None; faults = link.read_faults } };

    ghost beside_input = { λ link. record { bytes = None; faults = link.write_faults } };

    fn read(&mut self, buf: &mut [u8]) -> Got {
        if self.ended {
            return Got::End;
        }
        match self.wire.read(buf) {
            Some(0) => {
                self.ended = true;
                Got::End
            }
            Some(count) => Got::Bytes(count),
            None => {
                self.read_faults = self.read_faults.saturating_add(1);
                Got::Failed
            }
        }
    }
}

impl<R: Clock + Eprint> Sink for AgentLink<'_, R> {
    ghost output = { λ link. record { bytes = None; faults = link.write_faults } };

    ghost beside_output = { λ link. record { bytes = None; faults = link.read_faults } };

    fn put(&mut self, bytes: &[u8]) -> Sent {
        let sent = self.wire.put(bytes);
        if sent == bytes.len() {
            return Sent::All;
        }
        self.write_faults = self.write_faults.saturating_add(1);
        Sent::Failed { sent }
    }
}

impl<R: Clock + Eprint> Link for AgentLink<'_, R> {
    ghost output_beside = { λ _. refl };

    ghost input_beside = { λ _. refl };
}
