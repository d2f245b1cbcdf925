//! One line of several parts, in one write. It touches the sink alone; the parts are put together
//! in place, without memory, and overwritten. `HasSent` of `specs/Written` says how much of the
//! line went.

ghost use Rattle.std.specs.{Prelude.{◌≡◌, ◌≤◌}, List.flat_map};
ghost use Rattle.assuan_text.specs.LineEnds.{line_of};
ghost use Rattle.assuan_line.specs.{Lines.IsLine, Written.HasSent};

use crate::line::LF;
use crate::writer::MAX_WRITTEN_LEN;
use agent_ports::{Sent, Sink};
use wiping::Wiped;

/// Writes one line, whose text is the parts one behind another.
pub fn write_text<K: Sink>(sink: &mut K, parts: &[&[u8]]) -> Sent
    requires { IsLine (flat_map (λ part. part.now) parts.now) }
    ensures sent { HasSent (line_of (flat_map (λ part. part.now) parts.now))
        (K.output sink.old) result (K.output sink.new) }
    ensures faults { (K.output sink.old).faults ≤ (K.output sink.new).faults }
    ensures beside { K.beside_output sink.new ≡ K.beside_output sink.old }
{
    let mut line: Wiped<MAX_WRITTEN_LEN> = Wiped::new();
    for part in parts {
        line.try_extend_from_slice(part).unwrap();
    }
    line.push(LF);
    let sent = sink.put(line.bytes());
    line.clear();
    sent
}
