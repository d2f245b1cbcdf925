//! One line and its line feed, in one write. It touches the sink alone; the bytes are put together
//! in place, without memory, and overwritten. The clauses of `write_line` say how much of them
//! went.

ghost use Rattle.std.specs.Prelude.{◌≡◌, ◌≤◌, ◌+◌, ◌∷◌, [], ◌++◌, length};
ghost use Rattle.agent_ports.specs.{Counts.Rose, Sides.{with_bytes, sent_part, IfCut, IsCut}};

use crate::Line;
use crate::line::LF;
use agent_ports::{Sent, Sink};
use assuan_text::MAX_LINE_LEN;
use wiping::Wiped;

/// The most bytes that a line is written as: its own, and a line feed.
pub(crate) const MAX_WRITTEN_LEN: usize = MAX_LINE_LEN + 1;

/// Writes the line and a line feed. Where the write fails, some first bytes of these went.
pub fn write_line<K: Sink>(sink: &mut K, line: &Line) -> Sent
    ensures cut { IfCut result (λ sent. sent ≤ length line.now + 1) }
    ensures written { (K.output sink.new).bytes ≡ with_bytes (K.output sink.old).bytes
        (sent_part (line.now ++ 10 ∷ []) result) }
    ensures failed { IsCut result → Rose (K.output sink.old).faults (K.output sink.new).faults }
    ensures faults { (K.output sink.old).faults ≤ (K.output sink.new).faults }
    ensures beside { K.beside_output sink.new ≡ K.beside_output sink.old }
{
    let mut text: Wiped<MAX_WRITTEN_LEN> = Wiped::new();
    text.try_extend_from_slice(line.bytes()).unwrap();
    text.push(LF);
    let sent = sink.put(text.bytes());
    text.clear();
    sent
}
