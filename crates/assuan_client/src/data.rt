//! What a client writes: one line, or the answer to an inquiry as data lines and END (Assuan
//! manual, "client requests"). It touches the sink alone, and overwrites each line behind its
//! write. Begin with `send_reply`; `Writes` of `agent_ports` (`specs/Writing`) says how much went.

ghost use Rattle.std.specs.Prelude.{◌≡◌, List, ℕ};
ghost use Rattle.agent_ports.specs.Writing.{Writes};
ghost use Rattle.assuan_escape.specs.DataLines.{AreData, data_text};
ghost use Rattle.{assuan_line.specs.Lines.IsLine, assuan_text.specs.LineEnds.line_of};
ghost use Rattle.assuan_client.specs.Writing.{reply_text};

use agent_ports::{Sink, WriteFault};
use assuan_escape::full_line;
use assuan_line::write_text;

/// Writes the bytes as data lines, each as full as no cut escape allows, and `END`.
pub(crate) fn send_reply<K: Sink>(sink: &mut K, bytes: &[u8]) -> Result<(), WriteFault>
    ensures put { (pieces : List (List ℕ)) × AreData bytes.now pieces
        × Writes (reply_text pieces) (K.output sink.old) result (K.output sink.new) }
    ensures beside { K.beside_output sink.new ≡ K.beside_output sink.old }
{
    send_data(sink, bytes)?;
    send_line(sink, b"END")
}

/// Writes the bytes as data lines.
fn send_data<K: Sink>(sink: &mut K, bytes: &[u8]) -> Result<(), WriteFault>
    ensures put { (pieces : List (List ℕ)) × AreData bytes.now pieces
        × Writes (data_text pieces) (K.output sink.old) result (K.output sink.new) }
    ensures beside { K.beside_output sink.new ≡ K.beside_output sink.old }
{
    let mut rest = bytes;
    while !rest.is_empty() {
        let (mut line, count) = full_line(rest);
        let sent = send_line(sink, line.bytes());
        line.clear();
        sent?;
        rest = rest.split_at(count).1;
    }
    Ok(())
}

/// Writes one line.
pub(crate) fn send_line<K: Sink>(sink: &mut K, text: &[u8]) -> Result<(), WriteFault>
    requires { IsLine text.now }
    ensures put { Writes (line_of text.now) (K.output sink.old) result (K.output sink.new) }
    ensures beside { K.beside_output sink.new ≡ K.beside_output sink.old }
{
    write_text(sink, &[text]).whole()
}
