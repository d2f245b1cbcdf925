//! What a server sends as data lines, alone or with the OK behind them. It writes to the
//! connection's link, and overwrites each line behind its write. Begin with `Conn::data`; `AreData`
//! of `assuan_escape` (`specs/DataLines`) says which lines some bytes have.

ghost use Rattle.std.specs.Prelude.{◌≡◌, ◌++◌, ◌∷◌, ◌^◌, ◌-◌, [], ℕ, List, length, min};
ghost use Rattle.std.specs.Bool.{OnTrue};
ghost use Rattle.assuan_escape.specs.DataLines.{AreData, data_line, data_text};
ghost use Rattle.assuan_text.specs.LineEnds.{line_of};
ghost use Rattle.assuan_server.specs.Connections.{Connection};
ghost use Rattle.assuan_server.specs.Written.{HasWritten, WritesData, ok_text};

use crate::conn::Conn;
use agent_ports::{Link, Sent};
use assuan_escape::{escape_into, full_line};
use assuan_text::Text;
use wiping::wipe;

impl<'a, L: Link> Conn<'a, L> {
    /// Writes the bytes as data lines, `D`, a blank and escaped bytes: each of at most 1,000 bytes
    /// and as full as no cut escape allows, and no line for no bytes. Where a write fails, the
    /// bytes of all these lines that went are counted.
    pub fn data(&mut self, bytes: &[u8]) -> Sent
        ensures { (pieces : List (List ℕ)) × AreData bytes.now pieces
            × HasWritten (data_text pieces) self.old result self.new }
    {
        match self.data_lines(bytes) {
            Ok(_) => Sent::All,
            Err(sent) => Sent::Failed { sent },
        }
    }

    /// Writes the bytes as data lines, as `data` does, and that the command was carried out: in one
    /// piece where that is short.
    pub fn last_data(&mut self, bytes: &[u8]) -> Sent
        ensures { (pieces : List (List ℕ)) × AreData bytes.now pieces
            × HasWritten (data_text pieces ++ line_of (ok_text [])) self.old result self.new }
    {
        let mut text = Text::new();
        if fill_answer(bytes, &mut text) {
            let sent = self.put(&text);
            wipe(&mut text);
            return sent;
        }
        wipe(&mut text);
        match self.data_lines(bytes) {
            Ok(count) => self.ok_after(count),
            Err(sent) => Sent::Failed { sent },
        }
    }

    /// Writes the data lines. Gives how many bytes these are, or how many of them went.
    fn data_lines(&mut self, bytes: &[u8]) -> Result<usize, usize>
        ensures { WritesData bytes.now self.old result self.new }
    {
        let mut rest = bytes;
        let mut sent: usize = 0;
        while !rest.is_empty() {
            let (mut line, count) = full_line(rest);
            let whole = line.len() + 1;
            let said = self.say(&[line.bytes()]);
            line.clear();
            match said {
                Sent::All => sent = sent.saturating_add(whole),
                Sent::Failed { sent: part } => return Err(sent.saturating_add(part)),
            }
            rest = rest.split_at(count).1;
        }
        Ok(sent)
    }

    /// Says that the command was carried out. Counts it with what was written before.
    fn ok_after(&mut self, count: usize) -> Sent
        ensures { (first : List ℕ) (before : Connection)
            → HasWritten first before Sent.All self.old → count ≡ min (length first) (2 ^ 64 - 1)
            → HasWritten (first ++ line_of (ok_text [])) before result self.new }
    {
        match self.ok(b"") {
            Sent::All => Sent::All,
            Sent::Failed { sent } => Sent::Failed {
                sent: count.saturating_add(sent),
            },
        }
    }
}

/// Fills the text with the data line of the bytes and `OK`. `false` where they take no line, or
/// more than fit.
fn fill_answer(bytes: &[u8], text: &mut Text) -> bool
    requires { text.old.items ≡ [] }
    ensures { OnTrue result (AreData bytes.now (bytes.now ∷ [])
        × (text.new.items ≡ line_of (data_line bytes.now) ++ line_of (ok_text []))) }
{
    if bytes.is_empty() {
        return false;
    }
    text.try_extend_from_slice(b"D ").unwrap();
    escape_into(bytes, text) == bytes.len() && text.try_extend_from_slice(b"\nOK\n").is_ok()
}
