//! One line of the protocol without its end, whose type says that it is one, so that nobody checks
//! it again. Its bytes lie in the value itself, and no memory is taken. Begin with `Line::of`;
//! `IsLine` of `specs/Lines` is the rule.

ghost use Rattle.std.specs.Prelude.{◌≡◌, ◌↔◌, [], IsSome, IfSome};
ghost use Rattle.assuan_line.specs.Lines.{IsLine};

use assuan_text::MAX_LINE_LEN;
use std::marker::Model;
use wiping::Wiped;

pub(crate) const LF: u8 = b'\n';

pub(crate) const CR: u8 = b'\r';

/// A line without its end: at most 1,000 bytes, none of them a line feed. It may hold a passphrase,
/// so it isn't printed, and its bytes are overwritten when it is dropped. A drop is given its value
/// by a move: `clear` overwrites them where they lie.
#[derive(Drop)]
pub struct Line {
    bytes: Wiped<MAX_LINE_LEN>,
}

impl Model for Line {
    ghost use Rattle.std.specs.Prelude.{List, ℕ};
    ghost use Rattle.assuan_line.specs.Lines.{IsLine};

    ghost Value = { List ℕ };

    ghost view = { λ l. l.bytes };

    ghost invariant = { λ l. IsLine l.bytes };
}

impl Line {
    /// The line of these bytes, if they can be one.
    pub fn of(bytes: &[u8]) -> Option<Line>
        ensures some { IsSome result ↔ IsLine bytes.now }
        ensures line { IfSome result (λ line. line ≡ bytes.now) }
    {
        if bytes.contains(&LF) {
            return None;
        }
        let mut line = Line {
            bytes: Wiped::new(),
        };
        line.bytes.try_extend_from_slice(bytes).ok()?;
        Some(line)
    }

    /// Its bytes, without the line feed.
    pub fn bytes(&self) -> &[u8]
        ensures bytes { result.now ≡ self.now }
        ensures is_line { IsLine self.now }
    {
        self.bytes.bytes()
    }

    /// Overwrites the bytes where they lie. The line is empty then.
    pub fn clear(&mut self)
        ensures { self.new ≡ [] }
    {
        self.bytes.clear();
    }
}
