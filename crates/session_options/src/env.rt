//! Where a pinentry is to ask: terminal and locale, as words that lie in the value itself. Plain
//! data; its type keeps the ends of lines out, so that no word of a client adds a command to a
//! pinentry. Begin with `Env`; `words_of` of `specs/OptionValues` is what contracts see.

ghost use Rattle.std.specs.Prelude.{◌≡◌, [], false};
ghost use Rattle.session_options.specs.Text.{has_line_end};

use crate::Word;
use crate::text::copied;

/// Where a pinentry is to ask: the terminal and the locale of the client. An empty word means none,
/// and no word holds an end of a line.
#[derive(Drop)]
pub struct Env {
    /// The path of the terminal.
    pub ttyname: Word,
    /// The terminal's type, as `TERM` has it.
    pub ttytype: Word,
    /// The locale of characters, as `LC_CTYPE` has it.
    pub lc_ctype: Word,
    /// The locale of messages, as `LC_MESSAGES` has it.
    pub lc_messages: Word,
    ghost one_line_ttyname: { has_line_end ttyname.items ≡ false },
    ghost one_line_ttytype: { has_line_end ttytype.items ≡ false },
    ghost one_line_lc_ctype: { has_line_end lc_ctype.items ≡ false },
    ghost one_line_lc_messages: { has_line_end lc_messages.items ≡ false },
}

impl Env {
    ghost use Rattle.session_options.specs.OptionValues.{words_of};

    /// No terminal and no locale.
    pub(crate) fn none() -> Self
        ensures { words_of result
            ≡ record { ttyname = []; ttytype = []; lc_ctype = []; lc_messages = [] } }
    {
        Env {
            ttyname: Word::new(),
            ttytype: Word::new(),
            lc_ctype: Word::new(),
            lc_messages: Word::new(),
        }
    }

    /// The same words again.
    pub(crate) fn copied(&self) -> Self
        ensures { words_of result ≡ words_of self.now }
    {
        Env {
            ttyname: copied(&self.ttyname),
            ttytype: copied(&self.ttytype),
            lc_ctype: copied(&self.lc_ctype),
            lc_messages: copied(&self.lc_messages),
        }
    }
}
