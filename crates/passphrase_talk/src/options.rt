//! What an agent is told before a user may have to type: that a pinentry's launch is to be said,
//! the terminal, and the locale (GnuPG manual, "Agent OPTION"). Pure. Begin with `setting_line`;
//! the lines are `option_lines` (`specs/Dialogues`).

ghost use Rattle.std.specs.Prelude.{◌≡◌, ◌≤◌, ◌+◌, ◌++◌, length, false};
ghost use Rattle.{assuan_line.specs.Lines.IsLine, assuan_text.specs.LineEnds.has_lf};
ghost use Rattle.assuan_text.specs.declared.TheConstants.{MAX_LINE_LEN};
ghost use Rattle.session_options.specs.{OptionValues.words_of, Text.has_line_end};
ghost use Rattle.passphrase_talk.specs.Dialogues.{option_lines, option_with, lines_of};

use assuan_line::Line;
use assuan_text::Text;
use session_options::Env;

/// What an agent is told before a request for which a user may have to type.
#[derive(Clone, Copy, PartialEq, Eq)]
pub(crate) enum Setting {
    /// The launch of a pinentry is to be said.
    Notify,
    TtyName,
    TtyType,
    LcCtype,
    LcMessages,
}

/// All settings, in their order.
pub(crate) const SETTINGS: [Setting; 5] = [
    Setting::Notify,
    Setting::TtyName,
    Setting::TtyType,
    Setting::LcCtype,
    Setting::LcMessages,
];

/// The line of a setting, if it is said.
pub(crate) fn setting_line(env: &Env, setting: Setting) -> Option<Line>
    ensures { lines_of result ≡ option_lines (words_of env.now) setting }
{
    match setting {
        Setting::Notify => Some(plain_line(b"OPTION allow-pinentry-notify")),
        Setting::TtyName => option_line(b"OPTION ttyname=", &env.ttyname),
        Setting::TtyType => option_line(b"OPTION ttytype=", &env.ttytype),
        Setting::LcCtype => option_line(b"OPTION lc-ctype=", &env.lc_ctype),
        Setting::LcMessages => option_line(b"OPTION lc-messages=", &env.lc_messages),
    }
}

/// An option with its value, which is written as it stands, where that isn't empty.
fn option_line(word: &[u8], value: &[u8]) -> Option<Line>
    requires short { length word.now + length value.now ≤ MAX_LINE_LEN }
    requires word { has_lf word.now ≡ false }
    requires value { has_line_end value.now ≡ false }
    ensures { lines_of result ≡ option_with word.now value.now }
{
    if value.is_empty() {
        return None;
    }
    Some(joined_line(word, value))
}

/// A line of two pieces.
fn joined_line(word: &[u8], value: &[u8]) -> Line
    requires { IsLine (word.now ++ value.now) }
    ensures { result ≡ word.now ++ value.now }
{
    let mut line = Text::new();
    line.try_extend_from_slice(word).unwrap();
    line.try_extend_from_slice(value).unwrap();
    Line::of(&line).unwrap()
}

/// A line that is always the same.
fn plain_line(line: &[u8]) -> Line
    requires { IsLine line.now }
    ensures { result ≡ line.now }
{
    Line::of(line).unwrap()
}
