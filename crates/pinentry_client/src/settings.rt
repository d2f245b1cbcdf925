//! What a pinentry is told before a prompt, a line for each setting in a fixed order: terminal and
//! locale, timeout, texts. Pure, without memory. Begin with `setting_line`; `IsSettingLine` of
//! `specs/Settings` says which line each one has.

ghost use Rattle.std.specs.Prelude.{◌≡◌, ◌≤◌, ◌+◌, ◌++◌, length, false};
ghost use Rattle.{assuan_line.specs.Lines.IsLine, assuan_text.specs.LineEnds.has_lf};
ghost use Rattle.assuan_text.specs.declared.TheConstants.{MAX_LINE_LEN};
ghost use Rattle.session_options.specs.Text.{has_line_end};
ghost use Rattle.pinentry_client.specs.Settings.{IsSettingLine, IsWhereGiven, IsTextLine};
ghost use Rattle.pinentry_client.specs.Settings.{IsTimeoutLine, IsJust};

use agent_ask::PromptSpec;
use assuan_escape::escape_into;
use assuan_line::Line;
use assuan_text::Text;
use itoa::Buffer;

/// What a pinentry is told, and asked, before a prompt.
#[derive(Clone, Copy, PartialEq, Eq)]
pub(crate) enum Setting {
    TtyName,
    TtyType,
    LcCtype,
    LcMessages,
    Timeout,
    /// The number of its process is asked for.
    Pid,
    /// No key is named, so that the pinentry keeps nothing.
    KeyInfo,
    Title,
    Description,
    Prompt,
    Ok,
    Cancel,
    QualityBar,
}

/// All settings, in their order.
pub(crate) const SETTINGS: [Setting; 13] = [
    Setting::TtyName,
    Setting::TtyType,
    Setting::LcCtype,
    Setting::LcMessages,
    Setting::Timeout,
    Setting::Pid,
    Setting::KeyInfo,
    Setting::Title,
    Setting::Description,
    Setting::Prompt,
    Setting::Ok,
    Setting::Cancel,
    Setting::QualityBar,
];

/// The line of a setting, if it is sent.
pub(crate) fn setting_line(spec: &PromptSpec, setting: Setting) -> Option<Line>
    ensures { IsSettingLine spec.now setting result }
{
    match setting {
        Setting::TtyName => option_line(b"OPTION ttyname=", &spec.env.ttyname),
        Setting::TtyType => option_line(b"OPTION ttytype=", &spec.env.ttytype),
        Setting::LcCtype => option_line(b"OPTION lc-ctype=", &spec.env.lc_ctype),
        Setting::LcMessages => option_line(b"OPTION lc-messages=", &spec.env.lc_messages),
        Setting::Timeout => timeout_line(spec.timeout),
        Setting::Pid => Some(plain_line(b"GETINFO pid")),
        Setting::KeyInfo => Some(plain_line(b"SETKEYINFO --clear")),
        Setting::Title => given_line(b"SETTITLE ", &spec.title),
        Setting::Description => given_line(b"SETDESC ", &spec.description),
        Setting::Prompt => given_line(b"SETPROMPT ", &spec.prompt),
        Setting::Ok => given_line(b"SETOK ", &spec.ok),
        Setting::Cancel => given_line(b"SETCANCEL ", &spec.cancel),
        Setting::QualityBar => {
            if spec.quality {
                Some(plain_line(b"SETQUALITYBAR"))
            } else {
                None
            }
        }
    }
}

/// An option with its value, which is written as it stands, where that isn't empty.
fn option_line(word: &[u8], value: &[u8]) -> Option<Line>
    requires short { length word.now + length value.now ≤ MAX_LINE_LEN }
    requires word { has_lf word.now ≡ false }
    requires value { has_line_end value.now ≡ false }
    ensures { IsWhereGiven value.now (IsJust (word.now ++ value.now)) result }
{
    if value.is_empty() {
        return None;
    }
    Some(joined_line(word, value))
}

/// A line of two pieces.
fn joined_line(word: &[u8], value: &[u8]) -> Line
    requires { IsLine (word.now ++ value.now) }
    ensures { result ≡ word.now ++ value.now }
{
    let mut line = Text::new();
    line.try_extend_from_slice(word).unwrap();
    line.try_extend_from_slice(value).unwrap();
    Line::of(&line).unwrap()
}

/// The seconds after which the prompt is given up, unless that is never.
fn timeout_line(timeout: u32) -> Option<Line>
    ensures { IsTimeoutLine timeout result }
{
    if timeout == 0 {
        return None;
    }
    Some(text_line(b"SETTIMEOUT ", Buffer::new().format(timeout).as_bytes()))
}

/// A text, where it isn't empty.
fn given_line(word: &[u8], text: &[u8]) -> Option<Line>
    requires short { length word.now ≤ MAX_LINE_LEN }
    requires word { has_lf word.now ≡ false }
    ensures { IsWhereGiven text.now (IsTextLine word.now text.now) result }
{
    if text.is_empty() {
        return None;
    }
    Some(text_line(word, text))
}

/// A line of a word and a text, which is escaped. It is cut after the last escape that fits.
pub(crate) fn text_line(word: &[u8], text: &[u8]) -> Line
    requires short { length word.now ≤ MAX_LINE_LEN }
    requires word { has_lf word.now ≡ false }
    ensures { IsTextLine word.now text.now result }
{
    let mut line = Text::new();
    line.try_extend_from_slice(word).unwrap();
    let _ = escape_into(text, &mut line);
    Line::of(&line).unwrap()
}

/// A line that is the same in each prompt.
pub(crate) fn plain_line(line: &[u8]) -> Line
    requires { IsLine line.now }
    ensures { result ≡ line.now }
{
    Line::of(line).unwrap()
}
