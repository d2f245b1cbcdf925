//! A file of options as lines, and what each of them sets (GnuPG manual, "Agent Configuration").
//! It takes memory for the list alone. Begin with `settings_in`; definitions are in `specs/Lines`.

ghost use Rattle.std.specs.Prelude.{◌≡◌, ◌≤◌, ◌<◌, ◌+◌, ◌∷◌, ◌++◌, [], IfOk, MatchOption, length};
ghost use Rattle.std.specs.List.{position_or_len, prefix_len, slice_split, suffix_len};
ghost use Rattle.std.specs.{Prelude.map};
ghost use Rattle.std.specs.Option.{option_map, option_to_list};
ghost use Rattle.assuan_text.specs.LineEnds.{is_lf};
ghost use Rattle.agent_conf.specs.Lines.{after_white, before_white, is_white, setting_of};
ghost use Rattle.agent_conf.specs.Lines.{settings_in, trimmed, unquoted, without_order_mark};
ghost use Rattle.agent_conf.specs.Written.{written};

use crate::setting::{Place, Setting};
use assuan_text::is_ignored;
use session_options::name_and_value;
use std::alloc::{AllocError, Global};

/// What a file sets, in its order.
pub(crate) fn settings_in(
    alloc: Global,
    place: Place,
    file: &[u8],
) -> Result<Vec<Setting<'_>>, AllocError>
    ensures { IfOk result
        (λ settings. map written settings.items ≡ settings_in place file.entry.now) }
{
    let mut settings = Vec::new(alloc);
    let mut rest = Some(without_order_mark(file));
    let mut number = 1;
    while let Some(text) = rest {
        let (line, after) = first_line(text);
        settings = with_setting(settings, setting_of(place, number, line))?;
        number += 1;
        rest = after;
    }
    Ok(settings)
}

/// The settings, and behind them this one, where there is one.
fn with_setting<'a>(
    mut settings: Vec<Setting<'a>>,
    setting: Option<Setting<'a>>,
) -> Result<Vec<Setting<'a>>, AllocError>
    ensures { IfOk result (λ all. map written all.items
        ≡ map written settings.entry.items ++ option_to_list (option_map written setting.entry)) }
{
    if let Some(setting) = setting {
        settings.push(setting)?;
    }
    Ok(settings)
}

/// The first line of a text, and what comes after its end where it has one.
fn first_line(text: &[u8]) -> (&[u8], Option<&[u8]>)
    ensures lines { MatchOption result.1 (slice_split is_lf text.now ≡ result.0.now ∷ [])
        (λ after. slice_split is_lf text.now ≡ result.0.now ∷ slice_split is_lf after.now) }
    ensures shorter { MatchOption result.1 (length result.0.now ≤ length text.now)
        (λ after. length after.now < length text.now) }
{
    let (line, after) = text.split_at(line_len(text));
    match after {
        [] => (line, None),
        [_, after @ ..] => (line, Some(after)),
    }
}

/// How many bytes stand before the first line feed.
fn line_len(text: &[u8]) -> usize
    ensures place { result ≡ position_or_len is_lf text.now }
    ensures within { result ≤ length text.now }
{
    text.iter().take_while(|byte| **byte != b'\n').count()
}

/// What a line sets, unless it is empty or a comment.
fn setting_of(place: Place, number: usize, line: &[u8]) -> Option<Setting<'_>>
    ensures { option_map written result ≡ setting_of place number line.entry.now }
{
    let text = trimmed(line);
    if is_ignored(text) {
        return None;
    }
    let (name, value) = name_and_value(text);
    Some(Setting {
        place,
        number,
        text,
        name,
        value: unquoted(value),
    })
}

/// The text without the byte order mark at its front.
fn without_order_mark(text: &[u8]) -> &[u8]
    ensures text { result.now ≡ without_order_mark text.now }
    ensures shorter { length result.now ≤ length text.now }
{
    text.strip_prefix(b"\xef\xbb\xbf").unwrap_or(text)
}

/// The line without the white space in front and behind.
fn trimmed(line: &[u8]) -> &[u8]
    ensures { result.now ≡ trimmed line.now }
{
    before_white(after_white(line))
}

fn after_white(bytes: &[u8]) -> &[u8]
    ensures { result.now ≡ after_white bytes.now }
{
    bytes.split_at(white_in_front(bytes)).1
}

fn white_in_front(bytes: &[u8]) -> usize
    ensures place { result ≡ prefix_len is_white bytes.now }
    ensures within { result ≤ length bytes.now }
{
    bytes.iter().take_while(|byte| is_white(**byte)).count()
}

fn before_white(bytes: &[u8]) -> &[u8]
    ensures { result.now ≡ before_white bytes.now }
{
    bytes.split_at(bytes.len() - white_behind(bytes)).0
}

fn white_behind(bytes: &[u8]) -> usize
    ensures place { result ≡ suffix_len is_white bytes.now }
    ensures within { result ≤ length bytes.now }
{
    bytes
        .iter()
        .rev()
        .take_while(|byte| is_white(**byte))
        .count()
}

fn is_white(byte: u8) -> bool
    ensures { result ≡ is_white byte }
{
    matches!(byte, b' ' | b'\t'..=b'\r')
}

/// What stands between double quotes, where a value is written so.
fn unquoted(value: &[u8]) -> &[u8]
    ensures { result.now ≡ unquoted value.now }
{
    match value {
        [b'"', inner @ .., b'"'] => inner,
        _ => value,
    }
}
