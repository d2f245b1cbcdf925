//! Which of several settings of an option counts. Pure. Begin with `last_of`, and with `settled` of
//! `specs/Settled`.

ghost use Rattle.std.specs.{Prelude.{◌≡◌, Some, if◌then◌else◌, map}, List.list_any};
ghost use Rattle.std.specs.{Option.option_map, Str.bytes_eq};
ghost use Rattle.agent_conf.specs.{Settled.{after_dashes, is_of, last_of, option_of}};
ghost use Rattle.agent_conf.specs.Written.{written};

use crate::setting::{Place, Setting};

/// The last of the settings that is of an option of these names.
pub(crate) fn last_of<'a>(names: &[&[u8]], settings: &[Setting<'a>]) -> Option<Setting<'a>>
    ensures { option_map written result
        ≡ last_of (map (λ name. name.now) names.entry.now) (map written settings.entry.now) }
{
    let mut last = None;
    for setting in settings {
        last = later(names, setting, last);
    }
    last
}

/// The setting, where it is of an option of these names, or else the one before.
fn later<'a>(
    names: &[&[u8]],
    setting: &Setting<'a>,
    before: Option<Setting<'a>>,
) -> Option<Setting<'a>>
    ensures { option_map written result ≡ (if is_of (map (λ name. name.now) names.entry.now)
        (written setting.entry.now) then Some (written setting.entry.now)
        else option_map written before.entry) }
{
    if is_of(names, setting) {
        Some(*setting)
    } else {
        before
    }
}

/// Whether the setting is of an option of these names.
pub(crate) fn is_of(names: &[&[u8]], setting: &Setting<'_>) -> bool
    ensures { result ≡ is_of (map (λ name. name.now) names.now) (written setting.now) }
{
    match option_of(setting) {
        Some(option) => is_among(names, option),
        None => false,
    }
}

fn is_among(names: &[&[u8]], option: &[u8]) -> bool
    ensures { result
        ≡ list_any (λ name. bytes_eq name option.now) (map (λ name. name.now) names.now) }
{
    for name in names {
        if *name == option {
            return true;
        }
    }
    false
}

/// The option that a setting names, if it names one.
pub(crate) fn option_of<'a>(setting: &Setting<'a>) -> Option<&'a [u8]>
    ensures { option_map (λ name. name.now) result ≡ option_of (written setting.entry.now) }
{
    match setting.place {
        Place::Words => after_dashes(setting.name),
        Place::Machine | Place::Home => match after_dashes(setting.text) {
            Some(_) => None,
            None => Some(setting.name),
        },
    }
}

/// The bytes after two dashes.
pub(crate) fn after_dashes(name: &[u8]) -> Option<&[u8]>
    ensures { option_map (λ name. name.now) result ≡ after_dashes name.now }
{
    name.strip_prefix(b"--")
}
