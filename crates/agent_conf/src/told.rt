//! What is told of settings, in the order in which they are read. It takes memory for the list
//! alone. Begin with `told_of`; definitions are in `specs/Verdicts`.

ghost use Rattle.std.specs.Prelude.{◌≡◌, ◌++◌, [], IfOk, map};
ghost use Rattle.agent_conf.specs.{Told.told_by, Verdicts.{has_refusal, is_kept, is_refused}};
ghost use Rattle.agent_conf.specs.{Verdicts.{note_of, told_from}, Written.written};

use crate::paths::Folders;
use crate::setting::Setting;
use crate::verdict::{Verdict, verdict_of};
use std::alloc::{AllocError, Global};

/// A setting of which something is told, and what.
#[derive(Clone, Copy)]
pub struct Told<'a> {
    pub setting: Setting<'a>,
    pub verdict: Verdict,
}

/// What is told of the settings.
#[tactic(auto, unfolding(crate::specs::Verdicts::told_from))]
pub(crate) fn told_of<'a>(
    alloc: Global,
    folders: &Folders<'_>,
    settings: &[Setting<'a>],
) -> Result<Vec<Told<'a>>, AllocError>
    ensures { IfOk result (λ told. map told_by told.items ≡ told_from folders.entry.now.home.items
        folders.entry.now.user.now [] (map written settings.entry.now)) }
{
    let mut told = Vec::new(alloc);
    for (index, setting) in settings.iter().enumerate() {
        let verdict = verdict_of(folders, &settings[..index], setting);
        told = with_note(told, *setting, verdict)?;
    }
    Ok(told)
}

/// What is told so far, and behind it what is told of one setting more.
fn with_note<'a>(
    mut told: Vec<Told<'a>>,
    setting: Setting<'a>,
    verdict: Verdict,
) -> Result<Vec<Told<'a>>, AllocError>
    ensures { IfOk result (λ all. map told_by all.items
        ≡ map told_by told.entry.items ++ note_of (written setting.entry) verdict) }
{
    if !is_kept(verdict) {
        told.push(Told { setting, verdict })?;
    }
    Ok(told)
}

fn is_kept(verdict: Verdict) -> bool
    ensures { result ≡ is_kept verdict }
{
    matches!(verdict, Verdict::Kept)
}

/// Whether one of them refuses the start.
pub(crate) fn has_refusal(told: &[Told<'_>]) -> bool
    ensures { result ≡ has_refusal (map told_by told.now) }
{
    for one in told {
        if is_refused(one.verdict) {
            return true;
        }
    }
    false
}

fn is_refused(verdict: Verdict) -> bool
    ensures { result ≡ is_refused verdict }
{
    matches!(verdict, Verdict::Refused(_))
}
