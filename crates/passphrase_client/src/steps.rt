//! The steps of an act: which requests are made, of which agent, in which order. Pure. Begin with
//! `steps_of`, which `specs/Steps` defines; `course.rt` takes them.

ghost use Rattle.std.specs.{Prelude.{◌≡◌, Bool}, Option.is_some};
ghost use Rattle.passphrase_words.specs.Requests.{request_value};
ghost use Rattle.passphrase_client.specs.Steps.{steps_of, steps_to_give, looks, forgets, place_of};
ghost use Rattle.passphrase_client.specs.Steps.{waits_of, request_of, forgets_by};

use Step::{Ask, Forget, Keep, Look, Probe, Store};
use cache_policy::Secret;
use passphrase_talk::{Agents, Place, Waits};
use passphrase_words::{Act, Request};

/// One request of a run, and to which agent.
#[derive(Clone, Copy, PartialEq, Eq)]
pub enum Step {
    /// What is kept is asked for, and nobody is prompted.
    Look(Place),
    /// The user is asked, where nothing is kept.
    Ask,
    /// What is kept is forgotten, for the id or for all, as the act says.
    Forget(Place),
    /// What stands on standard input is stored.
    Store,
    /// A preset that gives nothing shows whether presets are taken.
    Probe,
    /// What was answered is stored with its lifetime.
    Keep,
}

/// The steps of an act where these agents answer, in order.
pub(crate) fn steps_of(act: Act, agents: Agents) -> &'static [Step]
    ensures { result.now ≡ steps_of act agents }
{
    match act {
        Act::Give { quiet: true, .. } | Act::Cached => looks(agents),
        Act::Give { repeats, ttl, .. } => steps_to_give(repeats, ttl.is_some(), agents),
        Act::Forget | Act::ForgetAll => forgets(agents),
        Act::Store => match agents {
            Agents::One => &[Store],
            Agents::Both => &[Store, Forget(Place::Beside)],
        },
    }
}

/// Those that may ask the user, who types twice or not, for what is kept with a lifetime or
/// without.
fn steps_to_give(repeats: bool, lasts: bool, agents: Agents) -> &'static [Step]
    ensures { result.now ≡ steps_to_give repeats lasts agents }
{
    match (repeats, lasts, agents) {
        (false, false, Agents::One) => &[Look(Place::Home), Ask],
        (false, false, Agents::Both) => &[Look(Place::Home), Look(Place::Beside), Ask],
        (false, true, Agents::One) => &[Look(Place::Home), Probe, Ask, Keep],
        (false, true, Agents::Both) => {
            &[Look(Place::Home), Look(Place::Beside), Probe, Ask, Keep]
        }
        (true, false, Agents::One) => &[Forget(Place::Home), Ask],
        (true, false, Agents::Both) => &[Forget(Place::Beside), Forget(Place::Home), Ask],
        (true, true, Agents::One) => &[Probe, Forget(Place::Home), Ask, Keep],
        (true, true, Agents::Both) => {
            &[Probe, Forget(Place::Beside), Forget(Place::Home), Ask, Keep]
        }
    }
}

fn looks(agents: Agents) -> &'static [Step]
    ensures { result.now ≡ looks agents }
{
    match agents {
        Agents::One => &[Look(Place::Home)],
        Agents::Both => &[Look(Place::Home), Look(Place::Beside)],
    }
}

fn forgets(agents: Agents) -> &'static [Step]
    ensures { result.now ≡ forgets agents }
{
    match agents {
        Agents::One => &[Forget(Place::Home)],
        Agents::Both => &[Forget(Place::Beside), Forget(Place::Home)],
    }
}

/// By what an act forgets.
fn forgets_by(act: Act) -> Request<'static>
    ensures { request_value result ≡ forgets_by act }
{
    match act {
        Act::ForgetAll => Request::ClearAll,
        _ => Request::Clear,
    }
}

impl Step {
    /// Where its request goes.
    pub(crate) fn place(self) -> Place
        ensures { result ≡ place_of self }
    {
        match self {
            Look(place) | Forget(place) => place,
            Ask | Store | Probe | Keep => Place::Home,
        }
    }

    /// For what its answer waits.
    pub(crate) fn waits(self) -> Waits
        ensures { result ≡ waits_of self }
    {
        match self {
            Ask => Waits::Prompt,
            _ => Waits::Answer,
        }
    }

    /// What it asks for, where this passphrase is held.
    pub(crate) fn request<'a>(self, act: Act, held: &'a Secret) -> Request<'a>
        ensures { request_value result ≡ request_of self act held.now }
    {
        match self {
            Look(_) => Request::Look,
            Ask => Request::Ask,
            Forget(_) => forgets_by(act),
            Probe => Request::Probe,
            Store => Request::Preset {
                ttl: None,
                secret: held,
            },
            Keep => Request::Preset {
                ttl: act.ttl(),
                secret: held,
            },
        }
    }
}
