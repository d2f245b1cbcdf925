//! A step that wants the prompt, kept so that it can be tried again while another session has the
//! seat (the prompt's lock). Pure, and both desks (cache handles) over locks use it too. Begin with
//! `Opening::of`; `opening_step` of `specs/Openings` is one try.

ghost use Rattle.std.specs.Prelude.{◌≡◌, false, None, IfSome, IsNone};
ghost use Rattle.cache_policy.specs.Turns.{asked_step, opens};
ghost use Rattle.agent_core.specs.Openings.{opening_step, without_wait};

use cache_policy::{CacheId, Mode, Step, Under, Wait, Way};

/// A step that wants the prompt. It may have to stand, and is taken again then.
#[derive(Drop)]
pub enum Opening {
    /// Asks for a passphrase, which the cache may have.
    Ask { id: CacheId, mode: Mode },
    /// Asks for the seat at the prompt, whatever the cache has.
    Seat { under: Option<Under> },
}

impl Opening {
    /// The step once more, if it wants the prompt.
    pub fn of(step: &Step) -> Option<Opening>
        ensures same { IfSome result
            (λ opening. opening_step opening None ≡ without_wait step.now) }
        ensures none { IsNone result → opens (asked_step step.now) ≡ false }
    {
        match step {
            Step::Ask {
                id,
                mode,
                way: Way::Prompt,
                wait: _,
            } => Some(Opening::Ask {
                id: id.copy(),
                mode: *mode,
            }),
            Step::Seat { under, wait: _ } => Some(Opening::Seat {
                under: under.as_ref().map(Under::copy),
            }),
            _ => None,
        }
    }

    /// The step for one try: with the wait that the try before was given, if there was one.
    pub fn step(&self, wait: Option<Wait>) -> Step
        ensures { result ≡ opening_step self.now wait }
    {
        match self {
            Opening::Ask { id, mode } => Step::Ask {
                id: id.copy(),
                mode: *mode,
                way: Way::Prompt,
                wait,
            },
            Opening::Seat { under } => Step::Seat {
                under: under.as_ref().map(Under::copy),
                wait,
            },
        }
    }
}
