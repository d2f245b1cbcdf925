//! The key whose passphrase is wanted, with the rules and the options by which it is asked for: the
//! arguments that all actions of such a request share. Plain borrows. Begin with `Asking`; `old.rt`,
//! `new.rt` and `prompting.rt` use it.

ghost use Rattle.std.specs.Prelude.{◌≡◌};

use agent_ports::Grip;
use session_options::{Options, Rules};
use std::alloc::Global;

/// The key whose passphrase is wanted, and by what it is asked for.
#[derive(Drop)]
pub(crate) struct Asking<'a> {
    pub(crate) alloc: Global,
    pub(crate) grip: &'a Grip,
    pub(crate) rules: &'a Rules,
    pub(crate) options: &'a Options,
}

impl<'a> Asking<'a> {
    pub(crate) fn of(
        alloc: Global,
        grip: &'a Grip,
        rules: &'a Rules,
        options: &'a Options,
    ) -> Asking<'a>
        ensures grip { result.grip.now ≡ grip.now }
        ensures rules { result.rules.now ≡ rules.now }
        ensures options { result.options.now ≡ options.now }
    {
        Asking {
            alloc,
            grip,
            rules,
            options,
        }
    }
}
