//! The port to the test of a passphrase: whether it is right, or that there was no memory to tell.
//! A trait and its answer; `AnyPin` (`lending.rt`) accepts every passphrase, `OpensKey` of
//! `key_commands` those that open a key. Begin with `Test`; `specs/Tests` says what its answers
//! mean.

ghost use Rattle.std.specs.Prelude.{ℕ, List};
ghost use Rattle.agent_ask.specs.Tests.{IsTest};

use cache_policy::Secret;

/// What a test says of a passphrase.
#[derive(Clone, Copy, PartialEq, Eq)]
pub enum Tested {
    /// It is right.
    Yes,
    /// It is wrong.
    No,
    /// There was no memory for the test.
    NoMemory,
}

/// The test of a passphrase. It means a rule, which no call changes.
pub trait Test {
    ghost use Rattle.agent_ask.specs.declared.prompt.test.Tested.{Tested};

    /// Which passphrases are right.
    ghost rule: { Self → List ℕ → Type 0 };

    /// A test shows its answers by this relation between itself before a call, the passphrase, the
    /// answer, and itself after.
    ghost tested: { Self → List ℕ → Tested → Self → Type 0 };

    /// Whether the passphrase is right.
    fn accepts(&mut self, pin: &Secret) -> Tested
        ensures { tested self.old pin.now result self.new };

    /// What every answer means.
    ghost promise: { (before : Self) (pin : List ℕ) (answer : Tested) (after : Self)
        → tested before pin answer after → IsTest (rule before) pin answer (rule after) };
}
