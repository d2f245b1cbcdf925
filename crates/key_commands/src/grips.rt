//! The keys that one HAVEKEY names, by their keygrips of 20 bytes. A list of fixed room, which
//! takes no memory: a line has no more. Begin with `Grips`, which contracts see as a list.

ghost use Rattle.std.specs.Prelude.{◌≡◌, ◌==◌, ◌≤◌, ◌++◌, ◌∷◌, [], true, false, length, map};
ghost use Rattle.key_commands.specs.declared.grips.TheConstants.{MAX_GRIPS};

use agent_ports::Grip;
use arrayvec::ArrayVec;
use std::marker::Model;

/// How many keys one request names at most: no line has room for more.
pub const MAX_GRIPS: usize = 24;

/// The keys that a request names, in its order. Contracts see them as a list.
// Their bytes, since a `Grip` has no default.
#[derive(Drop)]
pub struct Grips {
    bytes: ArrayVec<[u8; 20], MAX_GRIPS>,
}

impl Model for Grips {
    ghost use Rattle.std.specs.Prelude.{◌≤◌, List, length, map};
    ghost use Rattle.agent_ports.specs.declared.grip.Grip.{Grip};
    ghost use Rattle.key_commands.specs.declared.grips.TheConstants.{MAX_GRIPS};

    ghost Value = { List Grip };

    ghost view = { λ grips. map (λ bytes. record { 0 = bytes }) grips.bytes.items };

    ghost invariant = { λ grips. length grips.bytes.items ≤ MAX_GRIPS };
}

impl Grips {
    /// No grip yet.
    pub(crate) fn new() -> Grips
        ensures { result ≡ [] }
    {
        Grips {
            bytes: ArrayVec::new(),
        }
    }

    /// Adds a grip behind the others, where there is room for it, and says whether there was.
    pub(crate) fn push(&mut self, grip: Grip) -> bool
        ensures added { result ≡ true → self.new ≡ self.old ++ grip ∷ [] }
        ensures full { result ≡ false → length self.old ≡ MAX_GRIPS }
    {
        self.bytes.try_push(grip.0).is_ok()
    }

    /// The bytes of the grips.
    pub(crate) fn bytes(&self) -> &[[u8; 20]]
        ensures { self.now ≡ map (λ bytes. record { 0 = bytes }) result.now }
    {
        self.bytes.as_slice()
    }

    pub(crate) fn is_empty(&self) -> bool
        ensures empty { result ≡ (length self.now == 0) }
        ensures within { length self.now ≤ MAX_GRIPS }
    {
        self.bytes.is_empty()
    }
}
