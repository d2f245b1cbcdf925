//! A set of cache modes: those whose requests a slot still serves. Pure. Begin with
//! `Modes::not_covered`; each call is its namesake in `specs/Modes`.

ghost use Rattle.std.specs.Prelude.{◌≡◌};
ghost use Rattle.cache_policy.specs.Mode.{covers};

use cache_policy::Mode;

/// A set of modes.
#[derive(Clone, Copy, PartialEq, Eq, Hash)]
pub struct Modes {
    /// Whether the mode `Normal` is in it.
    pub normal: bool,
    /// Whether the mode `User` is in it.
    pub user: bool,
    /// Whether the mode `Ssh` is in it.
    pub ssh: bool,
    /// Whether the mode `Nonce` is in it.
    pub nonce: bool,
    /// Whether the mode `Any` is in it.
    pub any: bool,
}

impl Modes {
    ghost use Rattle.cache_book.specs.Modes.{modes_where, holds, has_some, not_covered};

    /// The modes that `mode` covers.
    pub fn covered_by(mode: Mode) -> Modes
        ensures { result ≡ modes_where (covers mode) }
    {
        Modes {
            normal: mode.covers(Mode::Normal),
            user: mode.covers(Mode::User),
            ssh: mode.covers(Mode::Ssh),
            nonce: mode.covers(Mode::Nonce),
            any: mode.covers(Mode::Any),
        }
    }

    /// The modes that `mode` doesn't cover.
    pub fn not_covered(self, mode: Mode) -> Modes
        ensures { result ≡ not_covered mode self }
    {
        let covered = Modes::covered_by(mode);
        Modes {
            normal: !covered.normal && self.normal,
            user: !covered.user && self.user,
            ssh: !covered.ssh && self.ssh,
            nonce: !covered.nonce && self.nonce,
            any: !covered.any && self.any,
        }
    }

    /// Whether the mode is in it.
    pub fn holds(self, mode: Mode) -> bool
        ensures { result ≡ holds self mode }
    {
        match mode {
            Mode::Normal => self.normal,
            Mode::User => self.user,
            Mode::Ssh => self.ssh,
            Mode::Nonce => self.nonce,
            Mode::Any => self.any,
        }
    }

    /// Whether any mode is in it.
    pub fn has_some(self) -> bool
        ensures { result ≡ has_some self }
    {
        self.normal || self.user || self.ssh || self.nonce || self.any
    }
}
