//! Cache modes: for which kind of use a passphrase is kept. Pure. Begin with `Mode::covers`, and
//! with its namesake in `specs/Mode`.

ghost use Rattle.std.specs.Prelude.{◌≡◌};

/// The kind of use that a passphrase is cached for.
#[derive(Clone, Copy, Debug, PartialEq, Eq, Hash)]
pub enum Mode {
    /// Keys of the agent.
    Normal,
    /// Passphrases of clients, as GET_PASSPHRASE asks for them.
    User,
    /// Keys of ssh, with lifetimes of their own.
    Ssh,
    /// Passphrases kept under a nonce for one import.
    Nonce,
    /// Any of these. A preset is stored so.
    Any,
}

impl Mode {
    ghost use Rattle.cache_policy.specs.Mode.{covers};

    /// Whether what is stored in this mode serves a request in the mode `asked`.
    pub fn covers(self, asked: Mode) -> bool
        ensures { result ≡ covers self asked }
    {
        self == Mode::Any || self == asked
    }
}
