//! What a session keeps between its requests: the values of its options, and its wrapping keys.
//! Plain data; the keys are overwritten when it is dropped. Begin with `SessionState`; at a
//! session's start it is `kept_at_start` (`specs/SessionExchanges`).

use key_commands::WrapKeys;
use session_options::{Options, Rules};

/// What a session keeps between its requests.
#[derive(Drop)]
pub struct SessionState {
    /// What OPTION has set (GnuPG manual, "Agent's Assuan protocol"), and the description that
    /// SETKEYDESC gave for the next prompts about a key. RESET puts all of it back to what stood at
    /// the session's start.
    pub options: Options,
    /// The keys of 16 bytes under which others enter and leave the agent (RFC 3394), where
    /// KEYWRAP_KEY drew them. RESET leaves them.
    pub wraps: WrapKeys,
}

impl SessionState {
    ghost use Rattle.std.specs.Prelude.{◌≡◌};
    ghost use Rattle.agent_origin.specs.SessionExchanges.{kept_at_start};

    /// Before the first request.
    pub fn new(rules: &Rules) -> SessionState
        ensures { result ≡ kept_at_start rules.now }
    {
        SessionState {
            options: Options::new(rules),
            wraps: WrapKeys::new(),
        }
    }
}
