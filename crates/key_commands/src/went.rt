//! How a session goes on after a request on keys: none of these commands ends it, a lost connection
//! does. Plain data; `agent_origin` makes its own `Went` of it. What a refusal comes to is
//! `key_went_after` (`specs/Actions`).

use session_client::Gone;

/// How a session goes on after a request on keys.
#[derive(Clone, Copy, PartialEq, Eq)]
pub enum KeyWent {
    /// It goes on with the next line.
    On,
    /// Its client is gone.
    Gone(Gone),
}
