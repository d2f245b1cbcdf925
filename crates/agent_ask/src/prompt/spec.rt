//! What a prompt shows (`PromptSpec`), and how its passphrase is checked and repeated (`AskPlan`).
//! Plain data of fixed size, which `plan.rt` makes. What each text is for is in the pinentry
//! manual, "protocol".

use assuan_text::Text;
use session_options::Env;

/// What a prompt shows, and where (pinentry manual, "protocol"). An empty text is not shown.
#[derive(Drop)]
pub struct PromptSpec {
    /// The title of the window.
    pub title: Text,
    /// What the user is told or asked.
    pub description: Text,
    /// What stands before the field of the passphrase.
    pub prompt: Text,
    /// What stands on the button that accepts.
    pub ok: Text,
    /// What stands on the button that cancels.
    pub cancel: Text,
    /// A bar shows how good the passphrase is.
    pub quality: bool,
    /// The terminal and the locale of the client.
    pub env: Env,
    /// The seconds after which the prompt is given up. 0 means never.
    pub timeout: u32,
}

/// How a passphrase is asked for.
#[derive(Drop)]
pub struct AskPlan {
    /// The client is told that the prompt is open.
    pub notify: bool,
    /// What the first try shows as an error. An empty text is not shown.
    pub first_error: Text,
    /// How many bytes a new passphrase has at least, and how many of them that are no ASCII
    /// letters.
    pub check: Option<(u8, u8)>,
    /// How often an accepted passphrase is asked for again.
    pub repeat: u8,
}
