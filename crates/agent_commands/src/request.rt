//! The requests on the cache and on the session (GnuPG manual, "Agent's Assuan protocol"), as lines
//! are read. Plain data; a `Secret` in it is overwritten when it is dropped. Begin with `Request`;
//! which one a line is says `request_of` (`specs/Requests`).

use assuan_server::Code;
use assuan_text::Text;
use cache_policy::{CacheId, Life, Mode, Secret};

/// What a line asks for.
#[derive(Drop)]
pub enum Request {
    /// A command on the cache or on the session.
    Cache(CacheCommand),
    /// A line whose word is a command on keys. The rest of it isn't read.
    Key(Text),
    /// The line is refused.
    Bad(Code),
}

/// The commands on the cache and on the session (GnuPG manual, "Agent's Assuan protocol").
#[derive(Drop)]
pub enum CacheCommand {
    /// Does nothing.
    Nop,
    /// Sets the session's options to their start.
    Reset,
    /// Ends the session.
    Bye,
    /// Tells the commands.
    Help,
    /// What comes after OPTION. The session's options judge it.
    SetOption {
        text: Text,
    },
    /// Tells of the agent itself.
    GetInfo(Info),
    /// Asks the cache, and maybe the user, for a passphrase.
    GetPassphrase {
        /// The passphrase is answered by data lines, and else in hexadecimal digits.
        plain: bool,
        /// A new passphrase is checked.
        check: bool,
        /// The cache alone is asked.
        no_ask: bool,
        /// How often a new passphrase is asked for again, 0 to 16 times.
        repeat: u8,
        /// The pinentry shows how good a passphrase is.
        quality: bool,
        /// `None` leaves the cache out.
        id: Option<CacheId>,
        /// `None` where the line names an id alone.
        texts: Option<Texts>,
    },
    /// Stores a passphrase.
    PresetPassphrase {
        id: CacheId,
        life: Life,
        /// `None` where the client is asked for it.
        secret: Option<Secret>,
    },
    /// Forgets what is stored under an id, in the modes that cover the named one.
    ClearPassphrase {
        id: CacheId,
        mode: Mode,
    },
    /// Asks the user for consent.
    GetConfirmation {
        description: Text,
    },
    /// Forgets all passphrases.
    ReloadAgent,
    /// Ends the session, and opens no prompt any more.
    KillAgent,
    /// Sets what the next prompts about a key say.
    SetKeyDesc {
        text: Text,
    },
}

/// A GET_PASSPHRASE that asks the cache alone, without the texts that its line may have: no prompt
/// shows them.
#[derive(Drop)]
pub struct QuietRequest {
    /// The passphrase is answered by data lines, and else in hexadecimal digits.
    pub plain: bool,
    /// `None` leaves the cache out.
    pub id: Option<CacheId>,
}

/// What GETINFO is asked for.
#[derive(Clone, Copy, Debug, PartialEq, Eq)]
pub enum Info {
    /// The version that the rules have for the agent.
    Version,
    /// The number of the agent's process.
    Pid,
    /// How many bytes a passphrase is hashed to.
    S2kCount,
    /// A command and an option of it that are listed.
    Listed,
}

/// What a prompt says.
#[derive(Drop)]
pub struct Texts {
    /// Empty where there was no error.
    pub error: Text,
    /// What stands before the field of the passphrase.
    pub prompt: Text,
    /// What the user is told or asked.
    pub description: Text,
}
