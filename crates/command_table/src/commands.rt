//! The table of commands: which there are, by what names, and what holds of each wherever its lines
//! are read. It touches no line. A new command has its variant, its row in `COMMANDS`, and where it
//! has options that GETINFO knows, rows in `LISTED`.

ghost use Rattle.std.specs.Prelude.{◌≡◌, map};
ghost use Rattle.command_table.specs.Commands.{command_named, commands, is_listed, is_told};
ghost use Rattle.command_table.specs.{Commands.outer_rule, declared.commands.TheConstants.COMMANDS};

use Command::{Cache, Key, Trust};
use assuan_text::{found_in_any_case, has_pair};

/// A command that is known, by what it is on.
#[derive(Clone, Copy)]
pub enum Command {
    /// The cache, or the session.
    Cache(CommandName),
    /// The key files.
    Key(KeyCommandName),
    /// The trust list, which a session has to do with where it came in by a door.
    Trust(TrustCommandName),
}

/// The commands on the cache and on the session.
#[derive(Clone, Copy)]
pub enum CommandName {
    /// NOP, which does nothing.
    Nop,
    /// RESET, which sets the session's options to their start.
    Reset,
    /// BYE, which ends the session.
    Bye,
    /// HELP, which tells the commands.
    Help,
    /// OPTION, which sets an option of the session.
    SetOption,
    /// GETINFO, which tells of the agent itself.
    GetInfo,
    /// GET_PASSPHRASE, which asks the cache, and maybe the user, for a passphrase.
    GetPassphrase,
    /// PRESET_PASSPHRASE, which stores a passphrase.
    PresetPassphrase,
    /// CLEAR_PASSPHRASE, which forgets what is stored under an id.
    ClearPassphrase,
    /// GET_CONFIRMATION, which asks the user for consent.
    GetConfirmation,
    /// RELOADAGENT, which forgets all passphrases.
    ReloadAgent,
    /// KILLAGENT, which stops the agent.
    KillAgent,
    /// SETKEYDESC, which sets what the next prompts about a key say.
    SetKeyDesc,
}

/// The commands on keys.
#[derive(Clone, Copy)]
pub enum KeyCommandName {
    /// HAVEKEY, which looks whether one of some keys is there, or tells which there are.
    HaveKey,
    /// KEYINFO, which tells what is known of a key, or of each.
    KeyInfo,
    /// KEYWRAP_KEY, which gives the session's wrapping key for one direction.
    KeyWrap,
    /// IMPORT_KEY, which puts a wrapped key into a file.
    ImportKey,
    /// EXPORT_KEY, which gives a key wrapped.
    ExportKey,
    /// PASSWD, which changes the passphrase of a key.
    Passwd,
    /// DELETE_KEY, which removes a key's file.
    DeleteKey,
}

/// The commands on the trust list.
#[derive(Clone, Copy)]
pub enum TrustCommandName {
    /// ISTRUSTED, which asks whether a root certificate is trusted. The user isn't asked.
    IsTrusted,
    /// MARKTRUSTED, by which one becomes so, where the user agrees.
    MarkTrusted,
}

/// What the line of a command has to be at the outer door. Which rule a command has is this
/// project's own.
#[derive(Clone, Copy)]
pub enum Rule {
    /// Any line, in form or not.
    Always,
    /// An OPTION of any name but `pinentry-mode`, by which a session says how its prompts are
    /// answered.
    NotTheMode,
    /// A GETINFO of what the agent is and can do: `version` or `cmd_has_option`.
    AboutTheAgent,
    /// A GET_PASSPHRASE in form that leaves the cache out: its cache id is `X`.
    Uncached,
    /// A HAVEKEY or KEYINFO of keys that it names, not of all, which `--list` asks for, with a
    /// value or without.
    OneKey,
    /// No line, in form or not.
    Never,
}

impl Command {
    /// What a line with it has to be at the outer door.
    pub fn outer_rule(self) -> Rule
        ensures { result ≡ outer_rule self }
    {
        match self {
            Command::Cache(name) => match name {
                CommandName::Nop
                | CommandName::Reset
                | CommandName::Bye
                | CommandName::Help
                | CommandName::GetConfirmation => Rule::Always,
                CommandName::SetOption => Rule::NotTheMode,
                CommandName::GetInfo => Rule::AboutTheAgent,
                CommandName::GetPassphrase => Rule::Uncached,
                _ => Rule::Never,
            },
            Command::Key(KeyCommandName::HaveKey | KeyCommandName::KeyInfo) => Rule::OneKey,
            Command::Trust(TrustCommandName::IsTrusted) => Rule::Always,
            _ => Rule::Never,
        }
    }

    /// Whether HELP tells it, in a session that has to do with the trust list or in another one.
    pub fn is_told(self, trusts: bool) -> bool
        ensures { result ≡ is_told trusts self }
    {
        match self {
            Command::Cache(CommandName::SetKeyDesc) => false,
            Command::Trust(_) => trusts,
            _ => true,
        }
    }
}

/// The commands by their names, in the order in which HELP tells them.
pub const COMMANDS: [(&[u8], Command); 22] = [
    (b"NOP", Cache(CommandName::Nop)),
    (b"RESET", Cache(CommandName::Reset)),
    (b"BYE", Cache(CommandName::Bye)),
    (b"HELP", Cache(CommandName::Help)),
    (b"OPTION", Cache(CommandName::SetOption)),
    (b"GETINFO", Cache(CommandName::GetInfo)),
    (b"GET_PASSPHRASE", Cache(CommandName::GetPassphrase)),
    (b"PRESET_PASSPHRASE", Cache(CommandName::PresetPassphrase)),
    (b"CLEAR_PASSPHRASE", Cache(CommandName::ClearPassphrase)),
    (b"GET_CONFIRMATION", Cache(CommandName::GetConfirmation)),
    (b"RELOADAGENT", Cache(CommandName::ReloadAgent)),
    (b"KILLAGENT", Cache(CommandName::KillAgent)),
    (b"SETKEYDESC", Cache(CommandName::SetKeyDesc)),
    (b"HAVEKEY", Key(KeyCommandName::HaveKey)),
    (b"KEYINFO", Key(KeyCommandName::KeyInfo)),
    (b"KEYWRAP_KEY", Key(KeyCommandName::KeyWrap)),
    (b"IMPORT_KEY", Key(KeyCommandName::ImportKey)),
    (b"EXPORT_KEY", Key(KeyCommandName::ExportKey)),
    (b"PASSWD", Key(KeyCommandName::Passwd)),
    (b"DELETE_KEY", Key(KeyCommandName::DeleteKey)),
    (b"ISTRUSTED", Trust(TrustCommandName::IsTrusted)),
    (b"MARKTRUSTED", Trust(TrustCommandName::MarkTrusted)),
];

/// A law: `COMMANDS` has the names as they are defined, in this order.
pub fn commands_are_as_defined()
    ensures { map (λ row. (row.0.now, row.1)) COMMANDS ≡ commands }
{}

/// The command of this name, whatever the case of its letters.
#[tactic(auto, unfolding(crate::specs::Commands::command_named))]
pub fn command_named(word: &[u8]) -> Option<Command>
    ensures { result ≡ command_named word.now }
{
    found_in_any_case(word, &COMMANDS)
}

/// The options that GETINFO's `cmd_has_option` knows, by the names of their commands.
const LISTED: [(&[u8], &[u8]); 16] = [
    (b"GET_PASSPHRASE", b"data"),
    (b"GET_PASSPHRASE", b"check"),
    (b"GET_PASSPHRASE", b"no-ask"),
    (b"GET_PASSPHRASE", b"repeat"),
    (b"GET_PASSPHRASE", b"qualitybar"),
    (b"PRESET_PASSPHRASE", b"inquire"),
    (b"CLEAR_PASSPHRASE", b"mode"),
    (b"KEYINFO", b"list"),
    (b"KEYWRAP_KEY", b"import"),
    (b"KEYWRAP_KEY", b"export"),
    (b"IMPORT_KEY", b"force"),
    (b"EXPORT_KEY", b"cache-nonce"),
    (b"PASSWD", b"cache-nonce"),
    (b"PASSWD", b"passwd-nonce"),
    (b"PASSWD", b"verify"),
    (b"DELETE_KEY", b"force"),
];

/// Whether the command of this name, byte for byte, is known to have the option.
#[tactic(auto, unfolding(crate::specs::Commands::is_listed))]
pub fn is_listed(command: &[u8], option: &[u8]) -> bool
    ensures { result ≡ is_listed command.now option.now }
{
    has_pair(command, option, &LISTED)
}
