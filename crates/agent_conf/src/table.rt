//! The options of gpg-agent by their names, and what each of them is to this agent: those of GnuPG
//! 2.2 and 2.4, and what its agent is told by scripts. Pure. Begin with `row_of`; `specs/Table` has
//! the rows again.

ghost use Rattle.std.specs.Prelude.{◌≡◌};
ghost use Rattle.agent_conf.specs.Table.{is_value, row_of, takes_value};

use crate::numbers::Range;
use assuan_text::found;

/// Whether a word of the command line may have its value in the next word.
#[derive(Clone, Copy, Debug, PartialEq, Eq)]
pub enum Takes {
    Value,
    /// Where that one doesn't begin with a dash.
    Optional,
    Nothing,
}

/// What an option limits that the agent can't keep.
#[derive(Clone, Copy, Debug, PartialEq, Eq)]
pub enum Unkept {
    /// Which root certificates are trusted.
    TrustList,
    /// Which new passphrases are taken.
    PassphraseRule,
    /// Whether anybody is asked.
    NoPrompts,
    /// How long the agent stays when nobody calls it.
    IdleTime,
    /// In which terminal it asks.
    Terminal,
}

/// What an option of gpg-agent is to this agent.
#[derive(Clone, Copy)]
pub enum Row {
    /// A lifetime or another limit.
    Number(Range),
    /// What has no value, since one might mean its contrary.
    Flag,
    /// The path of the pinentry.
    Pinentry,
    /// The socket for clients on other machines.
    ExtraSocket,
    /// Names that may be passed over though nobody knows them.
    IgnoresNames,
    /// What is so in any case.
    SoAnyway,
    /// What limits and can't be kept.
    Unkept(Unkept, Takes),
    /// What limits nothing.
    LimitsNothing(Takes),
    /// The home folder, on the command line alone.
    Folder,
    /// What counts on the command line alone.
    OfWords(Takes),
    /// Sockets that a service manager hands over.
    Supervised,
}

const ROWS: [(&[u8], Row); 89] = [
    (b"default-cache-ttl", Row::Number(Range::Seconds)),
    (b"max-cache-ttl", Row::Number(Range::Seconds)),
    (b"default-cache-ttl-ssh", Row::Number(Range::Seconds)),
    (b"max-cache-ttl-ssh", Row::Number(Range::Seconds)),
    (b"pinentry-timeout", Row::Number(Range::Seconds)),
    (b"min-passphrase-len", Row::Number(Range::Bytes)),
    (b"min-passphrase-nonalpha", Row::Number(Range::Bytes)),
    (b"s2k-count", Row::Number(Range::Count)),
    (b"s2k-calibration", Row::Number(Range::Milliseconds)),
    (b"allow-preset-passphrase", Row::Flag),
    (b"no-allow-loopback-pinentry", Row::Flag),
    (b"allow-loopback-pinentry", Row::Flag),
    (b"pinentry-program", Row::Pinentry),
    (b"extra-socket", Row::ExtraSocket),
    (b"force-network-home", Row::Flag),
    (b"ignore-invalid-option", Row::IgnoresNames),
    (
        b"no-allow-mark-trusted",
        Row::Unkept(Unkept::TrustList, Takes::Nothing),
    ),
    (
        b"no-user-trustlist",
        Row::Unkept(Unkept::TrustList, Takes::Nothing),
    ),
    (
        b"check-passphrase-pattern",
        Row::Unkept(Unkept::PassphraseRule, Takes::Value),
    ),
    (
        b"check-sym-passphrase-pattern",
        Row::Unkept(Unkept::PassphraseRule, Takes::Value),
    ),
    (
        b"max-passphrase-days",
        Row::Unkept(Unkept::PassphraseRule, Takes::Value),
    ),
    (
        b"enable-passphrase-history",
        Row::Unkept(Unkept::PassphraseRule, Takes::Nothing),
    ),
    (b"batch", Row::Unkept(Unkept::NoPrompts, Takes::Nothing)),
    (
        b"inactivity-timeout",
        Row::Unkept(Unkept::IdleTime, Takes::Value),
    ),
    (b"keep-tty", Row::Unkept(Unkept::Terminal, Takes::Nothing)),
    (b"enforce-passphrase-constraints", Row::SoAnyway),
    (b"no-allow-external-cache", Row::SoAnyway),
    (b"ignore-cache-for-signing", Row::SoAnyway),
    (b"allow-mark-trusted", Row::SoAnyway),
    (b"disable-scdaemon", Row::SoAnyway),
    (b"use-standard-socket", Row::SoAnyway),
    (b"no-use-standard-socket", Row::SoAnyway),
    (b"sh", Row::SoAnyway),
    (b"csh", Row::SoAnyway),
    (b"quiet", Row::SoAnyway),
    (b"verbose", Row::SoAnyway),
    (b"homedir", Row::Folder),
    (b"options", Row::OfWords(Takes::Value)),
    (b"daemon", Row::OfWords(Takes::Nothing)),
    (b"server", Row::OfWords(Takes::Nothing)),
    (b"no-detach", Row::OfWords(Takes::Nothing)),
    (b"no-options", Row::SoAnyway),
    (b"check-options", Row::SoAnyway),
    (b"supervised", Row::Supervised),
    (b"display", Row::LimitsNothing(Takes::Value)),
    (b"ttyname", Row::LimitsNothing(Takes::Value)),
    (b"ttytype", Row::LimitsNothing(Takes::Value)),
    (b"lc-ctype", Row::LimitsNothing(Takes::Value)),
    (b"lc-messages", Row::LimitsNothing(Takes::Value)),
    (b"xauthority", Row::LimitsNothing(Takes::Value)),
    (b"debug", Row::LimitsNothing(Takes::Value)),
    (b"debug-level", Row::LimitsNothing(Takes::Value)),
    (b"debug-wait", Row::LimitsNothing(Takes::Value)),
    (b"log-file", Row::LimitsNothing(Takes::Value)),
    (b"scdaemon-program", Row::LimitsNothing(Takes::Value)),
    (b"tpm2daemon-program", Row::LimitsNothing(Takes::Value)),
    (b"browser-socket", Row::LimitsNothing(Takes::Value)),
    (b"ssh-fingerprint-digest", Row::LimitsNothing(Takes::Value)),
    (b"listen-backlog", Row::LimitsNothing(Takes::Value)),
    (b"faked-system-time", Row::LimitsNothing(Takes::Value)),
    (b"sys-trustlist-name", Row::LimitsNothing(Takes::Value)),
    (b"pinentry-touch-file", Row::LimitsNothing(Takes::Value)),
    (b"pinentry-invisible-char", Row::LimitsNothing(Takes::Value)),
    (b"write-env-file", Row::LimitsNothing(Takes::Optional)),
    (b"debug-all", Row::LimitsNothing(Takes::Nothing)),
    (b"debug-quick-random", Row::LimitsNothing(Takes::Nothing)),
    (b"debug-pinentry", Row::LimitsNothing(Takes::Nothing)),
    (b"steal-socket", Row::LimitsNothing(Takes::Nothing)),
    (
        b"disable-check-own-socket",
        Row::LimitsNothing(Takes::Nothing),
    ),
    (b"keep-display", Row::LimitsNothing(Takes::Nothing)),
    (b"enable-ssh-support", Row::LimitsNothing(Takes::Nothing)),
    (b"enable-putty-support", Row::LimitsNothing(Takes::Nothing)),
    (
        b"enable-win32-openssh-support",
        Row::LimitsNothing(Takes::Nothing),
    ),
    (
        b"disable-extended-key-format",
        Row::LimitsNothing(Takes::Nothing),
    ),
    (
        b"enable-extended-key-format",
        Row::LimitsNothing(Takes::Nothing),
    ),
    (b"auto-expand-secmem", Row::LimitsNothing(Takes::Nothing)),
    (b"grab", Row::LimitsNothing(Takes::Nothing)),
    (b"no-grab", Row::LimitsNothing(Takes::Nothing)),
    (
        b"pinentry-formatted-passphrase",
        Row::LimitsNothing(Takes::Nothing),
    ),
    (b"allow-emacs-pinentry", Row::LimitsNothing(Takes::Nothing)),
    (b"gpgconf-list", Row::LimitsNothing(Takes::Nothing)),
    (b"gpgconf-test", Row::LimitsNothing(Takes::Nothing)),
    (b"gpgconf-versions", Row::LimitsNothing(Takes::Nothing)),
    (b"use-standard-socket-p", Row::LimitsNothing(Takes::Nothing)),
    (b"help", Row::LimitsNothing(Takes::Nothing)),
    (b"version", Row::LimitsNothing(Takes::Nothing)),
    (b"warranty", Row::LimitsNothing(Takes::Nothing)),
    (b"dump-option-table", Row::LimitsNothing(Takes::Nothing)),
    (b"dump-options", Row::LimitsNothing(Takes::Nothing)),
];

/// What the option of this name is, where gpg-agent or this project has one.
#[tactic(auto, unfolding(crate::specs::Table::row_of))]
pub fn row_of(name: &[u8]) -> Option<Row>
    ensures { result ≡ row_of name.now }
{
    found(name, &ROWS)
}

/// Whether a word that names such an option has this next word as its value.
pub(crate) fn takes_value(row: Row, next: &[u8]) -> bool
    ensures { result ≡ takes_value row next.now }
{
    match row {
        Row::Number(_) => true,
        Row::Pinentry | Row::ExtraSocket | Row::IgnoresNames | Row::Folder => true,
        Row::Flag | Row::SoAnyway | Row::Supervised => false,
        Row::Unkept(_, takes) | Row::LimitsNothing(takes) | Row::OfWords(takes) => {
            is_value(takes, next)
        }
    }
}

fn is_value(takes: Takes, next: &[u8]) -> bool
    ensures { result ≡ is_value takes next.now }
{
    match takes {
        Takes::Value => true,
        Takes::Optional => next.first() != Some(&b'-'),
        Takes::Nothing => false,
    }
}
