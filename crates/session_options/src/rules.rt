//! What the agent was started with: lifetimes, limits, programs and folders, each with its default
//! and its range (GnuPG manual, "Agent Options"). Plain data, whose type keeps the ranges. Begin
//! with `Rules`; `default_rules` of `specs/Defaults` has the defaults.

ghost use Rattle.std.specs.Prelude.{◌≡◌, ◌≤◌, length};
ghost use Rattle.session_options.specs.declared.TheConstants.{MAX_VALUE_LEN};
ghost use Rattle.session_options.specs.Counts.{IsS2kCount, IsWorkers};

use crate::{Version, Word};

/// The fewest bytes that a passphrase is hashed to.
pub const MIN_S2K_COUNT: u64 = 65_536;

/// The most bytes that a passphrase is hashed to: what the octet 255 stands for (RFC 4880,
/// 3.7.1.3).
pub const MAX_S2K_COUNT: u64 = 65_011_712;

/// The bytes that a passphrase is hashed to where nothing is said.
pub const DEFAULT_S2K_COUNT: u64 = 4_194_304;

/// The fewest sessions that may be served at a time.
pub const MIN_WORKERS: u32 = 1;

/// The most sessions that may be served at a time.
pub const MAX_WORKERS: u32 = 64;

/// The sessions that are served at a time where nothing is said.
pub const DEFAULT_WORKERS: u32 = 8;

/// In seconds: `default-cache-ttl` of the GnuPG manual.
pub const DEFAULT_TTL: u32 = 600;

/// In seconds: `max-cache-ttl` of the GnuPG manual.
pub const DEFAULT_MAX_TTL: u32 = 7200;

/// In seconds: `default-cache-ttl-ssh` of the GnuPG manual.
pub const DEFAULT_TTL_SSH: u32 = 1800;

/// In seconds: `max-cache-ttl-ssh` of the GnuPG manual.
pub const DEFAULT_MAX_TTL_SSH: u32 = 7200;

/// In bytes: `min-passphrase-len` of the GnuPG manual.
pub const DEFAULT_MIN_LEN: u8 = 8;

/// In bytes: `min-passphrase-nonalpha` of the GnuPG manual.
pub const DEFAULT_MIN_NONALPHA: u8 = 1;

/// What the agent is to do.
#[derive(Clone, Copy, Debug, PartialEq, Eq)]
pub enum RunMode {
    /// Serves one session over its standard input and output.
    Server,
    /// Listens on a socket in the home directory.
    Daemon,
    /// Serves made-up sessions, which this number seeds.
    Load(u32),
}

/// What the agent was started with. Lifetimes and the timeout are in seconds.
#[derive(Drop)]
pub struct Rules {
    /// How long an entry may go unused: `default-cache-ttl` of the GnuPG manual.
    pub default_ttl: u32,
    /// The maximum age of an entry: `max-cache-ttl` of the GnuPG manual.
    pub max_ttl: u32,
    /// As `default_ttl`, for entries of the mode `Ssh`.
    pub default_ttl_ssh: u32,
    /// As `max_ttl`, for entries of the mode `Ssh`.
    pub max_ttl_ssh: u32,
    /// How long a pinentry may wait for its user. 0 stands for no end.
    pub pinentry_timeout: u32,
    /// How many sessions are served at a time.
    pub workers: u32,
    /// The number of the agent's process, or 0 where it isn't known.
    pub pid: u32,
    /// The version that the agent tells its clients, which may compare it with their own.
    pub version: Version,
    /// The fewest bytes of a new passphrase.
    pub min_len: u8,
    /// The fewest bytes of a new passphrase that are no letters.
    pub min_nonalpha: u8,
    /// Whether a client may store passphrases: `allow-preset-passphrase` of the GnuPG manual.
    pub allow_preset: bool,
    /// Whether a client may be asked in place of a pinentry: `allow-loopback-pinentry` there.
    pub allow_loopback: bool,
    /// Whether a daemon listens on a further socket, for restricted sessions.
    pub extra: bool,
    /// How many bytes a passphrase is hashed to.
    pub s2k_count: u64,
    /// The path of the pinentry.
    pub pinentry: Word,
    /// The path of the home directory.
    pub homedir: Word,
    /// How sessions come in.
    pub run: RunMode,
    ghost count_in_range: { IsS2kCount s2k_count },
    ghost workers_in_range: { IsWorkers workers },
}

impl Default for Rules {
    ghost use Rattle.session_options.specs.Defaults.{default_rules};

    ghost is_default = { λ rules. rules ≡ default_rules };

    /// The rules of an agent whose command line says no more than `--server`.
    fn default() -> Rules {
        Rules {
            default_ttl: DEFAULT_TTL,
            max_ttl: DEFAULT_MAX_TTL,
            default_ttl_ssh: DEFAULT_TTL_SSH,
            max_ttl_ssh: DEFAULT_MAX_TTL_SSH,
            pinentry_timeout: 0,
            workers: DEFAULT_WORKERS,
            pid: 0,
            version: Version::default(),
            min_len: DEFAULT_MIN_LEN,
            min_nonalpha: DEFAULT_MIN_NONALPHA,
            allow_preset: false,
            allow_loopback: true,
            extra: false,
            s2k_count: DEFAULT_S2K_COUNT,
            pinentry: word(b"/usr/bin/pinentry"),
            homedir: word(b"."),
            run: RunMode::Server,
        }
    }
}

/// A default that is text.
fn word(bytes: &[u8]) -> Word
    requires { length bytes.now ≤ MAX_VALUE_LEN }
    ensures { result.items ≡ bytes.now }
{
    let mut word = Word::new();
    word.try_extend_from_slice(bytes).unwrap();
    word
}
