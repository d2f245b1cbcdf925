//! The table of the options that a client may set, by name. Pure. Begin with `OptionName::named`,
//! and with `named` of `specs/Table`.

ghost use Rattle.std.specs.Prelude.{◌≡◌};

use assuan_text::found;

/// The options that a client may set.
#[derive(Clone, Copy, PartialEq, Eq)]
pub(crate) enum OptionName {
    TtyName,
    TtyType,
    LcCtype,
    LcMessages,
    /// One that is accepted, and changes nothing.
    NoEffect,
    AllowPinentryNotify,
    PinentryMode,
    S2kCount,
}

const NAMES: [(&[u8], OptionName); 13] = [
    (b"ttyname", OptionName::TtyName),
    (b"ttytype", OptionName::TtyType),
    (b"lc-ctype", OptionName::LcCtype),
    (b"lc-messages", OptionName::LcMessages),
    (b"display", OptionName::NoEffect),
    (b"xauthority", OptionName::NoEffect),
    (b"pinentry-user-data", OptionName::NoEffect),
    (b"putenv", OptionName::NoEffect),
    (b"agent-awareness", OptionName::NoEffect),
    (b"use-cache-for-signing", OptionName::NoEffect),
    (b"allow-pinentry-notify", OptionName::AllowPinentryNotify),
    (b"pinentry-mode", OptionName::PinentryMode),
    (b"s2k-count", OptionName::S2kCount),
];

impl OptionName {
    ghost use Rattle.session_options.specs.Table.{named};

    /// The option of this name, which is compared exactly.
    #[tactic(auto, unfolding(crate::specs::Table::named))]
    pub(crate) fn named(name: &[u8]) -> Option<OptionName>
        ensures { result ≡ named name.now }
    {
        found(name, &NAMES)
    }
}
