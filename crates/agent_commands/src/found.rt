//! The passphrase that a request came by: a grant of the cache, which isn't copied, or a secret of
//! its own. Plain data; a secret is overwritten when it is dropped. Begin with `Found`; contracts
//! see its bytes (`specs/Sources`).

ghost use Rattle.std.specs.Prelude.{◌≡◌};

use cache_policy::{Grant, Secret};
use std::marker::Model;

/// A passphrase and where it comes from. One that is cached isn't copied. Contracts see its bytes.
#[derive(Drop)]
pub(crate) struct Found {
    origin: Origin,
}

/// Where a passphrase comes from.
#[derive(Drop)]
enum Origin {
    Cached(Grant),
    /// The user or the client gave it for this request.
    Own(Secret),
}

impl Model for Found {
    ghost use Rattle.std.specs.Prelude.{ℕ, List};
    ghost use Rattle.agent_commands.specs.Sources.{secret_by};

    ghost Value = { List ℕ };

    ghost view = { λ found. secret_by found.origin };
}

impl Found {
    pub(crate) fn cached(grant: Grant) -> Found
        ensures { result ≡ grant.entry.secret }
    {
        Found {
            origin: Origin::Cached(grant),
        }
    }

    pub(crate) fn own(secret: Secret) -> Found
        ensures { result ≡ secret }
    {
        Found {
            origin: Origin::Own(secret),
        }
    }

    pub(crate) fn secret(&self) -> &Secret
        ensures { result.now ≡ self.now }
    {
        match &self.origin {
            Origin::Cached(grant) => grant.secret(),
            Origin::Own(secret) => secret,
        }
    }
}
