//! The leave to use an entry for one request, which there is only within the entry's lifetimes: its
//! type has the proof. Pure. Begin with `Grant::of`; `serves` and `within` of `specs/Entry` are its
//! two facts.

ghost use Rattle.std.specs.Prelude.{◌≡◌, true, ◌&&◌, ◌↔◌, IsSome, IfSome};
ghost use Rattle.cache_policy.specs.Entry.{serves, within};

use crate::{CacheId, Entry, Mode, Secret};

/// The leave to use an entry for one request. There is none that the policy's lifetimes would not
/// allow.
#[derive(Drop)]
pub struct Grant {
    /// The id and the mode that were asked for.
    pub id: CacheId,
    /// The mode that was asked for, which the entry's own covers.
    pub mode: Mode,
    /// The entry that may be used.
    pub entry: Entry,
    /// When the entry was last used before, or else stored.
    pub last: u64,
    /// When it is used now.
    pub moment: u64,
    // The entry has the id, in a mode that covers the asked one.
    pub ghost fits: { serves id mode entry ≡ true },
    // Its ttl, counted from the last use, and its maximum age have not passed.
    pub ghost in_time: { within entry last moment ≡ true },
}

impl Grant {
    /// `None` where the entry has another id, does not cover the mode, or is past a lifetime at
    /// `moment`.
    pub fn of(id: CacheId, mode: Mode, entry: Entry, last: u64, moment: u64) -> Option<Grant>
        ensures granted { IsSome result
            ↔ ((serves id mode entry && within entry last moment) ≡ true) }
        ensures id { IfSome result (λ grant. grant.id ≡ id) }
        ensures mode { IfSome result (λ grant. grant.mode ≡ mode) }
        ensures entry { IfSome result (λ grant. grant.entry ≡ entry) }
        ensures last { IfSome result (λ grant. grant.last ≡ last) }
        ensures moment { IfSome result (λ grant. grant.moment ≡ moment) }
    {
        if entry.serves(&id, mode) && entry.within(last, moment) {
            Some(Grant {
                id,
                mode,
                entry,
                last,
                moment,
            })
        } else {
            None
        }
    }

    /// The passphrase of the entry.
    pub fn secret(&self) -> &Secret
        ensures { result.now ≡ self.now.entry.secret }
    {
        &self.entry.secret
    }

    /// The number of the entry.
    pub fn number(&self) -> u64
        ensures { result ≡ self.now.entry.number }
    {
        self.entry.number
    }
}
