//! An entry of the cache: a passphrase, what it is stored under, and its lifetimes. Pure; a copy
//! takes no memory. Begin with `Entry::within`; `specs/Entry` says when an entry serves, and
//! `specs/Entries` which marks (log entries) store one.

ghost use Rattle.std.specs.{Prelude.◌≡◌, Option.option_to_list};

use crate::{CacheId, Life, Limits, Mode, Secret};

/// A passphrase in the cache.
#[derive(Drop)]
pub struct Entry {
    /// The number of the mark that stored it.
    pub number: u64,
    /// The id that it is stored under.
    pub id: CacheId,
    /// The mode that it was stored in. It serves requests of the modes that this one covers.
    pub mode: Mode,
    /// The passphrase.
    pub secret: Secret,
    /// The moment at which it was stored, in seconds.
    pub entered: u64,
    /// How many seconds it may go unused, if that is limited.
    pub ttl: Option<u32>,
    /// Its maximum age, in seconds.
    pub max: u32,
}

impl Entry {
    ghost use Rattle.cache_policy.specs.{Entry.{serves, within}, Entries.entry_of};

    /// The entry that a mark with this number stores, or `None` where the effective ttl is 0.
    pub fn of(
        limits: &Limits,
        number: u64,
        moment: u64,
        id: CacheId,
        mode: Mode,
        life: Life,
        secret: Secret,
    ) -> Option<Entry>
        ensures { option_to_list result ≡ entry_of limits.now number moment id mode life secret }
    {
        let ttl = limits.ttl_of(mode, life);
        if ttl == Some(0) {
            return None;
        }
        Some(Entry {
            number,
            id,
            mode,
            secret,
            entered: moment,
            ttl,
            max: limits.max_of(mode),
        })
    }

    /// Whether a request for `id` in `mode` can be given it.
    pub fn serves(&self, id: &CacheId, mode: Mode) -> bool
        ensures { result ≡ serves id.now mode self.now }
    {
        self.id == *id && self.mode.covers(mode)
    }

    /// Whether `moment` is within both lifetimes: the ttl counted from `last`, and the maximum age.
    /// The last second of each still is.
    pub fn within(&self, last: u64, moment: u64) -> bool
        ensures { result ≡ within self.now last moment }
    {
        // By differences, since a sum could pass the last u64.
        let unused = moment.saturating_sub(last);
        let age = moment.saturating_sub(self.entered);
        self.ttl.is_none_or(|ttl| unused <= u64::from(ttl)) && age <= u64::from(self.max)
    }

    /// The same entry once more, without taking memory.
    pub fn copy(&self) -> Entry
        ensures { result ≡ self.now }
    {
        Entry {
            number: self.number,
            id: self.id.copy(),
            mode: self.mode,
            secret: self.secret.copy(),
            entered: self.entered,
            ttl: self.ttl,
            max: self.max,
        }
    }
}
