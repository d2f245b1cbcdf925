//! The hash of a cache id, of std's `FoldHasher` from its fixed start. Pure: `id_hash` of
//! `specs/Hashes`. A shelf is right whatever the hashes are, and only its speed hangs on them.

ghost use Rattle.std.specs.Prelude.{◌≡◌};
ghost use Rattle.cache_book.specs.Hashes.{id_hash};

use cache_policy::CacheId;
use std::hash::{FoldHasher, Hasher};

/// A number of an id, by which it is nearly always known from others, also where they begin alike.
#[tactic(auto, unfolding(crate::specs::Hashes::id_hash))]
pub(crate) fn hash_of(id: &CacheId) -> u64
    ensures { result ≡ id_hash id.now }
{
    let mut hasher = FoldHasher::default();
    hasher.write(id.bytes());
    hasher.finish()
}
