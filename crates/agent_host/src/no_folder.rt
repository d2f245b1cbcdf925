//! Why a call for the keys or the trust list has no folder to work on. Plain data, for `keys.rt`
//! and `trust.rt`, which make their folder's path at each call. Begin with `NoFolder`.

/// Why a call has no folder.
#[derive(Clone, Copy)]
pub enum NoFolder {
    /// There was no memory for its path.
    NoMemory,
    /// None was settled, or its name isn't UTF-8.
    Failed,
}
