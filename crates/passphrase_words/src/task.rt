//! What is to be done for an id: an act, its folder and time, and the texts of its prompt. Plain
//! data, which borrows the words. Begin with `Task`; contracts see it as a `TaskValue`
//! (`specs/Tasks`).

ghost use Rattle.std.specs.Prelude.{◌≡◌};
ghost use Rattle.passphrase_words.specs.Texts.{Fits};

use arrayvec::ArrayVec;
use assuan_text::MAX_LINE_LEN;

/// How many bytes an id has at most.
pub const MAX_ID_LEN: usize = 50;

/// The name of a passphrase.
pub(crate) type Id = ArrayVec<u8, MAX_ID_LEN>;

/// The prompt and the description, as words of a request.
pub(crate) type Texts = ArrayVec<u8, MAX_LINE_LEN>;

/// What a task does.
#[derive(Clone, Copy, Debug, PartialEq, Eq)]
pub enum Act {
    /// Gives the passphrase that is kept, or that the user types.
    Give {
        /// A new one is typed twice (`--new`).
        repeats: bool,
        /// Nobody is asked (`--no-ask`).
        quiet: bool,
        /// For how many seconds what is typed is kept, 1 to 2^31 - 1 (`--ttl`).
        ttl: Option<u32>,
        /// A line feed is written behind it (without `--null`).
        feeds: bool,
    },
    /// Tells whether one is kept.
    Cached,
    /// Has what is kept forgotten.
    Forget,
    /// Has all that is kept forgotten (`--forget-all`), under whatever id.
    ForgetAll,
    /// Stores the line on standard input.
    Store,
}

/// What is to be done for an id.
#[derive(Drop)]
pub struct Task<'a> {
    /// The agent's folder (`--homedir`), not empty.
    pub folder: Option<&'a str>,
    /// How many seconds an agent has for an answer, 1 to 2^31 - 1 (`--timeout`).
    pub seconds: Option<u32>,
    /// What is to be done.
    pub act: Act,
    pub(crate) id: Id,
    pub(crate) texts: Texts,
    ghost fits: { Fits id.items texts.items },
}

impl Task<'_> {
    ghost use Rattle.std.specs.Prelude.{true};
    ghost use Rattle.passphrase_words.specs.{Ids.is_id, Tasks.task_value};

    /// The bytes of the id, at most 50.
    pub fn id(&self) -> &[u8]
        ensures bytes { result.now ≡ (task_value self.now).id }
        ensures id { is_id result.now ≡ true }
    {
        self.id.as_slice()
    }
}
