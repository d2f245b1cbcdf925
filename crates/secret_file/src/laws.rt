//! Laws of key files: one answer at most, and `unprotect` as three calls in a row. Functions
//! without a body, whose contracts are facts about the definitions; they touch nothing. Begin with
//! `Answers` of `specs/Answers` and `Opens` of `specs/Opens`.

ghost use Rattle.std.specs.Prelude.{◌≡◌, ℕ, List, IsTrue};
ghost use Rattle.sexp_keys.specs.{Key.Key, declared.fault.KeyFault.KeyFault};
ghost use Rattle.secret_file.specs.Opens.{LockedKey, IsFile, IsLocked};
ghost use Rattle.secret_file.specs.Answers.{refused, unlocked, IsFileFault, IsLockedFault};
ghost use Rattle.secret_file.specs.Answers.{AnswersOpening, Answers};
ghost use Rattle.secret_file.specs.declared.{locked.Opened.Opened, unlocked.Unlocked.Unlocked};

/// A law: a file and a passphrase have one answer at most, a key or a fault, and no key hides a
/// fault.
pub fn one_answer()
    ensures { (file pass : List ℕ) (a b : Unlocked) → Answers file pass a
        → Answers file pass b → a ≡ b }
{}

/// A law: the answer of `unprotect` is that of three calls in a row. The file is read as a key
/// (`key_of`), the key as a locked one (`Locked::of`), and the locked key is opened
/// (`Locked::open`). The first fault of them is the answer, and a clear key is not protected.
pub fn unprotect_is_three_calls()
    ensures unread { (file pass : List ℕ) (fault : KeyFault) → IsFileFault file fault
        → Answers file pass (refused fault) }
    ensures clear { (file pass : List ℕ) (key : Key) → IsFile file key → IsTrue key.is_clear
        → Answers file pass Unlocked.NotProtected }
    ensures unlocked { (file pass : List ℕ) (key : Key) (fault : KeyFault) → IsFile file key
        → (IsTrue key.is_clear → ⊥) → IsLockedFault key fault → Answers file pass (refused fault) }
    ensures opened { (file pass : List ℕ) (locked : LockedKey) (opening : Opened)
        → IsFile file locked.key → IsLocked locked
        → AnswersOpening locked pass opening → Answers file pass (unlocked opening) }
{}
