//! A law on command lines: each is read one way. Nothing runs. How one is read says `Reads`
//! (`specs/Words`).

ghost use Rattle.std.specs.Prelude.{◌≡◌, ℕ, List};
ghost use Rattle.passphrase_words.specs.{Refusals.Refuses, Tasks.WantedValue, Words.Reads};

/// A law: the same words don't ask for two things.
pub fn a_command_line_is_read_one_way()
    ensures { (words : List (List ℕ)) (one other : WantedValue) → Reads words one
        → Reads words other → one ≡ other }
{}

/// A law: words that aren't read break one rule first.
pub fn a_command_line_is_refused_one_way()
    ensures { (words : List (List ℕ)) (one other : List ℕ) → Refuses words one
        → Refuses words other → one ≡ other }
{}
