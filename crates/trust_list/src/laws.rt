//! Laws of trust lists: what an entry says, that the first one decides, and what a new one changes.
//! Functions without a body, whose contracts are facts about the definitions; they touch nothing.
//! Begin with `entries_are_read`; `specs/Written` says how an entry is written.

ghost use Rattle.std.specs.Prelude.{◌≡◌, ◌≢◌, ◌↔◌, ℕ, List, Bool, true, length, Some, None};
ghost use Rattle.std.specs.List.{All, slice_split};
ghost use Rattle.{hex.specs.Hex.{IsBytes, encode_upper}, assuan_text.specs.LineEnds.is_lf};
ghost use Rattle.assuan_text.specs.Words.{words};
ghost use Rattle.trust_list.specs.{Entries.judgement_of, Trust.{IsNewFlag, trust, with_entry}};
ghost use Rattle.trust_list.specs.Written.{FirstEntry, IsEntry, IsSilent};

/// A law: a line says that a fingerprint is trusted, or that it isn't, exactly where it is an entry
/// that is written so.
pub fn entries_are_read()
    ensures { (f line : List ℕ) (trusted : Bool) → length f ≡ 20
        → (IsEntry (encode_upper f) line trusted)
        ↔ (judgement_of (encode_upper f) (words line) ≡ Some trusted) }
{}

/// A law: the first line that is an entry for a fingerprint decides. Where no line is, the file
/// says nothing of it.
pub fn first_entry_decides()
    ensures decides { (file f : List ℕ) (trusted : Bool) → length f ≡ 20
        → (trust file f ≡ Some trusted)
        ↔ (FirstEntry (encode_upper f) (slice_split is_lf file) trusted) }
    ensures silent { (file f : List ℕ) → length f ≡ 20
        → (trust file f ≡ None) ↔ (All (IsSilent (encode_upper f)) (slice_split is_lf file)) }
{}

/// A law: a fingerprint of which the file says nothing is trusted once its entry is added. What the
/// file says of any fingerprint stays, and so does that it says nothing of another.
pub fn adding_decides()
    ensures trusted { (file f : List ℕ) (flag : ℕ) → length f ≡ 20 → IsBytes f → IsNewFlag flag
        → trust file f ≡ None → trust (with_entry file f flag) f ≡ Some true }
    ensures kept { (file f g : List ℕ) (flag : ℕ) (answer : Bool)
        → length f ≡ 20 → IsBytes f → IsNewFlag flag
        → trust file g ≡ Some answer → trust (with_entry file f flag) g ≡ Some answer }
    ensures others { (file f g : List ℕ) (flag : ℕ) → length f ≡ 20 → IsBytes f → length g ≡ 20
        → IsBytes g → IsNewFlag flag → g ≢ f → trust (with_entry file f flag) g ≡ trust file g }
{}
