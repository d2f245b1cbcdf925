//! Laws: each function's contract is a fact about the definitions. Nothing runs. Begin with
//! `a_passphrase_is_the_reply`; what they speak of is `Talk` (`specs/Visits`) and `IsDialogue`
//! (`specs/Dialogues`).

ghost use Rattle.std.specs.Prelude.{◌≡◌, ◌++◌, ◌∷◌, [], ℕ, false, List, Option, Some};
ghost use Rattle.passphrase_talk.specs.Dialogues.{IsDialogue, told_of, is_failure, has_cancel};
ghost use Rattle.passphrase_talk.specs.{Turns.{Said, Turn, turn_of}, Visits.Talk};

use crate::Told;
use assuan_client::Answer;

/// The bytes that an agent gives decide the turns of the dialogue, and so what is written and told,
/// where no read or write failed.
pub fn a_visit_has_one_outcome()
    ensures { (options : List (List ℕ)) (line given : List ℕ) (turns others : List Turn)
        (left rest written other : Option (List ℕ))
        → Talk options line turns (Some given) left written
        → Talk options line others (Some given) rest other
        → is_failure (told_of turns) ≡ false → is_failure (told_of others) ≡ false
        → turns ≡ others }
{}

/// A passphrase that is told is what the last answer of the dialogue brought, and no inquiry was
/// cancelled before it.
pub fn a_passphrase_is_the_reply()
    ensures { (options : List (List ℕ)) (line secret : List ℕ) (turns : List Turn)
        → IsDialogue options line turns → told_of turns ≡ Told.Passphrase secret
        → (earlier : List Turn) × (said : Said)
        × (turns ≡ earlier ++ turn_of said (Answer.Got secret) ∷ [])
        × (has_cancel turns ≡ false) }
{}
