//! A law on the words of the command line, which ties how they are read to how a user spells them.
//! Nothing runs. The settings that words spell are in `specs/Settings`.

ghost use Rattle.std.specs.{Prelude.{◌≡◌, true, ℕ, List}, List.list_all};
ghost use Rattle.agent_top.specs.{Forms.fits, Settings.{Setting, Spells, settings}};

/// A law: the words are spelled by the settings that they are read as, and by no other ones that
/// are known and have their form.
pub fn words_are_read_as_spelled()
    ensures spelled { (words : List (List ℕ)) → Spells (settings words) words }
    ensures only { (given : List Setting) (words : List (List ℕ)) → Spells given words
        → list_all fits given ≡ true → settings words ≡ given }
{}
