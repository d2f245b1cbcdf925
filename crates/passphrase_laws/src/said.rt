//! Laws on the words of the command line: what they say is what the task's requests say. Nothing
//! runs. Definitions are in `specs/Asking`; how words are read is `Reads` of `passphrase_words`.

ghost use Rattle.std.specs.Prelude.{List, Option, ℕ};
ghost use Rattle.passphrase_words.specs.{Tasks.{TaskValue, WantsTask}, Words.{Reads, ReadsAskpass}};
ghost use Rattle.passphrase_words.specs.Requests.{act_ttl};
ghost use Rattle.passphrase_laws.specs.Asking.{AreSeconds, HasTexts, Means, Says};

/// A task that words ask for, and that of an askpass, says the prompt and the description that the
/// words give it, and its id is one. The seconds that it names, if any, are some that the agent
/// takes.
pub fn a_task_says_what_its_words_mean()
    ensures read { (words : List (List ℕ)) (task : TaskValue) → Reads words (WantsTask task)
        → HasTexts words task }
    ensures askpass { (words : List (List ℕ)) (task : TaskValue) → ReadsAskpass words task
        → HasTexts words task }
    ensures says { (words : List (List ℕ)) (task : TaskValue) (prompt : Option (List ℕ))
        (description : List ℕ) → Means words task prompt description
        → Says task prompt description }
    ensures seconds { (words : List (List ℕ)) (task : TaskValue) (prompt : Option (List ℕ))
        (description : List ℕ) → Means words task prompt description
        → AreSeconds (act_ttl task.act) }
{}
