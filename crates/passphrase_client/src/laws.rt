//! Laws on what a run writes: a passphrase was an agent's reply, and without one nothing is
//! written. Nothing runs; each contract is a fact about the definitions. Begin with
//! `what_is_given_was_answered`; definitions are in `specs/Laws` and `specs/Runs`.

ghost use Rattle.std.specs.Prelude.{◌≡◌, ◌≢◌, ◌⊎◌, false, true, Bool, List, Option, ℕ};
ghost use Rattle.agent_ports.specs.{Counts.Rose, Sides.Side};
ghost use Rattle.passphrase_talk.specs.{Contacts.Contacts, declared.told.Loss.Loss};
ghost use Rattle.passphrase_words.specs.Tasks.{TaskValue};
ghost use Rattle.session_options.specs.OptionValues.{EnvWords};
ghost use Rattle.passphrase_client.specs.Laws.{WasAnswered, WasRefused, HasDone, HasForgotten};
ghost use Rattle.passphrase_client.specs.Laws.{HasKept, NobodyAsked};
ghost use Rattle.passphrase_client.specs.Runs.{GoesTo, HasRun, TakesSteps, World};
ghost use Rattle.passphrase_client.specs.{Verdicts.looks_alone, declared.course.Course.Course};

use crate::{Ending, Lifetime};
use passphrase_talk::Loss;
use passphrase_words::Act;

/// A law: what is given is one line, and was an agent's reply in this run.
pub fn what_is_given_was_answered()
    ensures { (task : TaskValue) (terminal : EnvWords) (lasts : Lifetime) (before after : World)
        → GoesTo task terminal before after (Ending.Given lasts)
        → WasAnswered task terminal before after }
{}

/// A law: in any end but that a passphrase was given, or couldn't be written whole, the output is
/// as it was.
pub fn without_a_passphrase_nothing_is_written()
    ensures { (task : TaskValue) (terminal : EnvWords) (before after : World) (ending : Ending)
        → GoesTo task terminal before after ending
        → ((lasts : Lifetime) → ending ≢ Ending.Given lasts) → ending ≢ Ending.Unwritten → after.output ≡ before.output }
{}

/// A law: where a run ends without an agent, or with one that was lost and neither ended nor broke
/// the protocol, a call of the connector or of a link failed; where it ends for want of memory, one
/// of the connector had none; where the output couldn't be written, a write of it failed.
pub fn each_failure_is_counted()
    ensures lost { (task : TaskValue) (terminal : EnvWords) (before after : World) (loss : Loss)
        → GoesTo task terminal before after (Ending.Lost loss)
        → (loss ≡ Loss.Broken) ⊎ ((loss ≡ Loss.Ended)
        ⊎ Rose before.contacts.faults after.contacts.faults) }
    ensures no_agent { (task : TaskValue) (terminal : EnvWords) (before after : World)
        → GoesTo task terminal before after Ending.NoAgent
        → Rose before.contacts.faults after.contacts.faults }
    ensures no_memory { (task : TaskValue) (terminal : EnvWords) (before after : World)
        → GoesTo task terminal before after Ending.NoMemory
        → Rose before.contacts.shortages after.contacts.shortages }
    ensures unwritten { (task : TaskValue) (terminal : EnvWords) (before after : World)
        → GoesTo task terminal before after Ending.Unwritten
        → Rose before.output.faults after.output.faults }
{}

/// A law: where the status is 1, there was no memory to find an agent; or an agent's reply refused
/// a step of this run, by an error or by a passphrase that is empty or can't be one line, or there
/// was no memory for a contact; or nobody was to be asked, and nothing is kept.
pub fn what_is_refused_has_its_reply()
    ensures { (task : TaskValue) (terminal : EnvWords) (reason : List ℕ) (before after : World)
        → HasRun task terminal reason before after 1 → WasRefused task terminal before after }
{}

/// A law: what status 0 says was done. Where what is kept for an id was to be forgotten, or all that
/// is, each agent that was found said OK to that; where a passphrase was to be stored, the agent said OK to it, and the
/// other one, where both answer, to forgetting its own. Where it was asked whether one is kept, an
/// agent gave one. Before a new passphrase is typed, what is kept was forgotten at each agent.
pub fn what_is_done_was_answered()
    ensures forgets { (task : TaskValue) (terminal : EnvWords) (before after : World)
        → task.act ≡ Act.Forget → GoesTo task terminal before after Ending.Done
        → HasDone task terminal before after }
    ensures forgets_all { (task : TaskValue) (terminal : EnvWords) (before after : World)
        → task.act ≡ Act.ForgetAll → GoesTo task terminal before after Ending.Done
        → HasDone task terminal before after }
    ensures stores { (task : TaskValue) (terminal : EnvWords) (before after : World)
        → task.act ≡ Act.Store → GoesTo task terminal before after Ending.Done
        → HasDone task terminal before after }
    ensures keeps { (task : TaskValue) (terminal : EnvWords) (before after : World)
        → GoesTo task terminal before after Ending.Kept → HasKept task terminal before after }
    ensures renews { (task : TaskValue) (terminal : EnvWords) (ttl : Option ℕ) (feeds : Bool)
        (lasts : Lifetime) (before after : World) → task.act ≡ Act.Give true false ttl feeds
        → GoesTo task terminal before after (Ending.Given lasts)
        → HasForgotten task terminal ttl before after }
{}

/// A law: by an act for which nobody is to be asked, nobody is, whatever it comes to.
pub fn a_quiet_act_asks_nobody()
    ensures { (task : TaskValue) (terminal : EnvWords) (before : World) (course : Course)
        (input : Side) (after : Contacts) → looks_alone task.act ≡ true
        → (steps : TakesSteps task terminal before course input after)
        → NobodyAsked steps.replies }
{}
