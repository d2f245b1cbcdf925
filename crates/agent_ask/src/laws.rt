//! Laws: each function's contract is a fact about the definitions. Nothing runs. Begin with
//! `a_prompt_has_one_answer`; the definitions are those of `specs/Prompts`, `specs/Consents` and
//! `specs/Prompters`.

ghost use Rattle.std.specs.{Prelude.{◌≡◌, ℕ, Bool, List}, List.count_by};
ghost use Rattle.agent_ports.specs.{Counts.RoseBy, Leads.Leads};
ghost use Rattle.agent_ask.specs.{Consents.AsksConsent, Events.{Call, PromptEvent}};
ghost use Rattle.agent_ask.specs.{Prompters.is_failed, Prompts.AsksPin};

use crate::{Agreed, AskPlan, Asked, PromptSpec, Prompter, Test};

/// The events of a prompt determine its answer.
pub fn a_prompt_has_one_answer<T: Test>()
    ensures { (spec : PromptSpec) (plan : AskPlan) (test : T) (events : List PromptEvent)
        (first second : Asked) → AsksPin spec plan (T.rule test) events first
        → AsksPin spec plan (T.rule test) events second → first ≡ second }
{}

/// The events of a prompt for consent determine its answer.
pub fn a_consent_has_one_answer()
    ensures { (spec : PromptSpec) (notify : Bool) (events : List PromptEvent)
        (first second : Agreed) → AsksConsent spec notify events first
        → AsksConsent spec notify events second → first ≡ second }
{}

/// Of a prompter's calls, one after another, at most as many fail as its count of faults rises by,
/// as long as that is below its last value.
pub fn failures_are_counted<P: Prompter>()
    ensures { (before after : P) (calls : List Call) → Leads P.prompted before calls after
        → RoseBy (count_by is_failed calls) (P.at before).faults (P.at after).faults }
{}
