//! Laws: each function's contract is a fact about the definitions. They have no bodies and touch
//! nothing. Begin with `a_prompt_has_its_child` (`specs/Children`) and `a_dialogue_has_one_outcome`
//! (`specs/Whole`).

ghost use Rattle.std.specs.{List.count_by, Prelude.{◌≡◌, ◌+◌, ℕ, List, length, Option, Some}};
ghost use Rattle.agent_ask.specs.{Events.Call, Prompters.{IsCall, is_failed}};
ghost use Rattle.agent_ports.specs.{Counts.RoseBy, Leads.Leads};
ghost use Rattle.assuan_line.specs.declared.reader.TheConstants.{BUDGET};
ghost use Rattle.pinentry_client.specs.Children.{ArePrompts, HaveTheirChildren};
ghost use Rattle.pinentry_client.specs.Dialogues.{PinentryCall, PinentryDoes};
ghost use Rattle.pinentry_client.specs.States.{AtPinentry, PinentryState, at_prompter};
ghost use Rattle.pinentry_client.specs.Whole.{IsOnePrompt, HasItsChild, Dialogue, AskAlike};
ghost use Rattle.pinentry_client.specs.Whole.{HasSpent};

use agent_ports::Launcher;

/// Each call keeps a prompter's promise by what it does to the launcher and the child alone. So a
/// call that failed raised their count, which without a child is the launcher's.
pub fn a_pinentry_is_a_prompter()
    ensures { (before : AtPinentry) (call : Call) (after : AtPinentry)
        → PinentryDoes before call after → IsCall (at_prompter before) call (at_prompter after) }
{}

/// The calls of one prompt are a dialogue with one child, which runs the pinentry's program, is the
/// next that the launcher starts, and then the last that it has finished. Where it couldn't be
/// started, there is no child.
pub fn a_prompt_has_its_child<La: Launcher>()
    ensures { (before after : PinentryState La) (calls : List Call) → IsOnePrompt calls
        → Leads (PinentryCall La.launches) before calls after → HasItsChild before.program calls
        (La.launches before.launcher) (La.launches after.launcher) }
{}

/// The calls of prompts, one after another, are dialogues with children, one for each prompt in
/// their order, but for a prompt whose launch failed. The children run the pinentry's program, are
/// the next that the launcher starts, and then the last that it has finished.
pub fn prompts_have_their_children()
    ensures { (before after : AtPinentry) (prompts : List (List Call)) (calls : List Call)
        → ArePrompts prompts calls → Leads PinentryDoes before calls after
        → HaveTheirChildren before.program prompts before.launches after.launches }
{}

/// Of a pinentry's calls, one after another, at most as many fail as the count of its launcher and
/// its child rises by, as long as that is below its last value.
pub fn failures_of_a_pinentry_are_counted()
    ensures { (before after : AtPinentry) (calls : List Call)
        → Leads PinentryDoes before calls after → RoseBy (count_by is_failed calls)
        (at_prompter before).faults (at_prompter after).faults }
{}

/// The bytes that a child could give decide what the calls of a prompt are answered: where the same
/// is asked and the same calls fail, the answers are the same.
pub fn a_dialogue_has_one_outcome()
    ensures { (calls others : List Call) (given : List ℕ)
        (left rest written other : Option (List ℕ)) → Dialogue calls (Some given) left written
        → Dialogue others (Some given) rest other → AskAlike calls others → calls ≡ others }
{}

/// A call is answered that a child is spent only where all the bytes were taken that are allowed of
/// it.
pub fn a_spent_child_gave_all()
    ensures { (calls : List Call) (given : List ℕ) (left written : Option (List ℕ))
        → Dialogue calls (Some given) left written → HasSpent calls
        → (rest : List ℕ) × (left ≡ Some rest) × (length given ≡ length rest + BUDGET) }
{}
