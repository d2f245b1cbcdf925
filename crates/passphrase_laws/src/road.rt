//! Laws on the whole road, from a request to what its client is told: those of `asking.rt`,
//! `exchange.rt` and `reading.rt`, joined. Nothing runs. Begin with
//! `a_task_is_told_what_its_request_came_to`; definitions are in `specs/Roads`.

ghost use Rattle.std.specs.List.{AllByRecursion};
ghost use Rattle.std.specs.Prelude.{List, Option, Some, length, true, ◌++◌, ◌≡◌, ◌≢◌, ◌≤◌, ℕ};
ghost use Rattle.agent_commands.specs.{Exchanges.LineExchange, Actions.CacheEvent};
ghost use Rattle.agent_commands.specs.Requests.{GetFields, get_passphrase, request_of};
ghost use Rattle.agent_commands.specs.declared.{request.Request.TheVariants.Cache, went.Went.Went};
ghost use Rattle.passphrase_talk.specs.{Dialogues.told_of, Turns.Turn, Visits.Talk};
ghost use Rattle.passphrase_talk.specs.declared.visits.TheConstants.{BUDGET};
ghost use Rattle.passphrase_words.specs.{Requests.{Asks, Looks, line_of_request}, Tasks.TaskValue};
ghost use Rattle.session_options.specs.OptionValues.{OptionValues};
ghost use Rattle.session_options.specs.declared.options.PinMode.TheVariants.{Loopback};
ghost use Rattle.session_options.specs.declared.rules.Rules.{Rules};
ghost use Rattle.passphrase_laws.specs.Asking.{Says, fields_of, is_quiet, repeats_of};
ghost use Rattle.passphrase_laws.specs.Roads.{AreReplies, IsWhole, Reaches, session_text};

/// A client that asks this agent for a passphrase is told what the request came to: the passphrase
/// that its exchange came by, or the error by which it was refused, unless its link failed. A note
/// of a launched pinentry in between is answered by END. What comes behind is left.
pub fn a_request_for_a_passphrase_is_told_it()
    ensures { (rules : Rules) (values after : OptionValues) (fields : GetFields)
        (line replies behind : List ℕ) (events : List CacheEvent) (went : Went)
        (options : List (List ℕ)) (turns : List Turn) (left written : Option (List ℕ))
        → LineExchange rules values line events after went
        → request_of line ≡ Cache (get_passphrase fields) → fields.plain ≡ true
        → values.mode ≢ Loopback → AllByRecursion IsWhole events → AreReplies options replies
        → length (session_text replies events) ≤ BUDGET
        → Talk options line turns (Some (session_text replies events ++ behind)) left written
        → Reaches rules values fields events (told_of turns) }
{}

/// The same of the requests that the command sends for a task: the agent that reads its line as
/// meant, and answers by this exchange, is read by it as what the exchange came to. So a passphrase
/// that is told is the one that the agent's cache or its prompt gave for the task's id.
pub fn a_task_is_told_what_its_request_came_to()
    ensures looks { (task : TaskValue) (prompt : Option (List ℕ)) (description : List ℕ)
        (rules : Rules) (values after : OptionValues) (replies behind : List ℕ)
        (events : List CacheEvent) (went : Went) (options : List (List ℕ)) (turns : List Turn)
        (left written : Option (List ℕ)) → Says task prompt description
        → LineExchange rules values (line_of_request task Looks) events after went
        → values.mode ≢ Loopback → AllByRecursion IsWhole events → AreReplies options replies
        → length (session_text replies events) ≤ BUDGET
        → Talk options (line_of_request task Looks) turns
        (Some (session_text replies events ++ behind)) left written
        → Reaches rules values (fields_of task prompt description true 0) events (told_of turns) }
    ensures asks { (task : TaskValue) (prompt : Option (List ℕ)) (description : List ℕ)
        (rules : Rules) (values after : OptionValues) (replies behind : List ℕ)
        (events : List CacheEvent) (went : Went) (options : List (List ℕ)) (turns : List Turn)
        (left written : Option (List ℕ)) → Says task prompt description
        → LineExchange rules values (line_of_request task Asks) events after went
        → values.mode ≢ Loopback → AllByRecursion IsWhole events → AreReplies options replies
        → length (session_text replies events) ≤ BUDGET
        → Talk options (line_of_request task Asks) turns
        (Some (session_text replies events ++ behind)) left written
        → Reaches rules values
        (fields_of task prompt description (is_quiet task.act) (repeats_of task.act)) events
        (told_of turns) }
{}
