//! Laws on requests: each line that `passphrase` sends is read by the agent as the user's words
//! mean it. Nothing runs. Definitions are in `specs/Asking`; the line is `line_of_request` of
//! `passphrase_words`, and its reader `request_of` of `agent_commands`.

ghost use Rattle.std.specs.Prelude.{List, Option, Some, None, [], true, unwrap_or};
ghost use Rattle.std.specs.Prelude.{◌++◌, ◌∷◌, ◌≡◌, ◌≢◌, ℕ};
ghost use Rattle.agent_ask.specs.Session.SessionEvents.{Inquiry, turns_in};
ghost use Rattle.agent_commands.specs.{Actions.CacheEvent, Answers.IsSecret};
ghost use Rattle.agent_commands.specs.Exchanges.{LineExchange};
ghost use Rattle.agent_commands.specs.Requests.{get_passphrase, request_of};
ghost use Rattle.agent_commands.specs.declared.request.CacheCommand.TheVariants.{ClearPassphrase};
ghost use Rattle.agent_commands.specs.declared.request.CacheCommand.TheVariants.{PresetPassphrase};
ghost use Rattle.agent_commands.specs.declared.request.CacheCommand.TheVariants.{ReloadAgent};
ghost use Rattle.agent_commands.specs.declared.{request.Request.TheVariants.Cache, went.Went.Went};
ghost use Rattle.assuan_server.specs.Inquiries.{Cancelled};
ghost use Rattle.cache_policy.specs.declared.life.Life.TheVariants.{Seconds};
ghost use Rattle.cache_policy.specs.declared.mode.Mode.TheVariants.{User};
ghost use Rattle.passphrase_words.specs.{Ids.is_id, Tasks.TaskValue};
ghost use Rattle.passphrase_words.specs.Requests.{Asks, Clears, ClearsAll, Looks, Presets, Probes};
ghost use Rattle.passphrase_words.specs.Requests.{act_ttl, line_of_request};
ghost use Rattle.session_client.specs.Asking.{Asked};
ghost use Rattle.session_options.specs.{OptionValues.OptionValues, declared.rules.Rules.Rules};
ghost use Rattle.passphrase_laws.specs.Asking.{AreSeconds, Says, fields_of, is_quiet, life_of};
ghost use Rattle.passphrase_laws.specs.Asking.{repeats_of};

/// The line by which the command looks for a passphrase, and that by which it has the user asked,
/// is read by the agent as a request for one under the task's id, in data lines, with the prompt
/// and the description that the words had, and as the act says whether somebody is asked, and how
/// often what is typed is repeated.
pub fn a_request_is_read_as_meant()
    ensures looks { (task : TaskValue) (prompt : Option (List ℕ)) (description : List ℕ)
        → Says task prompt description
        → request_of (line_of_request task Looks)
        ≡ Cache (get_passphrase (fields_of task prompt description true 0)) }
    ensures asks { (task : TaskValue) (prompt : Option (List ℕ)) (description : List ℕ)
        → Says task prompt description
        → request_of (line_of_request task Asks)
        ≡ Cache (get_passphrase (fields_of task prompt description (is_quiet task.act)
        (repeats_of task.act))) }
{}

/// So are the requests that change what is kept: the id is forgotten as GET_PASSPHRASE keeps it;
/// all that is kept is forgotten by a reload (`agent_commands`: its one turn at the cache flushes);
/// exactly this passphrase is stored under the id, for as long as the seconds say; and a probe is a
/// store whose passphrase its client is asked for.
pub fn a_change_is_read_as_meant()
    ensures clears { (task : TaskValue) → is_id task.id ≡ true
        → request_of (line_of_request task Clears) ≡ Cache (ClearPassphrase task.id User) }
    ensures clears_all { (task : TaskValue)
        → request_of (line_of_request task ClearsAll) ≡ Cache ReloadAgent }
    ensures presets { (task : TaskValue) (seconds : Option ℕ) (secret : List ℕ)
        → is_id task.id ≡ true → AreSeconds seconds → IsSecret secret → secret ≢ []
        → request_of (line_of_request task (Presets seconds secret))
        ≡ Cache (PresetPassphrase task.id (life_of seconds) (Some secret)) }
    ensures probes { (task : TaskValue) → is_id task.id ≡ true → AreSeconds (act_ttl task.act)
        → request_of (line_of_request task Probes)
        ≡ Cache (PresetPassphrase task.id (Seconds (unwrap_or (act_ttl task.act) 1)) None) }
{}

/// A probe that its client cancels takes no turn at the cache: nothing is stored.
pub fn a_cancelled_probe_stores_nothing()
    ensures { (task : TaskValue) (rules : Rules) (values after : OptionValues)
        (events before later : List CacheEvent) (word params : List ℕ) (limit : ℕ) (went : Went)
        → is_id task.id ≡ true → AreSeconds (act_ttl task.act)
        → LineExchange rules values (line_of_request task Probes) events after went
        → events ≡ before ++ Inquiry word params limit (Asked Cancelled) ∷ later
        → turns_in events ≡ [] }
{}
