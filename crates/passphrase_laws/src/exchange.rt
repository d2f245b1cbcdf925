//! A law on the agent's exchange for a GET_PASSPHRASE with `--data`: by which line it ends, to its
//! client's reader. Nothing runs. Definitions are in `specs/Exchanges`.

ghost use Rattle.std.specs.Prelude.{List, true, ◌≡◌, ℕ};
ghost use Rattle.agent_commands.specs.{Exchanges.LineExchange, Actions.CacheEvent};
ghost use Rattle.agent_commands.specs.Requests.{GetFields, get_passphrase, request_of};
ghost use Rattle.agent_commands.specs.declared.{request.Request.TheVariants.Cache, went.Went.Went};
ghost use Rattle.session_options.specs.{OptionValues.OptionValues, declared.rules.Rules.Rules};
ghost use Rattle.passphrase_laws.specs.Exchanges.{IsTold};

/// The exchange of a request with `--data` ends by a line that its client reads as the passphrase
/// that the request came by, or as the error by which it was refused.
pub fn a_request_for_a_passphrase_is_answered_so()
    ensures { (rules : Rules) (values after : OptionValues) (fields : GetFields) (line : List ℕ)
        (events : List CacheEvent) (went : Went) → LineExchange rules values line events after went
        → request_of line ≡ Cache (get_passphrase fields) → fields.plain ≡ true
        → IsTold rules values fields events }
{}
