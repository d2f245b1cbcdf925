//! Laws on the options that the command says: how this agent reads each, and answers it. Nothing
//! runs. Definitions are in `specs/Served`; the lines are `options_of` of `passphrase_talk`.

ghost use Rattle.std.specs.List.{AllByRecursion};
ghost use Rattle.agent_origin.specs.{DoorSessions.DoorExchange, SessionExchanges.SessionExchange};
ghost use Rattle.agent_origin.specs.declared.door.Door.TheVariants.{Home};
ghost use Rattle.passphrase_talk.specs.{Dialogues.options_of, declared.connector.Waits.Waits};
ghost use Rattle.passphrase_talk.specs.declared.connector.Waits.TheVariants.{Prompt};
ghost use Rattle.session_options.specs.{OptionValues.EnvWords, declared.rules.Rules.Rules};
ghost use Rattle.passphrase_laws.specs.Served.{IsPassed, SaysTerminal};

use agent_session::an_exchange_at_a_door_is_a_sessions;

/// Each option that the command says, this agent answers by one line: it is taken, or refused by an
/// error. Its session goes on, and in the pinentry-mode that it was in. So it is at the user's own
/// door.
pub fn an_option_is_taken_or_refused()
    ensures session { (rules : Rules) (waits : Waits) (terminal : EnvWords)
        → AllByRecursion (IsPassed (SessionExchange rules)) (options_of waits terminal) }
    ensures home { (rules : Rules) (waits : Waits) (terminal : EnvWords)
        → AllByRecursion (IsPassed (DoorExchange Home rules)) (options_of waits terminal) }
{
    an_exchange_at_a_door_is_a_sessions();
}

/// They are read as what they are meant as: that a pinentry's launch is told, and each word of the
/// terminal, which is set where the agent can keep it; and nothing else is set.
pub fn an_option_sets_what_it_says()
    ensures { (terminal : EnvWords) → SaysTerminal terminal (options_of Prompt terminal) }
{}
