//! Laws on replies: what the agent writes, its client reads as the passphrase or error that was
//! meant. Nothing runs. Begin with `a_passphrase_is_read`; definitions are in `specs/Readings`.

ghost use Rattle.std.specs.Prelude.{List, true, ℕ};
ghost use Rattle.agent_commands.specs.Answers.{IsPassphrase};
ghost use Rattle.assuan_client.specs.{Answers.success_of, declared.answer.Answer.TheVariants.Err};
ghost use Rattle.assuan_server.specs.Errors.{error_number, error_text};
ghost use Rattle.assuan_server.specs.declared.errors.Origin.{Origin};
ghost use Rattle.{assuan_text.specs.LineEnds.line_of, session_client.specs.declared.code.Code.Code};
ghost use Rattle.passphrase_laws.specs.Readings.{IsReadAs};

/// What the agent writes where a request with `--data` is answered by a passphrase, a client reads
/// as this passphrase, whatever comes behind it; one without a byte as `Ok`.
pub fn a_passphrase_is_read()
    ensures { (secret text : List ℕ) → IsPassphrase true secret text
        → IsReadAs text (success_of secret) }
{}

/// Each line by which the agent refuses a request, a client reads as the error of its number.
pub fn an_error_is_read()
    ensures { (why : Code) (origin : Origin)
        → IsReadAs (line_of (error_text why origin)) (Err (error_number why origin)) }
{}
