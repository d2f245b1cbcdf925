//! Prompts for the passphrase of a key, as actions of a request that holds a ticket
//! (permit). They call the prompter and the client. Begin with `prompt_old` and `prompt_new`, whose
//! events are `PromptsOld` and `PromptsNew` (`specs/Passphrases`).

ghost use Rattle.std.specs.Prelude.{◌≡◌, IfOk, is_some, true};
ghost use Rattle.{agent_ask.specs.Prompters.IsShut, assuan_server.specs.Connections.IsOpen};
ghost use Rattle.key_commands.specs.{Lines.field_text, Partial.DoesAtPrompter};
ghost use Rattle.key_commands.specs.{Passphrases.{PromptsOld, PromptsNew}, Trials.IsUsable};

use crate::asking::Asking;
use crate::opened::{OpenedKey, OpensKey};
use crate::texts::{described, new_description, old_description};
use agent_ask::{AnyPin, Held, Prompter, ask_plan, ask_user, prompt_spec};
use agent_ports::Link;
use assuan_server::Conn;
use assuan_text::Text;
use cache_policy::Secret;
use secret_file::Locked;
use session_client::Refusal;

/// Asks the user for the passphrase of a locked key: the clear key, as the accepted passphrase
/// opened it.
pub(crate) fn prompt_old<L: Link, P: Prompter>(
    asking: &Asking<'_>,
    locked: &Locked,
    held: &Held,
    conn: &mut Conn<'_, L>,
    prompter: &mut P,
) -> Result<OpenedKey, Refusal>
    requires open { IsOpen conn.old }
    requires shut { IsShut (P.at prompter.old) }
    requires seated { is_some held.now ≡ true }
    ensures prompts { DoesAtPrompter
        (PromptsOld asking.now.rules.now asking.now.options.now asking.now.grip.now locked.now)
        P.prompted held.now conn.old prompter.old result conn.new prompter.new }
    ensures shut { IsShut (P.at prompter.new) }
    ensures usable { IfOk result (λ opened. IsUsable opened.key) }
{
    let spec = prompt_spec(
        &described(asking.options, old_description(asking.grip)),
        &field_text(),
        false,
        asking.rules,
        asking.options,
    );
    let plan = ask_plan(&Text::new(), false, 0, asking.rules, asking.options);
    let mut test = OpensKey {
        alloc: asking.alloc,
        locked,
        opened: None,
    };
    let pin = ask_user(held.ticket(), &spec, &plan, &mut test, conn, prompter)?;
    match test.into_opened() {
        Some(key) => Ok(OpenedKey { key, by: Some(pin) }),
        None => unreachable!(),
    }
}

/// Asks the user for a new passphrase of a key, which meets the check and is repeated. The prompt
/// says so whatever the client set: a user who is asked "to unlock the key" would type the old one.
pub(crate) fn prompt_new<L: Link, P: Prompter>(
    asking: &Asking<'_>,
    held: &Held,
    conn: &mut Conn<'_, L>,
    prompter: &mut P,
) -> Result<Secret, Refusal>
    requires open { IsOpen conn.old }
    requires shut { IsShut (P.at prompter.old) }
    requires seated { is_some held.now ≡ true }
    ensures prompts { DoesAtPrompter
        (PromptsNew asking.now.rules.now asking.now.options.now asking.now.grip.now) P.prompted
        held.now conn.old prompter.old result conn.new prompter.new }
    ensures shut { IsShut (P.at prompter.new) }
{
    let spec = prompt_spec(
        &new_description(asking.grip),
        &field_text(),
        true,
        asking.rules,
        asking.options,
    );
    let plan = ask_plan(&Text::new(), true, 1, asking.rules, asking.options);
    ask_user(held.ticket(), &spec, &plan, &mut AnyPin, conn, prompter)
}

/// What stands before the field of a passphrase.
fn field_text() -> Text
    ensures { result.items ≡ field_text }
{
    let mut text = Text::new();
    text.try_extend_from_slice(b"Passphrase:").unwrap();
    text
}
