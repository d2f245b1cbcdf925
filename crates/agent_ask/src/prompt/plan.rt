//! What a prompt shows and how it asks, by the agent's rules (its command line) and the session's
//! options (OPTION). Pure; the texts are copied into places of a fixed size. Begin with
//! `prompt_spec` and `ask_plan`, which `specs/Plans` defines.

ghost use Rattle.std.specs.Prelude.{◌≡◌};
ghost use Rattle.agent_ask.specs.Plans.{IsSpec, plan_of};

use crate::{AskPlan, PromptSpec};
use assuan_text::Text;
use session_options::{Options, Rules, copied};

/// What a prompt shows. Its title and its buttons are the pinentry's own.
pub fn prompt_spec(
    description: &Text,
    prompt: &Text,
    quality: bool,
    rules: &Rules,
    options: &Options,
) -> PromptSpec
    ensures { IsSpec rules.now options.now description.now prompt.now quality result }
{
    PromptSpec {
        title: Text::new(),
        description: copied(description),
        prompt: copied(prompt),
        ok: Text::new(),
        cancel: Text::new(),
        quality,
        env: options.env(),
        timeout: rules.pinentry_timeout,
    }
}

/// How a passphrase is asked for.
pub fn ask_plan(error: &Text, check: bool, repeat: u8, rules: &Rules, options: &Options) -> AskPlan
    ensures { result ≡ plan_of rules.now options.now error.now check repeat }
{
    AskPlan {
        notify: options.notify(),
        first_error: copied(error),
        check: check.then_some((rules.min_len, rules.min_nonalpha)),
        repeat,
    }
}
