//! A session as `--server` has it: the frame of `agent_origin`, with neither a door nor a trust
//! file. It works on the link, the desk (cache handle), the prompter, the keys and the dice that it
//! is lent. Begin with `serve_session`; what it does is `ServesRules` (`specs/Sessions`).

ghost use Rattle.std.specs.Prelude.{◌≡◌, None};
ghost use Rattle.agent_ask.specs.Prompters.{IsShut};
ghost use Rattle.agent_session.specs.Sessions.{no_trust, without_trust, ServesRules};

use agent_ask::Prompter;
use agent_commands::SessionEnd;
use agent_origin::serve;
use agent_ports::{Dice, Keys, Link, TrustDone, TrustFile, TrustRead};
use cache_policy::Desk;
use session_options::Rules;
use std::alloc::Global;

/// There is no trust file: none of these requests is on one.
#[derive(Drop)]
struct NoTrust;

impl TrustFile for NoTrust {
    ghost trust = { λ none. no_trust };

    fn read(&mut self, _alloc: Global) -> TrustRead {
        TrustRead::NoMemory
    }

    fn replace(&mut self, _alloc: Global, _file: &[u8]) -> TrustDone {
        TrustDone::NoMemory
    }
}

/// Serves a session on a link: greets, and answers request after request until the session ends. No
/// ticket of the session is out and no prompt is open when it returns. Its wrapping keys are
/// overwritten in the end.
pub fn serve_session<L: Link, D: Desk, P: Prompter, K: Keys, R: Dice>(
    alloc: Global,
    rules: &Rules,
    link: &mut L,
    desk: &mut D,
    prompter: &mut P,
    keys: &mut K,
    dice: &mut R,
) -> SessionEnd
    requires free { (D.at desk.old).out ≡ None }
    requires shut { IsShut (P.at prompter.old) }
    ensures serves { ServesRules D.turned P.prompted rules.now
        (without_trust D.turned P.prompted (L.input link.old)
        (L.output link.old) desk.old prompter.old (K.keys keys.old) (R.draws dice.old)) result
        (without_trust D.turned P.prompted (L.input link.new)
        (L.output link.new) desk.new prompter.new (K.keys keys.new) (R.draws dice.new)) }
    ensures free { (D.at desk.new).out ≡ None }
    ensures shut { IsShut (P.at prompter.new) }
{
    serve(
        None,
        alloc,
        rules,
        link,
        desk,
        prompter,
        keys,
        dice,
        &mut NoTrust,
    )
}
