//! Passphrases that are cached under a nonce (`--cache-nonce`, `--passwd-nonce`). One turn at the
//! desk (cache handle), and none where no nonce is named. It has one function, `look_for_nonce`,
//! which is `LooksForNonce` (`specs/Passphrases`).

ghost use Rattle.std.specs.Prelude.{◌≡◌};
ghost use Rattle.key_commands.specs.{Passphrases.LooksForNonce, Steps.TakesTurns};

use agent_ask::{Held, ask_cache};
use cache_policy::{CacheId, Desk, Mode, Secret, Way};
use session_client::Refusal;

/// What is cached under a nonce, where there is one. It opens no prompt.
pub(crate) fn look_for_nonce<D: Desk>(
    nonce: &Option<CacheId>,
    held: &mut Held,
    desk: &mut D,
) -> Result<Option<Secret>, Refusal>
    requires out { (D.at desk.old).out ≡ held.old }
    ensures turn { TakesTurns D.turned
        (LooksForNonce nonce.now) held.old desk.old result held.new desk.new }
    ensures same { held.new ≡ held.old }
    ensures out { (D.at desk.new).out ≡ held.new }
{
    match nonce {
        None => Ok(None),
        Some(nonce) => ask_cache(nonce.copy(), Mode::Nonce, Way::Quiet, held, desk),
    }
}
