//! HAVEKEY: which keys there are. It calls the keys. Begin with `has_one` and `list_all`; these are
//! `HasOne` (`specs/KeyActions`) and `ListGripsReplies` (`specs/Exchanges`).

ghost use Rattle.std.specs.Prelude.{◌≡◌, IfOk, None};
ghost use Rattle.{agent_ask.specs.Session.ActionStates.NoTurn, agent_ports.specs.Sides.Side};
ghost use Rattle.assuan_server.specs.Connections.{Connection, IsOpen};
ghost use Rattle.session_options.specs.{OptionValues.OptionValues, declared.rules.Rules.Rules};
ghost use Rattle.key_commands.specs.{Exchanges.ListGripsReplies, Replies.CarriesOut};
ghost use Rattle.key_commands.specs.{KeyActions.{HasOne, JoinsGrips, grips_bytes}, Partial.NoCall};
ghost use Rattle.key_commands.specs.{States.key_state, Steps.{DoesAlone, DoesKeyCalls}};
ghost use Rattle.key_commands.specs.declared.keywrap_key.WrapKeys.{WrapKeys};

use crate::grips::Grips;
use crate::key_calls::{has_file, list_grips};
use crate::reply::Reply;
use agent_ports::{Grip, Keys};
use assuan_server::Code;
use session_client::Refusal;
use sexp_canonical::Bytes;
use std::alloc::{AllocError, Global};

/// HAVEKEY: whether one of these keys is there.
pub(crate) fn has_one<K: Keys>(alloc: Global, grips: &Grips, keys: &mut K) -> Result<(), Refusal>
    ensures { DoesKeyCalls (HasOne grips.now) (K.keys keys.old) result (K.keys keys.new) }
{
    for bytes in grips.bytes() {
        if has_file(alloc, &Grip(*bytes), keys)? {
            return Ok(());
        }
    }
    Err(Refusal::Agent(Code::NoSecKey))
}

/// HAVEKEY --list: the grips of all keys, 20 bytes each.
pub(crate) fn list_all<K: Keys>(alloc: Global, keys: &mut K) -> Result<Reply, Refusal>
    ensures { (rules : Rules) (options : OptionValues) (wraps : WrapKeys) (conn : Connection)
        (dice : Side) → IsOpen conn → CarriesOut NoTurn NoCall
        (ListGripsReplies rules options wraps) wraps
        (key_state NoTurn NoCall conn tt tt (K.keys keys.old) dice) result wraps None
        (key_state NoTurn NoCall conn tt tt (K.keys keys.new) dice) }
{
    let grips = list_grips(alloc, keys)?;
    let bytes = join_grips(alloc, &grips)?;
    Ok(Reply::Data(bytes))
}

/// The bytes of these grips, one behind the other.
fn join_grips(alloc: Global, grips: &[Grip]) -> Result<Bytes, Refusal>
    ensures { DoesAlone (JoinsGrips grips.now) result }
{
    match grips_bytes(alloc, grips) {
        Ok(bytes) => Ok(Bytes::from(bytes)),
        Err(_) => Err(Refusal::Agent(Code::NoMemory)),
    }
}

fn grips_bytes(alloc: Global, grips: &[Grip]) -> Result<Vec<u8>, AllocError>
    ensures { IfOk result (λ all. all.items ≡ grips_bytes grips.now) }
{
    let mut all = Vec::new(alloc);
    for grip in grips {
        all.extend_from_slice(&grip.0)?;
    }
    Ok(all)
}
