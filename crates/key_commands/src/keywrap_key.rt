//! The wrapping keys of a session, one for each direction (RFC 3394), and KEYWRAP_KEY, which draws
//! and tells them. It draws from the dice where the direction has no key yet, and then keeps that
//! for the session. Begin with `WrapKeys` and `wrapping_key`; what that does is `KeyWrapReplies`
//! (`specs/Exchanges`).

ghost use Rattle.std.specs.{Prelude.{◌≡◌, None, Some}, Option.option_copied};
ghost use Rattle.agent_ports.specs.KeyFiles.{KeyFiles as Files};
ghost use Rattle.assuan_server.specs.Connections.{Connection, IsOpen};
ghost use Rattle.agent_ask.specs.Session.{Actions.or_else, ActionStates.NoTurn};
ghost use Rattle.session_options.specs.{OptionValues.OptionValues, declared.rules.Rules.Rules};
ghost use Rattle.key_commands.specs.Exchanges.{KeyWrapReplies, wrap_key, with_wrap_key};
ghost use Rattle.key_commands.specs.{Actions.Draws, Partial.NoCall, Replies.CarriesOut};
ghost use Rattle.key_commands.specs.{States.key_state, Steps.DoesDrawings};

use crate::drawing::{Drawn, draw};
use crate::reply::Reply;
use crate::request::Direction;
use agent_ports::Dice;
use session_client::Refusal;

/// The wrapping keys of a session, where they were drawn (RFC 3394). They stay as they are until
/// its end, and are overwritten when they are dropped.
#[derive(Drop)]
pub struct WrapKeys {
    /// Under which keys come into the agent.
    pub import: Option<Drawn<16>>,
    /// Under which keys go out of it.
    pub export: Option<Drawn<16>>,
}

impl WrapKeys {
    /// Those of a session that begins.
    pub fn new() -> WrapKeys
        ensures { result ≡ record { import = None; export = None } }
    {
        WrapKeys {
            import: None,
            export: None,
        }
    }

    /// Overwrites the keys where they lie, and forgets them.
    pub fn clear(&mut self)
        ensures { self.new ≡ record { import = None; export = None } }
    {
        forget(&mut self.import);
        forget(&mut self.export);
    }

    /// The key for one direction, where it was drawn.
    pub(crate) fn key(&self, way: Direction) -> Option<&Drawn<16>>
        ensures { option_copied result ≡ wrap_key way self.now }
    {
        match way {
            Direction::Import => self.import.as_ref(),
            Direction::Export => self.export.as_ref(),
        }
    }

    /// Keeps the key for one direction.
    fn keep(&mut self, way: Direction, key: Drawn<16>)
        ensures { self.new ≡ with_wrap_key way key self.old }
    {
        match way {
            Direction::Import => self.import = Some(key),
            Direction::Export => self.export = Some(key),
        }
    }
}

fn forget(key: &mut Option<Drawn<16>>)
    ensures { key.new ≡ None }
{
    if let Some(drawn) = key {
        drawn.clear();
    }
    *key = None;
}

/// KEYWRAP_KEY: the session's wrapping key for one direction, which its first request draws.
pub(crate) fn wrapping_key<R: Dice>(
    way: Direction,
    wraps: &mut WrapKeys,
    dice: &mut R,
) -> Result<Reply, Refusal>
    ensures { (rules : Rules) (options : OptionValues) (conn : Connection) (keys : Files)
        → IsOpen conn → CarriesOut NoTurn NoCall (KeyWrapReplies rules options wraps.old way)
        wraps.old (key_state NoTurn NoCall conn tt tt keys (R.draws dice.old)) result wraps.new None
        (key_state NoTurn NoCall conn tt tt keys (R.draws dice.new)) }
{
    let key = drawn_key(way, wraps, dice)?;
    wraps.keep(way, key.copy());
    Ok(Reply::WrapKey(key))
}

/// The key for one direction, or a new one.
fn drawn_key<R: Dice>(way: Direction, wraps: &WrapKeys, dice: &mut R) -> Result<Drawn<16>, Refusal>
    ensures { DoesDrawings (or_else (wrap_key way wraps.now) (Draws 16)) (R.draws dice.old) result
        (R.draws dice.new) }
{
    match wraps.key(way) {
        Some(key) => Ok(key.copy()),
        None => draw(dice),
    }
}
