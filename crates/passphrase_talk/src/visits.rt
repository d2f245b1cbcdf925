//! One contact with an agent, whole: connected, one dialogue, and left again. It calls the
//! connector, and its link by a `Peer`. Begin with `visit`; what it does is `Visits`
//! (`specs/Visits`).

ghost use Rattle.std.specs.Prelude.{◌≡◌};
ghost use Rattle.passphrase_talk.specs.Visits.{Visits};

use crate::dialogue::lead;
use crate::{Connector, Loss, Place, Told, Unmet, Waits};
use assuan_client::Peer;
use assuan_line::Line;
use std::alloc::Global;

/// How many bytes are taken from an agent in one contact at most: 1 MiB.
pub const BUDGET: u64 = 1 << 20;

/// Connects to the agent at this place, leads one dialogue for the line, and leaves it. Where a
/// user may have to type, the agent is told the terminal, and the connector what the agent says of
/// a pinentry; elsewhere neither.
pub fn visit<C: Connector>(
    alloc: Global,
    connector: &mut C,
    place: Place,
    waits: Waits,
    line: &Line,
) -> Told
    ensures visits { Visits place waits line.now (C.terminal connector.old) result
        (C.contacts connector.old) (C.contacts connector.new) }
    ensures unprompted { waits ≡ Waits.Answer
        → (C.contacts connector.new).launches ≡ (C.contacts connector.old).launches }
    ensures terminal { C.terminal connector.new ≡ C.terminal connector.old }
{
    let link = match connector.connect(place, waits) {
        Ok(link) => link,
        Err(Unmet::NoMemory) => return Told::NoMemory,
        Err(Unmet::Fault) => return Told::Lost(Loss::Unmet),
    };
    let mut peer = Peer::new(alloc, link, BUDGET);
    let told = lead(connector, &mut peer, waits, line);
    connector.leave(place, peer.into_link());
    told
}
