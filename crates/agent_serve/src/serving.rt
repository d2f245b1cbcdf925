//! One session of the daemon, from its link to its end. It makes the session's own pinentry and
//! desk (cache handle) of the host's parts, takes turns at the counted lock by its pass (worker's
//! token), and tells the gate (test hook) its begin and end. Begin with `serve_one`; what it does
//! is `ServesOne` (`specs/Serves`).

ghost use Rattle.std.specs.Prelude.{◌≡◌, ◌<◌, ◌≤◌, ◌-◌, ◌^◌, None, is_some, false};
ghost use Rattle.pinentry_client.specs.States.{at_pinentry};
ghost use Rattle.agent_serve.specs.Serves.{ServesOne, link_of};

use crate::GatedPrompter;
use agent_commands::SessionEnd;
use agent_origin::{Door, serve_door};
use agent_ports::{Gate, GatePoint, Host, Launcher, Parts, SessionId};
use counted_lock::{Counted, CountedDesk, CountedPass};
use pinentry_client::Pinentry;
use session_options::{Rules, copied};
use std::alloc::Global;
use std::sync::Wait;
use std::time;

/// Serves one session on a link that came in by this door, with parts of its own from the host, and
/// gives the pass back. It may wait for the turns of other sessions.
// Not inlined, so that its frames lie below its caller's, who overwrites them.
#[inline(never)]
pub fn serve_one<W: Wait + time::Clock, H: Host>(
    rt: &W,
    alloc: Global,
    rules: &Rules,
    host: &H,
    counted: &Counted,
    pass: CountedPass,
    session: SessionId,
    link: &mut H::Link,
    door: Door,
) -> (CountedPass, SessionEnd)
where
    H::Launcher: Drop,
    H::Clock: Drop,
    H::Dice: Drop,
    H::Keys: Drop,
    H::Trust: Drop,
    requires own { pass.table ≡ counted.now.table }
    requires by { session.pass ≡ pass.number }
    requires later { pass.sessions ≤ session.count }
    requires numbered { session.count < 2 ^ 64 - 1 }
    ensures { ServesOne (record {
      launches = H.Launcher.launches;
      readings = H.Clock.readings;
      draws = H.Dice.draws;
      keys = H.Keys.keys;
    }) H.Trust.trust (H.homedir host.now) rules.now door session
        (link_of (H.Link.input link.old) (H.Link.output link.old)) pass result.1
        (link_of (H.Link.input link.new) (H.Link.output link.new)) result.0 }
{
    let gate = host.gate();
    gate.at(GatePoint::Began, session);
    let parts = host.session_parts();
    let Parts {
        mut launcher,
        clock,
        mut dice,
        mut keys,
    } = parts;
    let mut trust = host.trust();
    let pinentry = Pinentry::new(alloc, &mut launcher, copied(&rules.pinentry));
    let mut prompter = GatedPrompter::new(pinentry, gate, session);
    let mut desk = CountedDesk::new(rt, counted, pass, session, clock);
    let end = serve_door(
        alloc,
        door,
        rules,
        link,
        &mut desk,
        &mut prompter,
        &mut keys,
        &mut dice,
        &mut trust,
    );
    // No child is left.
    prompter.into_prompter().into_launcher();
    gate.at(GatePoint::Ended, session);
    (desk.into_pass(), end)
}
