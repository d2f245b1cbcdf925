//! Links as they come in at a listener: each with its origin, by which alone it goes back there.
//! Begin with `next_at`.

ghost use Rattle.std.specs.Prelude.{◌≡◌, ◌≤◌};
ghost use Rattle.agent_ports.specs.{Counts.Rose, Listening.{IfLink, NothingFailed}};
ghost use Rattle.agent_serve.specs.Arrivals.{map_next};

use agent_ports::{Listener, Next};
use std::marker::Model;

/// Where a link came in. It can't be dropped, so whoever serves the link hands it back there, and
/// to no other listener. Contracts see that listener.
pub(crate) struct Origin<'a, L: Listener> {
    listener: &'a L,
}

impl<'a, L: Listener> Model for Origin<'a, L> {
    ghost Value = { L };

    ghost view = { λ origin. origin.listener.now };
}

impl<'a, L: Listener> Origin<'a, L> {
    /// Hands back a link whose session has ended.
    pub(crate) fn take_back(self, link: L::Link) {
        let Origin { listener } = self;
        listener.done(link);
    }
}

/// A link that came in.
pub(crate) struct Arrival<'a, L: Listener> {
    pub(crate) link: L::Link,
    pub(crate) origin: Origin<'a, L>,
}

/// Waits for the listener's next link, as `Listener::next` does.
pub(crate) fn next_at<'a, L: Listener>(listener: &'a L, ear: &mut L::Ear) -> Next<Arrival<'a, L>>
    ensures answers { L.answers listener.now ear.old (map_next (λ arrival. arrival.link) result)
        ear.new }
    ensures own { L.hears listener.now ear.old → L.hears listener.now ear.new }
    ensures stopped { result ≡ Next.Stopped → L.is_told listener.now }
    ensures gives { IfLink result (λ arrival. L.gives listener.now arrival.link) }
    ensures link { IfLink result
        (λ arrival. NothingFailed (L.Link.input arrival.link) (L.Link.output arrival.link)) }
    ensures origin { IfLink result (λ arrival. arrival.origin ≡ listener.now) }
    ensures failed { result ≡ Next.Failed → Rose (L.Ear.faults ear.old) (L.Ear.faults ear.new) }
    ensures faults { L.Ear.faults ear.old ≤ L.Ear.faults ear.new }
{
    match listener.next(ear) {
        Next::Link(link) => Next::Link(Arrival {
            link,
            origin: Origin { listener },
        }),
        Next::Failed => Next::Failed,
        Next::Stopped => Next::Stopped,
    }
}
