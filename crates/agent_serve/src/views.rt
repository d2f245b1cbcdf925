//! A host as its workers' contracts see it: the views of all its parts, in one record. It has no
//! code that runs. Begin with `ViewedHost`, which every host is; the record is `HostViews`
//! (`specs/Working`).

ghost use Rattle.std.specs.Prelude.{ℕ, List};
ghost use Rattle.agent_serve.specs.Working.{HostViews};

use agent_ports::{Clock, Dice, Ear, Host, Keys, Launcher, Link, Listener, TrustFile};

/// A host as its workers' contracts see it. Each host is one, and its views are those of its own.
pub trait ViewedHost: Host {
    /// How it is seen, settled at the folder of a path.
    ghost views: { List ℕ → HostViews Self.Listener Self.Ear Self.Link Self.Launcher Self.Clock
        Self.Dice Self.Keys Self.Trust };
}

impl<H: Host> ViewedHost for H {
    ghost views = { λ path. record {
      gives = H.Listener.gives;
      answers = H.Listener.answers;
      is_told = H.Listener.is_told;
      tells = H.Listener.tells;
      hears = H.Listener.hears;
      faults = H.Ear.faults;
      is_home = H.is_home;
      is_extra = H.is_extra;
      input = H.Link.input;
      output = H.Link.output;
      parts = record {
        launches = H.Launcher.launches;
        readings = H.Clock.readings;
        draws = H.Dice.draws;
        keys = H.Keys.keys;
      };
      trust = H.Trust.trust;
      folder = path;
    } };
}
