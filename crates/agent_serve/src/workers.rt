//! The workers of the daemon: each serves the links of its listener, one after the other, until no
//! more come. They share the counted lock and the listeners, and each has a pass (worker's token)
//! and an ear (fault counter) of its own. Begin with `run_workers`; what a worker does is `Works`
//! (`specs/Working`).

ghost use Rattle.std.specs.{Prelude.{◌≡◌, ◌<◌, ◌-◌, ◌^◌, vec_len}, Option.option_copied};
ghost use Rattle.{agent_ports.specs.Listening.NothingFailed, counted_lock.specs.Passes.AreOf};
ghost use Rattle.agent_serve.specs.Working.{ServesNext, StopsAfter, TellsToStop, Works, WorkEach};
ghost use Rattle.agent_serve.specs.Working.{post_at};

use crate::arrivals::{Arrival, next_at};
use crate::each::{Task, run_each};
use crate::serving::serve_one;
use crate::shared::SharedHost;
use crate::views::ViewedHost;
use agent_commands::SessionEnd;
use agent_origin::Door;
use agent_ports::{Ear, Host, Listener, Next, SessionId};
use counted_lock::{Counted, CountedPass};
use session_options::Rules;
use std::alloc::Global;
use std::sync::Wait;
use std::thread::Threads;
use std::time;
use wiping::wipe_stack;

/// What the workers of a listener share.
#[derive(Drop)]
struct Working<'a, W: Wait + time::Clock, H: Host> {
    rt: &'a W,
    alloc: Global,
    rules: &'a Rules,
    host: &'a H,
    listener: &'a H::Listener,
    /// By which its links come in.
    door: Door,
    /// The other one, which is stopped with it.
    other: Option<&'a H::Listener>,
    counted: &'a Counted,
}

impl<'a, W: Wait + time::Clock, H: Host> Working<'a, W, H>
where
    H::Launcher: Drop,
    H::Clock: Drop,
    H::Dice: Drop,
    H::Keys: Drop,
    H::Trust: Drop,
{
    /// Serves links with this pass until no more come, or the pass has no number for a further
    /// session.
    fn work(&self, pass: CountedPass, ear: H::Ear) -> (CountedPass, H::Ear)
        requires { pass.table ≡ self.now.counted.now.table }
        ensures { Works (⟦<H as ViewedHost>⟧.views (H.homedir self.now.host.now))
            self.now.rules.now (post_at self.now.door self.now.listener.now
            (option_copied self.now.other)) pass ear result.0 result.1 }
    {
        let mut pass = pass;
        let mut ear = ear;
        for _ in self.rt.forever() {
            if pass.sessions() == u64::MAX {
                return (pass, ear);
            }
            match next_at(self.listener, &mut ear) {
                Next::Link(arrival) => pass = self.serve(pass, arrival, &mut ear),
                Next::Failed | Next::Stopped => return (pass, ear),
            }
        }
        unreachable!()
    }

    /// Serves the session of one link. One that stopped the agent also stops the listeners, whether
    /// or not its client stayed for the answer.
    fn serve(
        &self,
        pass: CountedPass,
        arrival: Arrival<'_, H::Listener>,
        ear: &mut H::Ear,
    ) -> CountedPass
        requires own { pass.table ≡ self.now.counted.now.table }
        requires numbered { pass.sessions < 2 ^ 64 - 1 }
        requires came { H.Listener.gives self.now.listener.now arrival.link }
        requires origin { arrival.origin ≡ self.now.listener.now }
        requires fresh { NothingFailed (H.Link.input arrival.link) (H.Link.output arrival.link) }
        ensures serves { ServesNext (⟦<H as ViewedHost>⟧.views (H.homedir self.now.host.now))
            self.now.rules.now (post_at self.now.door self.now.listener.now
            (option_copied self.now.other)) pass arrival.entry.link ear.old result ear.new }
        ensures own { (whose : H.Listener)
            → H.Listener.hears whose ear.old → H.Listener.hears whose ear.new }
        ensures faults { H.Ear.faults ear.new ≡ H.Ear.faults ear.old }
    {
        let Arrival { mut link, origin } = arrival;
        let session = SessionId {
            pass: pass.number(),
            count: pass.sessions(),
        };
        let (pass, end) = serve_one(
            self.rt,
            self.alloc,
            self.rules,
            self.host,
            self.counted,
            pass,
            session,
            &mut link,
            self.door,
        );
        // A worker may wait for long: the session's own frames had passphrases in hand.
        wipe_stack();
        origin.take_back(link);
        self.stop_after(end, &pass, ear);
        pass
    }

    /// Stops the listeners behind a session that ended so, where it stopped the agent, or its pass
    /// has seen that one did.
    fn stop_after(&self, end: SessionEnd, pass: &CountedPass, ear: &mut H::Ear)
        ensures stops { StopsAfter (⟦<H as ViewedHost>⟧.views (H.homedir self.now.host.now))
            (post_at self.now.door self.now.listener.now
            (option_copied self.now.other)) end pass.now ear.old ear.new }
        ensures own { (whose : H.Listener)
            → H.Listener.hears whose ear.old → H.Listener.hears whose ear.new }
        ensures faults { H.Ear.faults ear.new ≡ H.Ear.faults ear.old }
    {
        if end == SessionEnd::Killed || pass.stopped() {
            self.stop(ear);
        }
    }

    /// From now on no link is taken at either listener.
    fn stop(&self, ear: &mut H::Ear)
        ensures told { TellsToStop (⟦<H as ViewedHost>⟧.views (H.homedir self.now.host.now))
            (post_at self.now.door self.now.listener.now
            (option_copied self.now.other)) ear.old ear.new }
        ensures own { (whose : H.Listener)
            → H.Listener.hears whose ear.old → H.Listener.hears whose ear.new }
        ensures faults { H.Ear.faults ear.new ≡ H.Ear.faults ear.old }
    {
        self.listener.stop_by(ear);
        if let Some(other) = self.other {
            other.stop_by(ear);
        }
    }
}

impl<'a, W: Wait + time::Clock, H: Host> Task<CountedPass, H::Ear> for Working<'a, W, H>
where
    H::Launcher: Drop,
    H::Clock: Drop,
    H::Dice: Drop,
    H::Keys: Drop,
    H::Trust: Drop,
{
    ghost takes = { λ working pass ear. pass.table ≡ working.counted.now.table };

    ghost did = { λ working pass ear back. Works
        (⟦<H as ViewedHost>⟧.views (H.homedir working.host.now)) working.rules.now
        (post_at working.door working.listener.now
        (option_copied working.other)) pass ear back.0 back.1 };

    fn run(&self, job: CountedPass, ear: H::Ear) -> (CountedPass, H::Ear) {
        self.work(job, ear)
    }
}

/// Serves links by one worker for each pass and ear, the first one in this thread and each other
/// one in a thread of its own; where no thread can be made they run one after another, the first
/// one first. Where there is an extra listener the last worker takes its links, by the outer door,
/// and all others take those of the first one. All passes and ears come back, in their order.
///
/// A worker takes links until its listener is stopped or fails, and hands each link back whose
/// session has ended. It stops both listeners where its session has stopped the agent, or has seen
/// that another one did.
pub fn run_workers<W: Threads + Wait + time::Clock + Sync, H: SharedHost>(
    rt: &W,
    alloc: Global,
    rules: &Rules,
    host: &H,
    listener: &H::Listener,
    extra: Option<&H::Listener>,
    counted: &Counted,
    passes: Vec<CountedPass>,
    ears: Vec<H::Ear>,
) -> (Vec<CountedPass>, Vec<H::Ear>)
    requires own { AreOf counted.now.table passes.items }
    requires ears { vec_len passes ≡ vec_len ears }
    ensures own { AreOf counted.now.table result.0.items }
    ensures all { (vec_len result.0 ≡ vec_len passes) × (vec_len result.1 ≡ vec_len ears) }
    // What each did with its pass and its ear: each link that its listener gave it was served, and
    // it ended for a cause.
    ensures each { WorkEach (⟦<H as ViewedHost>⟧.views (H.homedir host.now)) rules.now listener.now
        (option_copied extra.entry) passes.items ears.items result.0.items result.1.items }
{
    let home = Working {
        rt,
        alloc,
        rules,
        host,
        listener,
        door: Door::Home,
        other: extra,
        counted,
    };
    let Some(extra) = extra else {
        return run_each(rt, &home, &home, passes, ears);
    };
    let outer = Working {
        rt,
        alloc,
        rules,
        host,
        listener: extra,
        door: Door::Outer,
        other: Some(listener),
        counted,
    };
    run_each(rt, &home, &outer, passes, ears)
}
