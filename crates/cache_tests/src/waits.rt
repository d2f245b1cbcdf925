//! How threads wait at the counted lock: for the turns before their own, and for the seat (lock:
//! the right to prompt). Two threads and the system's clock, with flags by which each knows of the
//! other. Begin with `Watch` and `run_flushes`.

ghost use Rattle.std.specs.Prelude.{◌≡◌, None};

use crate::counted::{Asked, Kind, LIMITS, kind_of, plain, run_stood, step, taken};
use agent_ports::{Clock, SessionId, StepClock};
use cache_policy::{Desk, Life, Reply, Step};
use counted_lock::{Counted, CountedDesk, CountedPass};
use std::alloc::{AllocError, Global};
use std::sync::Wait;
use std::sync::atomic::{AtomicBool, AtomicU64, Ordering};
use std::test::Fail;
use std::thread::Threads;
use std::time::{Duration, Instant};
use std::{thread, time};

/// How long one session waits for another at most, in milliseconds.
const PATIENCE: u32 = 20_000;

/// What two sessions know of each other.
#[derive(Drop)]
struct Watch {
    /// The first has its turn, or the seat.
    begun: AtomicBool,
    /// The second is about to want a turn.
    comes: AtomicBool,
    /// It read its clock while the first had its turn.
    early: AtomicBool,
    /// How often the second read its clock.
    tries: AtomicU64,
    /// It did so at least once, so it stands once others can have a turn.
    stands: AtomicBool,
    /// The second was answered.
    answered: AtomicBool,
}

impl Watch {
    fn new() -> Watch {
        Watch {
            begun: AtomicBool::new(false),
            comes: AtomicBool::new(false),
            early: AtomicBool::new(false),
            tries: AtomicU64::new(0),
            stands: AtomicBool::new(false),
            answered: AtomicBool::new(false),
        }
    }

    /// The first has its turn until the second comes, and then for as long as that needs to read
    /// its clock too early.
    fn hold<W: time::Clock>(&self, rt: &W) {
        self.begun.store(true, Ordering::SeqCst);
        wait_for(rt, &self.comes, PATIENCE);
        wait_for(rt, &self.early, 200);
        self.begun.store(false, Ordering::SeqCst);
    }

    fn look(&self) {
        if self.begun.load(Ordering::SeqCst) {
            self.early.store(true, Ordering::SeqCst);
        }
        self.tries.fetch_add(1, Ordering::SeqCst);
        self.stands.store(true, Ordering::SeqCst);
    }
}

/// Looks at a flag every millisecond until it is set, so often at most.
fn wait_for<W: time::Clock>(rt: &W, flag: &AtomicBool, times: u32) {
    for _ in 0..times {
        if flag.load(Ordering::SeqCst) {
            return;
        }
        thread::sleep(rt, Duration::from_millis(1));
    }
}

/// The clock of one of the two sessions, whose readings are a step apart.
#[derive(Drop)]
struct WatchedClock<'a, W: time::Clock> {
    rt: &'a W,
    watch: &'a Watch,
    is_first: bool,
    step: u64,
    next: u64,
    count: u64,
    last: u64,
}

impl<'a, W: time::Clock> WatchedClock<'a, W> {
    fn new(rt: &'a W, watch: &'a Watch, is_first: bool, step: u64) -> Self {
        WatchedClock {
            rt,
            watch,
            is_first,
            step,
            next: 0,
            count: 0,
            last: 0,
        }
    }
}

impl<'a, W: time::Clock> Clock for WatchedClock<'a, W> {
    ghost readings = { λ clock.
        record { later = λ _. None; count = clock.count; last = clock.last } };

    fn now(&mut self) -> u64 {
        if self.is_first {
            self.watch.hold(self.rt);
        } else {
            self.watch.look();
        }
        self.last = self.next;
        self.next = self.next.saturating_add(self.step);
        self.count = self.count.saturating_add(1);
        self.last
    }
}

/// One of the two sessions forgets everything. The second does once the first has its turn.
fn flush<W: Wait + time::Clock>(
    rt: &W,
    counted: &Counted,
    pass: CountedPass,
    watch: &Watch,
    is_first: bool,
) -> Kind
    requires own { pass.table ≡ counted.now.table }
    requires first { pass.sessions ≡ 0 }
{
    let session = SessionId {
        pass: pass.number(),
        count: 0,
    };
    if !is_first {
        wait_for(rt, &watch.begun, PATIENCE);
        watch.comes.store(true, Ordering::SeqCst);
    }
    let clock = WatchedClock::new(rt, watch, is_first, 0);
    let mut desk = CountedDesk::new(rt, counted, pass, session, clock);
    taken(&mut desk, Asked::Flush)
}

/// Whether the second session read its clock while the first had its turn, and how often it did in
/// all.
fn run_flushes<W: Threads + Wait + time::Clock + Sync>(
    rt: &W,
    alloc: Global,
) -> Result<Option<(bool, u64)>, AllocError> {
    let (counted, mut all) = Counted::new(alloc, LIMITS, 2)?;
    let (Some(second), Some(first)) = (all.pop(), all.pop()) else {
        return Ok(None);
    };
    let watch = Watch::new();
    thread::join(
        rt,
        || -> Kind
            requires { (first.table ≡ counted.table) × (first.sessions ≡ 0) }
        { flush(rt, &counted, first, &watch, true) },
        || -> Kind
            requires { (second.table ≡ counted.table) × (second.sessions ≡ 0) }
        { flush(rt, &counted, second, &watch, false) },
    );
    Ok(Some((
        watch.early.load(Ordering::SeqCst),
        watch.tries.load(Ordering::SeqCst),
    )))
}

#[test]
fn a_turn_reads_its_clock_behind_the_turns_before_it(rt: HostRuntime) -> Result<(), Fail> {
    assert_eq!(rt; run_flushes(&rt, rt.alloc())?, Some((false, 1)));
    Ok(())
}

#[test]
fn a_step_is_late_a_minute_after_it_first_stood(rt: HostRuntime) -> Result<(), Fail> {
    // How far the readings are apart, and how many tries there are: at 0 and 60; at 0, 59 and 118.
    let rows = [(60, 2), (59, 3)];
    for (step, tries) in rows {
        let watch = Watch::new();
        let clock = WatchedClock::new(&rt, &watch, false, step);
        let came = run_stood(&rt, rt.alloc(), clock)?;
        assert_eq!(rt; came.map(|came| came.0), Some(Kind::Late));
        assert_eq!(rt; watch.tries.load(Ordering::SeqCst), tries);
    }
    Ok(())
}

/// Waits until the second session stands, and has a third one take a step, if there is one, which
/// ends that. It gives when this was begun.
fn end_stand<W: Wait + time::Clock>(
    rt: &W,
    counted: &Counted,
    third: CountedPass,
    watch: &Watch,
    asked: Option<Asked>,
) -> Option<Instant>
    requires own { third.table ≡ counted.now.table }
    requires first { third.sessions ≡ 0 }
{
    watch.begun.store(true, Ordering::SeqCst);
    wait_for(rt, &watch.stands, PATIENCE);
    let since = Instant::now(rt).ok();
    if let Some(asked) = asked {
        let _ = plain(rt, counted, third, 0, asked);
        wait_for(rt, &watch.answered, PATIENCE);
    }
    since
}

/// Holds the seat while the second session stands, and gives when that was to end.
fn hold_seat<W: Wait + time::Clock>(
    rt: &W,
    counted: &Counted,
    first: CountedPass,
    third: CountedPass,
    watch: &Watch,
    asked: Option<Asked>,
) -> Option<Instant>
    requires own { (first.table ≡ counted.now.table) × (third.table ≡ counted.now.table) }
    requires first { (first.sessions ≡ 0) × (third.sessions ≡ 0) }
{
    let session = SessionId {
        pass: first.number(),
        count: 0,
    };
    let mut holder = CountedDesk::new(rt, counted, first, session, StepClock::new(0, 0));
    match holder.turn(step(Asked::Prompt)) {
        Ok(Reply::Open(ticket)) => {
            let since = end_stand(rt, counted, third, watch, asked);
            let _ = kind_of(holder.turn(Step::Close { ticket, keep: None }));
            since
        }
        answer => {
            let _ = kind_of(answer);
            None
        }
    }
}

/// Wants a prompt while the first session has the seat, and gives what it was answered, and when.
fn want_seat<W: Wait + time::Clock>(
    rt: &W,
    counted: &Counted,
    pass: CountedPass,
    watch: &Watch,
) -> (Kind, Option<Instant>)
    requires own { pass.table ≡ counted.now.table }
    requires first { pass.sessions ≡ 0 }
{
    let session = SessionId {
        pass: pass.number(),
        count: 0,
    };
    wait_for(rt, &watch.begun, PATIENCE);
    let clock = WatchedClock::new(rt, watch, false, 0);
    let mut waiter = CountedDesk::new(rt, counted, pass, session, clock);
    let kind = taken(&mut waiter, Asked::Prompt);
    let answered = Instant::now(rt).ok();
    watch.answered.store(true, Ordering::SeqCst);
    (kind, answered)
}

/// What a session is answered that stands, and how long after the step that ends that.
fn run_woken<W: Threads + Wait + time::Clock + Sync>(
    rt: &W,
    alloc: Global,
    asked: Option<Asked>,
) -> Result<Option<(Kind, Duration)>, AllocError> {
    let (counted, mut all) = Counted::new(alloc, LIMITS, 3)?;
    let (Some(third), Some(second), Some(first)) = (all.pop(), all.pop(), all.pop()) else {
        return Ok(None);
    };
    let watch = Watch::new();
    let (since, (kind, answered)) = thread::join(
        rt,
        || -> Option<Instant>
            requires { (first.table ≡ counted.table) × (first.sessions ≡ 0)
                × (third.table ≡ counted.table) × (third.sessions ≡ 0) }
        { hold_seat(rt, &counted, first, third, &watch, asked) },
        || -> (Kind, Option<Instant>)
            requires { (second.table ≡ counted.table) × (second.sessions ≡ 0) }
        { want_seat(rt, &counted, second, &watch) },
    );
    let (Some(since), Some(answered)) = (since, answered) else {
        return Ok(None);
    };
    Ok(Some((kind, answered.duration_since(since))))
}

#[test]
fn who_stands_is_woken_by_what_ends_that(rt: HostRuntime) -> Result<(), Fail> {
    // Unwoken it would look again after a second. Of three runs the quickest counts.
    let rows = [
        (None, Kind::Open),
        (Some(Asked::Stop), Kind::Other),
        (Some(Asked::Put(Life::Endless)), Kind::Given),
    ];
    for (asked, kind) in rows {
        let mut least = Duration::from_secs(60);
        for _ in 0..3u32 {
            let Some((answered, after)) = run_woken(&rt, rt.alloc(), asked)? else {
                continue;
            };
            assert_eq!(rt; answered, kind);
            least = least.min(after);
        }
        assert!(rt; least < Duration::from_millis(500));
    }
    Ok(())
}
