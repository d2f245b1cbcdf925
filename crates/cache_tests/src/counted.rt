//! Tests of the counted lock: turns of several passes (worker's tokens) are those of one run, also
//! where two threads take them at once. Begin with `Asked` and `played`; `waits.rt` has the tests
//! of waiting.

ghost use Rattle.std.specs.Prelude.{◌≡◌, ◌+◌, ◌<◌, None, length};
ghost use Rattle.cache_policy.specs.Turns.{asked_step, closes, wait_of};
ghost use Rattle.counted_lock.specs.Passes.{IsSamePass};

use agent_ports::{SessionId, StepClock};
use cache_policy::{CacheId, Desk, Life, Limits, Mode, Refused, Reply, Secret, Step, Tally, Way};
use counted_lock::{Counted, CountedDesk, CountedPass};
use prompt_seat::{Seat, Ticket};
use std::alloc::{AllocError, Global};
use std::sync::Wait;
use std::test::Fail;
use std::thread;
use std::thread::Threads;
use std::time::Clock;

/// The manual's lifetimes.
pub(crate) const LIMITS: Limits = Limits {
    ttl: 600,
    max: 7200,
    ttl_ssh: 1800,
    max_ssh: 7200,
};

const NOTHING: Tally = Tally {
    marks: 0,
    given: 0,
    empty: 0,
    opened: 0,
    stored: 0,
    cleared: 0,
    flushed: 0,
    stopped: false,
};

/// What is asked of a desk, all of one id.
#[derive(Clone, Copy)]
pub(crate) enum Asked {
    Put(Life),
    Quiet,
    /// A prompt, in which the passphrase is typed that a Put stores.
    Prompt,
    Clear,
    Flush,
    Stop,
}

/// What a turn was answered, without what it hands over.
#[derive(Clone, Copy, Debug, PartialEq, Eq)]
pub(crate) enum Kind {
    Given,
    Empty,
    Open,
    Late,
    Other,
    Refused,
}

fn id() -> CacheId {
    CacheId::of(b"id1").unwrap()
}

pub(crate) fn step(asked: Asked) -> Step
    ensures { (closes (asked_step result) ≡ None) × (wait_of result ≡ None) }
{
    match asked {
        Asked::Put(life) => Step::Put {
            id: id(),
            mode: Mode::Any,
            life,
            secret: Secret::of(b"secret").unwrap(),
        },
        Asked::Quiet => Step::Ask {
            id: id(),
            mode: Mode::User,
            way: Way::Quiet,
            wait: None,
        },
        Asked::Prompt => Step::Ask {
            id: id(),
            mode: Mode::User,
            way: Way::Prompt,
            wait: None,
        },
        Asked::Clear => Step::Clear {
            id: id(),
            mode: Mode::User,
        },
        Asked::Flush => Step::Flush,
        Asked::Stop => Step::Stop,
    }
}

/// What came of a turn, with the ticket that it gave.
fn outcome(answer: Result<Reply, Refused>) -> (Kind, Option<Ticket>) {
    match answer {
        Ok(Reply::Given(grant)) => (given_kind(grant.secret().bytes()), None),
        Ok(Reply::Empty) => (Kind::Empty, None),
        Ok(Reply::Open(ticket)) => (Kind::Open, Some(ticket)),
        Ok(Reply::Late) => (Kind::Late, None),
        Ok(Reply::Stand(_) | Reply::Done | Reply::Held(_) | Reply::Stopping) => (Kind::Other, None),
        Err(Refused { step }) => (Kind::Refused, step.into_ticket()),
    }
}

/// Given is only an answer with the bytes that were stored.
fn given_kind(bytes: &[u8]) -> Kind {
    if bytes == b"secret".as_slice() {
        Kind::Given
    } else {
        Kind::Other
    }
}

/// Says what came of a turn. Its ticket goes, which no desk takes any more.
pub(crate) fn kind_of(answer: Result<Reply, Refused>) -> Kind {
    let (kind, ticket) = outcome(answer);
    if let Some(ticket) = ticket {
        let _ = Seat::new().give(ticket);
    }
    kind
}

/// Takes a turn, and ends the prompt that it opens.
pub(crate) fn taken<W: Wait + Clock, C: agent_ports::Clock>(
    desk: &mut CountedDesk<W, C>,
    asked: Asked,
) -> Kind
    requires free { desk.old.out ≡ None }
    ensures free { desk.new.out ≡ None }
    ensures same { IsSamePass desk.old.pass desk.new.pass }
{
    match desk.turn(step(asked)) {
        Ok(Reply::Open(ticket)) => {
            let keep = Secret::of(b"secret");
            let _ = kind_of(desk.turn(Step::Close { ticket, keep }));
            Kind::Open
        }
        other => kind_of(other),
    }
}

/// A turn: by which pass and at which moment, what is asked, and what is answered.
type Row = (usize, u64, Asked, Kind);

/// Takes a turn at a desk of its own.
pub(crate) fn plain<W: Wait + Clock>(
    rt: &W,
    counted: &Counted,
    pass: CountedPass,
    moment: u64,
    asked: Asked,
) -> (Kind, CountedPass)
    requires own { pass.table ≡ counted.now.table }
    requires few { pass.sessions < 1000 }
    ensures own { result.1.table ≡ pass.table }
    ensures next { result.1.sessions ≡ pass.sessions + 1 }
{
    let session = SessionId {
        pass: pass.number(),
        count: pass.sessions(),
    };
    let mut desk = CountedDesk::new(rt, counted, pass, session, StepClock::new(moment, 1));
    let kind = taken(&mut desk, asked);
    (kind, desk.into_pass())
}

/// What came of rows: the first that was answered otherwise, and what was done.
fn played<W: Wait + Clock>(
    rt: &W,
    alloc: Global,
    limits: Limits,
    rows: &[Row],
) -> Result<Option<(Option<usize>, Tally)>, AllocError>
    requires { length rows.now < 1000 }
{
    let (counted, mut all) = Counted::new(alloc, limits, 3)?;
    let (Some(mut third), Some(mut second), Some(mut first)) = (all.pop(), all.pop(), all.pop())
    else {
        return Ok(None);
    };
    let mut wrong = None;
    for place in 0..rows.len() {
        let (whose, moment, asked, kind) = rows[place];
        let answered;
        match whose {
            0 => (answered, first) = plain(rt, &counted, first, moment, asked),
            1 => (answered, second) = plain(rt, &counted, second, moment, asked),
            _ => (answered, third) = plain(rt, &counted, third, moment, asked),
        }
        if answered != kind && wrong.is_none() {
            wrong = Some(place);
        }
    }
    all.push_reserved(first);
    all.push_reserved(second);
    all.push_reserved(third);
    Ok(Some((wrong, counted.close(all))))
}

#[test]
fn turns_on_three_passes_are_answered_as_at_the_plain_lock(rt: HostRuntime) -> Result<(), Fail> {
    let forgotten = [
        (0, 0, Asked::Put(Life::Endless), Kind::Other),
        (1, 0, Asked::Quiet, Kind::Given),
        (2, 0, Asked::Flush, Kind::Other),
        (1, 1, Asked::Quiet, Kind::Empty),
    ];
    let lifetimes = [
        (0, 0, Asked::Put(Life::Default), Kind::Other),
        (1, 5, Asked::Quiet, Kind::Given),
        (2, 10, Asked::Quiet, Kind::Empty),
    ];
    let prompted = [
        (0, 0, Asked::Prompt, Kind::Open),
        (1, 1, Asked::Prompt, Kind::Given),
        (2, 2, Asked::Clear, Kind::Other),
        (0, 3, Asked::Stop, Kind::Other),
        (1, 4, Asked::Prompt, Kind::Other),
    ];
    let short = Limits {
        ttl: 5,
        max: 9,
        ..LIMITS
    };
    let done = Tally {
        marks: 4,
        given: 1,
        empty: 1,
        stored: 1,
        flushed: 1,
        ..NOTHING
    };
    let timed = Tally {
        marks: 3,
        given: 1,
        empty: 1,
        stored: 1,
        ..NOTHING
    };
    let stopped = Tally {
        marks: 6,
        given: 1,
        opened: 1,
        stored: 1,
        cleared: 1,
        stopped: true,
        ..NOTHING
    };
    assert_eq!(rt;
        played(&rt, rt.alloc(), LIMITS, &forgotten)?,
        Some((None, done))
    );
    assert_eq!(rt;
        played(&rt, rt.alloc(), short, &lifetimes)?,
        Some((None, timed))
    );
    assert_eq!(rt;
        played(&rt, rt.alloc(), LIMITS, &prompted)?,
        Some((None, stopped))
    );
    Ok(())
}

/// What a pass had seen and made, and the tally.
#[derive(Clone, Copy, Debug, PartialEq, Eq)]
struct Seen {
    front: u64,
    calls: u64,
    stopped: bool,
    tally: Tally,
}

/// How many rounds each of two threads takes, and in how many of them it wants a prompt.
const ROUNDS: u32 = 200;

/// Stores the passphrase and asks for it, and now and then wants a prompt whatever the cache has.
fn rounds<W: Wait + Clock>(rt: &W, counted: &Counted, pass: CountedPass) -> CountedPass
    requires own { pass.table ≡ counted.now.table }
    requires first { pass.sessions ≡ 0 }
    ensures own { result.table ≡ pass.table }
{
    let session = SessionId {
        pass: pass.number(),
        count: 0,
    };
    let mut desk = CountedDesk::new(rt, counted, pass, session, StepClock::new(0, 0));
    for round in 0..ROUNDS {
        taken(&mut desk, Asked::Put(Life::Endless));
        taken(&mut desk, Asked::Quiet);
        if round % 20 == 0 {
            prompt(&mut desk);
        }
    }
    desk.into_pass()
}

/// Waits for the seat, and gives it back.
fn prompt<W: Wait + Clock>(desk: &mut CountedDesk<W, StepClock>)
    requires free { desk.old.out ≡ None }
    ensures free { desk.new.out ≡ None }
    ensures same { IsSamePass desk.old.pass desk.new.pass }
{
    match desk.turn(Step::Seat {
        under: None,
        wait: None,
    }) {
        Ok(Reply::Open(ticket)) => {
            let _ = kind_of(desk.turn(Step::Close { ticket, keep: None }));
        }
        other => {
            let _ = kind_of(other);
        }
    }
}

/// Two threads, each with a pass of its own, and a look at the end.
fn run_pair<W: Threads + Wait + Clock + Sync>(
    rt: &W,
    alloc: Global,
) -> Result<Option<Seen>, AllocError> {
    let (counted, mut all) = Counted::new(alloc, LIMITS, 2)?;
    let (Some(second), Some(first)) = (all.pop(), all.pop()) else {
        return Ok(None);
    };
    let (mut first, second) = thread::join(
        rt,
        || -> CountedPass
            requires { (first.table ≡ counted.table) × (first.sessions ≡ 0) }
            ensures { result.table ≡ counted.table }
        { rounds(rt, &counted, first) },
        || -> CountedPass
            requires { (second.table ≡ counted.table) × (second.sessions ≡ 0) }
            ensures { result.table ≡ counted.table }
        { rounds(rt, &counted, second) },
    );
    counted.look(rt, &mut first);
    let (front, stopped) = (first.front(), first.stopped());
    let calls = first.calls().saturating_add(second.calls());
    all.push_reserved(first);
    all.push_reserved(second);
    let tally = counted.close(all);
    Ok(Some(Seen {
        front,
        calls,
        stopped,
        tally,
    }))
}

#[test]
fn the_marks_of_two_threads_are_all_in_one_run(rt: HostRuntime) -> Result<(), Fail> {
    // 200 Puts, 200 Asks and 10 prompts, each with its Close, of each thread.
    let seen = Seen {
        front: 840,
        calls: 840,
        stopped: false,
        tally: Tally {
            marks: 840,
            given: 400,
            stored: 400,
            opened: 20,
            ..NOTHING
        },
    };
    assert_eq!(rt; run_pair(&rt, rt.alloc())?, Some(seen));
    Ok(())
}

/// One session holds the seat while another wants it, which has this clock.
fn stood<W: Wait + Clock, C: agent_ports::Clock + Drop>(
    rt: &W,
    counted: &Counted,
    first: CountedPass,
    second: CountedPass,
    clock: C,
) -> (Kind, CountedPass, CountedPass)
    requires own { (first.table ≡ counted.now.table) × (second.table ≡ counted.now.table) }
    requires first { (first.sessions ≡ 0) × (second.sessions ≡ 0) }
    ensures own { (result.1.table ≡ counted.now.table) × (result.2.table ≡ counted.now.table) }
{
    let session = SessionId {
        pass: first.number(),
        count: 0,
    };
    let other = SessionId {
        pass: second.number(),
        count: 0,
    };
    let mut holder = CountedDesk::new(rt, counted, first, session, StepClock::new(0, 0));
    let mut waiter = CountedDesk::new(rt, counted, second, other, clock);
    let kind = match holder.turn(step(Asked::Prompt)) {
        Ok(Reply::Open(ticket)) => {
            let kind = taken(&mut waiter, Asked::Prompt);
            let _ = kind_of(holder.turn(Step::Close { ticket, keep: None }));
            kind
        }
        answer => kind_of(answer),
    };
    (kind, holder.into_pass(), waiter.into_pass())
}

pub(crate) fn run_stood<W: Wait + Clock, C: agent_ports::Clock + Drop>(
    rt: &W,
    alloc: Global,
    clock: C,
) -> Result<Option<(Kind, Tally)>, AllocError> {
    let (counted, mut all) = Counted::new(alloc, LIMITS, 2)?;
    let (Some(second), Some(first)) = (all.pop(), all.pop()) else {
        return Ok(None);
    };
    let (kind, first, second) = stood(rt, &counted, first, second, clock);
    all.push_reserved(first);
    all.push_reserved(second);
    Ok(Some((kind, counted.close(all))))
}

#[test]
fn a_prompt_that_has_stood_for_a_minute_is_late(rt: HostRuntime) -> Result<(), Fail> {
    // The Open, the Late and the Close. A waiter that counts from its last try is never late.
    let tally = Tally {
        marks: 3,
        opened: 1,
        ..NOTHING
    };
    let clock = StepClock::new(0, 30);
    assert_eq!(rt;
        run_stood(&rt, rt.alloc(), clock)?,
        Some((Kind::Late, tally))
    );
    Ok(())
}
