//! Tests of the core under one lock (`agent_lock`) and of its journal: what turns are answered, and
//! that the tally has the mark (log entry) of each, whichever thread took it. Begin with `Asked`
//! and `played`.

ghost use Rattle.std.specs.Prelude.{◌≡◌, true, false, None};
ghost use Rattle.cache_policy.specs.Turns.{asked_step, opens, closes, wait_of};

use agent_lock::{Blanks, Closing, Marks, Pass, Shared, SharedDesk};
use agent_ports::{SessionId, StepClock};
use cache_policy::{CacheId, Desk, Life, Limits, Mode, Refused, Reply, Secret, Step, Tally, Way};
use prompt_seat::{Seat, Ticket};
use std::alloc::{AllocError, Global};
use std::marker::Brand;
use std::sync::Wait;
use std::sync::ledger::{Blank, Ledger};
use std::test::Fail;
use std::thread;
use std::thread::Threads;
use std::time::Clock;

/// The manual's lifetimes.
const LIMITS: Limits = Limits {
    ttl: 600,
    max: 7200,
    ttl_ssh: 1800,
    max_ssh: 7200,
};

const NOTHING: Tally = Tally {
    marks: 0,
    given: 0,
    empty: 0,
    opened: 0,
    stored: 0,
    cleared: 0,
    flushed: 0,
    stopped: false,
};

/// What is asked of a desk, all of one id. It wants no prompt, and gives no ticket back.
#[derive(Clone, Copy)]
enum Asked {
    Put(Life),
    Quiet,
    Peek,
    Clear,
    Flush,
    Stop,
}

/// What a turn was answered, without what it hands over.
#[derive(Clone, Copy, Debug, PartialEq, Eq)]
enum Kind {
    Given,
    Empty,
    Open,
    Late,
    Other,
    Refused,
}

fn id() -> CacheId {
    CacheId::of(b"id1").unwrap()
}

fn step(asked: Asked) -> Step
    ensures { (opens (asked_step result) ≡ false) × (closes (asked_step result) ≡ None)
        × (wait_of result ≡ None) }
{
    match asked {
        Asked::Put(life) => Step::Put {
            id: id(),
            mode: Mode::Any,
            life,
            secret: Secret::of(b"secret").unwrap(),
        },
        Asked::Quiet => Step::Ask {
            id: id(),
            mode: Mode::User,
            way: Way::Quiet,
            wait: None,
        },
        Asked::Peek => Step::Peek {
            id: id(),
            mode: Mode::User,
        },
        Asked::Clear => Step::Clear {
            id: id(),
            mode: Mode::User,
        },
        Asked::Flush => Step::Flush,
        Asked::Stop => Step::Stop,
    }
}

/// What came of a turn, with the ticket that it gave.
fn outcome(answer: Result<Reply, Refused>) -> (Kind, Option<Ticket>) {
    match answer {
        Ok(Reply::Given(grant)) => (given_kind(grant.secret().bytes()), None),
        Ok(Reply::Empty) => (Kind::Empty, None),
        Ok(Reply::Open(ticket)) => (Kind::Open, Some(ticket)),
        Ok(Reply::Late) => (Kind::Late, None),
        Ok(Reply::Stand(_) | Reply::Done | Reply::Held(_) | Reply::Stopping) => (Kind::Other, None),
        Err(Refused { step }) => (Kind::Refused, step.into_ticket()),
    }
}

/// Given is only an answer with the bytes that were stored.
fn given_kind(bytes: &[u8]) -> Kind {
    if bytes == b"secret".as_slice() {
        Kind::Given
    } else {
        Kind::Other
    }
}

/// Says what came of a turn. Its ticket goes, which no desk takes any more.
fn kind_of(answer: Result<Reply, Refused>) -> Kind {
    let (kind, ticket) = outcome(answer);
    if let Some(ticket) = ticket {
        let _ = Seat::new().give(ticket);
    }
    kind
}

/// Takes a turn.
fn taken<D: Desk>(desk: &mut D, asked: Asked) -> Kind
    ensures { (D.at desk.old).out ≡ None → (D.at desk.new).out ≡ None }
{
    kind_of(desk.turn(step(asked)))
}

/// Wants a prompt.
fn open() -> Step
    ensures { (opens (asked_step result) ≡ true) × (closes (asked_step result) ≡ None)
        × (wait_of result ≡ None) }
{
    Step::Ask {
        id: id(),
        mode: Mode::User,
        way: Way::Prompt,
        wait: None,
    }
}

/// Wants a prompt, and gives its ticket back with what was typed.
fn prompt<D: Desk>(desk: &mut D) -> Kind
    requires { (D.at desk.old).out ≡ None }
    ensures { (D.at desk.new).out ≡ None }
{
    match desk.turn(open()) {
        Ok(Reply::Open(ticket)) => {
            let keep = Secret::of(b"secret");
            let _ = kind_of(desk.turn(Step::Close { ticket, keep }));
            Kind::Open
        }
        other => kind_of(other),
    }
}

fn blanks(passes: u64) -> Blanks
    ensures { (result.calls.parts ≡ passes) × (result.given.parts ≡ passes)
        × (result.empty.parts ≡ passes) × (result.opened.parts ≡ passes) }
{
    Blanks {
        calls: Blank::new(passes),
        given: Blank::new(passes),
        empty: Blank::new(passes),
        opened: Blank::new(passes),
    }
}

/// A turn: by which session and at which moment, what is asked, and what is answered.
type Row = (u32, u64, Asked, Kind);

/// What came of rows: the first that was answered otherwise, whether the agent had stopped behind
/// them, and what was done.
type Played = (Option<usize>, bool, Tally);

/// Takes a turn at a desk of its own.
fn plain<W: Wait + Clock, M: Marks, G: Ledger, E: Ledger, O: Ledger>(
    rt: &W,
    shared: &Shared<M, G, E, O>,
    pass: Pass<M, G, E, O>,
    row: Row,
) -> (bool, Pass<M, G, E, O>) {
    let (whose, moment, asked, kind) = row;
    let session = SessionId {
        pass: whose,
        count: moment,
    };
    let mut desk = SharedDesk::new(rt, shared, pass, session, StepClock::new(moment, 1));
    let right = taken(&mut desk, asked) == kind;
    (right, desk.into_pass())
}

/// Takes the turns of rows by three passes, one after another.
fn played<W: Wait + Clock, M: Marks, G: Ledger, E: Ledger, O: Ledger>(
    rt: &W,
    alloc: Global,
    limits: Limits,
    blanks: Blanks,
    rows: &[Row],
) -> Result<Played, AllocError>
    requires limits { limits ≡ M.limits }
    requires calls { (blanks.calls.name ≡ M.name) × (blanks.calls.parts ≡ M.parts) × (3 ≡ M.parts) }
    requires given { (blanks.given.name ≡ G.name) × (blanks.given.parts ≡ G.parts) × (3 ≡ G.parts) }
    requires empty { (blanks.empty.name ≡ E.name) × (blanks.empty.parts ≡ E.parts) × (3 ≡ E.parts) }
    requires opened { (blanks.opened.name ≡ O.name) × (blanks.opened.parts ≡ O.parts)
        × (3 ≡ O.parts) }
{
    let (shared, mut all) = Shared::<M, G, E, O>::new(alloc, limits, blanks, 3)?;
    let mut wrong = None;
    for place in 0..rows.len() {
        let row = rows[place];
        let (right, pass) = plain(rt, &shared, all.remove(0), row);
        all.push_reserved(pass);
        if !right && wrong.is_none() {
            wrong = Some(place);
        }
    }
    Ok(match shared.close_if_stopped(all) {
        Closing::Stopped(tally) => (wrong, true, tally),
        Closing::Open(shared, all) => (wrong, false, shared.close(all)),
    })
}

fn run<W: Wait + Clock>(
    rt: &W,
    alloc: Global,
    limits: Limits,
    rows: &[Row],
) -> Result<Played, AllocError> {
    played::<W, Brand, Brand, Brand, Brand>(rt, alloc, limits, blanks(3), rows)
}

#[test]
fn a_preset_is_given_until_another_session_forgets_everything(rt: HostRuntime) -> Result<(), Fail> {
    let rows = [
        (0, 0, Asked::Put(Life::Endless), Kind::Other),
        (1, 0, Asked::Quiet, Kind::Given),
        (2, 0, Asked::Flush, Kind::Other),
        (1, 1, Asked::Quiet, Kind::Empty),
    ];
    let tally = Tally {
        marks: 4,
        given: 1,
        empty: 1,
        stored: 1,
        flushed: 1,
        ..NOTHING
    };
    assert_eq!(rt; run(&rt, rt.alloc(), LIMITS, &rows)?, (None, false, tally));
    Ok(())
}

#[test]
fn the_lifetimes_are_those_that_were_handed_in(rt: HostRuntime) -> Result<(), Fail> {
    for (ttl, max, first, second) in [
        (4, 7200, Kind::Empty, Kind::Empty),
        (5, 9, Kind::Given, Kind::Empty),
        (600, 7200, Kind::Given, Kind::Given),
    ] {
        let rows = [
            (0, 0, Asked::Put(Life::Default), Kind::Other),
            (0, 5, Asked::Quiet, first),
            (0, 10, Asked::Quiet, second),
        ];
        let limits = Limits { ttl, max, ..LIMITS };
        assert_eq!(rt; run(&rt, rt.alloc(), limits, &rows)?.0, None);
    }
    Ok(())
}

#[test]
fn a_stopped_agent_is_closed(rt: HostRuntime) -> Result<(), Fail> {
    let rows = [(0, 0, Asked::Stop, Kind::Other)];
    let tally = Tally {
        marks: 1,
        stopped: true,
        ..NOTHING
    };
    assert_eq!(rt; run(&rt, rt.alloc(), LIMITS, &rows)?, (None, true, tally));
    Ok(())
}

/// Opens a prompt by one pass, and wants one by another, whose clock goes on by half a minute with
/// each try. It tries again after a second each time. The prompt is closed behind it.
fn two_prompts<W: Wait + Clock, M: Marks, G: Ledger, E: Ledger, O: Ledger>(
    rt: &W,
    alloc: Global,
    limits: Limits,
    blanks: Blanks,
) -> Result<(Kind, Kind, Tally), AllocError>
    requires limits { limits ≡ M.limits }
    requires calls { (blanks.calls.name ≡ M.name) × (blanks.calls.parts ≡ M.parts) × (2 ≡ M.parts) }
    requires given { (blanks.given.name ≡ G.name) × (blanks.given.parts ≡ G.parts) × (2 ≡ G.parts) }
    requires empty { (blanks.empty.name ≡ E.name) × (blanks.empty.parts ≡ E.parts) × (2 ≡ E.parts) }
    requires opened { (blanks.opened.name ≡ O.name) × (blanks.opened.parts ≡ O.parts)
        × (2 ≡ O.parts) }
{
    let (shared, mut all) = Shared::<M, G, E, O>::new(alloc, limits, blanks, 2)?;
    let (first, second) = (all.remove(0), all.remove(0));
    let session = SessionId { pass: 0, count: 0 };
    let mut desk = SharedDesk::new(rt, &shared, first, session, StepClock::new(0, 1));
    let (late, opened, second) = under_prompt(rt, &shared, &mut desk, second);
    all.push_reserved(desk.into_pass());
    all.push_reserved(second);
    Ok((late, opened, shared.close(all)))
}

/// What a prompt by this pass is answered while another desk has the seat, and what the other
/// desk's Open was.
fn under_prompt<W: Wait + Clock, D: Desk, M: Marks, G: Ledger, E: Ledger, O: Ledger>(
    rt: &W,
    shared: &Shared<M, G, E, O>,
    holder: &mut D,
    pass: Pass<M, G, E, O>,
) -> (Kind, Kind, Pass<M, G, E, O>)
    requires { (D.at holder.old).out ≡ None }
{
    let session = SessionId { pass: 1, count: 0 };
    let mut desk = SharedDesk::new(rt, shared, pass, session, StepClock::new(0, 30));
    match holder.turn(open()) {
        Ok(Reply::Open(ticket)) => {
            let late = prompt(&mut desk);
            let closed = kind_of(holder.turn(Step::Close { ticket, keep: None }));
            (late, closed, desk.into_pass())
        }
        other => (Kind::Other, kind_of(other), desk.into_pass()),
    }
}

fn run_two_prompts<W: Wait + Clock>(
    rt: &W,
    alloc: Global,
) -> Result<(Kind, Kind, Tally), AllocError> {
    two_prompts::<W, Brand, Brand, Brand, Brand>(rt, alloc, LIMITS, blanks(2))
}

#[test]
fn a_prompt_that_has_stood_for_a_minute_is_late(rt: HostRuntime) -> Result<(), Fail> {
    // The Open, the Late and the Close. A waiter that counts from its last try is never late.
    let tally = Tally {
        marks: 3,
        opened: 1,
        ..NOTHING
    };
    assert_eq!(rt;
        run_two_prompts(&rt, rt.alloc())?,
        (Kind::Late, Kind::Other, tally)
    );
    Ok(())
}

/// Takes 100 peeks.
fn peeks<W: Wait + Clock, M: Marks, G: Ledger, E: Ledger, O: Ledger>(
    rt: &W,
    shared: &Shared<M, G, E, O>,
    pass: Pass<M, G, E, O>,
    session: SessionId,
) -> Pass<M, G, E, O> {
    let mut desk = SharedDesk::new(rt, shared, pass, session, StepClock::new(0, 1));
    for _ in 0..100 {
        taken(&mut desk, Asked::Peek);
    }
    desk.into_pass()
}

/// Two threads take 100 peeks each.
fn two_threads<
    W: Threads + Wait + Clock + Sync,
    M: Marks + Send + Sync,
    G: Ledger + Send + Sync,
    E: Ledger + Send + Sync,
    O: Ledger + Send + Sync,
>(rt: &W, alloc: Global, limits: Limits, blanks: Blanks) -> Result<Tally, AllocError>
    requires limits { limits ≡ M.limits }
    requires calls { (blanks.calls.name ≡ M.name) × (blanks.calls.parts ≡ M.parts) × (2 ≡ M.parts) }
    requires given { (blanks.given.name ≡ G.name) × (blanks.given.parts ≡ G.parts) × (2 ≡ G.parts) }
    requires empty { (blanks.empty.name ≡ E.name) × (blanks.empty.parts ≡ E.parts) × (2 ≡ E.parts) }
    requires opened { (blanks.opened.name ≡ O.name) × (blanks.opened.parts ≡ O.parts)
        × (2 ≡ O.parts) }
{
    let (shared, mut all) = Shared::<M, G, E, O>::new(alloc, limits, blanks, 2)?;
    let (first, second) = (all.remove(0), all.remove(0));
    let (first, second) = thread::join(
        rt,
        || peeks(rt, &shared, first, SessionId { pass: 0, count: 0 }),
        || peeks(rt, &shared, second, SessionId { pass: 1, count: 0 }),
    );
    all.push_reserved(first);
    all.push_reserved(second);
    Ok(shared.close(all))
}

fn run_two<W: Threads + Wait + Clock + Sync>(rt: &W, alloc: Global) -> Result<Tally, AllocError> {
    two_threads::<W, Brand, Brand, Brand, Brand>(rt, alloc, LIMITS, blanks(2))
}

#[test]
fn the_marks_of_two_threads_are_all_in_the_tally(rt: HostRuntime) -> Result<(), Fail> {
    let marks = Tally {
        marks: 200,
        ..NOTHING
    };
    assert_eq!(rt; run_two(&rt, rt.alloc())?, marks);
    Ok(())
}

/// Takes one turn, or two where a prompt opens, by its number.
fn mixed_turn<D: Desk>(desk: &mut D, number: u64) -> Kind
    requires { (D.at desk.old).out ≡ None }
    ensures { (D.at desk.new).out ≡ None }
{
    let asked = match number % 8 {
        0 | 3 => return prompt(desk),
        1 => Asked::Put(Life::Endless),
        2 | 5 => Asked::Quiet,
        4 | 7 => Asked::Clear,
        _ => Asked::Flush,
    };
    taken(desk, asked)
}

/// How many turns of a thread were answered so.
#[derive(Clone, Copy, Debug, PartialEq, Eq)]
struct Answered {
    given: u64,
    empty: u64,
    opened: u64,
    refused: u64,
}

/// Takes 2,000 turns of all kinds.
fn mixed<W: Wait + Clock, M: Marks, G: Ledger, E: Ledger, O: Ledger>(
    rt: &W,
    shared: &Shared<M, G, E, O>,
    pass: Pass<M, G, E, O>,
    session: SessionId,
) -> (Answered, Pass<M, G, E, O>) {
    let mut desk = SharedDesk::new(rt, shared, pass, session, StepClock::new(0, 1));
    let mut answered = Answered {
        given: 0,
        empty: 0,
        opened: 0,
        refused: 0,
    };
    for number in 0..2000 {
        let count = match mixed_turn(&mut desk, number) {
            Kind::Given => &mut answered.given,
            Kind::Empty => &mut answered.empty,
            Kind::Open => &mut answered.opened,
            Kind::Refused => &mut answered.refused,
            Kind::Other | Kind::Late => continue,
        };
        *count = count.saturating_add(1);
    }
    (answered, desk.into_pass())
}

fn added(all: &[Answered]) -> Answered {
    let mut sum = Answered {
        given: 0,
        empty: 0,
        opened: 0,
        refused: 0,
    };
    for one in all {
        sum.given = sum.given.saturating_add(one.given);
        sum.empty = sum.empty.saturating_add(one.empty);
        sum.opened = sum.opened.saturating_add(one.opened);
        sum.refused = sum.refused.saturating_add(one.refused);
    }
    sum
}

/// Four threads take 2,000 turns each.
fn four_threads<
    W: Threads + Wait + Clock + Sync,
    M: Marks + Send + Sync,
    G: Ledger + Send + Sync,
    E: Ledger + Send + Sync,
    O: Ledger + Send + Sync,
>(rt: &W, alloc: Global, limits: Limits, blanks: Blanks) -> Result<(Answered, Tally), AllocError>
    requires limits { limits ≡ M.limits }
    requires calls { (blanks.calls.name ≡ M.name) × (blanks.calls.parts ≡ M.parts) × (4 ≡ M.parts) }
    requires given { (blanks.given.name ≡ G.name) × (blanks.given.parts ≡ G.parts) × (4 ≡ G.parts) }
    requires empty { (blanks.empty.name ≡ E.name) × (blanks.empty.parts ≡ E.parts) × (4 ≡ E.parts) }
    requires opened { (blanks.opened.name ≡ O.name) × (blanks.opened.parts ≡ O.parts)
        × (4 ≡ O.parts) }
{
    let (shared, mut all) = Shared::<M, G, E, O>::new(alloc, limits, blanks, 4)?;
    let (first, second, third, fourth) = (
        all.remove(0),
        all.remove(0),
        all.remove(0),
        all.remove(0),
    );
    let (front, back) = thread::join(
        rt,
        || {
            thread::join(
                rt,
                || mixed(rt, &shared, first, SessionId { pass: 0, count: 0 }),
                || mixed(rt, &shared, second, SessionId { pass: 1, count: 0 }),
            )
        },
        || {
            thread::join(
                rt,
                || mixed(rt, &shared, third, SessionId { pass: 2, count: 0 }),
                || mixed(rt, &shared, fourth, SessionId { pass: 3, count: 0 }),
            )
        },
    );
    let ((one, first), (two, second)) = front;
    let ((three, third), (four, fourth)) = back;
    all.push_reserved(first);
    all.push_reserved(second);
    all.push_reserved(third);
    all.push_reserved(fourth);
    Ok((added(&[one, two, three, four]), shared.close(all)))
}

fn run_four<W: Threads + Wait + Clock + Sync>(
    rt: &W,
    alloc: Global,
) -> Result<(Answered, Tally), AllocError> {
    four_threads::<W, Brand, Brand, Brand, Brand>(rt, alloc, LIMITS, blanks(4))
}

#[test]
fn the_tally_of_four_threads_is_what_they_were_answered(rt: HostRuntime) -> Result<(), Fail> {
    let (answered, tally) = run_four(&rt, rt.alloc())?;
    assert_eq!(rt; answered.refused, 0);
    assert_eq!(rt;
        (tally.given, tally.empty, tally.opened),
        (answered.given, answered.empty, answered.opened)
    );
    // Each prompt that opens takes a Close, and each Close keeps what was typed.
    assert_eq!(rt; tally.marks, answered.opened.saturating_add(8000));
    assert_eq!(rt; tally.stored, answered.opened.saturating_add(1000));
    assert_eq!(rt; (tally.cleared, tally.flushed), (2000, 1000));
    Ok(())
}
