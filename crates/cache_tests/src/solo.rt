//! Tests of the desk (cache handle) of a session alone, at which others take the steps of a script
//! between its turns. Begin with `Does` and `outcome`, which says what asks come to.

ghost use Rattle.std.specs.{Prelude.{◌≡◌, map, false, None, Some, IfOk}, List.AllByRecursion};
ghost use Rattle.cache_policy.specs.Turns.{asked_step, wait_of, opens, closes};
ghost use Rattle.agent_core.specs.Foreigners.{IsForeign, AllForeign};

use agent_core::{Foreign, ForeignStep, Solo, turns_extend_a_known_run};
use agent_ports::{Clock, SessionId, StepClock};
use cache_policy::{
    CacheId, Desk, Grant, Life, Limits, Mode, Refused, Reply, Secret, Step, Tally, Under, Way,
};
use prompt_seat::Ticket;
use std::alloc::{AllocError, Global};
use std::test::Fail;

/// The manual's lifetimes.
const LIMITS: Limits = Limits {
    ttl: 600,
    max: 7200,
    ttl_ssh: 1800,
    max_ssh: 7200,
};

const ALICE: SessionId = SessionId { pass: 0, count: 0 };

const BOB: SessionId = SessionId { pass: 1, count: 0 };

/// What another session does, under one id for User: Bob, who is the first of them, or another one.
#[derive(Clone, Copy)]
enum Told {
    Bob(Does),
    Carol(Does),
}

#[derive(Clone, Copy)]
enum Does {
    Put(&'static [u8]),
    Clear,
    Flush,
    /// Flushes so many times.
    Flushes(u64),
    Stop,
    Ask,
    /// Asks for the seat, and names what is kept under it or doesn't.
    Seat(bool),
    Close(Option<&'static [u8]>),
}

fn id() -> CacheId {
    match CacheId::of(b"id1") {
        Some(id) => id,
        None => unreachable!(),
    }
}

fn keep(bytes: Option<&[u8]>) -> Option<Secret> {
    match bytes {
        Some(bytes) => Secret::of(bytes),
        None => None,
    }
}

fn under(named: bool) -> Option<Under> {
    if named {
        Some(Under {
            id: id(),
            mode: Mode::User,
        })
    } else {
        None
    }
}

fn foreign_step(does: Does) -> ForeignStep {
    match does {
        Does::Put(bytes) => match Secret::of(bytes) {
            Some(secret) => ForeignStep::Put {
                id: id(),
                mode: Mode::User,
                life: Life::Default,
                secret,
            },
            None => ForeignStep::Flush,
        },
        Does::Clear => ForeignStep::Clear {
            id: id(),
            mode: Mode::User,
        },
        Does::Flush | Does::Flushes(_) => ForeignStep::Flush,
        Does::Stop => ForeignStep::Stop,
        Does::Ask => ForeignStep::Ask {
            id: id(),
            mode: Mode::User,
            way: Way::Prompt,
        },
        Does::Seat(named) => ForeignStep::Seat {
            under: under(named),
        },
        Does::Close(bytes) => ForeignStep::CloseHeld { keep: keep(bytes) },
    }
}

fn foreign(told: Told) -> Foreign
    ensures { IsForeign (record { pass = 0; count = 0 }) result }
{
    match told {
        Told::Bob(does) => Foreign {
            session: BOB,
            step: foreign_step(does),
        },
        Told::Carol(does) => Foreign {
            session: SessionId { pass: 1, count: 1 },
            step: foreign_step(does),
        },
    }
}

fn times(told: Told) -> u64 {
    match told {
        Told::Bob(Does::Flushes(times)) | Told::Carol(Does::Flushes(times)) => times,
        _ => 1,
    }
}

fn add(list: &mut Vec<Foreign>, told: Told) -> Result<(), AllocError>
    requires before { AllByRecursion (IsForeign (record { pass = 0; count = 0 })) list.old.items }
    ensures { AllByRecursion (IsForeign (record { pass = 0; count = 0 })) list.new.items }
{
    for _ in 0..times(told) {
        list.push(foreign(told))?;
    }
    Ok(())
}

fn list_of(alloc: Global, told: &[Told]) -> Result<Vec<Foreign>, AllocError>
    ensures { IfOk result
        (λ list. AllByRecursion (IsForeign (record { pass = 0; count = 0 })) list.items) }
{
    let mut list = Vec::new(alloc);
    for told in told {
        add(&mut list, *told)?;
    }
    Ok(list)
}

fn add_list(script: &mut Vec<Vec<Foreign>>, list: Vec<Foreign>) -> Result<(), AllocError>
    requires list { AllByRecursion (IsForeign (record { pass = 0; count = 0 })) list.items }
    requires before { AllForeign (record { pass = 0; count = 0 })
        (map (λ list. list.items) script.old.items) }
    ensures { AllForeign (record { pass = 0; count = 0 })
        (map (λ list. list.items) script.new.items) }
{
    script.push(list)?;
    Ok(())
}

fn script_of(alloc: Global, lists: &[&[Told]]) -> Result<Vec<Vec<Foreign>>, AllocError>
    ensures { IfOk result (λ script.
        AllForeign (record { pass = 0; count = 0 }) (map (λ list. list.items) script.items)) }
{
    let mut script = Vec::new(alloc);
    for told in lists {
        let list = list_of(alloc, told)?;
        add_list(&mut script, list)?;
    }
    Ok(script)
}

fn given(grant: &Grant) -> &'static str {
    match grant.secret().bytes() {
        b"old" => "given old",
        b"new" => "given new",
        _ => "given another",
    }
}

/// What an ask comes to. A ticket is given back, and keeps nothing.
fn asked<D: Desk>(desk: &mut D, way: Way) -> &'static str
    requires free { (D.at desk.old).out ≡ None }
    ensures { (D.at desk.new).out ≡ None }
{
    let step = Step::Ask {
        id: id(),
        mode: Mode::User,
        way,
        wait: None,
    };
    match desk.turn(step) {
        Ok(Reply::Given(grant)) => given(&grant),
        Ok(Reply::Empty) => "empty",
        Ok(Reply::Open(ticket)) => {
            close(desk, ticket);
            "open"
        }
        Ok(Reply::Late) => "late",
        Ok(Reply::Stopping) => "stopping",
        Ok(_) => unreachable!(),
        Err(Refused { step }) => match step.into_ticket() {
            None => "refused",
            Some(_) => unreachable!(),
        },
    }
}

fn close<D: Desk>(desk: &mut D, ticket: Ticket)
    requires { (D.at desk.old).out ≡ Some ticket }
    ensures { (D.at desk.new).out ≡ None }
{
    match desk.turn(Step::Close { ticket, keep: None }) {
        Ok(Reply::Done) => {}
        Ok(Reply::Stopping) => {}
        _ => unreachable!(),
    }
}

/// The place of the first ask that comes to something else, and what that is.
fn first_wrong<D: Desk>(desk: &mut D, asks: &[(Way, &'static str)]) -> Option<(usize, &'static str)>
    requires free { (D.at desk.old).out ≡ None }
{
    let mut wrong = None;
    for (place, (way, then)) in asks.iter().enumerate() {
        let name = asked(desk, *way);
        if wrong.is_none() && name != *then {
            wrong = Some((place, name));
        }
    }
    wrong
}

/// What a desk has in the end.
#[derive(Clone, Copy, Debug, PartialEq, Eq)]
struct AtEnd {
    histories: usize,
    marks: usize,
    /// Of the last mark.
    moment: u64,
}

fn at_end<C: Clock>(desk: &Solo<'_, C>) -> AtEnd {
    let mut marks = 0usize;
    let mut moment = 0;
    for history in desk.histories() {
        marks = marks.saturating_add(history.marks.as_slice().len());
        if let Some(mark) = history.marks.as_slice().last() {
            moment = mark.moment;
        }
    }
    AtEnd {
        histories: desk.histories().len(),
        marks,
        moment,
    }
}

/// The outcome of asks at a desk with this script, whose clock goes on by so many seconds from each
/// reading to the next.
type Outcome = (Option<(usize, &'static str)>, AtEnd, Tally);

fn outcome(
    alloc: Global,
    seconds: u64,
    lists: &[&[Told]],
    asks: &[(Way, &'static str)],
) -> Result<Outcome, Fail> {
    let script = script_of(alloc, lists)?;
    let mut clock = StepClock::new(0, seconds);
    let mut desk = Solo::new(alloc, LIMITS, &mut clock, ALICE, script)?;
    let wrong = first_wrong(&mut desk, asks);
    let (left, tally) = (at_end(&desk), desk.tally());
    desk.end();
    Ok((wrong, left, tally))
}

#[test]
fn others_take_their_steps_between_the_turns(rt: HostRuntime) -> Result<(), Fail> {
    let script: [&[Told]; 4] = [
        &[Told::Bob(Does::Put(b"old")), Told::Carol(Does::Put(b"new"))],
        &[Told::Bob(Does::Clear)],
        &[Told::Bob(Does::Put(b"old")), Told::Carol(Does::Flush)],
        &[Told::Carol(Does::Stop)],
    ];
    let asks = [
        (Way::Quiet, "given new"),
        (Way::Quiet, "empty"),
        (Way::Quiet, "empty"),
        (Way::Prompt, "stopping"),
    ];
    let (wrong, _, tally) = outcome(rt.alloc(), 1, &script, &asks)?;
    assert_eq!(rt; wrong, None);
    let want = Tally {
        marks: 10,
        given: 1,
        empty: 2,
        opened: 0,
        stored: 3,
        cleared: 1,
        flushed: 1,
        stopped: true,
    };
    assert_eq!(rt; tally, want);
    Ok(())
}

/// What an ask by prompt comes to where it is to come to this, how many marks there are then, and
/// the moment of the last one.
fn prompted(
    alloc: Global,
    seconds: u64,
    lists: &[&[Told]],
    then: &'static str,
) -> Result<(&'static str, usize, u64), Fail> {
    let (wrong, left, _) = outcome(alloc, seconds, lists, &[(Way::Prompt, then)])?;
    let name = match wrong {
        Some((_, name)) => name,
        None => then,
    };
    Ok((name, left.marks, left.moment))
}

#[test]
fn a_turn_waits_for_the_prompt_of_another(rt: HostRuntime) -> Result<(), Fail> {
    // What was typed serves the turn that waited for it: Open, Flush, Close and Given; the own step
    // took three readings.
    let kept: [&[Told]; 3] = [
        &[Told::Bob(Does::Ask)],
        &[Told::Carol(Does::Flush)],
        &[Told::Bob(Does::Close(Some(b"new")))],
    ];
    assert_eq!(rt;
        prompted(rt.alloc(), 1, &kept, "given new")?,
        ("given new", 4, 5)
    );
    // A session that forgot its ticket gives it back behind the script, and keeps nothing.
    let forgotten: [&[Told]; 1] = [&[Told::Bob(Does::Seat(true))]];
    assert_eq!(rt;
        prompted(rt.alloc(), 1, &forgotten, "open")?,
        ("open", 4, 4)
    );
    // A step that has to stand is dropped, and a Close without a ticket is passed over.
    let dropped: [&[Told]; 1] = [&[
        Told::Bob(Does::Seat(false)),
        Told::Carol(Does::Seat(false)),
        Told::Carol(Does::Close(None)),
        Told::Bob(Does::Close(None)),
    ]];
    assert_eq!(rt; prompted(rt.alloc(), 1, &dropped, "open")?, ("open", 4, 4));
    Ok(())
}

#[test]
fn a_turn_waits_for_a_minute(rt: HostRuntime) -> Result<(), Fail> {
    // It is tried at 20, 60 and 100 seconds.
    let late: [&[Told]; 3] = [
        &[Told::Bob(Does::Ask)],
        &[Told::Carol(Does::Flush)],
        &[Told::Carol(Does::Flush)],
    ];
    assert_eq!(rt; prompted(rt.alloc(), 20, &late, "late")?, ("late", 4, 100));
    let closed: [&[Told]; 3] = [
        &[Told::Bob(Does::Ask)],
        &[Told::Carol(Does::Flush)],
        &[Told::Bob(Does::Close(None))],
    ];
    assert_eq!(rt;
        prompted(rt.alloc(), 20, &closed, "open")?,
        ("open", 5, 120)
    );
    Ok(())
}

#[test]
fn sessions_follow_one_another(rt: HostRuntime) -> Result<(), Fail> {
    let alloc = rt.alloc();
    let mut clock = StepClock::new(0, 1);
    let mut desk = Solo::new(alloc, LIMITS, &mut clock, ALICE, Vec::new(alloc))?;
    desk.begin_session(BOB);
    let wrong = first_wrong(&mut desk, &[(Way::Quiet, "empty"), (Way::Prompt, "open")]);
    let by = match desk.histories().last() {
        Some(history) => history
            .marks
            .as_slice()
            .iter()
            .all(|mark| mark.session == BOB),
        None => false,
    };
    desk.end();
    assert_eq!(rt; wrong, None);
    assert!(rt; by);
    turns_extend_a_known_run::<StepClock>();
    Ok(())
}

#[test]
fn a_prompt_stays_open_over_a_turn_over(rt: HostRuntime) -> Result<(), Fail> {
    let script: [&[Told]; 1] = [&[
        Told::Bob(Does::Ask),
        Told::Carol(Does::Flushes(131_071)),
        Told::Bob(Does::Close(Some(b"new"))),
    ]];
    let asks = [(Way::Quiet, "given new"), (Way::Prompt, "given new")];
    let (wrong, left, _) = outcome(rt.alloc(), 0, &script, &asks)?;
    assert_eq!(rt; wrong, None);
    assert_eq!(rt; (left.histories, left.marks), (2, 131_075));
    Ok(())
}
