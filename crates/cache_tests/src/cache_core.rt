//! Tests of the cache core: what steps come to at which second (GnuPG manual, "agent options": the
//! lifetimes), and that one prompt is open at a time. Begin with `Asked` and `first_wrong`, which
//! takes the steps of a row over a new core.

use agent_core::Core;
use agent_ports::SessionId;
use cache_policy::{
    CacheId, Life, Limits, MAX_MARKS, Mode, Refused, Reply, Secret, Step, Under, Wait, Way,
};
use prompt_seat::{Seat, Ticket};
use std::alloc::Global;
use std::test::Fail;

/// The manual's lifetimes.
const LIMITS: Limits = Limits {
    ttl: 600,
    max: 7200,
    ttl_ssh: 1800,
    max_ssh: 7200,
};

const ALICE: SessionId = SessionId { pass: 0, count: 1 };

const BOB: SessionId = SessionId { pass: 1, count: 1 };

const CAROL: SessionId = SessionId { pass: 1, count: 2 };

/// What a row asks of the core, under one id, and where no mode is said for one of User.
#[derive(Clone, Copy)]
enum Asked {
    Put(Mode, Life, &'static [u8]),
    Ask(Way),
    /// Asks by prompt, with the wait that was last given.
    AskAgain,
    /// Asks for the seat, and names what is kept under it or doesn't.
    Seat(bool),
    /// Asks for the seat, with the wait that was last given.
    SeatAgain,
    /// Gives back the ticket that was given first, and may keep this.
    Close(Option<&'static [u8]>),
    /// Gives back a ticket of another seat with this number.
    CloseOther(u64, Option<&'static [u8]>),
    Clear(Mode),
    Peek(Mode),
    /// Peeks so many times.
    Peeks(u64),
    Stop,
    /// No step: the base of the history, and how many marks it has.
    Counts(u64, u64),
}

/// A step's reading, who takes it, and what it comes to.
type Row = (u64, SessionId, Asked, &'static str);

/// A core under test, the ticket that was given first, and the wait that was given last.
struct Played {
    core: Core,
    out: Option<Ticket>,
    wait: Option<Wait>,
}

/// Ends a step that isn't taken, with its ticket.
pub(crate) fn give_up(step: Step) {
    if let Some(ticket) = step.into_ticket() {
        let _ = Seat::new().give(ticket);
    }
}

fn id() -> CacheId {
    match CacheId::of(b"id1") {
        Some(id) => id,
        None => unreachable!(),
    }
}

fn put(mode: Mode, life: Life, bytes: &[u8]) -> Step {
    match Secret::of(bytes) {
        Some(secret) => Step::Put {
            id: id(),
            mode,
            life,
            secret,
        },
        None => Step::Flush,
    }
}

fn ask(way: Way, wait: Option<Wait>) -> Step {
    Step::Ask {
        id: id(),
        mode: Mode::User,
        way,
        wait,
    }
}

fn close(ticket: Option<Ticket>, keep: Option<&[u8]>) -> Step {
    let keep = match keep {
        Some(bytes) => Secret::of(bytes),
        None => None,
    };
    match ticket {
        Some(ticket) => Step::Close { ticket, keep },
        None => Step::Flush,
    }
}

fn under(named: bool) -> Option<Under> {
    if named {
        Some(Under {
            id: id(),
            mode: Mode::User,
        })
    } else {
        None
    }
}

fn secret_name(bytes: &[u8]) -> &'static str {
    match bytes {
        b"old" => "given old",
        b"new" => "given new",
        _ => "given another",
    }
}

fn stand_name(since: u64) -> &'static str {
    match since {
        0 => "stand since 0",
        10 => "stand since 10",
        70 => "stand since 70",
        _ => "stand",
    }
}

impl Played {
    fn step(&mut self, asked: Asked) -> Step {
        match asked {
            Asked::Put(mode, life, bytes) => put(mode, life, bytes),
            Asked::Ask(way) => ask(way, None),
            Asked::AskAgain => ask(Way::Prompt, self.wait.take()),
            Asked::Seat(named) => Step::Seat {
                under: under(named),
                wait: None,
            },
            Asked::SeatAgain => Step::Seat {
                under: None,
                wait: self.wait.take(),
            },
            Asked::Close(keep) => close(self.out.take(), keep),
            Asked::CloseOther(number, keep) => close(Seat::new().take(number), keep),
            Asked::Clear(mode) => Step::Clear { id: id(), mode },
            Asked::Peek(mode) => Step::Peek { id: id(), mode },
            Asked::Peeks(_) => Step::Peek {
                id: id(),
                mode: Mode::User,
            },
            Asked::Stop => Step::Stop,
            Asked::Counts(_, _) => Step::Flush,
        }
    }

    /// The name of what a step came to. A ticket is kept where there is none yet, and so is a wait.
    fn shown(&mut self, outcome: Result<Reply, Refused>) -> &'static str {
        match outcome {
            Ok(Reply::Given(grant)) => secret_name(grant.secret().bytes()),
            Ok(Reply::Empty) => "empty",
            Ok(Reply::Open(ticket)) => {
                self.keep(ticket);
                "open"
            }
            Ok(Reply::Stand(wait)) => {
                let name = stand_name(wait.since());
                self.wait = Some(wait);
                name
            }
            Ok(Reply::Late) => "late",
            Ok(Reply::Done) => "done",
            Ok(Reply::Held(true)) => "held",
            Ok(Reply::Held(false)) => "not held",
            Ok(Reply::Stopping) => "stopping",
            Err(Refused { step }) => {
                give_up(step);
                "refused"
            }
        }
    }

    fn keep(&mut self, ticket: Ticket) {
        let Some(first) = self.out.replace(ticket) else {
            return;
        };
        if let Some(later) = self.out.replace(first) {
            let _ = Seat::new().give(later);
        }
    }

    fn take(&mut self, reading: u64, by: SessionId, asked: Asked) -> &'static str {
        if let Asked::Counts(base, count) = asked {
            let so = self.core.base() == base && self.core.count() == count;
            return if so && !self.core.spent() {
                "so many"
            } else {
                "another number"
            };
        }
        let times = if let Asked::Peeks(times) = asked {
            times
        } else {
            1
        };
        let mut name = "";
        for _ in 0..times {
            let step = self.step(asked);
            let outcome = self.core.step(reading, by, step);
            name = self.shown(outcome);
        }
        name
    }

    fn end(self) {
        let Played {
            core: _,
            out,
            wait: _,
        } = self;
        give_up(close(out, None));
    }
}

/// The first row that a new core answers otherwise, and how.
fn first_wrong(alloc: Global, rows: &[Row]) -> Option<(usize, &'static str)> {
    let mut played = Played {
        core: Core::new(alloc, LIMITS),
        out: None,
        wait: None,
    };
    let mut wrong = None;
    for (place, (reading, by, asked, then)) in rows.iter().enumerate() {
        let name = played.take(*reading, *by, *asked);
        if wrong.is_none() && name != *then {
            wrong = Some((place, name));
        }
    }
    played.end();
    wrong
}

const QUIET: Asked = Asked::Ask(Way::Quiet);

const PROMPT: Asked = Asked::Ask(Way::Prompt);

const OLD: Asked = Asked::Put(Mode::Any, Life::Endless, b"old");

const NEW: Asked = Asked::Put(Mode::User, Life::Seconds(10), b"new");

#[test]
fn the_newest_hides_the_older(rt: HostRuntime) -> Result<(), Fail> {
    let past_its_life = [
        (0, ALICE, OLD, "done"),
        (5, ALICE, NEW, "done"),
        (20, ALICE, QUIET, "empty"),
        (21, ALICE, Asked::Peek(Mode::Normal), "held"),
    ];
    assert_eq!(rt; first_wrong(rt.alloc(), &past_its_life), None);
    let cleared = [
        (0, ALICE, OLD, "done"),
        (5, ALICE, NEW, "done"),
        (6, ALICE, Asked::Clear(Mode::User), "done"),
        (7, ALICE, QUIET, "empty"),
        (8, ALICE, Asked::Peek(Mode::Normal), "not held"),
    ];
    assert_eq!(rt; first_wrong(rt.alloc(), &cleared), None);
    Ok(())
}

#[test]
fn a_use_restarts_the_ttl_and_not_the_greatest_age(rt: HostRuntime) -> Result<(), Fail> {
    let usual = Asked::Put(Mode::Any, Life::Default, b"old");
    let twice = [
        (0, ALICE, usual, "done"),
        (600, ALICE, QUIET, "given old"),
        (1200, ALICE, QUIET, "given old"),
        (1801, ALICE, QUIET, "empty"),
    ];
    assert_eq!(rt; first_wrong(rt.alloc(), &twice), None);
    let often = [
        (0, ALICE, usual, "done"),
        (500, ALICE, QUIET, "given old"),
        (1000, ALICE, QUIET, "given old"),
        (1500, ALICE, QUIET, "given old"),
        (2000, ALICE, QUIET, "given old"),
        (2500, ALICE, QUIET, "given old"),
        (3000, ALICE, QUIET, "given old"),
        (3500, ALICE, QUIET, "given old"),
        (4000, ALICE, QUIET, "given old"),
        (4500, ALICE, QUIET, "given old"),
        (5000, ALICE, QUIET, "given old"),
        (5500, ALICE, QUIET, "given old"),
        (6000, ALICE, QUIET, "given old"),
        (6500, ALICE, QUIET, "given old"),
        (7000, ALICE, QUIET, "given old"),
        (7200, ALICE, QUIET, "given old"),
        (7201, ALICE, QUIET, "empty"),
    ];
    assert_eq!(rt; first_wrong(rt.alloc(), &often), None);
    Ok(())
}

#[test]
fn a_history_has_room_for_131072_marks(rt: HostRuntime) -> Result<(), Fail> {
    let full = [
        (0, ALICE, OLD, "done"),
        (0, BOB, Asked::Peeks(131_070), "held"),
        (0, ALICE, QUIET, "given old"),
        (0, ALICE, Asked::Counts(0, MAX_MARKS), "so many"),
    ];
    assert_eq!(rt; first_wrong(rt.alloc(), &full), None);
    let turned_over = [
        (0, ALICE, OLD, "done"),
        (0, BOB, Asked::Peeks(131_071), "held"),
        (0, ALICE, QUIET, "empty"),
        (0, ALICE, Asked::Counts(MAX_MARKS, 1), "so many"),
    ];
    assert_eq!(rt; first_wrong(rt.alloc(), &turned_over), None);
    // A ticket stays out over a turn-over, and what was typed is kept then.
    let held = [
        (0, ALICE, PROMPT, "open"),
        (0, BOB, Asked::Peeks(131_071), "not held"),
        (0, ALICE, Asked::Close(Some(b"new")), "done"),
        (0, ALICE, Asked::Counts(MAX_MARKS, 1), "so many"),
        (0, ALICE, QUIET, "given new"),
    ];
    assert_eq!(rt; first_wrong(rt.alloc(), &held), None);
    Ok(())
}

#[test]
fn one_prompt_at_a_time(rt: HostRuntime) -> Result<(), Fail> {
    let kept = [
        (0, ALICE, PROMPT, "open"),
        (0, BOB, PROMPT, "stand since 0"),
        (0, ALICE, Asked::Close(Some(b"new")), "done"),
        (0, BOB, PROMPT, "given new"),
    ];
    assert_eq!(rt; first_wrong(rt.alloc(), &kept), None);
    let not_kept = [
        (0, ALICE, PROMPT, "open"),
        (0, BOB, PROMPT, "stand since 0"),
        (0, ALICE, Asked::Close(None), "done"),
        (0, BOB, PROMPT, "open"),
    ];
    assert_eq!(rt; first_wrong(rt.alloc(), &not_kept), None);
    Ok(())
}

#[test]
fn a_ticket_is_known_by_its_number(rt: HostRuntime) -> Result<(), Fail> {
    let another_number = [
        (0, ALICE, Asked::Seat(true), "open"),
        (0, BOB, Asked::CloseOther(5, Some(b"new")), "done"),
        (0, BOB, Asked::Peek(Mode::User), "not held"),
        (0, BOB, Asked::Seat(false), "stand since 0"),
        (0, BOB, Asked::Stop, "done"),
        (0, BOB, PROMPT, "stopping"),
    ];
    assert_eq!(rt; first_wrong(rt.alloc(), &another_number), None);
    // The first to come back with the number keeps what was typed and frees the seat, and the
    // second does neither.
    let same_number = [
        (0, ALICE, PROMPT, "open"),
        (0, BOB, Asked::CloseOther(0, Some(b"new")), "done"),
        (0, BOB, Asked::Seat(false), "open"),
        (0, ALICE, Asked::Close(Some(b"old")), "done"),
        (0, BOB, QUIET, "given new"),
        (0, BOB, Asked::Seat(false), "stand since 0"),
    ];
    assert_eq!(rt; first_wrong(rt.alloc(), &same_number), None);
    Ok(())
}

#[test]
fn a_step_waits_for_a_minute(rt: HostRuntime) -> Result<(), Fail> {
    let late = [
        (0, ALICE, PROMPT, "open"),
        (10, BOB, PROMPT, "stand since 10"),
        (69, BOB, Asked::AskAgain, "stand since 10"),
        (70, BOB, Asked::AskAgain, "late"),
        (70, BOB, Asked::Counts(0, 2), "so many"),
        (71, ALICE, Asked::Close(None), "done"),
        (71, BOB, PROMPT, "open"),
    ];
    assert_eq!(rt; first_wrong(rt.alloc(), &late), None);
    let given = [
        (0, ALICE, PROMPT, "open"),
        (10, BOB, PROMPT, "stand since 10"),
        (65, CAROL, OLD, "done"),
        (70, BOB, Asked::AskAgain, "given old"),
    ];
    assert_eq!(rt; first_wrong(rt.alloc(), &given), None);
    // Another session's wait counts as none, and a Seat waits likewise.
    let of_another = [
        (0, ALICE, Asked::Seat(false), "open"),
        (10, BOB, Asked::Seat(false), "stand since 10"),
        (70, CAROL, Asked::SeatAgain, "stand since 70"),
        (129, CAROL, Asked::SeatAgain, "stand since 70"),
        (130, CAROL, Asked::SeatAgain, "late"),
    ];
    assert_eq!(rt; first_wrong(rt.alloc(), &of_another), None);
    Ok(())
}

/// The ids k0 to k999, whose order is not that of their numbers.
fn numbered(k: u32) -> Option<CacheId> {
    let hundreds = b'0' + (k / 100 % 10) as u8;
    let tens = b'0' + (k / 10 % 10) as u8;
    let ones = b'0' + (k % 10) as u8;
    match k {
        0..=9 => CacheId::of(&[b'k', ones]),
        10..=99 => CacheId::of(&[b'k', tens, ones]),
        _ => CacheId::of(&[b'k', hundreds, tens, ones]),
    }
}

/// How many of a thousand entries, which live for 1 to 1000 seconds, are there after 500; and where
/// they are the last ones, the first.
fn left_of_a_thousand(alloc: Global) -> Result<(usize, Option<u32>), Fail> {
    let mut core = Core::new(alloc, LIMITS);
    for k in 0..1000_u32 {
        let step = Step::Put {
            id: numbered(k).ok_or("an id")?,
            mode: Mode::User,
            life: Life::Seconds(k + 1),
            secret: Secret::of(b"new").ok_or("a secret")?,
        };
        match core.step(0, ALICE, step) {
            Ok(reply) => let_go(reply),
            Err(Refused { step }) => give_up(step),
        }
    }
    let mut left = 0usize;
    let mut first = None;
    for k in 0..1000_u32 {
        let step = Step::Peek {
            id: numbered(k).ok_or("an id")?,
            mode: Mode::User,
        };
        match core.step(500, BOB, step) {
            Ok(Reply::Held(true)) => {
                left = left.saturating_add(1);
                first = first.or(Some(k));
            }
            Ok(reply) => let_go(reply),
            Err(Refused { step }) => give_up(step),
        }
    }
    Ok((left, first))
}

fn let_go(reply: Reply) {
    match reply {
        Reply::Open(ticket) => {
            let _ = Seat::new().give(ticket);
        }
        Reply::Given(_) => {}
        Reply::Empty => {}
        Reply::Stand(_) => {}
        Reply::Late => {}
        Reply::Done => {}
        Reply::Held(_) => {}
        Reply::Stopping => {}
    }
}

#[test]
fn a_thousand_lives_end_in_turn(rt: HostRuntime) -> Result<(), Fail> {
    assert_eq!(rt; left_of_a_thousand(rt.alloc())?, (501, Some(499)));
    Ok(())
}
