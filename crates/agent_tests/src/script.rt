//! A session with a pinentry at a desk (cache handle) where another session takes steps meanwhile.
//! That one's steps are a script, at fixed turns of the first, so nothing hangs on threads. Begin
//! with `Bob` and `script_of`.

ghost use Rattle.std.specs.{Prelude.{◌≡◌, map, IfOk}, List.AllByRecursion};
ghost use Rattle.agent_core.specs.Foreigners.{IsForeign, AllForeign};

use crate::key_waits::{BEHIND, BESIDE, LATE};
use crate::prompts::PIN;
use crate::rows::{
    PLAIN, Row, children_text, client, kept_text, keys_of, planned, rules_of, wanted,
};
use agent_commands::SessionEnd;
use agent_core::{Foreign, ForeignStep, Solo};
use agent_ports::{Clock, ListDice, MemLauncher, SessionId, StepClock};
use agent_session::serve_session;
use cache_policy::{CacheId, Limits, MarkReply, Mode, Way};
use pinentry_client::{Pinentry, Word};
use std::alloc::{AllocError, Global};
use std::test::Fail;

/// The manual's lifetimes.
const LIMITS: Limits = Limits {
    ttl: 600,
    max: 7200,
    ttl_ssh: 1800,
    max_ssh: 7200,
};

const ALICE: SessionId = SessionId { pass: 0, count: 0 };

const BOB: SessionId = SessionId { pass: 1, count: 0 };

/// What Bob does, under one id for User.
#[derive(Clone, Copy)]
enum Bob {
    Clears,
    Asks(Way),
    Closes,
}

fn id() -> CacheId {
    match CacheId::of(b"id1") {
        Some(id) => id,
        None => unreachable!(),
    }
}

fn foreign(does: Bob) -> Foreign
    ensures { IsForeign (record { pass = 0; count = 0 }) result }
{
    let step = match does {
        Bob::Clears => ForeignStep::Clear {
            id: id(),
            mode: Mode::User,
        },
        Bob::Asks(way) => ForeignStep::Ask {
            id: id(),
            mode: Mode::User,
            way,
        },
        Bob::Closes => ForeignStep::CloseHeld { keep: None },
    };
    Foreign { session: BOB, step }
}

/// The lists of a script, in each of which Bob does one thing or nothing.
fn script_of(alloc: Global, does: &[Option<Bob>]) -> Result<Vec<Vec<Foreign>>, AllocError>
    ensures { IfOk result (λ script.
        AllForeign (record { pass = 0; count = 0 }) (map (λ list. list.items) script.items)) }
{
    let mut script = Vec::new(alloc);
    for does in does {
        let list = match does {
            Some(does) => one_step(alloc, *does)?,
            None => Vec::new(alloc),
        };
        add_list(&mut script, list)?;
    }
    Ok(script)
}

fn one_step(alloc: Global, does: Bob) -> Result<Vec<Foreign>, AllocError>
    ensures { IfOk result
        (λ list. AllByRecursion (IsForeign (record { pass = 0; count = 0 })) list.items) }
{
    let mut list = Vec::new(alloc);
    list.push(foreign(does))?;
    Ok(list)
}

fn add_list(script: &mut Vec<Vec<Foreign>>, list: Vec<Foreign>) -> Result<(), AllocError>
    requires list { AllByRecursion (IsForeign (record { pass = 0; count = 0 })) list.items }
    requires before { AllForeign (record { pass = 0; count = 0 })
        (map (λ list. list.items) script.old.items) }
    ensures { AllForeign (record { pass = 0; count = 0 })
        (map (λ list. list.items) script.new.items) }
{
    script.push(list)?;
    Ok(())
}

/// What Bob's step was replied that made this mark.
fn bobs_reply<C: Clock>(desk: &Solo<'_, C>, place: usize) -> Option<MarkReply> {
    let mark = desk.histories().last()?.marks.as_slice().get(place)?;
    (mark.session == BOB).then_some(mark.reply)
}

/// What Bob's steps were replied, by the places of their marks.
fn bobs_replies<C: Clock>(alloc: Global, desk: &Solo<'_, C>) -> Result<String, AllocError> {
    let mut all = String::new(alloc);
    for place in 0..16 {
        if let Some(reply) = bobs_reply(desk, place) {
            all.push_str(&format!(in alloc; "\n{place} {reply:?}")?)?;
        }
    }
    Ok(all)
}

/// Serves a session of Alice's whose clock goes on by so many seconds from each reading to the
/// next: what comes of it, and of Bob's steps.
fn served_beside(
    alloc: Global,
    seconds: u64,
    does: &[Option<Bob>],
    row: &Row,
) -> Result<String, Fail> {
    let launches = Vec::from_slice(alloc, row.launches)?;
    let mut launcher = MemLauncher::new(alloc, planned(alloc, row, 3)?, launches);
    let mut link = client(alloc, row, 5)?;
    let mut keys = keys_of(alloc, row)?;
    let mut dice = ListDice::new(Vec::from_slice(alloc, row.dice)?, Vec::new(alloc));
    let rules = rules_of(row);
    let mut clock = StepClock::new(0, seconds);
    let script = script_of(alloc, does)?;
    let mut desk = Solo::new(alloc, LIMITS, &mut clock, ALICE, script)?;
    let mut pinentry = Pinentry::new(alloc, &mut launcher, program());
    let end = serve_session(
        alloc,
        &rules,
        &mut link,
        &mut desk,
        &mut pinentry,
        &mut keys,
        &mut dice,
    );
    let replies = bobs_replies(alloc, &desk);
    desk.end();
    let _ = pinentry.into_launcher();
    let replies = replies?;
    let status = u8::from(end != SessionEnd::Ended);
    let written = String::from_utf8_lossy(alloc, link.written())?;
    let children = children_text(alloc, &launcher)?;
    let kept = kept_text(alloc, row, &mut keys);
    Ok(format!(in alloc; "{written}{status}{children}{kept}{replies}")?)
}

/// The usual pinentry.
fn program() -> Word {
    let mut word = Word::new();
    let _ = word.try_extend_from_slice(b"/usr/bin/pinentry");
    word
}

/// What Bob does before each turn and while it stands, in how many seconds each, what he is
/// replied, and Alice's sessions.
type Beside = (&'static [Option<Bob>], u64, &'static str, &'static [Row]);

const BESIDES: [Beside; 5] = [
    // What is typed is given where it was cleared meanwhile, and it is what is kept.
    (
        &[None, Some(Bob::Clears), Some(Bob::Asks(Way::Quiet))],
        1,
        "\n1 Done\n3 Given(2)",
        &[Row {
            sent: "GET_PASSPHRASE --data id1 X X X\nGET_PASSPHRASE --no-ask id1\n",
            answered: "D new\nOK\nOK 6E6577\n",
            children: &[(PIN, "D new\nOK\n", "GETPIN\nBYE\n")],
            ..PLAIN
        }],
    ),
    // Bob asks at 0 seconds, and Alice at 31, 62 and 93: a request that stood for a minute is a
    // timeout.
    (
        &[Some(Bob::Asks(Way::Prompt)), None, None, Some(Bob::Closes)],
        31,
        "\n0 Open",
        &[Row {
            sent: "GET_PASSPHRASE --data id1 X X X\n",
            answered: "ERR 67108926 Timeout <GPG Agent>\n",
            ..PLAIN
        }],
    ),
    // So is one on keys, and the next one has the seat that Bob lets go.
    (
        &[Some(Bob::Asks(Way::Prompt)), None, None, Some(Bob::Closes)],
        31,
        "\n0 Open\n2 Done",
        LATE,
    ),
    // One that asks nobody doesn't stand.
    (HOLDS, 1, "\n0 Open\n6 Done", BESIDE),
    (HOLDS, 1, "\n0 Open\n5 Done", BEHIND),
];

/// Bob has the seat through five turns.
const HOLDS: &[Option<Bob>] = &[
    Some(Bob::Asks(Way::Prompt)),
    None,
    None,
    None,
    None,
    Some(Bob::Closes),
];

/// The first of the sessions that comes out otherwise.
fn first_wrong(alloc: Global, beside: &Beside) -> Result<Option<String>, Fail> {
    let (does, seconds, replies, rows) = beside;
    for row in rows.iter() {
        let got = served_beside(alloc, *seconds, does, row)?;
        let wanted = wanted(alloc, row)?;
        if got != format!(in alloc; "{wanted}{replies}")? {
            return Ok(Some(format!(in alloc; "{}: {got}", row.sent)?));
        }
    }
    Ok(None)
}

#[test]
fn sessions_go_on_beside_another_at_the_seat(rt: HostRuntime) -> Result<(), Fail> {
    for beside in BESIDES {
        assert_eq!(rt; first_wrong(rt.alloc(), &beside)?, None);
    }
    Ok(())
}
