//! The core beside a plain program: at each of some thousand generated steps that looks through all
//! marks (log entries) so far, as the policy's definitions do, and both have to say the same. Begin
//! with `stored` and `seat`, the plain program's words for the definitions.

use crate::cache_core::give_up;
use agent_core::{Core, mark_step_of};
use agent_ports::SessionId;
use cache_policy::{
    CacheId, Life, Limits, MAX_MOMENT, Mark, MarkReply, MarkStep, Mode, Refused, Reply, Secret,
    Step, Under, Wait, Way,
};
use prompt_seat::{Seat, Ticket};
use rand_core::utils::NextWord;
use rand_pcg::Pcg32;
use std::alloc::Global;
use std::test::Fail;

/// The manual's lifetimes.
const LIMITS: Limits = Limits {
    ttl: 600,
    max: 7200,
    ttl_ssh: 1800,
    max_ssh: 7200,
};

const ALICE: SessionId = SessionId { pass: 0, count: 1 };

const BOB: SessionId = SessionId { pass: 1, count: 1 };

/// What a mark stored.
#[derive(Drop)]
struct PlainEntry {
    under: Under,
    life: Life,
}

fn is_ssh(mode: Mode) -> bool {
    mode == Mode::Ssh
}

/// How many seconds an entry may go unused, if there is an end to that.
fn ttl_of(limits: &Limits, mode: Mode, life: Life) -> Option<u32> {
    match life {
        Life::Default => Some(if is_ssh(mode) {
            limits.ttl_ssh
        } else {
            limits.ttl
        }),
        Life::Endless => None,
        Life::Seconds(seconds) => Some(seconds),
    }
}

/// The ticket that is out, by the place of its mark: the last Open mark's, unless a Close of its
/// number follows.
fn seat(marks: &[Mark]) -> Option<usize> {
    let mut out = None;
    for (place, mark) in marks.iter().enumerate() {
        if mark.reply == MarkReply::Open {
            out = Some(place);
        }
        if let MarkStep::Close { ticket, keep: _ } = &mark.step
            && out == Some(*ticket as usize)
        {
            out = None;
        }
    }
    out
}

/// What the ticket of this mark is kept under.
fn under_of(mark: &Mark) -> Option<Under> {
    match &mark.step {
        MarkStep::Ask {
            id,
            mode,
            way: _,
            since: _,
        } => Some(Under {
            id: id.copy(),
            mode: *mode,
        }),
        MarkStep::Seat {
            under: Some(Under { id, mode }),
            since: _,
        } => Some(Under {
            id: id.copy(),
            mode: *mode,
        }),
        _ => None,
    }
}

/// What a mark stored, by the marks before it.
fn stored(limits: &Limits, before: &[Mark], mark: &Mark) -> Option<PlainEntry> {
    let stored = match &mark.step {
        MarkStep::Put {
            id,
            mode,
            life,
            secret: _,
        } => PlainEntry {
            under: Under {
                id: id.copy(),
                mode: *mode,
            },
            life: *life,
        },
        MarkStep::Close {
            ticket,
            keep: Some(_),
        } => {
            let place = seat(before)?;
            if place != *ticket as usize {
                return None;
            }
            PlainEntry {
                under: under_of(before.get(place)?)?,
                life: Life::Default,
            }
        }
        _ => return None,
    };
    if ttl_of(limits, stored.under.mode, stored.life) == Some(0) {
        return None;
    }
    Some(stored)
}

/// Whether the mark takes away what was stored under this.
fn takes_away(mark: &Mark, under: &Under) -> bool {
    match &mark.step {
        MarkStep::Flush => true,
        MarkStep::Clear { id, mode } => {
            *id == under.id && (under.mode == Mode::Any || under.mode == *mode)
        }
        _ => false,
    }
}

/// The number of the live entry for a request: the last that was stored under the id in a mode that
/// covers the asked one, where it is neither taken away nor past a lifetime.
fn live(limits: &Limits, marks: &[Mark], id: &CacheId, mode: Mode, moment: u64) -> Option<u64> {
    let mut newest = None;
    for (place, mark) in marks.iter().enumerate() {
        if let Some(entry) = stored(limits, &marks[..place], mark)
            && entry.under.id == *id
            && (entry.under.mode == Mode::Any || entry.under.mode == mode)
        {
            newest = Some((place, entry));
        }
    }
    let (place, entry) = newest?;
    let entered = marks.get(place)?.moment;
    let number = place as u64;
    let mut last = entered;
    for (later, mark) in marks.iter().enumerate() {
        if later > place && takes_away(mark, &entry.under) {
            return None;
        }
        if mark.reply == MarkReply::Given(number) {
            last = last.max(mark.moment);
        }
    }
    let max = if is_ssh(entry.under.mode) {
        limits.max_ssh
    } else {
        limits.max
    };
    let unused = match ttl_of(limits, entry.under.mode, entry.life) {
        Some(ttl) => moment <= last.saturating_add(ttl as u64),
        None => true,
    };
    if unused && moment <= entered.saturating_add(max as u64) {
        Some(number)
    } else {
        None
    }
}

/// What a step that wants the prompt is replied. None is Stand.
fn prompted(marks: &[Mark], since: Option<u64>, moment: u64) -> Option<MarkReply> {
    if marks
        .iter()
        .any(|mark| matches!(&mark.step, MarkStep::Stop))
    {
        return Some(MarkReply::Stopping);
    }
    match (seat(marks), since) {
        (Some(_), Some(since)) if since.saturating_add(60) <= moment => { Some(MarkReply::Late) }
        (Some(_), _) => None,
        (None, _) => Some(MarkReply::Open),
    }
}

fn policy(limits: &Limits, marks: &[Mark], step: &MarkStep, moment: u64) -> Option<MarkReply> {
    match step {
        MarkStep::Ask {
            id,
            mode,
            way,
            since,
        } => match live(limits, marks, id, *mode, moment) {
            Some(number) => Some(MarkReply::Given(number)),
            None => match way {
                Way::Quiet => Some(MarkReply::Empty),
                Way::Prompt => prompted(marks, *since, moment),
            },
        },
        MarkStep::Seat { under: _, since } => prompted(marks, *since, moment),
        MarkStep::Peek { id, mode } => Some(MarkReply::Held(live(
            limits, marks, id, *mode, moment,
        ).is_some())),
        _ => Some(MarkReply::Done),
    }
}

/// Whether the passphrase is the one that the mark with this number stored.
fn is_secret_of(marks: &[Mark], number: u64, secret: &Secret) -> bool {
    match marks.get(number as usize) {
        Some(mark) => match &mark.step {
            MarkStep::Put {
                id: _,
                mode: _,
                life: _,
                secret: put,
            } => put.bytes() == secret.bytes(),
            MarkStep::Close {
                ticket: _,
                keep: Some(kept),
            } => kept.bytes() == secret.bytes(),
            _ => false,
        },
        None => false,
    }
}

/// Words of the dice, the ticket that is out, and the wait that was given last, for the steps to
/// come.
struct Maker {
    dice: Pcg32,
    out: Option<Ticket>,
    wait: Option<Wait>,
}

impl Maker {
    fn id(&mut self) -> CacheId {
        let bytes: &[u8] = match self.dice.next_word() % 3 {
            0 => b"id1",
            1 => b"id2",
            _ => b"id3",
        };
        match CacheId::of(bytes) {
            Some(id) => id,
            None => unreachable!(),
        }
    }

    fn mode(&mut self) -> Mode {
        match self.dice.next_word() % 5 {
            0 => Mode::Normal,
            1 => Mode::User,
            2 => Mode::Ssh,
            3 => Mode::Nonce,
            _ => Mode::Any,
        }
    }

    fn life(&mut self) -> Life {
        match self.dice.next_word() % 5 {
            0 => Life::Endless,
            1 => Life::Seconds(0),
            2 => Life::Seconds(300),
            _ => Life::Default,
        }
    }

    fn secret(&mut self) -> Option<Secret> {
        let word = self.dice.next_word();
        Secret::of(&word.to_be_bytes())
    }

    fn under(&mut self) -> Option<Under> {
        if self.dice.next_word() % 2 == 0 {
            return None;
        }
        let id = self.id();
        let mode = self.mode();
        Some(Under { id, mode })
    }

    /// What a Close keeps.
    fn keep(&mut self) -> Option<Secret> {
        if self.dice.next_word() % 2 == 0 {
            self.secret()
        } else {
            None
        }
    }

    fn close(&mut self) -> Step {
        let keep = self.keep();
        match self.out.take() {
            Some(ticket) => Step::Close { ticket, keep },
            None => self.close_another(),
        }
    }

    /// A Close of a ticket of another seat, which may have the number of the one that is out.
    fn close_another(&mut self) -> Step {
        let number = (self.dice.next_word() % 64) as u64;
        let keep = self.keep();
        match Seat::new().take(number) {
            Some(ticket) => Step::Close { ticket, keep },
            None => Step::Flush,
        }
    }

    fn peek(&mut self) -> Step {
        let id = self.id();
        let mode = self.mode();
        Step::Peek { id, mode }
    }

    fn put(&mut self) -> Step {
        let id = self.id();
        let mode = self.mode();
        let life = self.life();
        match self.secret() {
            Some(secret) => Step::Put {
                id,
                mode,
                life,
                secret,
            },
            None => Step::Flush,
        }
    }

    /// A wait to hand in: the one that was given last, one of another session, or none.
    fn wait(&mut self) -> Option<Wait> {
        match self.dice.next_word() % 8 {
            0 => None,
            1 => Some(Wait::new(BOB, 0)),
            _ => self.wait.take(),
        }
    }

    fn ask(&mut self, way: Way) -> Step {
        let id = self.id();
        let mode = self.mode();
        let wait = self.wait();
        Step::Ask {
            id,
            mode,
            way,
            wait,
        }
    }

    fn clear(&mut self) -> Step {
        let id = self.id();
        let mode = self.mode();
        Step::Clear { id, mode }
    }

    fn step(&mut self) -> Step {
        match self.dice.next_word() % 64 {
            0..=19 => self.ask(Way::Quiet),
            20..=29 => self.ask(Way::Prompt),
            30..=33 => Step::Seat {
                under: self.under(),
                wait: self.wait(),
            },
            34..=40 => self.close(),
            41 => self.close_another(),
            42..=53 => self.put(),
            54..=57 => self.clear(),
            58..=62 => self.peek(),
            _ => {
                if self.dice.next_word() % 8 == 0 {
                    Step::Stop
                } else {
                    Step::Flush
                }
            }
        }
    }

    /// The next reading of a clock that mostly rises.
    fn reading(&mut self, before: u64) -> u64 {
        let seconds = (self.dice.next_word() % 120) as u64;
        if self.dice.next_word() % 16 == 0 {
            before.saturating_sub(seconds)
        } else {
            before.saturating_add(seconds)
        }
    }

    /// Keeps the ticket that a reply gives, and says what its mark shows. None is Stand.
    fn take(&mut self, reply: Reply) -> Option<MarkReply> {
        let shown = MarkReply::of(&reply);
        match reply {
            Reply::Open(ticket) => {
                if let Some(before) = self.out.replace(ticket) {
                    give_up(Step::Close {
                        ticket: before,
                        keep: None,
                    });
                }
            }
            Reply::Given(_) => {}
            Reply::Empty => {}
            Reply::Stand(wait) => self.wait = Some(wait),
            Reply::Late => {}
            Reply::Done => {}
            Reply::Held(_) => {}
            Reply::Stopping => {}
        }
        shown
    }

    fn end(self) {
        let Maker {
            dice: _,
            out,
            wait: _,
        } = self;
        if let Some(ticket) = out {
            give_up(Step::Close { ticket, keep: None });
        }
    }
}

/// Whether a passphrase that is given is the one that was stored.
fn gives_right(marks: &[Mark], reply: &Reply) -> bool {
    match reply {
        Reply::Given(grant) => is_secret_of(marks, grant.number(), grant.secret()),
        _ => true,
    }
}

/// How many of these steps were replied alike by the core and by the plain program.
fn replied_alike(alloc: Global, seed: u64, steps: u64) -> u64 {
    let limits = LIMITS;
    let mut core = Core::new(alloc, limits);
    let mut marks: Vec<Mark> = Vec::new(alloc);
    let mut maker = Maker {
        dice: Pcg32::new(seed, 54),
        out: None,
        wait: None,
    };
    let mut moment = 0;
    let mut alike = 0u64;
    for _ in 0..steps {
        let step = maker.step();
        let asked = mark_step_of(ALICE, &step);
        let reading = maker.reading(moment);
        let now = reading.min(MAX_MOMENT).max(moment);
        let want = policy(&limits, &marks, &asked, now);
        match core.step(reading, ALICE, step) {
            Ok(reply) => {
                let right = gives_right(&marks, &reply);
                let shown = maker.take(reply);
                if right && shown == want {
                    alike = alike.saturating_add(1);
                }
                if let Some(reply) = shown {
                    moment = now;
                    let mark = Mark {
                        session: ALICE,
                        step: asked,
                        reply,
                        moment,
                    };
                    if marks.push(mark).is_err() {
                        break;
                    }
                }
            }
            Err(Refused { step }) => give_up(step),
        }
    }
    maker.end();
    alike
}

#[test]
fn a_plain_program_over_all_marks_replies_alike(rt: HostRuntime) -> Result<(), Fail> {
    for seed in 1..=8 {
        assert_eq!(rt; replied_alike(rt.alloc(), seed, 400), 400, "seed {seed}");
    }
    Ok(())
}
