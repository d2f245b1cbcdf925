//! Each kind of step on a core's state: an ask, the seat (the prompt's lock), a put, a close, a
//! clear, a flush, a peek and a stop. It changes that state alone, at the moment that it is given,
//! and hands a step back for which there is no memory. Begin with `State::take_step`; `Takes` of
//! `specs/Taking` says what each comes to.

ghost use Rattle.std.specs.{Prelude.{◌≡◌, ◌≤◌, true, None, Some, IsSome, IfErr}, Option.is_some};
ghost use Rattle.cache_policy.specs.declared.grant.Grant.{Grant as OneGrant};
ghost use Rattle.cache_policy.specs.{Turns.{mark_step, turn_of}, Waits.{is_late, since_by}};
ghost use Rattle.cache_book.specs.Shelves.{cleared, touched};

use crate::state::State;
use agent_ports::SessionId;
use cache_book::Shelf;
use cache_policy::{
    CacheId, Entry, Life, MAX_WAIT, Mode, Refused, Reply, Secret, Step, Under, Wait, Way, since_by,
};
use prompt_seat::Ticket;

impl State {
    ghost use Rattle.std.specs.Prelude.{Option, []};
    ghost use Rattle.agent_core.specs.Taking.{Takes, MayMark, HasMarked, HasMarkedAlone, Finds};
    ghost use Rattle.agent_core.specs.Taking.{ComesToSeat, may_open, Prompts, StandsAside, Asks};
    ghost use Rattle.agent_core.specs.Taking.{Puts, Closes, prompt_turn, held_at, next_slots};
    ghost use Rattle.agent_core.specs.{Taking.{number_of, slots_at}, States.IsState};

    /// Takes a session's step at a moment.
    pub(crate) fn take_step(
        &mut self,
        moment: u64,
        session: SessionId,
        step: Step,
    ) -> Result<Reply, Refused>
        requires { MayMark self.old moment }
        ensures takes { Takes self.old moment session (mark_step session step)
            (turn_of result) self.new }
        ensures back { IfErr result (λ refused. refused.step ≡ step) }
        ensures state { IsState self.new }
    {
        match step {
            Step::Ask {
                id,
                mode,
                way,
                wait,
            } => self.ask(moment, session, id, mode, way, wait),
            Step::Seat { under, wait } => self.take_seat(moment, session, under, wait),
            Step::Close { ticket, keep } => {
                self.close(moment, ticket, keep);
                Ok(Reply::Done)
            }
            Step::Put {
                id,
                mode,
                life,
                secret,
            } => self.put(moment, id, mode, life, secret),
            Step::Clear { id, mode } => {
                self.clear(moment, &id, mode);
                Ok(Reply::Done)
            }
            Step::Flush => {
                self.flush(moment);
                Ok(Reply::Done)
            }
            Step::Peek { id, mode } => Ok(Reply::Held(self.peek(moment, &id, mode))),
            Step::Stop => {
                self.stop(moment);
                Ok(Reply::Done)
            }
        }
    }

    /// Whether a step comes to the seat: it opens a prompt where that is free, and has to stand
    /// where it is held. One that has stood for too long does neither.
    pub(crate) fn comes_to_seat(&self, moment: u64, session: SessionId, step: &Step) -> bool
        ensures { ComesToSeat self.now moment (mark_step session step.now) result }
    {
        match step {
            Step::Ask {
                id,
                mode,
                way: Way::Prompt,
                wait,
            } => match self.live(id, *mode, moment) {
                Some(_) => false,
                None => self.may_open(moment, since_by(session, wait)),
            },
            Step::Seat { under: _, wait } => self.may_open(moment, since_by(session, wait)),
            _ => false,
        }
    }

    /// Whether a step that wants the prompt opens one, or is to be taken again.
    fn may_open(&self, moment: u64, since: Option<u64>) -> bool
        ensures { result ≡ may_open self.now since moment }
    {
        !self.stopped && !(self.seat.holder().is_some() && is_late(since, moment))
    }

    /// Asks for a passphrase.
    fn ask(
        &mut self,
        moment: u64,
        session: SessionId,
        id: CacheId,
        mode: Mode,
        way: Way,
        wait: Option<Wait>,
    ) -> Result<Reply, Refused>
        requires { MayMark self.old moment }
        ensures asks { Asks self.old moment session id mode way (since_by session wait)
            (turn_of result) self.new }
        ensures back { IfErr result (λ refused. refused.step ≡ Step.Ask id mode way wait) }
        ensures state { IsState self.new }
    {
        if let Some(grant) = self.live(&id, mode, moment) {
            self.use_entry(moment, grant.number());
            return Ok(Reply::Given(grant));
        }
        match way {
            Way::Quiet => {
                self.begin(moment);
                Ok(Reply::Empty)
            }
            Way::Prompt => {
                let since = since_by(session, &wait);
                match self.prompt(moment, session, since, Some(Under { id, mode })) {
                    Ok(reply) => Ok(reply),
                    Err(Some(Under { id, mode })) => Err(Refused {
                        step: Step::Ask {
                            id,
                            mode,
                            way,
                            wait,
                        },
                    }),
                    Err(None) => unreachable!(),
                }
            }
        }
    }

    /// Asks for the seat, whatever is cached.
    fn take_seat(
        &mut self,
        moment: u64,
        session: SessionId,
        under: Option<Under>,
        wait: Option<Wait>,
    ) -> Result<Reply, Refused>
        requires { MayMark self.old moment }
        ensures prompts { Prompts self.old moment session (since_by session wait) under
            (turn_of result) self.new }
        ensures back { IfErr result (λ refused. refused.step ≡ Step.Seat under wait) }
        ensures state { IsState self.new }
    {
        let since = since_by(session, &wait);
        match self.prompt(moment, session, since, under) {
            Ok(reply) => Ok(reply),
            Err(under) => Err(Refused {
                step: Step::Seat { under, wait },
            }),
        }
    }

    /// Opens a prompt where the seat is free. What is typed is kept under `under`, and there is
    /// room for it from now on. `since` is the moment of the session's first try.
    fn prompt(
        &mut self,
        moment: u64,
        session: SessionId,
        since: Option<u64>,
        under: Option<Under>,
    ) -> Result<Reply, Option<Under>>
        requires { MayMark self.old moment }
        ensures prompts { Prompts self.old moment session since under
            (prompt_turn result) self.new }
        ensures back { IfErr result (λ back. back ≡ under) }
        ensures state { IsState self.new }
    {
        if self.stopped {
            self.begin(moment);
            return Ok(Reply::Stopping);
        }
        if self.seat.holder().is_some() {
            return Ok(self.stand_aside(moment, session, since));
        }
        if under.is_some() && self.shelf.reserve(1).is_err() {
            return Err(under);
        }
        Ok(Reply::Open(self.open(moment, under)))
    }

    /// Stands before the seat that another session has, unless it has done so for too long.
    fn stand_aside(&mut self, moment: u64, session: SessionId, since: Option<u64>) -> Reply
        requires { MayMark self.old moment }
        ensures stands { StandsAside self.old moment session since (turn_of (Ok result)) self.new }
        ensures state { IsState self.new }
    {
        if is_late(since, moment) {
            self.begin(moment);
            return Reply::Late;
        }
        Reply::Stand(Wait::new(session, since.unwrap_or(moment)))
    }

    /// Gives the entry with this number.
    fn use_entry(&mut self, moment: u64, number: u64)
        requires { MayMark self.old moment }
        ensures marked { HasMarked self.old moment
            (touched number moment (slots_at self.old moment))
            (held_at self.old) self.old.stopped self.new }
        ensures state { IsState self.new }
    {
        self.begin(moment);
        self.shelf.touch(number, moment);
    }

    /// Gives a ticket. There is room for what is kept under it.
    fn open(&mut self, moment: u64, under: Option<Under>) -> Ticket
        requires may { MayMark self.old moment }
        requires free { self.old.seat ≡ None }
        requires room { IsSome under → 1 ≤ self.old.shelf.spare }
        ensures number { result ≡ number_of self.old }
        ensures marked { HasMarked self.old moment (slots_at self.old moment)
            (Some (record { ticket = result; under = under })) self.old.stopped self.new }
        ensures state { IsState self.new }
    {
        let number = self.begin(moment);
        let Some(ticket) = self.seat.take(number) else {
            unreachable!()
        };
        self.under = under;
        ticket
    }

    /// Stores a passphrase. There still is room for what is typed at the prompt.
    fn put(
        &mut self,
        moment: u64,
        id: CacheId,
        mode: Mode,
        life: Life,
        secret: Secret,
    ) -> Result<Reply, Refused>
        requires { MayMark self.old moment }
        ensures puts { Puts self.old moment id mode life secret (turn_of result) self.new }
        ensures back { IfErr result (λ refused. refused.step ≡ Step.Put id mode life secret) }
        ensures state { IsState self.new }
    {
        if self.shelf.reserve(2).is_err() {
            return Err(Refused {
                step: Step::Put {
                    id,
                    mode,
                    life,
                    secret,
                },
            });
        }
        let number = self.begin(moment);
        if let Some(entry) = Entry::of(&self.limits, number, moment, id, mode, life, secret) {
            self.shelf.store(entry);
        }
        Ok(Reply::Done)
    }

    /// Takes a ticket back, and keeps what was typed where the ticket is the one that is out and
    /// names what to keep it under.
    fn close(&mut self, moment: u64, ticket: Ticket, keep: Option<Secret>)
        requires { MayMark self.old moment }
        ensures closes { Closes self.old moment ticket keep self.new }
        ensures state { IsState self.new }
    {
        let number = self.begin(moment);
        if !self.seat.give(ticket) {
            return;
        }
        let under = self.under.take();
        if let (Some(Under { id, mode }), Some(secret)) = (under, keep)
            && let Some(entry) = Entry::of(
                &self.limits,
                number,
                moment,
                id,
                mode,
                Life::Default,
                secret,
            )
        {
            self.shelf.store(entry);
        }
    }

    /// Forgets what is stored under an id in the modes that cover the named one.
    fn clear(&mut self, moment: u64, id: &CacheId, mode: Mode)
        requires { MayMark self.old moment }
        ensures marked { HasMarked self.old moment (cleared id.now mode (slots_at self.old moment))
            (held_at self.old) self.old.stopped self.new }
        ensures state { IsState self.new }
    {
        self.begin(moment);
        self.shelf.clear(id, mode);
    }

    /// Forgets everything.
    fn flush(&mut self, moment: u64)
        requires { MayMark self.old moment }
        ensures marked { HasMarked self.old moment [] (held_at self.old) self.old.stopped self.new }
        ensures state { IsState self.new }
    {
        self.begin(moment);
        self.shelf.flush();
    }

    /// Whether a passphrase is there.
    fn peek(&mut self, moment: u64, id: &CacheId, mode: Mode) -> bool
        requires { MayMark self.old moment }
        ensures found { (found : Option OneGrant)
            × Finds (next_slots self.old) id.now mode moment found × (result ≡ is_some found) }
        ensures marked { HasMarkedAlone self.old moment self.new }
        ensures state { IsState self.new }
    {
        let found = self.live(id, mode, moment);
        self.begin(moment);
        found.is_some()
    }

    /// Opens no prompt from now on.
    fn stop(&mut self, moment: u64)
        requires { MayMark self.old moment }
        ensures marked { HasMarked self.old moment (slots_at self.old moment)
            (held_at self.old) true self.new }
        ensures state { IsState self.new }
    {
        self.begin(moment);
        self.stopped = true;
    }
}

/// Whether a step that was first tried at `since` has stood for too long.
fn is_late(since: Option<u64>, moment: u64) -> bool
    ensures { result ≡ is_late since moment }
{
    match since {
        Some(since) => since <= moment && moment - since >= MAX_WAIT,
        None => false,
    }
}
