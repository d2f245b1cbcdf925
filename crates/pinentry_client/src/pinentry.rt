//! A pinentry as the prompter of `agent_ask`: a child that is started for each prompt and finished
//! behind it. It uses the launcher that it was lent and the child's link, nothing else. Begin with
//! `start`, `getpin` and `shut`; `PinentryDoes` of `specs/Dialogues` says what each call does.

ghost use Rattle.std.specs.Prelude.{◌≡◌, false, None, is_some};
ghost use Rattle.pinentry_client.specs.Dialogues.{SaysBye, stays_ready, stays_open, opened_of};

use crate::Word;
use crate::answers::Trouble;
use crate::settings::plain_line;
use crate::talk::{consent_talk, pin_talk, start_talk};
use agent_ask::{Consent, Opened, Outcome, PromptSpec, Prompter};
use agent_ports::{Launcher, Link};
use assuan_client::Peer;
use assuan_line::{BUDGET, write_line};
use prompt_seat::Ticket;
use std::alloc::Global;
use std::marker::Model;

/// Prompts by children of a launcher, one for each prompt (pinentry manual, "protocol").
///
/// Contracts see the program, the launcher, the connection to the child that stands, if one does,
/// and whether it can be asked.
pub struct Pinentry<'a, La: Launcher> {
    alloc: Global,
    launcher: &'a mut La,
    program: Word,
    child: Option<Peer<La::Child>>,
    ready: bool,
}

impl<'a, La: Launcher> Model for Pinentry<'a, La> {
    ghost use Rattle.pinentry_client.specs.States.{PinentryState, ChildWaits};

    ghost Value = { PinentryState La };

    ghost view = { λ p. record {
      program = p.program.items;
      launcher = p.launcher.now;
      lent = p.launcher.ghost_name;
      child = p.child;
      ready = p.ready;
    } };

    ghost invariant = { λ p. ChildWaits p.ready p.child };
}

impl<'a, La: Launcher> Pinentry<'a, La> {
    /// Prompts by `program`, started anew for each prompt.
    pub fn new(alloc: Global, launcher: &'a mut La, program: Word) -> Self
        ensures program { result.program ≡ program.items }
        ensures launcher { result.launcher ≡ launcher.old }
        ensures lent { result.lent ≡ launcher.entry.ghost_name }
        ensures child { result.child ≡ None }
        ensures ready { result.ready ≡ false }
    {
        Pinentry {
            alloc,
            launcher,
            program,
            child: None,
            ready: false,
        }
    }

    /// Gives the launcher back, once no child stands.
    #[tactic(auto, using(crate::proofs::Calling::no_child))]
    pub fn into_launcher(self) -> &'a mut La
        requires { is_some self.child ≡ false }
        ensures lent { result.ghost_name ≡ self.entry.lent }
        ensures launcher { result.now ≡ self.entry.launcher }
    {
        let Pinentry {
            alloc: _,
            launcher,
            program: _,
            child,
            ready: _,
        } = self;
        match child {
            None => launcher,
            Some(_) => unreachable!(),
        }
    }
}

impl<'a, La: Launcher> Prompter for Pinentry<'a, La> {
    ghost use Rattle.pinentry_client.specs.States.{at_prompter, at_pinentry};
    ghost use Rattle.pinentry_client.specs.Dialogues.{PinentryCall};

    ghost at = { λ p. at_prompter (at_pinentry La.launches p) };

    ghost prompted = { λ before call after. PinentryCall La.launches before call after };

    ghost promise = { λ before call after does. does.is };

    fn ready(&self) -> bool {
        self.ready
    }

    fn start(&mut self, _ticket: &Ticket, spec: &PromptSpec) -> Opened {
        let Some(link) = self.launcher.launch(&self.program) else {
            return Opened::Failed;
        };
        let mut peer = Peer::new(self.alloc, link, BUDGET);
        let end = start_talk(&mut peer, spec);
        self.ready = end.is_ok();
        match self.child.replace(peer) {
            None => opened_of(end),
            Some(_) => unreachable!(),
        }
    }

    fn getpin(&mut self, _ticket: &Ticket, error: &[u8]) -> Outcome {
        let Some(peer) = &mut self.child else {
            unreachable!();
        };
        let outcome = pin_talk(peer, error);
        self.ready = stays_ready(&outcome);
        outcome
    }

    fn confirm(&mut self, _ticket: &Ticket) -> Consent {
        let Some(peer) = &mut self.child else {
            unreachable!();
        };
        let consent = consent_talk(peer);
        self.ready = stays_open(&consent);
        consent
    }

    fn shut(&mut self, _ticket: &Ticket) {
        let ready = self.ready;
        self.ready = false;
        let Some(peer) = self.child.take() else {
            return;
        };
        let mut link = peer.into_link();
        say_bye(&mut link, ready);
        self.launcher.finish(link);
    }
}

/// Says the end to a child that can be asked. Its answer isn't read.
fn say_bye<L: Link>(link: &mut L, ready: bool)
    ensures said { SaysBye ready (L.output link.old) (L.output link.new) }
    ensures input { L.input link.new ≡ L.input link.old }
{
    if ready {
        let _ = write_line(link, &plain_line(b"BYE"));
    }
}

/// What the start of a prompt came to.
fn opened_of(end: Result<u32, Trouble>) -> Opened
    ensures { result ≡ opened_of end }
{
    match end {
        Ok(pid) => Opened::Pid(pid),
        Err(Trouble::Failed) => Opened::Failed,
        Err(Trouble::Broken(breach)) => Opened::Broken(breach),
    }
}

/// Whether the child can be asked again.
fn stays_ready(outcome: &Outcome) -> bool
    ensures { result ≡ stays_ready outcome.now }
{
    !matches!(outcome, Outcome::Failed | Outcome::Broken(_))
}

fn stays_open(consent: &Consent) -> bool
    ensures { result ≡ stays_open consent.now }
{
    !matches!(consent, Consent::Failed | Consent::Broken(_))
}
