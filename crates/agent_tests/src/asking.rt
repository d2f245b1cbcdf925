//! Tests of one prompt, over a prompter, a client and a test of lists: which calls each makes, what
//! is shown as an error, and what comes of it. Begin with `CASES` and `CONSENTS`, a row a prompt.

ghost use Rattle.std.specs.Prelude.{◌≡◌, ◌≤◌, false};
ghost use Rattle.agent_ports.specs.Counts.{Rose};

use agent_ask::{
    Agreed, AskPlan, Asked, Caller, Consent, Heard, Opened, Outcome, PromptSpec, Prompter, Test,
    Tested, a_consent_has_one_answer, a_prompt_has_one_answer, ask_consent, ask_pin,
    failures_are_counted,
};
use assuan_text::Text;
use cache_policy::Secret;
use prompt_seat::{Seat, Ticket};
use session_options::{Options, Rules};
use std::test::Fail;

/// An answer to a question.
#[derive(Clone, Copy, PartialEq, Eq)]
enum Answer {
    Pin(&'static [u8]),
    Yes,
    No,
    Cancelled,
    TimedOut,
    Failed,
}

/// A prompter that gives these answers one after another, and writes down what it was asked.
#[derive(Drop)]
struct ListPrompter {
    answers: &'static [Answer],
    starts: bool,
    ready: bool,
    faults: u64,
    log: Text,
}

impl ListPrompter {
    fn new(starts: bool, answers: &'static [Answer]) -> ListPrompter
        ensures { result.ready ≡ false }
    {
        ListPrompter {
            answers,
            starts,
            ready: false,
            faults: 0,
            log: Text::new(),
        }
    }

    fn write(&mut self, text: &[u8])
        ensures ready { self.new.ready ≡ self.old.ready }
        ensures faults { self.new.faults ≡ self.old.faults }
    {
        let _ = self.log.try_extend_from_slice(text);
        let _ = self.log.try_push(b';');
    }

    fn next(&mut self) -> Answer
        ensures ready { self.new.ready ≡ self.old.ready }
        ensures faults { self.new.faults ≡ self.old.faults }
    {
        let Some((first, rest)) = self.answers.split_first() else {
            return Answer::Failed;
        };
        self.answers = rest;
        *first
    }

    fn fail(&mut self)
        ensures ready { self.new.ready ≡ false }
        ensures faults { Rose self.old.faults self.new.faults }
        ensures never_falls { self.old.faults ≤ self.new.faults }
    {
        self.ready = false;
        self.faults = self.faults.saturating_add(1);
    }
}

impl Prompter for ListPrompter {
    ghost use Rattle.agent_ask.specs.Prompters.{AtPrompter, IsCall};

    ghost at = { λ p. record { ready = p.ready; child = p.ready; faults = p.faults } };

    ghost prompted = { λ before call after.
        IsCall (record { ready = before.ready; child = before.ready; faults = before.faults }) call
        (record { ready = after.ready; child = after.ready; faults = after.faults }) };

    ghost promise = { λ before call after does. does };

    fn ready(&self) -> bool {
        self.ready
    }

    fn start(&mut self, _ticket: &Ticket, spec: &PromptSpec) -> Opened {
        self.write(&spec.description);
        if !self.starts {
            self.fail();
            return Opened::Failed;
        }
        self.ready = true;
        Opened::Pid(7)
    }

    fn getpin(&mut self, _ticket: &Ticket, error: &[u8]) -> Outcome {
        self.write(error);
        let pin = match self.next() {
            Answer::Pin(pin) => Secret::of(pin),
            Answer::Cancelled => return Outcome::Cancelled,
            Answer::TimedOut => return Outcome::TimedOut,
            _ => None,
        };
        match pin {
            Some(pin) => Outcome::Pin(pin),
            None => {
                self.fail();
                Outcome::Failed
            }
        }
    }

    fn confirm(&mut self, _ticket: &Ticket) -> Consent {
        self.write(b"confirm");
        match self.next() {
            Answer::Yes => Consent::Yes,
            Answer::No => Consent::No,
            Answer::Cancelled => Consent::Cancelled,
            Answer::TimedOut => Consent::TimedOut,
            _ => {
                self.fail();
                Consent::Failed
            }
        }
    }

    fn shut(&mut self, _ticket: &Ticket) {
        self.write(b"shut");
        self.ready = false;
    }
}

/// A client that takes note, or not.
#[derive(Drop)]
struct ListCaller {
    fine: bool,
}

impl Caller for ListCaller {
    ghost use Rattle.std.specs.Prelude.{⊤};
    ghost use Rattle.agent_ask.specs.Callers.{FitsQuestion};

    ghost listens = { λ c. ⊤ };

    ghost heard = { λ before question answer after. FitsQuestion question answer };

    ghost promise = { λ before question answer after listens fits.
        record { fits = fits; listens = λ there. tt } };

    fn launched(&mut self, _pid: u32) -> Heard {
        if self.fine {
            Heard::Fine
        } else {
            Heard::Unexpected
        }
    }

    fn secret(&mut self, _word: &[u8]) -> Heard {
        Heard::Cancelled
    }
}

/// The test of a rule that allows all passphrases but one.
#[derive(Drop)]
struct AllBut {
    wrong: &'static [u8],
}

impl Test for AllBut {
    ghost use Rattle.std.specs.Prelude.{◌≢◌};
    ghost use Rattle.agent_ask.specs.Tests.{IsTest};

    ghost rule = { λ test pin. pin ≢ test.wrong.now };

    ghost tested = { λ before pin answer after.
        IsTest (λ typed. typed ≢ before.wrong.now) pin answer (λ typed. typed ≢ after.wrong.now) };

    ghost promise = { λ before pin answer after does. does };

    fn accepts(&mut self, pin: &Secret) -> Tested {
        if pin.bytes() == self.wrong {
            Tested::No
        } else {
            Tested::Yes
        }
    }
}

fn text(bytes: &[u8]) -> Text {
    let mut text = Text::new();
    let _ = text.try_extend_from_slice(bytes);
    text
}

fn spec() -> PromptSpec {
    PromptSpec {
        title: text(b""),
        description: text(b"start"),
        prompt: text(b"Passphrase:"),
        ok: text(b""),
        cancel: text(b""),
        quality: false,
        env: Options::new(&Rules::default()).env(),
        timeout: 0,
    }
}

fn shown_as(bytes: &[u8]) -> &str {
    str::from_utf8(bytes).unwrap_or("(no text)")
}

/// What asking came to, in a word, or the passphrase.
fn told(asked: &Asked) -> &str {
    match asked {
        Asked::Pin(pin) => shown_as(pin.bytes()),
        Asked::Cancelled => "(cancelled)",
        Asked::TimedOut => "(timed out)",
        Asked::NoPinentry => "(no pinentry)",
        Asked::Bad => "(bad)",
        Asked::Heard(Heard::Unexpected) => "(unexpected)",
        Asked::Heard(_) => "(heard)",
        Asked::NoMemory => "(no memory)",
    }
}

/// The prompter's start, the client's note, the repeats, the answers, what was shown, and what it
/// came to.
type Case = (
    bool,
    Option<bool>,
    u8,
    &'static [Answer],
    &'static str,
    &'static str,
);

const CASES: [Case; 9] = [
    (
        true,
        None,
        1,
        &[
            Answer::Pin(b"short"),
            Answer::Pin(b"long enough 1"),
            Answer::Pin(b"other"),
            Answer::Pin(b"good pass 12"),
            Answer::Pin(b"good pass 12"),
        ],
        "start;;This passphrase is too weak (try 2 of 3);Please repeat the passphrase;Passphrases differ (try 3 of 3);Please repeat the passphrase;shut;",
        "good pass 12",
    ),
    (
        true,
        None,
        0,
        &[Answer::Cancelled],
        "start;;shut;",
        "(cancelled)",
    ),
    (
        true,
        None,
        0,
        &[Answer::TimedOut],
        "start;;shut;",
        "(timed out)",
    ),
    (true, None, 0, &[], "start;;shut;", "(no pinentry)"),
    (
        false,
        Some(true),
        0,
        &[Answer::Pin(b"long enough 1")],
        "start;shut;",
        "(no pinentry)",
    ),
    (
        true,
        Some(true),
        2,
        &[
            Answer::Pin(b"short"),
            Answer::Pin(b"wrong pass 1"),
            Answer::Pin(b""),
            Answer::Pin(b"long enough 1"),
        ],
        "start;;This passphrase is too weak (try 2 of 3);Bad passphrase (try 3 of 3);shut;",
        "(bad)",
    ),
    (
        true,
        Some(false),
        0,
        &[Answer::Pin(b"long enough 1")],
        "start;shut;",
        "(unexpected)",
    ),
    (
        true,
        Some(true),
        0,
        &[Answer::Pin(b"long enough 1")],
        "start;;shut;",
        "long enough 1",
    ),
    (
        true,
        None,
        2,
        &[
            Answer::Pin(b"long enough 1"),
            Answer::Pin(b"long enough 1"),
            Answer::Cancelled,
        ],
        "start;;Please repeat the passphrase;Please repeat the passphrase;shut;",
        "(cancelled)",
    ),
];

#[test]
fn a_passphrase_is_asked_for_in_three_tries(rt: HostRuntime) -> Result<(), Fail> {
    let mut seat = Seat::new();
    let Some(ticket) = seat.take(1) else {
        return Err("no ticket".into());
    };
    for (starts, note, repeat, answers, shown, want) in CASES {
        let plan = AskPlan {
            notify: note.is_some(),
            first_error: text(b""),
            check: Some((8, 1)),
            repeat,
        };
        let mut prompter = ListPrompter::new(starts, answers);
        let mut caller = ListCaller {
            fine: note == Some(true),
        };
        let mut test = AllBut {
            wrong: b"wrong pass 1",
        };
        let asked = ask_pin(
            &ticket,
            &spec(),
            &plan,
            &mut test,
            &mut prompter,
            &mut caller,
        );
        assert_eq!(rt; shown_as(prompter.log.as_slice()), shown);
        assert_eq!(rt; told(&asked), want);
    }
    let _ = seat.give(ticket);
    Ok(())
}

const CONSENTS: [(&[Answer], bool, &str, &str); 6] = [
    (&[Answer::Yes], true, "start;confirm;shut;", "yes"),
    (&[Answer::No], true, "start;confirm;shut;", "no"),
    (
        &[Answer::Cancelled],
        true,
        "start;confirm;shut;",
        "cancelled",
    ),
    (
        &[Answer::TimedOut],
        true,
        "start;confirm;shut;",
        "timed out",
    ),
    (
        &[Answer::Failed],
        true,
        "start;confirm;shut;",
        "no pinentry",
    ),
    (&[Answer::Yes], false, "start;shut;", "unexpected"),
];

#[test]
fn consent_is_asked_for_once(rt: HostRuntime) -> Result<(), Fail> {
    let mut seat = Seat::new();
    let Some(ticket) = seat.take(1) else {
        return Err("no ticket".into());
    };
    for (answers, fine, shown, want) in CONSENTS {
        let mut prompter = ListPrompter::new(true, answers);
        let mut caller = ListCaller { fine };
        let agreed = ask_consent(&ticket, &spec(), true, &mut prompter, &mut caller);
        let word = match agreed {
            Agreed::Yes => "yes",
            Agreed::No => "no",
            Agreed::Cancelled => "cancelled",
            Agreed::TimedOut => "timed out",
            Agreed::NoPinentry => "no pinentry",
            Agreed::Heard(Heard::Unexpected) => "unexpected",
            Agreed::Heard(_) => "heard",
        };
        assert_eq!(rt; shown_as(prompter.log.as_slice()), shown);
        assert_eq!(rt; word, want);
    }
    let _ = seat.give(ticket);
    a_prompt_has_one_answer::<AllBut>();
    a_consent_has_one_answer();
    failures_are_counted::<ListPrompter>();
    Ok(())
}
