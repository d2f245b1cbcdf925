//! Tests of the dialogue with a pinentry (pinentry manual, "protocol"), over children in memory
//! that give the bytes of a row: what each is written, byte for byte, and what its answers mean.
//! Begin with `dialogues_go_byte_for_byte` and `ANSWERS`.

ghost use Rattle.std.specs.Prelude.{◌≡◌};
ghost use Rattle.agent_ask.specs.Prompters.{IsShut};

use agent_ask::{Consent, Opened, Outcome, PromptSpec, Prompter};
use agent_ports::{MemLauncher, PlannedChild};
use assuan_line::Breach;
use assuan_text::Text;
use pinentry_client::{
    Pinentry, Word, a_dialogue_has_one_outcome, a_prompt_has_its_child, a_spent_child_gave_all,
};
use prompt_seat::{Seat, Ticket};
use session_options::{Options, Rules};
use std::alloc::{AllocError, Global};
use std::test::Fail;

/// What is asked once a prompt is open.
#[derive(Clone, Copy, Debug, PartialEq, Eq)]
enum Asks {
    Nothing,
    Pin(&'static [u8]),
    Consent,
}

fn text(bytes: &[u8]) -> Text {
    let mut text = Text::new();
    let _ = text.try_extend_from_slice(bytes);
    text
}

/// A prompt that says nothing.
fn plain() -> PromptSpec {
    PromptSpec {
        title: text(b""),
        description: text(b""),
        prompt: text(b""),
        ok: text(b""),
        cancel: text(b""),
        quality: false,
        env: Options::new(&Rules::default()).env(),
        timeout: 0,
    }
}

/// A prompt that says all it can.
fn full() -> PromptSpec {
    let mut options = Options::new(&Rules::default());
    let _ = options.set(b"ttyname=/dev/pts/1");
    let _ = options.set(b"ttytype=xterm");
    let _ = options.set(b"lc-ctype=C.UTF-8");
    let _ = options.set(b"lc-messages=C.UTF-8");
    PromptSpec {
        title: text(b"Title"),
        description: text(b"Enter passphrase\nFor 100%"),
        prompt: text(b"Passphrase:"),
        ok: text(b"Yes"),
        cancel: text(b"N\xC3\xB6"),
        quality: true,
        env: options.env(),
        timeout: 60,
    }
}

fn told(word: &[u8], more: &[u8]) -> Text {
    let mut text = text(word);
    let _ = text.try_extend_from_slice(more);
    text
}

fn broken(breach: &Breach) -> Text {
    match breach {
        Breach::Line(line) => told(b"line ", line.bytes()),
        Breach::Ended => text(b"ended"),
        Breach::TooLong => text(b"too long"),
        Breach::Spent => text(b"spent"),
        Breach::Many => text(b"many"),
        Breach::TooMuch => text(b"too much"),
        Breach::Code(83_886_355) => text(b"code 83886355"),
        Breach::Code(_) => text(b"code"),
        Breach::Data => text(b"data"),
        Breach::Inquiry => text(b"inquiry"),
    }
}

/// Opens a prompt, asks, and shuts it. Gives what was answered, in words.
fn ask<P: Prompter>(ticket: &Ticket, spec: &PromptSpec, asks: Asks, prompter: &mut P) -> Text
    requires { IsShut (P.at prompter.old) }
    ensures { IsShut (P.at prompter.new) }
{
    let said = match prompter.start(ticket, spec) {
        Opened::Pid(7) if asks == Asks::Nothing => text(b"pid 7"),
        Opened::Pid(_) => match asks {
            Asks::Nothing => text(b"pid"),
            Asks::Pin(error) => pin_said(prompter.getpin(ticket, error)),
            Asks::Consent => consent_said(prompter.confirm(ticket)),
        },
        Opened::Failed => text(b"failed"),
        Opened::Broken(breach) => broken(&breach),
    };
    prompter.shut(ticket);
    said
}

fn pin_said(outcome: Outcome) -> Text {
    match outcome {
        Outcome::Pin(pin) => told(b"pin ", pin.bytes()),
        Outcome::Cancelled => text(b"cancelled"),
        Outcome::TimedOut => text(b"timed out"),
        Outcome::Failed => text(b"failed"),
        Outcome::Broken(breach) => broken(&breach),
    }
}

fn consent_said(consent: Consent) -> Text {
    match consent {
        Consent::Yes => text(b"yes"),
        Consent::No => text(b"no"),
        Consent::Cancelled => text(b"cancelled"),
        Consent::TimedOut => text(b"timed out"),
        Consent::Failed => text(b"failed"),
        Consent::Broken(breach) => broken(&breach),
    }
}

/// What a child that gives these bytes is told, and what it was answered as.
struct Played {
    said: Text,
    written: Text,
    launched: Text,
}

impl Drop for Played {
    fn drop(self) {
        let Played {
            said: _,
            written: _,
            launched: _,
        } = self;
    }
}

fn play(
    alloc: Global,
    spec: &PromptSpec,
    asks: Asks,
    gives: &[u8],
    failing: &[u64],
) -> Result<Played, Fail> {
    let child = PlannedChild {
        gives: Vec::from_slice(alloc, gives)?,
        piece: 5,
        failing_reads: Vec::new(alloc),
        failing_writes: Vec::from_slice(alloc, failing)?,
    };
    let mut launcher = MemLauncher::new(alloc, vec![in alloc; child]?, Vec::new(alloc));
    let mut seat = Seat::new();
    let Some(ticket) = seat.take(1) else {
        return Err("no ticket".into());
    };
    let mut program = Word::new();
    let _ = program.try_extend_from_slice(PROGRAM);
    let mut pinentry = Pinentry::new(alloc, &mut launcher, program);
    let said = ask(&ticket, spec, asks, &mut pinentry);
    let _ = pinentry.into_launcher();
    let _ = seat.give(ticket);
    let written = text(launcher.written(0).unwrap_or(b""));
    let launched = text(launcher.launched(0).unwrap_or(b""));
    Ok(Played {
        said,
        written,
        launched,
    })
}

const PROGRAM: &[u8] = b"/usr/bin/pinentry";

const OPENED: &[u8] = b"OK\nD 7\nOK\nOK\n";

#[test]
fn dialogues_go_byte_for_byte(rt: HostRuntime) -> Result<(), Fail> {
    let cases: [(Asks, &[u8], &[u8], &[u8]); 4] = [
        (
            Asks::Pin(b""),
            b"OK\nD 7\nOK\nOK\nD ab\nOK\n",
            b"pin ab",
            b"GETINFO pid\nSETKEYINFO --clear\nGETPIN\nBYE\n",
        ),
        (
            Asks::Nothing,
            b"OK\nD 7\nOK\nOK\n",
            b"pid 7",
            b"GETINFO pid\nSETKEYINFO --clear\nBYE\n",
        ),
        (Asks::Nothing, b"HELLO\n", b"line HELLO", b""),
        (
            Asks::Pin(b"Bad passphrase (try 2 of 3)"),
            b"OK\nOK\nERR 1\n# note\nOK\nINQUIRE OTHER x\nD a%25\nD b\nOK\n",
            b"pin a%b",
            b"GETINFO pid\nSETKEYINFO --clear\nSETERROR Bad passphrase (try 2 of 3)\nGETPIN\nCAN\nBYE\n",
        ),
    ];
    for (asks, gives, said, written) in cases {
        let played = play(rt.alloc(), &plain(), asks, gives, &[])?;
        assert_eq!(rt; played.said.as_slice(), said);
        assert_eq!(rt; played.written.as_slice(), written);
        assert_eq!(rt; played.launched.as_slice(), PROGRAM);
    }
    Ok(())
}

/// A child's line of so many bytes without its end.
fn comment(alloc: Global, len: usize) -> Result<Vec<u8>, AllocError> {
    let mut line = vec![in alloc; b'#']?;
    line.resize(len, b'x')?;
    line.push(b'\n')?;
    Ok(line)
}

/// What is asked, and what a child gives before and behind a comment of so many bytes. Then what
/// that means.
const LONG_LINES: [(Asks, &[u8], usize, &[u8], &[u8]); 7] = [
    (Asks::Nothing, b"", 1000, OPENED, b"pid 7"),
    (Asks::Nothing, b"", 1001, OPENED, b"too long"),
    (Asks::Nothing, b"", 1002, OPENED, b"too long"),
    (Asks::Nothing, b"", 5000, OPENED, b"too long"),
    (Asks::Pin(b""), OPENED, 1000, b"D x\nOK\n", b"pin x"),
    (Asks::Pin(b""), OPENED, 1001, b"D x\nOK\n", b"too long"),
    (Asks::Consent, OPENED, 1001, b"OK\n", b"too long"),
];

#[test]
fn a_child_may_not_send_a_line_that_is_too_long(rt: HostRuntime) -> Result<(), Fail> {
    let alloc = rt.alloc();
    for (asks, before, len, behind, said) in LONG_LINES {
        let mut gives = Vec::from_slice(alloc, before)?;
        gives.extend_from_slice(&comment(alloc, len)?)?;
        gives.extend_from_slice(behind)?;
        let played = play(alloc, &plain(), asks, &gives, &[])?;
        assert_eq!(rt; played.said.as_slice(), said, "{len}");
    }
    Ok(())
}

#[test]
fn a_child_may_not_send_too_many_comments(rt: HostRuntime) -> Result<(), Fail> {
    let alloc = rt.alloc();
    for (count, said) in [
        (10_000u32, b"pin x".as_slice()),
        (10_001, b"many"),
        (10_002, b"many"),
    ] {
        let mut gives = Vec::from_slice(alloc, OPENED)?;
        for _ in 0..count {
            gives.extend_from_slice(b"# x\n")?;
        }
        gives.extend_from_slice(b"D x\nOK\n")?;
        let played = play(alloc, &plain(), Asks::Pin(b""), &gives, &[])?;
        assert_eq!(rt; played.said.as_slice(), said, "{count}");
    }
    Ok(())
}

#[test]
fn a_child_that_ends_early_has_broken_the_prompt(rt: HostRuntime) -> Result<(), Fail> {
    let whole: &[u8] = b"OK\nD 7\nOK\nOK\nINQUIRE QUALITY ab\nD ab\nOK\n";
    for len in 0..whole.len() {
        let played = play(rt.alloc(), &plain(), Asks::Pin(b""), &whole[..len], &[])?;
        assert_eq!(rt; played.said.as_slice(), b"ended".as_slice(), "{len}");
    }
    Ok(())
}

#[test]
fn all_that_is_given_is_told_in_its_order(rt: HostRuntime) -> Result<(), Fail> {
    let gives =
        b"OK Pleased to meet you\nOK\nOK\nERR 1\nOK\nOK\nD 4711\nOK\nOK\nOK\nOK\nOK\nOK\nOK\nOK\nD horse\nOK\n";
    let played = play(rt.alloc(), &full(), Asks::Pin(b""), gives, &[])?;
    let told: &[u8] =
        b"OPTION ttyname=/dev/pts/1\nOPTION ttytype=xterm\nOPTION lc-ctype=C.UTF-8\nOPTION lc-messages=C.UTF-8\n\
        SETTIMEOUT 60\nGETINFO pid\nSETKEYINFO --clear\nSETTITLE Title\nSETDESC Enter passphrase%0AFor 100%25\nSETPROMPT Passphrase:\nSETOK Yes\nSETCANCEL N%C3%B6\nSETQUALITYBAR\nGETPIN\nBYE\n";
    assert_eq!(rt; played.said.as_slice(), b"pin horse".as_slice());
    assert_eq!(rt; played.written.as_slice(), told);
    Ok(())
}

/// What is asked, what the child answers behind the start, what that means, and what is written
/// behind the question.
const ANSWERS: [(Asks, &[u8], &[u8], &[u8]); 22] = [
    (
        Asks::Pin(b""),
        b"INQUIRE QUALITY abc\nD x\nOK\n",
        b"pin x",
        b"D 30\nEND\nBYE\n",
    ),
    (
        Asks::Pin(b""),
        b"INQUIRE QUALITY abcdefghi%25kl\nD x\nOK\n",
        b"pin x",
        b"D 100\nEND\nBYE\n",
    ),
    (
        Asks::Pin(b""),
        b"INQUIRE OTHER x\nOK\n",
        b"pin ",
        b"CAN\nBYE\n",
    ),
    (Asks::Pin(b""), b"OK\n", b"pin ", b"BYE\n"),
    (
        Asks::Pin(b""),
        b"ERR 83886179 cancelled\n",
        b"cancelled",
        b"BYE\n",
    ),
    (Asks::Pin(b""), b"ERR 198\n", b"cancelled", b"BYE\n"),
    (Asks::Pin(b""), b"ERR 62\n", b"timed out", b"BYE\n"),
    (Asks::Pin(b""), b"ERR 114\n", b"code", b""),
    (Asks::Pin(b""), b"ERR 83886355 no\n", b"code 83886355", b""),
    (
        Asks::Pin(b""),
        b"D aaaaaaaaaaaaaaaaaaaaaaaaaaaaaaaaaaaaaaaaaaaaaaaaaaaaaaaaaaaaaaaaaaaaaaaaaaaaaaaaaaaaaaaaaaaaaaaaaaaaaaaaaaaaaaaaaaaaaaaaaaaaaaaaaaaaaaaaaaaaaaaaaaaaaaaaaaaaaaaaaaaaaaaaaaaaaaaaaaaaaaaaaaaaaaaaaaaaaaaa\n\
        D aaaaaaaaaaaaaaaaaaaaaaaaaaaaaaaaaaaaaaaaaaaaaaaaaaaaaaaa\nOK\n",
        b"too much",
        b"",
    ),
    (Asks::Pin(b""), b"FOO\n", b"line FOO", b""),
    (Asks::Pin(b""), b"D x\n", b"ended", b""),
    (Asks::Consent, b"OK\n", b"yes", b"BYE\n"),
    (
        Asks::Consent,
        b"INQUIRE QUALITY abc\nOK\n",
        b"yes",
        b"CAN\nBYE\n",
    ),
    (Asks::Consent, b"ERR 83886194 no\n", b"no", b"BYE\n"),
    (Asks::Consent, b"ERR 99\n", b"cancelled", b"BYE\n"),
    (Asks::Consent, b"ERR 83886278\n", b"cancelled", b"BYE\n"),
    (Asks::Consent, b"ERR 62\n", b"timed out", b"BYE\n"),
    (Asks::Consent, b"ERR 1\n", b"code", b""),
    (Asks::Consent, b"D x\nOK\n", b"data", b""),
    (Asks::Consent, b"FOO\n", b"line FOO", b""),
    (Asks::Consent, b"", b"ended", b""),
];

#[test]
fn each_answer_has_its_meaning(rt: HostRuntime) -> Result<(), Fail> {
    for (asks, answer, said, behind) in ANSWERS {
        let gives = told(OPENED, answer);
        let played = play(rt.alloc(), &plain(), asks, &gives, &[])?;
        let question: &[u8] = if asks == Asks::Consent {
            b"CONFIRM\n"
        } else {
            b"GETPIN\n"
        };
        let mut written = told(b"GETINFO pid\nSETKEYINFO --clear\n", question);
        let _ = written.try_extend_from_slice(behind);
        assert_eq!(rt; played.said.as_slice(), said);
        assert_eq!(rt; played.written.as_slice(), written.as_slice());
    }
    Ok(())
}

#[test]
fn a_start_may_fail(rt: HostRuntime) -> Result<(), Fail> {
    let cases: [(&[u8], &[u64], &[u8], &[u8]); 9] = [
        (b"ERR 5\n", &[], b"code", b""),
        (b"D x\nOK\n", &[], b"data", b""),
        (b"INQUIRE X\n", &[], b"inquiry", b""),
        (b"", &[], b"ended", b""),
        (b"OK\nD x\nOK\n", &[], b"data", b"GETINFO pid\n"),
        (b"OK\nD 4294967296\nOK\n", &[], b"data", b"GETINFO pid\n"),
        (
            b"OK\nD 0000000007\nOK\nOK\n",
            &[],
            b"pid 7",
            b"GETINFO pid\nSETKEYINFO --clear\nBYE\n",
        ),
        (
            b"OK\nOK\nD x\nOK\n",
            &[],
            b"data",
            b"GETINFO pid\nSETKEYINFO --clear\n",
        ),
        (b"OK\nOK\nOK\n", &[1], b"failed", b"GETINFO pid\n"),
    ];
    for (gives, failing, said, written) in cases {
        let played = play(rt.alloc(), &plain(), Asks::Nothing, gives, failing)?;
        assert_eq!(rt; played.said.as_slice(), said);
        assert_eq!(rt; played.written.as_slice(), written);
    }
    a_prompt_has_its_child::<MemLauncher>();
    a_dialogue_has_one_outcome();
    a_spent_child_gave_all();
    Ok(())
}
