//! The load of `--load N`: 64 sessions of generated requests over links, clock and keys in memory,
//! the same at each run. It writes one line on standard output, and asks nothing of the host. Begin
//! with `run_load`; what it does is `RunsLoad` (`specs/Load`).

ghost use Rattle.std.specs.Prelude.{◌≡◌, ◌++◌, ◌∷◌, ℕ, List, [], None, Some, true, codes, IfOk};
ghost use Rattle.std.specs.Prelude.{IfSome, decimal};
ghost use Rattle.{agent_ask.specs.Prompters.IsShut, agent_core.specs.Tallies.tally_of};
ghost use Rattle.agent_ports.specs.{Counts.Rose, Sides.{with_bytes, sent_part, IsCut}};
ghost use Rattle.cache_policy.specs.Histories.{run_of};
ghost use Rattle.session_options.specs.Defaults.{default_rules};
ghost use Rattle.agent_top.specs.{Cache.{limits_of, session, fresh_desk}, Daemon.summary_line};
ghost use Rattle.agent_top.specs.Load.{AreOfWords, IsLoadTally, IsOfWord, RunsLoad, IsMadeByLoad};
ghost use Rattle.agent_top.specs.Load.{KeepsRun, generator_of, load_line, load_status, load_words};
ghost use Rattle.agent_top.specs.Load.{key, step_of};

use crate::Status;
use crate::daemon::{SUMMARY_ROOM, summary_line};
use crate::top::{SESSION, limits_of};
use agent_core::{KnownCore, Solo};
use agent_ports::{
    Clock, Link, ListDice, MapKeys, MemLauncher, MemLink, MemSink, MemSource, Sent, Sink, StepClock,
};
use agent_session::serve_session;
use arrayvec::ArrayVec;
use cache_policy::{CacheId, History, Life, Mark, MarkStep, Mode, Tally, Way};
use itoa::Buffer;
use pinentry_client::{Pinentry, Word};
use rand_core::SeedableRng;
use rand_core::utils::NextWord;
use rand_pcg::Lcg64Xsh32;
use session_options::Rules;
use std::alloc::{AllocError, Global};

const SESSIONS: u32 = 64;

/// The requests of a session, but for its BYE.
const REQUESTS: u32 = 200;

const SECONDS_APART: u64 = 7;

const HEAD: &[u8] = b"sessions 64 requests 12864 ";

/// More bytes than the line of a load has.
const LINE_ROOM: usize = SUMMARY_ROOM + 32;

/// Serves 64 sessions of 200 requests and a BYE, made from a number, one after the other in memory,
/// and writes a line that says what they came to. It is the same at each run.
///
/// Its answer is the status of the process: 0 where the line was written, 1 where memory was wanted
/// anywhere, a refused turn among it, and 4 where the line can't be written.
pub fn run_load<S: Link>(alloc: Global, number: u32, stdio: &mut S) -> u8
    ensures runs { RunsLoad number (S.output stdio.old) result (S.output stdio.new) }
    ensures input { S.input stdio.new ≡ S.input stdio.old }
{
    match load_tally(alloc, number) {
        Ok(tally) => load_status(write_line(stdio, &tally)).number(),
        Err(AllocError) => Status::NoMemory.number(),
    }
}

fn write_line<S: Link>(stdio: &mut S, tally: &Tally) -> Sent
    ensures written { (S.output stdio.new).bytes ≡ with_bytes (S.output stdio.old).bytes
        (sent_part (load_line tally.now) result) }
    ensures cut { IsCut result → Rose (S.output stdio.old).faults (S.output stdio.new).faults }
    ensures input { S.input stdio.new ≡ S.input stdio.old }
{
    stdio.put(&load_line(tally))
}

fn load_status(sent: Sent) -> Status
    ensures { result ≡ load_status sent }
{
    match sent {
        Sent::All => Status::Success,
        Sent::Failed { .. } => Status::WriteFault,
    }
}

fn load_line(tally: &Tally) -> ArrayVec<u8, LINE_ROOM>
    ensures { result.items ≡ load_line tally.now }
{
    let mut line = ArrayVec::new();
    line.try_extend_from_slice(HEAD).unwrap();
    line.try_extend_from_slice(&summary_line(tally)).unwrap();
    line
}

/// What the sessions came to. Each turn has to have made its mark, at its reading of the clock, so
/// none was refused.
fn load_tally(alloc: Global, number: u32) -> Result<Tally, AllocError>
    ensures { IfOk result (λ tally. IsLoadTally number tally) }
{
    let core = KnownCore::new(alloc, limits_of(&Rules::default()))?;
    let mut clock = StepClock::new(0, SECONDS_APART);
    let mut desk = Solo::over(core, &mut clock, SESSION, Vec::new(alloc));
    let served = serve_sessions(alloc, number, &mut desk);
    let tally = tally_of_load(&desk, number);
    desk.end();
    served?;
    tally.ok_or(AllocError)
}

/// What the run of the desk comes to, where its marks are those of the load.
fn tally_of_load<C: Clock>(desk: &Solo<'_, C>, number: u32) -> Option<Tally>
    ensures { IfSome result (λ tally. (tally ≡ tally_of desk.now.limits desk.now.run)
        × IsMadeByLoad number desk.now.run) }
{
    match desk.histories() {
        [history] if are_of_load(history.marks.as_slice(), number) => Some(desk.tally()),
        _ => None,
    }
}

/// Whether the marks are those of the load.
fn are_of_load(marks: &[Mark], number: u32) -> bool
    ensures { result ≡ true → AreOfWords 0 (load_words number) marks.now }
{
    let mut random = Lcg64Xsh32::seed_from_u64(number.into());
    let mut rest = marks;
    let mut moment = 0;
    for request in 0..SESSIONS * REQUESTS {
        let word = random.next_word();
        if word % 8 < 7 {
            match rest.split_first() {
                Some((mark, later)) if is_of_word(mark, moment, word) => rest = later,
                _ => return false,
            }
            moment += SECONDS_APART;
        }
    }
    rest.is_empty()
}

/// Whether the mark is the session's, of this moment, with the step of the word.
fn is_of_word(mark: &Mark, moment: u64, word: u32) -> bool
    ensures { result ≡ true → IsOfWord moment word mark.now }
{
    mark.session == SESSION && mark.moment == moment && is_step_of(&mark.step, word)
}

fn is_step_of(step: &MarkStep, word: u32) -> bool
    ensures { result ≡ true → step_of word ≡ Some step.now }
{
    match step {
        MarkStep::Ask {
            id,
            mode: Mode::User,
            way: Way::Quiet,
            since: None,
        } => word % 8 < 4 && is_key(id, word),
        MarkStep::Put {
            id,
            mode: Mode::Any,
            life: Life::Seconds(seconds),
            secret,
        } => {
            (4..6).contains(&(word % 8))
                && is_key(id, word)
                && *seconds == word / 256 % 1000 + 1
                && secret.bytes() == word.to_be_bytes().as_slice()
        }
        MarkStep::Clear {
            id,
            mode: Mode::User,
        } => word % 8 == 6 && is_key(id, word),
        _ => false,
    }
}

/// Whether the id is that of the word.
fn is_key(id: &CacheId, word: u32) -> bool
    ensures { result ≡ true → id.now ≡ key word }
{
    match id.bytes().split_first() {
        Some((b'k', number)) => number == Buffer::new().format(word / 8 % 32).as_bytes(),
        _ => false,
    }
}

/// Serves the sessions at the desk.
fn serve_sessions<C: Clock>(
    alloc: Global,
    number: u32,
    desk: &mut Solo<'_, C>,
) -> Result<(), AllocError>
    requires free { desk.old.out ≡ None }
    ensures { KeepsRun desk.old desk.new }
{
    let mut rules = Rules::default();
    rules.allow_preset = true;
    let mut random = Lcg64Xsh32::seed_from_u64(number.into());
    for session in 0..SESSIONS {
        let lines = session_lines(alloc, &mut random)?;
        serve_lines(alloc, &rules, lines, desk);
    }
    Ok(())
}

/// Serves a session on these lines, where no prompt can open and no key is.
fn serve_lines<C: Clock>(alloc: Global, rules: &Rules, lines: String, desk: &mut Solo<'_, C>)
    requires free { desk.old.out ≡ None }
    ensures keeps { KeepsRun desk.old desk.new }
    ensures free { desk.new.out ≡ None }
{
    let source = MemSource::new(lines.into_bytes(), 4096, Vec::new(alloc));
    let sink = MemSink::new(alloc, 0, Vec::new(alloc));
    let mut link = MemLink::new(source, sink);
    let mut launcher = MemLauncher::new(alloc, Vec::new(alloc), Vec::new(alloc));
    let mut pinentry = Pinentry::new(alloc, &mut launcher, Word::new());
    let mut keys = MapKeys::new(alloc, Vec::new(alloc));
    let mut dice = ListDice::new(Vec::new(alloc), Vec::new(alloc));
    serve_session(
        alloc,
        rules,
        &mut link,
        desk,
        &mut pinentry,
        &mut keys,
        &mut dice,
    );
    pinentry.into_launcher();
}

/// The requests of a session, from the next words, and BYE.
fn session_lines(alloc: Global, random: &mut Lcg64Xsh32) -> Result<String, AllocError> {
    let mut lines = String::new(alloc);
    for _ in 0..REQUESTS {
        let word = random.next_word();
        let id = word / 8 % 32;
        let seconds = word / 256 % 1000 + 1;
        let line = match word % 8 {
            0..=3 => format!(in alloc; "GET_PASSPHRASE --no-ask --data k{id}\n")?,
            4 | 5 => format!(in alloc; "PRESET_PASSPHRASE k{id} {seconds} {word:08X}\n")?,
            6 => format!(in alloc; "CLEAR_PASSPHRASE k{id}\n")?,
            _ => format!(in alloc; "NOP\n")?,
        };
        lines.push_str(&line)?;
    }
    lines.push_str("BYE\n")?;
    Ok(lines)
}
