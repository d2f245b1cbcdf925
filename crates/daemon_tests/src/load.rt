//! The line of a load beside that of a plain fold over the words that it is made of. The fold knows
//! the cache's policy by `ListBook` and a few lines of its own. Begin with `Put` and `ask`.

ghost use Rattle.std.specs.Prelude.{◌≤◌};
ghost use Rattle.cache_policy.specs.declared.bounds.TheConstants.{MAX_MOMENT};

use crate::serving::{LIMITS, parts};
use agent_ports::{MemHost, MemLink, MemSink, MemSource};
use agent_top::{run_agent, run_lawful_load};
use cache_policy::{CacheId, Life, ListBook, Mode, Secret};
use rand_core::SeedableRng;
use rand_core::utils::NextWord;
use rand_pcg::Lcg64Xsh32;
use std::alloc::{AllocError, Global};
use std::rt;
use std::sync::Wait;
use std::test::Fail;
use std::thread::Threads;

/// The words of 64 sessions of 200 requests.
const WORDS: u32 = 64 * 200;

const SECONDS_APART: u64 = 7;

/// What came of a mark.
#[derive(Clone, Copy, PartialEq, Eq)]
enum Outcome {
    Given,
    Empty,
    Stored,
    Cleared,
}

/// What the book doesn't know of a put, which is endless there: its last use, how many seconds it
/// lives behind that, and whether it was cleared.
#[derive(Drop)]
struct Put {
    last_use: u64,
    seconds: u64,
    is_cleared: bool,
}

impl Put {
    fn is_live(&self, moment: u64) -> bool {
        !self.is_cleared && moment <= self.last_use.saturating_add(self.seconds)
    }
}

/// What comes of a question for the newest put.
fn ask(newest: Option<&mut Put>, moment: u64) -> Outcome {
    match newest {
        Some(put) if put.is_live(moment) => {
            put.last_use = moment;
            Outcome::Given
        }
        _ => Outcome::Empty,
    }
}

/// What comes of a clear, which takes away the newest put. None that it hid is found again.
fn clear(newest: Option<&mut Put>) -> Outcome {
    if let Some(put) = newest {
        put.is_cleared = true;
    }
    Outcome::Cleared
}

fn id_of(alloc: Global, word: u32) -> Result<CacheId, Fail> {
    let id = format!(in alloc; "k{}", word / 8 % 32)?;
    Ok(CacheId::of(id.as_bytes()).ok_or("an id")?)
}

/// The number of the newest put under an id, where it isn't past its greatest age.
fn newest(book: &ListBook, moment: u64, id: &CacheId) -> usize
    requires in_order { book.now.latest ≤ moment }
    requires in_range { moment ≤ MAX_MOMENT }
{
    match book.find(moment, id, Mode::User) {
        Some(grant) => grant.number() as usize,
        None => usize::MAX,
    }
}

/// Does at a moment what a word says, other than a NOP.
fn take(
    alloc: Global,
    word: u32,
    moment: u64,
    book: &mut ListBook,
    puts: &mut Vec<Put>,
) -> Result<Outcome, Fail>
    requires in_order { book.old.latest ≤ moment }
    requires in_range { moment ≤ MAX_MOMENT }
    ensures { book.new.latest ≤ moment }
{
    let id = id_of(alloc, word)?;
    let place = newest(book, moment, &id);
    match word % 8 {
        0..=3 => Ok(ask(puts.get_mut(place), moment)),
        4 | 5 => {
            let secret = Secret::of(&word.to_be_bytes()).ok_or("a secret")?;
            book.put(moment, id, Mode::Any, Life::Endless, secret, &LIMITS)?;
            puts.push(Put {
                last_use: moment,
                seconds: u64::from(word / 256 % 1000 + 1),
                is_cleared: false,
            })?;
            Ok(Outcome::Stored)
        }
        _ => Ok(clear(puts.get_mut(place))),
    }
}

/// What comes of the marks of a load, in their order.
fn outcomes_of(alloc: Global, number: u64) -> Result<Vec<Outcome>, Fail> {
    let mut random = Lcg64Xsh32::seed_from_u64(number);
    let mut book = ListBook::new(alloc);
    let mut puts = Vec::new(alloc);
    let mut outcomes = Vec::new(alloc);
    let mut moment = 0;
    for place in 0..WORDS {
        let word = random.next_word();
        if word % 8 < 7 {
            outcomes.push(take(alloc, word, moment, &mut book, &mut puts)?)?;
            moment += SECONDS_APART;
        }
    }
    Ok(outcomes)
}

fn count(outcomes: &[Outcome], outcome: Outcome) -> usize {
    outcomes.iter().filter(|it| **it == outcome).count()
}

fn line_of(alloc: Global, outcomes: &[Outcome]) -> Result<String, AllocError> {
    let marks = outcomes.len();
    let given = count(outcomes, Outcome::Given);
    let empty = count(outcomes, Outcome::Empty);
    let stored = count(outcomes, Outcome::Stored);
    let cleared = count(outcomes, Outcome::Cleared);
    format!(in alloc;
        "sessions 64 requests 12864 marks {marks} given {given} empty {empty} opened 0 stored {stored} cleared {cleared} flushed 0\n"
    )
}

/// A load: the words that ask for it, what is sent and not read, its number, the folder at which the
/// words have the host settled, and its line.
struct Load {
    words: &'static [&'static str],
    sent: &'static str,
    number: u64,
    folder: &'static str,
    line: &'static str,
}

const PRESETS: &str =
    "GETINFO pid\nPRESET_PASSPHRASE id1 -1 736563726574\nGET_PASSPHRASE --no-ask --data id1\nBYE\nNOP\n";

/// The lines of two loads by a program in another language.
const OF_1: &str =
    "sessions 64 requests 12864 marks 11164 given 2753 empty 3619 opened 0 stored 3179 cleared 1613 flushed 0\n";

const OF_2: &str =
    "sessions 64 requests 12864 marks 11134 given 2881 empty 3466 opened 0 stored 3224 cleared 1563 flushed 0\n";

const LOADS: [Load; 4] = [
    Load {
        words: &["--load", "1", "--homedir=/h"],
        sent: "BYE\n",
        number: 1,
        folder: "/h",
        line: OF_1,
    },
    Load {
        words: &["--load=1"],
        sent: PRESETS,
        number: 1,
        folder: ".",
        line: OF_1,
    },
    Load {
        words: &["--load=2"],
        sent: "",
        number: 2,
        folder: ".",
        line: OF_2,
    },
    Load {
        words: &["--load", "2"],
        sent: "",
        number: 2,
        folder: ".",
        line: OF_2,
    },
];

/// What came of a run of the agent: its status, the folder at which the host was settled, whether a
/// pinentry was launched, and what was written.
fn served<W: Threads + Wait + rt::Clock + Sync>(
    rt: &W,
    alloc: Global,
    load: &Load,
) -> Result<String, AllocError> {
    let mut words = Vec::new(alloc);
    for word in load.words.iter() {
        words.push(String::from_str(alloc, word)?)?;
    }
    let source = MemSource::new(
        Vec::from_slice(alloc, load.sent.as_bytes())?,
        64,
        Vec::new(alloc),
    );
    let mut stdio = MemLink::new(source, MemSink::new(alloc, 0, Vec::new(alloc)));
    let mut host = MemHost::new(rt, alloc, 17, parts(alloc)?);
    let status = run_agent(rt, alloc, &words, &mut stdio, &mut host);
    let folder = String::from_utf8_lossy(alloc, host.homedir())?;
    let written = String::from_utf8_lossy(alloc, stdio.written())?;
    let launched = host
        .into_parts()
        .is_none_or(|parts| parts.launcher.launched(0).is_some());
    format!(in alloc; "{status} in {folder}, launched {launched}: {written}")
}

fn wanted(alloc: Global, load: &Load) -> Result<String, AllocError> {
    format!(in alloc; "0 in {}, launched false: {}", load.folder, load.line)
}

#[test]
fn a_load_comes_to_what_a_plain_fold_does(rt: HostRuntime) -> Result<(), Fail> {
    let alloc = rt.alloc();
    for load in LOADS.iter() {
        let folded = line_of(alloc, &outcomes_of(alloc, load.number)?)?;
        assert_eq!(rt; folded.as_str(), load.line);
        assert_eq!(rt; served(&rt, alloc, load)?, wanted(alloc, load)?);
    }
    Ok(())
}

#[test]
fn a_load_needs_no_host(rt: HostRuntime) -> Result<(), Fail> {
    let alloc = rt.alloc();
    let source = MemSource::new(Vec::new(alloc), 64, Vec::new(alloc));
    let mut stdio = MemLink::new(source, MemSink::new(alloc, 0, Vec::new(alloc)));
    assert_eq!(rt; run_lawful_load(alloc, 2, &mut stdio), 0);
    assert!(rt; stdio.written() == OF_2.as_bytes());
    Ok(())
}
