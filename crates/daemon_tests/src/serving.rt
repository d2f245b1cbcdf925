//! Sessions over links at passes (worker's tokens) of the counted lock, one after another and at
//! once. Links and machine are in memory, and the other daemon tests take theirs from here. Begin
//! with `parts` and `ROWS`.

ghost use Rattle.std.specs.Prelude.{◌≡◌, ◌+◌, ◌<◌, ◌≤◌, length, vec_len, IfOk, IsSome};
ghost use Rattle.counted_lock.specs.Passes.{AreOf};

use agent_origin::Door;
use agent_ports::{
    Gate, GatePoint, Grip, HoldGate, Host, Launcher, ListClock, ListDice, ListedLinks, Listener,
    MAX_KEY_FILE_LEN, MapKeys, MemHost, MemLauncher, MemLink, MemParts, MemSink, MemSource, NoGate,
    Parts, PlannedChild, PlannedLink, SessionId,
};
use agent_serve::{SharedHost, run_workers, serve_one};
use cache_policy::{Limits, Tally};
use counted_lock::{Counted, CountedPass};
use session_options::Rules;
use std::alloc::{AllocError, Global};
use std::sync::atomic::{AtomicBool, Ordering};
use std::sync::{Mutex, Wait};
use std::test::Fail;
use std::thread::Threads;
use std::time::Clock;

/// The manual's lifetimes.
pub(crate) const LIMITS: Limits = Limits {
    ttl: 600,
    max: 7200,
    ttl_ssh: 1800,
    max_ssh: 7200,
};

/// The rules of an agent at which passphrases may be preset.
pub(crate) fn preset_rules() -> Rules {
    let mut rules = Rules::default();
    rules.allow_preset = true;
    rules
}

/// A protected key, and its grip.
const GRIP: &str = "81594C58EF1286E89015A30A5CC2072D343B3307";

const KEY: &[u8] =
    b"(21:protected-private-key(3:ecc(1:q1:Q)(9:protected20:openpgp-s2k3-ocb-aes((4:sha18: !\"#$%&'5:65536)12:()*+,-./0123)28:\x9d=\xe3\xd4\x88\x93\x844\xe0q\x15\x0bU`\xb3`\xf1\x87\xb6\xa9(j\xb2\n\x1cNtU)))";

/// The keys of a machine that has one.
fn one_key(alloc: Global) -> Result<MapKeys, AllocError> {
    let mut keys = MapKeys::new(alloc, Vec::new(alloc));
    if let Some(grip) = Grip::of_hex(GRIP.as_bytes())
        && KEY.len() <= MAX_KEY_FILE_LEN
    {
        keys.insert(grip, Vec::from_slice(alloc, KEY)?)?;
    }
    Ok(keys)
}

/// A machine's parts, whose pinentry is told `pin`.
pub(crate) fn parts(alloc: Global) -> Result<MemParts, AllocError> {
    let gives = b"OK\nD 9\nOK\nOK\nOK\nOK\nD pin\nOK\n";
    let child = PlannedChild {
        gives: Vec::from_slice(alloc, gives)?,
        piece: 64,
        failing_reads: Vec::new(alloc),
        failing_writes: Vec::new(alloc),
    };
    Ok(Parts {
        launcher: MemLauncher::new(alloc, vec![in alloc; child]?, Vec::new(alloc)),
        clock: ListClock::new(Vec::new(alloc)),
        dice: ListDice::new(Vec::new(alloc), Vec::new(alloc)),
        keys: one_key(alloc)?,
    })
}

/// At which pass a session is, the door that it came in by, what its client sends, and what that is
/// answered.
type Row = (usize, Door, &'static str, &'static str);

const ROWS: [Row; 4] = [
    (
        0,
        Door::Home,
        "PRESET_PASSPHRASE id1 -1 736563726574\n",
        "OK Pleased to meet you\nOK\n",
    ),
    (
        1,
        Door::Home,
        "GET_PASSPHRASE --no-ask --data id1\n",
        "OK Pleased to meet you\nD secret\nOK\n",
    ),
    (
        2,
        Door::Home,
        "RELOADAGENT\n",
        "OK Pleased to meet you\nOK\n",
    ),
    (
        1,
        Door::Home,
        "GET_PASSPHRASE --no-ask --data id1\n",
        "OK Pleased to meet you\nERR 67108922 No data <GPG Agent>\n",
    ),
];

/// A key's passphrase is kept at home, and a restricted session learns of that alone.
const RESTRICTED: [Row; 2] = [
    (
        0,
        Door::Home,
        "PRESET_PASSPHRASE 81594C58EF1286E89015A30A5CC2072D343B3307 -1 61\n",
        "OK Pleased to meet you\nOK\n",
    ),
    (
        1,
        Door::Outer,
        "RELOADAGENT\nGET_PASSPHRASE --no-ask id1\nFOO\nKEYINFO 81594C58EF1286E89015A30A5CC2072D343B3307\nKILLAGENT\n",
        "OK Pleased to meet you\nERR 67109115 Forbidden <GPG Agent>\nERR 67109115 Forbidden <GPG Agent>\nERR 67109139 Unknown IPC command <GPG Agent>\nS KEYINFO 81594C58EF1286E89015A30A5CC2072D343B3307 D - - 1 P - - -\nOK\nERR 67109115 Forbidden <GPG Agent>\n",
    ),
];

/// What came of rows: the first that was answered otherwise, what the second pass had made and
/// seen, and what was done.
#[derive(Clone, Copy, Debug, PartialEq, Eq)]
struct Came {
    wrong: Option<usize>,
    calls: u64,
    front: u64,
    sessions: u64,
    tally: Tally,
}

/// A client that sends this.
fn client(alloc: Global, sent: &str) -> Result<MemLink, AllocError> {
    let bytes = Vec::from_slice(alloc, sent.as_bytes())?;
    let source = MemSource::new(bytes, 7, Vec::new(alloc));
    Ok(MemLink::new(source, MemSink::new(alloc, 0, Vec::new(alloc))))
}

/// Serves the pass's next session.
fn served<W: Wait + Clock>(
    rt: &W,
    alloc: Global,
    host: &MemHost<'_, W, NoGate>,
    counted: &Counted,
    pass: CountedPass,
    door: Door,
    link: &mut MemLink,
) -> CountedPass
    requires own { pass.table ≡ counted.now.table }
    requires few { pass.sessions < 1000 }
    ensures own { result.table ≡ pass.table }
    ensures next { result.sessions ≡ pass.sessions + 1 }
{
    let session = SessionId {
        pass: pass.number(),
        count: pass.sessions(),
    };
    let rules = preset_rules();
    let (pass, _) = serve_one(rt, alloc, &rules, host, counted, pass, session, link, door);
    pass
}

/// The passes of three workers.
type Three = (CountedPass, CountedPass, CountedPass);

/// Serves the link's session at the first, the second or the third pass.
fn served_at<W: Wait + Clock>(
    rt: &W,
    alloc: Global,
    host: &MemHost<'_, W, NoGate>,
    counted: &Counted,
    passes: Three,
    whose: usize,
    door: Door,
    link: &mut MemLink,
) -> Three
    requires own { (passes.0.table ≡ counted.now.table) × (passes.1.table ≡ counted.now.table)
        × (passes.2.table ≡ counted.now.table) }
    requires few { (passes.0.sessions < 1000) × (passes.1.sessions < 1000)
        × (passes.2.sessions < 1000) }
    ensures own { (result.0.table ≡ counted.now.table) × (result.1.table ≡ counted.now.table)
        × (result.2.table ≡ counted.now.table) }
    ensures few { (result.0.sessions ≤ passes.0.sessions + 1)
        × (result.1.sessions ≤ passes.1.sessions + 1)
        × (result.2.sessions ≤ passes.2.sessions + 1) }
{
    let (first, second, third) = passes;
    match whose {
        0 => {
            let first = served(rt, alloc, host, counted, first, door, link);
            (first, second, third)
        }
        1 => {
            let second = served(rt, alloc, host, counted, second, door, link);
            (first, second, third)
        }
        _ => {
            let third = served(rt, alloc, host, counted, third, door, link);
            (first, second, third)
        }
    }
}

/// Serves the rows' sessions one after another, and gives the first that was answered otherwise.
fn served_rows<W: Wait + Clock>(
    rt: &W,
    alloc: Global,
    host: &MemHost<'_, W, NoGate>,
    counted: &Counted,
    passes: Three,
    links: &mut Vec<MemLink>,
    rows: &[Row],
) -> (Option<usize>, Three)
    requires few { length rows.now < 1000 }
    requires own { (passes.0.table ≡ counted.now.table) × (passes.1.table ≡ counted.now.table)
        × (passes.2.table ≡ counted.now.table) }
    requires new { (passes.0.sessions ≡ 0) × (passes.1.sessions ≡ 0) × (passes.2.sessions ≡ 0) }
    ensures own { (result.1.0.table ≡ counted.now.table) × (result.1.1.table ≡ counted.now.table)
        × (result.1.2.table ≡ counted.now.table) }
{
    let mut passes = passes;
    let mut wrong = None;
    for place in 0..rows.len() {
        let (whose, door, _, answered) = rows[place];
        if let Some(link) = links.get_mut(place) {
            passes = served_at(rt, alloc, host, counted, passes, whose, door, link);
            if link.written() != answered.as_bytes() && wrong.is_none() {
                wrong = Some(place);
            }
        } else {
            wrong = Some(place);
        }
    }
    (wrong, passes)
}

/// Serves sessions at three passes, in the order of the rows.
fn play<W: Wait + Clock>(rt: &W, alloc: Global, rows: &[Row]) -> Result<Option<Came>, AllocError>
    requires { length rows.now < 1000 }
{
    let mut links = Vec::new(alloc);
    let mut sessions = Vec::new(alloc);
    for (_, _, sent, _) in rows {
        links.push(client(alloc, sent)?)?;
        sessions.push(parts(alloc)?)?;
    }
    let host = MemHost::new(rt, alloc, 17, parts(alloc)?).with_sessions(sessions, Vec::new(alloc));
    let (counted, mut all) = Counted::new(alloc, LIMITS, 3)?;
    let (Some(third), Some(second), Some(first)) = (all.pop(), all.pop(), all.pop()) else {
        return Ok(None);
    };
    let passes = (first, second, third);
    let (wrong, passes) = served_rows(rt, alloc, &host, &counted, passes, &mut links, rows);
    let (first, second, third) = passes;
    let (calls, front) = (second.calls(), second.front());
    let sessions = second.sessions();
    all.push_reserved(first);
    all.push_reserved(second);
    all.push_reserved(third);
    let tally = counted.close(all);
    Ok(Some(Came {
        wrong,
        calls,
        front,
        sessions,
        tally,
    }))
}

#[test]
fn sessions_at_three_passes_share_one_cache(rt: HostRuntime) -> Result<(), Fail> {
    let came = Came {
        wrong: None,
        calls: 2,
        front: 4,
        sessions: 2,
        tally: Tally {
            marks: 4,
            given: 1,
            empty: 1,
            opened: 0,
            stored: 1,
            cleared: 0,
            flushed: 1,
            stopped: false,
        },
    };
    assert_eq!(rt; play(&rt, rt.alloc(), &ROWS)?, Some(came));
    Ok(())
}

#[test]
fn a_restricted_session_leaves_the_cache(rt: HostRuntime) -> Result<(), Fail> {
    let came = Came {
        wrong: None,
        calls: 1,
        front: 2,
        sessions: 1,
        tally: Tally {
            marks: 2,
            given: 0,
            empty: 0,
            opened: 0,
            stored: 1,
            cleared: 0,
            flushed: 0,
            stopped: false,
        },
    };
    assert_eq!(rt; play(&rt, rt.alloc(), &RESTRICTED)?, Some(came));
    Ok(())
}

/// A link whose client sends this.
pub(crate) fn planned(
    alloc: Global,
    sent: &str,
    failing_reads: &[u64],
    failing_writes: &[u64],
) -> Result<PlannedLink, AllocError> {
    Ok(PlannedLink {
        gives: Vec::from_slice(alloc, sent.as_bytes())?,
        piece: 7,
        failing_reads: Vec::from_slice(alloc, failing_reads)?,
        failing_writes: Vec::from_slice(alloc, failing_writes)?,
    })
}

/// What came of two workers, of whose sessions one is held at its open prompt until one that began
/// meanwhile has ended: how many links were written the answer of a prompt and how many that of the
/// cache alone, and what the gate tells.
#[derive(Debug, PartialEq, Eq, Drop)]
struct Beside {
    prompted: usize,
    quiet: usize,
    opened: u64,
    held: bool,
    gave_up: bool,
}

/// A daemon as its sessions pass a gate: as it is, one that doesn't tell where a prompt is open,
/// and one that serves one session at a time.
#[derive(Clone, Copy, Debug, PartialEq, Eq)]
enum Daemon {
    AsItIs,
    TellsNoPrompt,
    OneAtATime,
}

/// The gate as sessions of such a daemon pass it.
#[derive(Drop)]
struct Passed {
    gate: HoldGate,
    daemon: Daemon,
    busy: AtomicBool,
}

impl Passed {
    fn wait_for_others(&self) {
        for _ in 0..u64::MAX {
            if !self.busy.swap(true, Ordering::SeqCst) {
                return;
            }
        }
    }
}

impl Gate for Passed {
    fn at(&self, point: GatePoint, session: SessionId) {
        match (self.daemon, point) {
            (Daemon::TellsNoPrompt, GatePoint::PromptOpen) => {}
            (Daemon::OneAtATime, GatePoint::Began) => {
                self.wait_for_others();
                self.gate.at(point, session);
            }
            (Daemon::OneAtATime, GatePoint::Ended) => {
                self.gate.at(point, session);
                self.busy.store(false, Ordering::SeqCst);
            }
            _ => self.gate.at(point, session),
        }
    }
}

fn written<W: Wait>(
    rt: &W,
    alloc: Global,
    links: &Mutex<ListedLinks>,
    place: usize,
) -> Result<String, AllocError> {
    let links = links.lock(rt);
    String::from_utf8_lossy(alloc, links.written(place).unwrap_or(b""))
}

/// A machine whose daemon has these links, and where there are some those for its extra listener,
/// and parts. The calls for a listener of these numbers, from 0, fail.
pub(crate) fn host_of<'l, W: Wait, G: Gate + Drop>(
    rt: &'l W,
    alloc: Global,
    links: &'l Mutex<ListedLinks>,
    extra: Option<&'l Mutex<ListedLinks>>,
    sessions: Vec<MemParts>,
    failing: Vec<u64>,
    gate: G,
) -> Result<MemHost<'l, W, G>, AllocError>
    ensures { IfOk result (λ host. IsSome (⟦<MemHost<'l, W, G> as Host>⟧.server host)) }
{
    Ok(
        MemHost::new(rt, alloc, 17, parts(alloc)?)
            .with_gate(gate)
            .with_sessions(sessions, Vec::new(alloc))
            .with_links(links, extra, failing),
    )
}

/// Runs the workers of a daemon that has one listener.
fn run_at_home<'a, W: Threads + Wait + Clock + Sync, H: SharedHost>(
    rt: &'a W,
    alloc: Global,
    host: &'a H,
    listener: &'a H::Listener,
    counted: &'a Counted,
    passes: Vec<CountedPass>,
    ears: Vec<H::Ear>,
) -> Vec<CountedPass>
    requires own { AreOf counted.now.table passes.items }
    requires ears { vec_len passes ≡ vec_len ears }
    ensures own { AreOf counted.now.table result.items }
    ensures all { vec_len result ≡ vec_len passes }
{
    let rules = preset_rules();
    let extra: Option<&'a H::Listener> = None;
    let (passes, _) = run_workers(
        rt, alloc, &rules, host, listener, extra, counted, passes, ears,
    );
    passes
}

/// A machine whose daemon has these links alone, no call for which fails.
fn host_at_home<'l, W: Wait, G: Gate + Drop>(
    rt: &'l W,
    alloc: Global,
    links: &'l Mutex<ListedLinks>,
    sessions: Vec<MemParts>,
    gate: G,
) -> Result<MemHost<'l, W, G>, AllocError> {
    let extra: Option<&'l Mutex<ListedLinks>> = None;
    host_of(rt, alloc, links, extra, sessions, Vec::new(alloc), gate)
}

/// Runs two workers over a prompt and two requests of the cache alone.
fn run_beside<W: Threads + Wait + Clock + Sync>(
    rt: &W,
    alloc: Global,
    gate: Passed,
) -> Result<Option<Beside>, AllocError> {
    let prompted = planned(alloc, "GET_PASSPHRASE --data id1 X X X\n", &[], &[])?;
    let quiet = planned(alloc, "GET_PASSPHRASE --no-ask id2\n", &[], &[])?;
    let other = planned(alloc, "GET_PASSPHRASE --no-ask id2\n", &[], &[])?;
    let coming = vec![in alloc; prompted, quiet, other]?;
    let links = Mutex::new(ListedLinks::new(alloc, coming, Vec::new(alloc))?);
    let sessions = vec![in alloc; parts(alloc)?, parts(alloc)?, parts(alloc)?]?;
    let mut host = host_at_home(rt, alloc, &links, sessions, gate)?;
    let Some(listener) = host.listen() else {
        return Ok(None);
    };
    let ears = vec![in alloc; listener.ear(), listener.ear()]?;
    let (counted, passes) = Counted::new(alloc, LIMITS, 2)?;
    let passes = run_at_home(rt, alloc, &host, &listener, &counted, passes, ears);
    let opened = counted.close(passes).opened;
    let gate = &host.gate().gate;
    // The first session of the other worker may have ended before the prompt was open, and its
    // second one began behind that.
    let late = gate.held() && gate.ended_before() > 1;
    Ok(Some(Beside {
        prompted: how_many(rt, alloc, &links, "D pin\nOK\n")?,
        quiet: how_many(rt, alloc, &links, "ERR 67108922 No data <GPG Agent>\n")?,
        opened,
        held: gate.held(),
        gave_up: gate.gave_up() || late,
    }))
}

/// How many of the links were written the greeting and this.
fn how_many<W: Wait>(
    rt: &W,
    alloc: Global,
    links: &Mutex<ListedLinks>,
    answer: &str,
) -> Result<usize, AllocError> {
    let wanted = format!(in alloc; "OK Pleased to meet you\n{answer}")?;
    let mut count = 0usize;
    for place in 0..3usize {
        if written(rt, alloc, links, place)? == wanted {
            count = count.saturating_add(1);
        }
    }
    Ok(count)
}

#[test]
fn a_second_session_is_answered_while_the_first_prompt_is_open(
    rt: HostRuntime,
) -> Result<(), Fail> {
    for (daemon, turns, held, gave_up) in [
        (Daemon::AsItIs, 2_000_000_000u64, true, false),
        (Daemon::TellsNoPrompt, 1000, false, true),
        (Daemon::OneAtATime, 1000, true, true),
    ] {
        let gate = Passed {
            gate: HoldGate::for_later_sessions(turns),
            daemon,
            busy: AtomicBool::new(false),
        };
        let wanted = Beside {
            prompted: 1,
            quiet: 2,
            opened: 1,
            held,
            gave_up,
        };
        assert_eq!(rt;
            run_beside(&rt, rt.alloc(), gate)?,
            Some(wanted),
            "{daemon:?}"
        );
    }
    Ok(())
}

/// Has one worker serve so many links: how many sessions its pass has had, and how many links were
/// answered.
fn run_many<W: Threads + Wait + Clock + Sync>(
    rt: &W,
    alloc: Global,
    count: usize,
) -> Result<Option<(u64, usize)>, AllocError> {
    let mut coming = Vec::new(alloc);
    let mut sessions = Vec::new(alloc);
    for _ in 0..count {
        coming.push(planned(alloc, "NOP\n", &[], &[])?)?;
        sessions.push(parts(alloc)?)?;
    }
    let links = Mutex::new(ListedLinks::new(alloc, coming, Vec::new(alloc))?);
    let mut host = host_at_home(rt, alloc, &links, sessions, NoGate)?;
    let Some(listener) = host.listen() else {
        return Ok(None);
    };
    let ears = vec![in alloc; listener.ear()]?;
    let (counted, passes) = Counted::new(alloc, LIMITS, 1)?;
    let passes = run_at_home(rt, alloc, &host, &listener, &counted, passes, ears);
    let served = passes.first().map_or(0, |pass| pass.sessions());
    counted.close(passes);
    let answered = how_many_answered(rt, alloc, &links, count)?;
    Ok(Some((served, answered)))
}

/// How many of so many links were answered as a NOP is.
fn how_many_answered<W: Wait>(
    rt: &W,
    alloc: Global,
    links: &Mutex<ListedLinks>,
    count: usize,
) -> Result<usize, AllocError> {
    let mut answered = 0usize;
    for place in 0..count {
        if written(rt, alloc, links, place)?.as_str() == "OK Pleased to meet you\nOK\n" {
            answered = answered.saturating_add(1);
        }
    }
    Ok(answered)
}

#[test]
fn one_worker_serves_three_hundred_links(rt: HostRuntime) -> Result<(), Fail> {
    assert_eq!(rt; run_many(&rt, rt.alloc(), 300)?, Some((300, 300)));
    Ok(())
}
