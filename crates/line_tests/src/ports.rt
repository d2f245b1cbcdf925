//! Tests of the outside in memory: sources, sinks, links, clocks, launchers, dice, keys and
//! listeners do as they were planned, and fail where they were told to. Begin with
//! `a_source_gives_its_bytes_in_pieces_and_fails_when_it_is_to`.

ghost use Rattle.std.specs.Prelude.{IsSome};

use agent_ports::{
    Clock, ConfFiles, Dice, Ear, Gate, GatePoint, Got, Grip, HoldGate, Host, KeyNames, KeyRead,
    Keys, Launcher, LentClock, Link, ListClock, ListDice, ListListener, ListedLinks, Listener,
    MapKeys, MemConf, MemHost, MemLauncher, MemLink, MemParts, MemSink, MemSource, MemTrust, Next,
    NoGate, Parts, PlannedChild, PlannedLink, Sent, SessionId, Sink, Source, StepClock, TrustFile,
};
use std::alloc::{AllocError, Global};
use std::sync::{Mutex, Wait};
use std::test::Fail;
use std::thread;

/// The first place at which the texts differ.
fn first_wrong(got: &[String], want: &[&str]) -> Option<usize> {
    for (place, text) in want.iter().enumerate() {
        match got.get(place) {
            Some(other) if other.as_str() == *text => {}
            _ => return Some(place),
        }
    }
    (got.len() != want.len()).then_some(want.len())
}

/// What so many reads of a buffer of four bytes give, read by read.
fn reads<S: Source>(
    alloc: Global,
    source: &mut S,
    count: usize,
) -> Result<Vec<String>, AllocError> {
    let mut all = Vec::new(alloc);
    for _ in 0..count {
        let mut buf = [0u8; 4];
        let text = match source.read(&mut buf) {
            Got::Bytes(n) if n <= 4 => format!(in alloc; "{:?}", &buf[..n])?,
            Got::Bytes(_) => format!(in alloc; "too many")?,
            Got::End => format!(in alloc; "end")?,
            Got::Failed => format!(in alloc; "failed")?,
        };
        all.push(text)?;
    }
    Ok(all)
}

#[test]
fn a_source_gives_its_bytes_in_pieces_and_fails_when_it_is_to(rt: HostRuntime) -> Result<(), Fail> {
    let alloc = rt.alloc();
    let failing = vec![in alloc; 1u64]?;
    let mut source = MemSource::new(Vec::from_slice(alloc, b"abcdefg")?, 3, failing);
    let got = reads(alloc, &mut source, 6)?;
    let want = [
        "[97, 98, 99]",
        "failed",
        "[100, 101, 102]",
        "[103]",
        "end",
        "end",
    ];
    assert_eq!(rt; first_wrong(&got, &want), None);
    Ok(())
}

#[test]
fn a_sink_keeps_the_front_of_a_write_that_fails(rt: HostRuntime) -> Result<(), Fail> {
    let alloc = rt.alloc();
    let mut sink = MemSink::new(alloc, 2, vec![in alloc; 1u64]?);
    assert_eq!(rt; sink.put(b"abc"), Sent::All);
    assert_eq!(rt; sink.put(b"def"), Sent::Failed { sent: 2 });
    assert_eq!(rt; sink.put(b"gh"), Sent::All);
    assert_eq!(rt; sink.written(), b"abcdegh".as_slice());
    Ok(())
}

#[test]
fn a_link_reads_and_writes(rt: HostRuntime) -> Result<(), Fail> {
    let alloc = rt.alloc();
    let source = MemSource::new(Vec::from_slice(alloc, b"abcde")?, 7, Vec::new(alloc));
    let mut link = MemLink::new(source, MemSink::new(alloc, 0, Vec::new(alloc)));
    let got = reads(alloc, &mut link, 2)?;
    assert_eq!(rt; got.len(), 2);
    assert_eq!(rt; link.put(b"xy"), Sent::All);
    assert_eq!(rt; link.written(), b"xy".as_slice());
    Ok(())
}

fn three_readings<C: Clock>(clock: &mut C) -> [u64; 3] {
    [clock.now(), clock.now(), clock.now()]
}

#[test]
fn clocks_give_their_readings(rt: HostRuntime) -> Result<(), Fail> {
    let alloc = rt.alloc();
    let mut list = ListClock::new(vec![in alloc; 5u64, 3]?);
    assert_eq!(rt; three_readings(&mut list), [5, 3, 3]);
    let mut none = ListClock::new(Vec::new(alloc));
    assert_eq!(rt; three_readings(&mut none), [0, 0, 0]);
    let mut steps = StepClock::new(u64::MAX - 8, 7);
    assert_eq!(rt;
        three_readings(&mut steps),
        [u64::MAX - 8, u64::MAX - 1, u64::MAX]
    );
    Ok(())
}

#[test]
fn grips_are_read_and_written_as_digits(rt: HostRuntime) -> Result<(), Fail> {
    let digits = b"00FF0102030405060708090A0B0C0D0E0F101112";
    let cases: [(&[u8], bool); 5] = [
        (digits, true),
        (b"00ff0102030405060708090a0b0c0d0e0f101112", true),
        (&digits[1..], false),
        (b"00FF0102030405060708090A0B0C0D0E0F10111G", false),
        (b"", false),
    ];
    for (text, want) in cases {
        let grip = Grip::of_hex(text);
        assert_eq!(rt; grip.is_some(), want, "at {text:?}");
        if let Some(grip) = grip {
            assert_eq!(rt; grip.text().as_slice(), digits.as_slice());
        }
    }
    Ok(())
}

/// What the children of so many launches give in two reads each, and what becomes of `text` written
/// to them.
fn run_children<L: Launcher>(
    alloc: Global,
    launcher: &mut L,
    launches: usize,
    text: &[u8],
) -> Result<Vec<String>, AllocError> {
    let mut all = Vec::new(alloc);
    for _ in 0..launches {
        match launcher.launch(b"pinentry") {
            Some(mut child) => {
                let sent = child.put(text);
                let gave = reads(alloc, &mut child, 2);
                launcher.finish(child);
                for got in gave? {
                    all.push(got)?;
                }
                all.push(format!(in alloc; "{sent:?}")?)?;
            }
            None => all.push(format!(in alloc; "none")?)?,
        }
    }
    Ok(all)
}

fn planned(alloc: Global, gives: &[u8]) -> Result<PlannedChild, AllocError> {
    Ok(PlannedChild {
        gives: Vec::from_slice(alloc, gives)?,
        piece: 3,
        failing_reads: vec![in alloc; 1u64]?,
        failing_writes: Vec::new(alloc),
    })
}

#[test]
fn a_launcher_gives_its_children_in_order_and_keeps_what_they_were_written(
    rt: HostRuntime,
) -> Result<(), Fail> {
    let alloc = rt.alloc();
    let children = vec![in alloc; planned(alloc, b"abcdef")?, planned(alloc, b"g")?]?;
    let mut launcher = MemLauncher::new(alloc, children, vec![in alloc; 1u64]?);
    let got = run_children(alloc, &mut launcher, 4, b"BYE")?;
    let want = [
        "[97, 98, 99]",
        "failed",
        "All",
        "none",
        "[103]",
        "failed",
        "All",
        "none",
    ];
    assert_eq!(rt; first_wrong(&got, &want), None);
    for back in 0..2 {
        assert_eq!(rt; launcher.written(back), Some(b"BYE".as_slice()));
    }
    assert_eq!(rt; launcher.written(2), None);
    for others in 0..2 {
        assert_eq!(rt; launcher.launched(others), Some(b"pinentry".as_slice()));
    }
    assert_eq!(rt; launcher.launched(2), None);
    Ok(())
}

fn read_twice<C: Clock>(clock: &mut C) -> (u64, u64) {
    let mut lent = LentClock::new(clock);
    let readings = (lent.now(), lent.now());
    lent.into_clock();
    readings
}

#[test]
fn a_clock_that_was_lent_goes_on_where_it_stood(rt: HostRuntime) -> Result<(), Fail> {
    let mut clock = StepClock::new(5, 2);
    assert_eq!(rt; read_twice(&mut clock), (5, 7));
    assert_eq!(rt; clock.now(), 9);
    Ok(())
}

/// What draws of so many bytes each give.
fn draws<R: Dice>(alloc: Global, dice: &mut R, sizes: &[usize]) -> Result<Vec<String>, AllocError> {
    let mut all = Vec::new(alloc);
    for size in sizes {
        let mut buf = [7u8; 4];
        let out = &mut buf[..(*size).min(4)];
        let filled = dice.fill(out);
        all.push(format!(in alloc; "{filled} {out:?}")?)?;
    }
    Ok(all)
}

#[test]
fn dice_give_their_bytes_until_they_run_out(rt: HostRuntime) -> Result<(), Fail> {
    let alloc = rt.alloc();
    let bytes = vec![in alloc; 1u8, 2, 3, 4, 5]?;
    let mut dice = ListDice::new(bytes, vec![in alloc; 1u64]?);
    let got = draws(alloc, &mut dice, &[2, 2, 4, 3, 0, 1])?;
    let want = [
        "true [1, 2]",
        "false [0, 0]",
        "false [0, 0, 0, 0]",
        "true [3, 4, 5]",
        "true []",
        "false [0]",
    ];
    assert_eq!(rt; first_wrong(&got, &want), None);
    Ok(())
}

/// The grip whose bytes are all this one.
fn grip(byte: u8) -> Grip {
    Grip([byte; 20])
}

/// What the calls on keys give, one after another: the files of the grips of 1 and of 2, the grips,
/// and what became of the changes.
fn use_keys<K: Keys>(alloc: Global, keys: &mut K) -> Result<Vec<String>, AllocError> {
    let mut all = Vec::new(alloc);
    all.push(format!(in alloc; "{:?}", keys.replace(alloc, &grip(2), b"two"))?)?;
    all.push(format!(in alloc; "{:?}", keys.replace(alloc, &grip(1), b"one"))?)?;
    for byte in [1, 2, 3] {
        let text = match keys.read(alloc, &grip(byte)) {
            KeyRead::Found(file) => format!(in alloc; "{file:?}")?,
            KeyRead::Absent => format!(in alloc; "Absent")?,
            KeyRead::Failed => format!(in alloc; "Failed")?,
            KeyRead::NoMemory => format!(in alloc; "NoMemory")?,
        };
        all.push(text)?;
    }
    let grips = match keys.list(alloc) {
        KeyNames::Names(names) => names.iter().map(|grip| grip.0[0]).collect(alloc)?,
        _ => Vec::new(alloc),
    };
    all.push(format!(in alloc; "{grips:?}")?)?;
    for byte in [1, 1, 2] {
        all.push(format!(in alloc; "{:?}", keys.remove(alloc, &grip(byte)))?)?;
    }
    Ok(all)
}

#[test]
fn key_files_are_replaced_read_listed_and_removed(rt: HostRuntime) -> Result<(), Fail> {
    let alloc = rt.alloc();
    for (failing, want) in [
        (
            Vec::new(alloc),
            [
                "Done",
                "Done",
                "[111, 110, 101]",
                "[116, 119, 111]",
                "Absent",
                "[1, 2]",
                "Done",
                "Absent",
                "Done",
            ],
        ),
        (
            vec![in alloc; 1u64, 3, 5, 8]?,
            [
                "Done", "Failed", "Absent", "Failed", "Absent", "[]", "Absent", "Absent", "Failed",
            ],
        ),
    ] {
        let mut keys = MapKeys::new(alloc, failing);
        let got = use_keys(alloc, &mut keys)?;
        assert_eq!(rt; first_wrong(&got, &want), None);
    }
    Ok(())
}

/// What a listener's next link gives in one read, or why there is none. Each link is written
/// `text`.
fn hear<L: Listener>(
    alloc: Global,
    listener: &L,
    ear: &mut L::Ear,
    text: &[u8],
) -> Result<String, AllocError> {
    match listener.next(ear) {
        Next::Link(mut link) => {
            let sent = link.put(text);
            let got = reads(alloc, &mut link, 1);
            listener.done(link);
            format!(in alloc; "{sent:?} {:?}", got?)
        }
        Next::Failed => format!(in alloc; "failed"),
        Next::Stopped => format!(in alloc; "stopped"),
    }
}

/// What so many calls of a listener give, which is stopped before the call of the number `stop`,
/// and whether the ear failed.
fn hear_all<L: Listener>(
    alloc: Global,
    listener: &L,
    calls: usize,
    stop: usize,
) -> Result<(Vec<String>, bool), AllocError>
where
    L::Ear: Drop,
{
    let mut ear = listener.ear();
    let mut all = Vec::new(alloc);
    for call in 0..calls {
        if call == stop {
            listener.stop();
        }
        let heard = hear(alloc, listener, &mut ear, b"OK")?;
        all.push(heard)?;
    }
    Ok((all, ear.failed()))
}

/// Links that each give one of these texts.
fn listed(
    alloc: Global,
    texts: &[&str],
    failing: Vec<u64>,
) -> Result<Mutex<ListedLinks>, AllocError> {
    let mut links = Vec::new(alloc);
    for text in texts {
        links.push(PlannedLink {
            gives: Vec::from_slice(alloc, text.as_bytes())?,
            piece: 3,
            failing_reads: Vec::new(alloc),
            failing_writes: Vec::new(alloc),
        })?;
    }
    Ok(Mutex::new(ListedLinks::new(alloc, links, failing)?))
}

/// What four calls at a listener of two links give, where it is stopped before one of them and one
/// is to fail; then what the links that ended were written, whether the ear failed, and how many
/// links are left.
fn heard<W: Wait>(rt: &W, alloc: Global, stop: usize, failing: u64) -> Result<String, AllocError> {
    let links = listed(alloc, &["abc", "d"], vec![in alloc; failing]?)?;
    let (all, failed) = hear_all(alloc, &ListListener::new(rt, &links), 4, stop)?;
    let links = links.into_inner();
    let mut text = String::new(alloc);
    for given in &all {
        text.push_str(given)?;
        text.push_str(" ")?;
    }
    for others in 0..3usize {
        if let Some(written) = links.written(others) {
            text.push_str(&format!(in alloc; "{written:?} ")?)?;
        }
    }
    text.push_str(&format!(in alloc; "{failed} {}", links.left())?)?;
    Ok(text)
}

#[test]
fn a_listener_gives_its_links_in_order_and_keeps_those_that_ended(
    rt: HostRuntime,
) -> Result<(), Fail> {
    for (stop, failing, want) in [
        (
            9usize,
            9u64,
            "All [\"[97, 98, 99]\"] All [\"[100]\"] failed failed [79, 75] [79, 75] true 0",
        ),
        (
            9,
            1,
            "All [\"[97, 98, 99]\"] failed All [\"[100]\"] failed [79, 75] [79, 75] true 0",
        ),
        (
            1,
            9,
            "All [\"[97, 98, 99]\"] stopped stopped stopped [79, 75] false 1",
        ),
        (0, 0, "stopped stopped stopped stopped false 2"),
    ] {
        assert_eq!(rt; heard(&rt, rt.alloc(), stop, failing)?.as_str(), want);
    }
    Ok(())
}

const SESSION: SessionId = SessionId { pass: 0, count: 0 };

/// A session that comes to an open prompt.
fn prompts<G: Gate>(gate: &G) {
    gate.at(GatePoint::Began, SESSION);
    gate.at(GatePoint::PromptOpen, SESSION);
    gate.at(GatePoint::Ended, SESSION);
}

/// A session without a prompt.
fn passes_by<G: Gate>(gate: &G, session: SessionId) {
    gate.at(GatePoint::Began, session);
    gate.at(GatePoint::Ended, session);
}

/// What a gate tells of so many prompts behind these sessions, which ended without one.
fn told(gate: HoldGate, ended: &[SessionId], prompted: usize) -> (bool, u64, bool) {
    for session in ended {
        passes_by(&gate, *session);
    }
    for _ in 0..prompted {
        prompts(&gate);
    }
    all_told(&gate)
}

/// Whether it held a session, how many had ended before, and whether it gave up.
fn all_told(gate: &HoldGate) -> (bool, u64, bool) {
    (gate.held(), gate.ended_before(), gate.gave_up())
}

/// Another worker's first session, and its second one.
const FIRST: SessionId = SessionId { pass: 1, count: 0 };

const SECOND: SessionId = SessionId { pass: 1, count: 1 };

/// The sessions that end without a prompt, and how many prompts come behind them; what a gate
/// tells, and what one for later sessions does.
const GATES: [(&[SessionId], usize, (bool, u64, bool), (bool, u64, bool)); 5] = [
    (&[], 1, (true, 0, true), (true, 0, true)),
    (&[FIRST], 1, (true, 1, false), (true, 1, true)),
    (&[FIRST], 2, (true, 1, false), (true, 1, true)),
    (&[FIRST], 0, (false, 1, false), (false, 1, false)),
    // A later session waits for one that is held.
    (&[SECOND], 0, (false, 1, false), (false, 1, true)),
];

#[test]
fn a_gate_holds_the_first_prompt_until_another_session_ended(rt: HostRuntime) {
    prompts(&NoGate);
    for (ended, prompted, want, want_of_later) in GATES {
        assert_eq!(rt; told(HoldGate::new(3), ended, prompted), want);
        assert_eq!(rt;
            told(HoldGate::for_later_sessions(3), ended, prompted),
            want_of_later
        );
    }
    // Another session ends in a thread of its own, or before this one where there is none.
    let gate = HoldGate::new(2_000_000_000);
    thread::join(&rt, || passes_by(&gate, FIRST), || prompts(&gate));
    assert!(rt; !gate.gave_up());
    // It begins once the first one is held.
    let gate = HoldGate::for_later_sessions(2_000_000_000);
    thread::join(&rt, || passes_by(&gate, SECOND), || prompts(&gate));
    assert_eq!(rt; all_told(&gate), (true, 0, false));
}

/// What the calls on a trust file give, one after another.
fn use_trust<T: TrustFile>(alloc: Global, trust: &mut T) -> Result<Vec<String>, AllocError> {
    let mut all = Vec::new(alloc);
    for _ in 0..2 {
        all.push(format!(in alloc; "{:?}", trust.read(alloc))?)?;
        all.push(format!(in alloc; "{:?}", trust.replace(alloc, b"AB"))?)?;
    }
    all.push(format!(in alloc; "{:?}", trust.read(alloc))?)?;
    Ok(all)
}

#[test]
fn a_trust_file_is_read_and_replaced(rt: HostRuntime) -> Result<(), Fail> {
    let alloc = rt.alloc();
    let found = "Found([65, 66])";
    for (failing, want) in [
        (9u64, ["Absent", "Done", found, "Done", found]),
        (1, ["Absent", "Failed", "Absent", "Done", found]),
        (2, ["Absent", "Done", "Failed", "Done", found]),
    ] {
        let mut trust = MemTrust::new(None, vec![in alloc; failing]?);
        let got = use_trust(alloc, &mut trust)?;
        assert_eq!(rt; first_wrong(&got, &want), None);
        assert_eq!(rt; trust.file(), Some(b"AB".as_slice()));
    }
    Ok(())
}

/// What two reads of each file of options give, one after another.
fn use_confs<C: ConfFiles>(alloc: Global, confs: &mut C) -> Result<Vec<String>, AllocError> {
    let mut all = Vec::new(alloc);
    for _ in 0..2 {
        all.push(format!(in alloc; "{:?}", confs.read_machine(alloc))?)?;
        all.push(format!(in alloc; "{:?}", confs.read_home(alloc))?)?;
    }
    Ok(all)
}

#[test]
fn files_of_options_are_read(rt: HostRuntime) -> Result<(), Fail> {
    let alloc = rt.alloc();
    let found = "Found([65, 66])";
    for (len, failing, want) in [
        (2usize, 9u64, [found, "Absent", found, "Absent"]),
        (2, 0, ["Failed", "Absent", found, "Absent"]),
        (2, 3, [found, "Absent", found, "Failed"]),
        (65_537, 9, ["Failed", "Absent", "Failed", "Absent"]),
    ] {
        let mut machine = Vec::new(alloc);
        machine.resize(len, 66u8)?;
        machine[0] = 65;
        let mut confs = MemConf::new(Some(machine), None, vec![in alloc; failing]?);
        let got = use_confs(alloc, &mut confs)?;
        assert_eq!(rt; first_wrong(&got, &want), None);
    }
    Ok(())
}

/// The first byte that the dice of a host's parts give, behind so many givings of the parts.
fn first_byte<H: Host>(host: &mut H) -> (u32, u8)
    requires { IsSome (H.server host.old) }
    ensures { IsSome (H.server host.new) }
{
    let parts = host.server_parts();
    host.parts_back(parts);
    let mut parts = host.server_parts();
    let mut buf = [0u8; 1];
    parts.dice.fill(&mut buf);
    host.parts_back(parts);
    (host.pid(), buf[0])
}

fn parts_with(alloc: Global, dice: Vec<u8>) -> MemParts {
    Parts {
        launcher: MemLauncher::new(alloc, Vec::new(alloc), Vec::new(alloc)),
        clock: ListClock::new(Vec::new(alloc)),
        dice: ListDice::new(dice, Vec::new(alloc)),
        keys: MapKeys::new(alloc, Vec::new(alloc)),
    }
}

#[test]
fn a_host_hands_out_its_parts_and_takes_them_back(rt: HostRuntime) -> Result<(), Fail> {
    let alloc = rt.alloc();
    let mut keys = MapKeys::new(alloc, Vec::new(alloc));
    keys.insert(grip(1), vec![in alloc; 9u8]?)?;
    let mut parts = parts_with(alloc, vec![in alloc; 5u8, 6]?);
    parts.keys = keys;
    let mut host = MemHost::new(&rt, alloc, 17, parts);
    assert_eq!(rt; first_byte(&mut host), (17, 5));
    assert_eq!(rt; first_byte(&mut host), (17, 6));
    Ok(())
}

/// The first byte that the dice of the next session's parts give, if any, and what the next trust
/// file is.
fn next_session<H: Host>(alloc: Global, host: &H) -> Result<String, AllocError>
where
    H::Launcher: Drop,
    H::Clock: Drop,
    H::Dice: Drop,
    H::Keys: Drop,
    H::Trust: Drop,
{
    let mut parts = host.session_parts();
    let mut buf = [0u8; 1];
    let filled = parts.dice.fill(&mut buf);
    let mut trust = host.trust();
    format!(in alloc; "{filled} {buf:?} {:?}", trust.read(alloc))
}

/// What the listeners of a daemon give in one call each, if there are any. The faults of the ears
/// go back to the host.
fn listen_once<H: Host>(alloc: Global, host: &mut H) -> Result<Vec<String>, AllocError>
where
    H::Listener: Drop,
{
    let mut all = Vec::new(alloc);
    for extra in [false, true] {
        let listener = if extra {
            host.listen_extra()
        } else {
            host.listen()
        };
        let Some(listener) = listener else {
            all.push(format!(in alloc; "none")?)?;
            continue;
        };
        let mut ear = listener.ear();
        let heard = hear(alloc, &listener, &mut ear, b"OK");
        host.ear_back(ear);
        all.push(heard?)?;
    }
    Ok(all)
}

/// A machine whose daemon listens for these links, where the third call for a listener fails, and
/// has what one session needs.
fn daemon_host<'l, W: Wait>(
    rt: &'l W,
    alloc: Global,
    links: &'l Mutex<ListedLinks>,
    extra: &'l Mutex<ListedLinks>,
) -> Result<MemHost<'l, W, HoldGate>, AllocError> {
    let sessions = vec![in alloc; parts_with(alloc, vec![in alloc; 7u8]?)]?;
    let file = vec![in alloc; 65u8, 66]?;
    let trusts = vec![in alloc; MemTrust::new(Some(file), Vec::new(alloc))]?;
    let host = MemHost::new(rt, alloc, 17, parts_with(alloc, Vec::new(alloc)))
        .with_gate(HoldGate::new(1))
        .with_sessions(sessions, trusts)
        .with_links(links, Some(extra), vec![in alloc; 2u64]?);
    Ok(host)
}

/// What the sessions of two rounds of a daemon have, and what its listeners give.
fn run_daemon<W: Wait>(
    alloc: Global,
    host: &mut MemHost<'_, W, HoldGate>,
) -> Result<Vec<String>, AllocError> {
    host.settle(b"/home");
    let mut all = Vec::new(alloc);
    all.push(format!(in alloc; "{:?}", host.homedir())?)?;
    for _ in 0..2 {
        all.push(next_session(alloc, host)?)?;
        for heard in listen_once(alloc, host)? {
            all.push(heard)?;
        }
        all.push(format!(in alloc; "{} faults", host.failed_listens())?)?;
    }
    prompts(host.gate());
    all.push(format!(in alloc; "{}", host.gate().gave_up())?)?;
    Ok(all)
}

#[test]
fn a_host_has_what_a_daemon_needs(rt: HostRuntime) -> Result<(), Fail> {
    let alloc = rt.alloc();
    let links = listed(alloc, &["a"], Vec::new(alloc))?;
    let extra = listed(alloc, &[], Vec::new(alloc))?;
    let mut host = daemon_host(&rt, alloc, &links, &extra)?;
    let got = run_daemon(alloc, &mut host)?;
    // The extra listener has no link. An ear that came back with a fault counts, and so does the
    // third call for a listener, which is to fail.
    let want = [
        "[47, 104, 111, 109, 101]",
        "true [7] Found([65, 66])",
        "All [\"[97]\"]",
        "failed",
        "1 faults",
        "false [0] Absent",
        "none",
        "failed",
        "3 faults",
        "true",
    ];
    assert_eq!(rt; first_wrong(&got, &want), None);
    Ok(())
}
