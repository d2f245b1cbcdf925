//! The daemon: workers at the counted lock until a session stops the agent, and then a line of
//! summary. It listens by the host, gives each worker a pass (worker's token) and an ear (fault
//! counter), and writes the summary on standard output. Begin with `run_daemon`; what it does is
//! `RunsDaemon` (`specs/Daemon`).

ghost use Rattle.std.specs.Prelude.{◌≡◌, ◌≤◌, ◌<◌, ◌+◌, ◌⊎◌, ◌++◌, IfSome, IsNone, decimal};
ghost use Rattle.std.specs.Prelude.{is_some, length, sum_by, vec_len, vec_capacity, true, false};
ghost use Rattle.std.specs.Option.{option_copied};
ghost use Rattle.agent_ports.specs.{Counts.{Rose, RoseBy}, Sides.{with_bytes, sent_part, IsCut}};
ghost use Rattle.{arrayvec.specs.ArrayVec.array_vec_len, counted_lock.specs.Passes.AreOf};
ghost use Rattle.agent_serve.specs.Working.{WorkEach};
ghost use Rattle.agent_top.specs.Daemon.{AnyFailed, NoneFailed, AreEarsOf, FirstLooks, Rounds};
ghost use Rattle.agent_top.specs.Daemon.{RunsDaemon, summary_line, status_after, IsFirstStopped};
ghost use Rattle.agent_top.specs.Daemon.{workers_with};

use crate::Status;
use crate::top::limits_of;
use agent_ports::{Ear, Host, Link, Listener, Sent, Sink};
use agent_serve::{SharedHost, ViewedHost, run_workers};
use arrayvec::ArrayVec;
use cache_policy::Tally;
use counted_lock::{Counted, CountedPass};
use itoa::Buffer;
use session_options::Rules;
use std::alloc::Global;
use std::rt;
use std::sync::Wait;
use std::thread::Threads;

/// More bytes than a summary has: its words, seven numbers of at most 20 digits, and a line feed.
pub(crate) const SUMMARY_ROOM: usize = 256;

/// Serves the links of the host's listener until a session stops the agent, and writes a line that
/// says what was done. Each session has the key files and the trust file of the folder at which the
/// host was settled. Where the rules ask for an extra listener one more worker serves its links,
/// each as a restricted session.
///
/// Its answer is the status of the process: 0 where a session stopped the agent, 1 where there is
/// no memory for the workers, 4 where the line can't be written, and 5 where a listener is wanting,
/// or where one failed before the agent was stopped. Sessions that are being served when the agent
/// is stopped go on until their clients end them.
pub fn run_daemon<W: Threads + Wait + rt::Clock + Sync, S: Link, H: SharedHost>(
    rt: &W,
    alloc: Global,
    rules: &Rules,
    stdio: &mut S,
    host: &mut H,
) -> u8
where
    H::Listener: Drop,
    ensures runs { RunsDaemon (⟦<H as ViewedHost>⟧.views (H.homedir host.old)) rules.now
        (H.listens host.old) (S.output stdio.old) result (H.listens host.new)
        (S.output stdio.new) }
    ensures input { S.input stdio.new ≡ S.input stdio.old }
    ensures server { H.server host.new ≡ H.server host.old }
    ensures process { H.process host.new ≡ H.process host.old }
    ensures homedir { H.homedir host.new ≡ H.homedir host.old }
{
    let Ok((counted, passes)) = Counted::new(alloc, limits_of(rules), workers_of(rules)) else {
        return Status::NoMemory.number();
    };
    let Ok(room) = Vec::with_capacity(alloc, passes.len()) else {
        return Status::NoMemory.number();
    };
    let Some((listener, extra)) = listeners(rules, host) else {
        return Status::ListenFault.number();
    };
    let ported = extra.as_ref();
    let ears = with_ears::<H>(&listener, ported, room, rules.workers as usize);
    let (passes, ears) = serve_rounds(
        rt, alloc, rules, host, &listener, ported, &counted, passes, ears,
    );
    let tally = counted.close(passes);
    drop(listener);
    drop(extra);
    give_ears_back(host, ears);
    let sent = write_summary(stdio, &tally);
    status_after(&tally, sent).number()
}

/// How many workers serve links: one more where there is an extra listener.
fn workers_of(rules: &Rules) -> u32
    ensures number { result ≡ workers_with rules.now.extra rules.now.workers }
    ensures within { (0 < result) × (result ≤ 65) }
{
    if rules.extra {
        rules.workers + 1
    } else {
        rules.workers
    }
}

/// The daemon's listener, and the extra one where the rules ask for it.
fn listeners<H: Host>(rules: &Rules, host: &mut H) -> Option<(H::Listener, Option<H::Listener>)>
where
    H::Listener: Drop,
    ensures home { IfSome result (λ made. H.is_home made.0) }
    ensures extra { IfSome result
        (λ made. IfSome made.1 H.is_extra × (is_some made.1 ≡ rules.now.extra)) }
    ensures failed { IsNone result → Rose (H.listens host.old) (H.listens host.new) }
    ensures listens { H.listens host.old ≤ H.listens host.new }
    ensures server { H.server host.new ≡ H.server host.old }
    ensures process { H.process host.new ≡ H.process host.old }
    ensures homedir { H.homedir host.new ≡ H.homedir host.old }
{
    let listener = host.listen()?;
    if !rules.extra {
        return Some((listener, None));
    }
    let extra = host.listen_extra()?;
    Some((listener, Some(extra)))
}

/// An ear for each of so many workers, and then one of the extra listener for its worker.
fn with_ears<H: Host>(
    listener: &H::Listener,
    extra: Option<&H::Listener>,
    mut room: Vec<H::Ear>,
    workers: usize,
) -> Vec<H::Ear>
    requires empty { vec_len room ≡ 0 }
    requires fits { workers_with (is_some extra) workers ≤ vec_capacity room }
    ensures all { vec_len result ≡ workers_with (is_some extra.entry) workers }
    ensures own { AreEarsOf H.Listener.hears listener.now (option_copied extra.entry) result.items }
    ensures new { NoneFailed H.Ear.faults result.items }
{
    for _ in 0..workers {
        room.push_reserved(listener.ear());
    }
    if let Some(extra) = extra {
        room.push_reserved(extra.ear());
    }
    room
}

/// Has the workers serve links until the agent is stopped, or a listener failed. Where they came
/// back for another reason they begin again.
fn serve_rounds<W: Threads + Wait + rt::Clock + Sync, H: SharedHost>(
    rt: &W,
    alloc: Global,
    rules: &Rules,
    host: &H,
    listener: &H::Listener,
    extra: Option<&H::Listener>,
    counted: &Counted,
    mut passes: Vec<CountedPass>,
    mut ears: Vec<H::Ear>,
) -> (Vec<CountedPass>, Vec<H::Ear>)
    requires own { AreOf counted.now.table passes.items }
    requires ears { vec_len passes ≡ vec_len ears }
    requires some { 0 < vec_len passes }
    ensures own { AreOf counted.now.table result.0.items }
    ensures all { (vec_len result.0 ≡ vec_len passes) × (vec_len result.1 ≡ vec_len ears) }
    ensures rounds { Rounds H.Ear.faults (WorkEach (⟦<H as ViewedHost>⟧.views (H.homedir host.now))
        rules.now listener.now (option_copied extra.entry)) passes.items ears.items result.0.items
        result.1.items }
    ensures end { IsFirstStopped result.0.items ⊎ AnyFailed H.Ear.faults result.1.items }
{
    for _ in rt.forever() {
        (passes, ears) = run_workers(
            rt, alloc, rules, host, listener, extra, counted, passes, ears,
        );
        if sees_a_stop(rt, counted, &mut passes) {
            return (passes, ears);
        }
        if any_failed(&ears) {
            return (passes, ears);
        }
    }
    unreachable!()
}

/// Looks with the first pass whether the agent is stopped.
fn sees_a_stop<W: Wait + rt::Clock>(
    rt: &W,
    counted: &Counted,
    passes: &mut Vec<CountedPass>,
) -> bool
    requires own { AreOf counted.now.table passes.old.items }
    requires some { 0 < vec_len passes.old }
    ensures own { AreOf counted.now.table passes.new.items }
    ensures all { vec_len passes.new ≡ vec_len passes.old }
    ensures looks { FirstLooks passes.old.items passes.new.items }
    ensures stopped { result ≡ true → IsFirstStopped passes.new.items }
    ensures unstopped { result ≡ false → ¬ IsFirstStopped passes.new.items }
{
    let first = &mut passes[0];
    counted.look(rt, first);
    first.stopped()
}

fn any_failed<E: Ear>(ears: &[E]) -> bool
    ensures failed { result ≡ true → AnyFailed E.faults ears.now }
    ensures unfailed { result ≡ false → ¬ AnyFailed E.faults ears.now }
{
    ears.iter().any(|ear| ear.failed())
}

/// The host counts what the ears heard of faults.
fn give_ears_back<H: Host>(host: &mut H, mut ears: Vec<H::Ear>)
where
    H::Ear: Drop,
    ensures heard { RoseBy (sum_by H.Ear.faults ears.items) (H.listens host.old)
        (H.listens host.new) }
    ensures rose { AnyFailed H.Ear.faults ears.items
        → Rose (H.listens host.old) (H.listens host.new) }
    ensures listens { H.listens host.old ≤ H.listens host.new }
    ensures server { H.server host.new ≡ H.server host.old }
    ensures process { H.process host.new ≡ H.process host.old }
    ensures homedir { H.homedir host.new ≡ H.homedir host.old }
{
    while let Some(ear) = ears.pop() {
        host.ear_back(ear);
    }
}

fn write_summary<S: Link>(stdio: &mut S, tally: &Tally) -> Sent
    ensures written { (S.output stdio.new).bytes ≡ with_bytes (S.output stdio.old).bytes
        (sent_part (summary_line tally.now) result) }
    ensures cut { IsCut result → Rose (S.output stdio.old).faults (S.output stdio.new).faults }
    ensures faults { (S.output stdio.old).faults ≤ (S.output stdio.new).faults }
    ensures input { S.input stdio.new ≡ S.input stdio.old }
{
    stdio.put(&summary_line(tally))
}

/// What was done, as a line.
pub(crate) fn summary_line(tally: &Tally) -> ArrayVec<u8, SUMMARY_ROOM>
    ensures { result.items ≡ summary_line tally.now }
{
    let mut line = ArrayVec::new();
    add_number(&mut line, b"marks ", tally.marks);
    add_number(&mut line, b" given ", tally.given);
    add_number(&mut line, b" empty ", tally.empty);
    add_number(&mut line, b" opened ", tally.opened);
    add_number(&mut line, b" stored ", tally.stored);
    add_number(&mut line, b" cleared ", tally.cleared);
    add_number(&mut line, b" flushed ", tally.flushed);
    line.push(b'\n');
    line
}

/// Appends a word and a number in decimal.
fn add_number(line: &mut ArrayVec<u8, SUMMARY_ROOM>, word: &[u8], number: u64)
    requires { array_vec_len line.old + length word.now + 20 ≤ SUMMARY_ROOM }
    ensures text { line.new.items ≡ line.old.items ++ word.now ++ decimal number }
    ensures room { array_vec_len line.new ≤ array_vec_len line.old + length word.now + 20 }
{
    line.try_extend_from_slice(word).unwrap();
    line.try_extend_from_slice(Buffer::new().format(number).as_bytes())
        .unwrap();
}

/// The status behind a summary of which this was sent.
fn status_after(tally: &Tally, sent: Sent) -> Status
    ensures { result ≡ status_after tally.now.stopped sent }
{
    match sent {
        Sent::Failed { .. } => Status::WriteFault,
        Sent::All if tally.stopped => Status::Success,
        Sent::All => Status::ListenFault,
    }
}
