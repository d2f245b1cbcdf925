//! A task for each of a list of pairs, one inside the other: `std::thread::join` runs the last
//! beside all before it. It starts threads, and knows nothing of what they do. Begin with
//! `run_each`; the pairs and how they come back are `specs/Pairs`.

ghost use Rattle.std.specs.Prelude.{◌≡◌, [], IfNone, IfSome, vec_len, vec_capacity};
ghost use Rattle.std.specs.Thread.{IsSync, IsSend};
ghost use Rattle.agent_serve.specs.Pairs.{Paired, PairedTo, HasPopped};

use std::thread;
use std::thread::Threads;

/// What a worker does with a job and an ear, which it gives back.
pub(crate) trait Task<J, K> {
    /// What it may be given.
    ghost takes: { Self → J → K → Type 0 };

    /// What it does.
    ghost did: { Self → J → K → (J × K) → Type 0 };

    fn run(&self, job: J, ear: K) -> (J, K)
        requires { takes self.now job ear }
        ensures { did self.now job ear result };
}

/// Runs the task for each pair, but `last` for the last one: the first one in this thread, and each
/// other one in a thread of its own. One for which no thread can be made is run when those before
/// it are done, so the first one runs in any case. All come back, in their order.
pub(crate) fn run_each<W: Threads + Sync, J: Send + Drop, K: Send + Drop, T: Task<J, K> + Sync>(
    rt: &W,
    task: &T,
    last: &T,
    jobs: Vec<J>,
    ears: Vec<K>,
) -> (Vec<J>, Vec<K>)
    requires { Paired (T.takes task.now) jobs.items ears.items
        × Paired (T.takes last.now) jobs.items ears.items }
    ensures lens { (vec_len result.0 ≡ vec_len jobs) × (vec_len result.1 ≡ vec_len ears) }
    ensures room { (vec_capacity result.0 ≡ vec_capacity jobs)
        × (vec_capacity result.1 ≡ vec_capacity ears) }
    ensures each { PairedTo (T.did task.now)
        (T.did last.now) jobs.items ears.items result.0.items result.1.items }
{
    let mut jobs = jobs;
    let mut ears = ears;
    let Some((job, ear)) = pop_pair(task, last, &mut jobs, &mut ears) else {
        return (jobs, ears);
    };
    if jobs.is_empty() {
        let (job, ear) = last.run(job, ear);
        jobs.push_reserved(job);
        ears.push_reserved(ear);
        return (jobs, ears);
    }
    let back = move || -> (J, K)
        requires { T.takes last.now job ear }
        ensures { T.did last.entry.now job ear result }
    { last.run(job, ear) };
    let front = move || -> (Vec<J>, Vec<K>)
        requires { IsSync W.row × IsSync T.row × IsSend J.row × IsSend K.row
            × Paired (T.takes task.now) jobs.items ears.items }
        ensures { (vec_len result.0 ≡ vec_len jobs) × (vec_len result.1 ≡ vec_len ears)
            × (vec_capacity result.0 ≡ vec_capacity jobs)
            × (vec_capacity result.1 ≡ vec_capacity ears) × PairedTo (T.did task.entry.now)
            (T.did task.entry.now) jobs.items ears.items result.0.items result.1.items }
    { run_each(rt, task, task, jobs, ears) };
    // Where no thread can be made `join` calls its first closure last.
    let ((job, ear), (mut jobs, mut ears)) = thread::join(rt, back, front);
    jobs.push_reserved(job);
    ears.push_reserved(ear);
    (jobs, ears)
}

/// The last pair.
fn pop_pair<J: Drop, K: Drop, T: Task<J, K>>(
    _task: &T,
    _last: &T,
    jobs: &mut Vec<J>,
    ears: &mut Vec<K>,
) -> Option<(J, K)>
    requires other { Paired (T.takes _task.now) jobs.old.items ears.old.items }
    requires last { Paired (T.takes _last.now) jobs.old.items ears.old.items }
    ensures some { IfSome result (λ pair. HasPopped (T.takes _task.now) (T.takes _last.now)
        jobs.old.items ears.old.items pair.0 pair.1 jobs.new.items ears.new.items) }
    ensures none { IfNone result ((jobs.old.items ≡ []) × (ears.old.items ≡ [])
        × (jobs.new.items ≡ []) × (ears.new.items ≡ [])) }
    ensures room { (vec_capacity jobs.new ≡ vec_capacity jobs.old)
        × (vec_capacity ears.new ≡ vec_capacity ears.old) }
{
    match (jobs.pop(), ears.pop()) {
        (Some(job), Some(ear)) => Some((job, ear)),
        (None, None) => None,
        (Some(_), None) | (None, Some(_)) => unreachable!(),
    }
}
