//! Each job of a list.
ghost use Rattle.std.specs.Prelude.{◌≡◌, ◌≤◌, Some, IfOk, IfSome};
ghost use Rattle.std.specs.List.{AllZip};

use crate::gates::Gate;
use crate::jobs::Job;
use std::alloc::Global;
use std::thread;
use std::thread::Threads;
use su_base::{List, NoMemory};

/// A job's place: the job until it runs, then its out, unless memory was wanting.
#[derive(Drop)]
struct JobSlot<J: Job> {
    job: Option<J>,
    out: Option<J::Out>,
}

impl<J: Job> JobSlot<J> {
    fn run<G: Gate>(&mut self, alloc: Global, gate: &G, number: usize)
        ensures { (job : J) → self.old.job ≡ Some job → IfSome self.new.out (J.gives job) }
    {
        if let Some(job) = self.job.take() {
            gate.pass(number);
            self.out = job.run(alloc).ok();
        }
    }

    fn into_out(self) -> Result<J::Out, NoMemory>
        ensures { IfOk result (λ out. self.out ≡ Some out) }
    {
        let JobSlot { job: _, out } = self;
        out.ok_or(NoMemory)
    }
}

/// The places of the jobs, in order.
fn places<J: Job>(alloc: Global, jobs: List<J>) -> Result<List<JobSlot<J>>, NoMemory>
    ensures { IfOk result (λ places. AllZip (λ job place. place.job ≡ Some job) jobs places) }
{
    let mut places = List::from_vec(Vec::with_capacity(alloc, jobs.len())?);
    for job in jobs.into_vec() {
        places.push(JobSlot {
            job: Some(job),
            out: None,
        })?;
    }
    Ok(places)
}

/// The outs at the places, in order, or want of memory where one is missing.
fn outs<J: Job>(alloc: Global, places: Vec<JobSlot<J>>) -> Result<List<J::Out>, NoMemory>
    ensures { IfOk result (λ outs. AllZip (λ place out. place.out ≡ Some out) places.items outs) }
{
    let mut outs = List::from_vec(Vec::with_capacity(alloc, places.len())?);
    for place in places {
        outs.push(place.into_out()?)?;
    }
    Ok(outs)
}

/// Runs the job at each place. What a place becomes is written by the one thread that has it.
fn run_all<R: Threads + Sync, J: Job, G: Gate>(
    rt: &R,
    alloc: Global,
    places: &mut [JobSlot<J>],
    workers: u8,
    gate: &G,
)
    requires { 1 ≤ workers }
    ensures { AllZip (λ before after. (job : J) → before.job ≡ Some job → IfSome after.out (J.gives job)) places.old places.new }
{
    thread::for_each_mut(
        rt,
        places,
        workers as usize,
        &|number: usize, place: &mut JobSlot<J>|
            ensures { (job : J) → place.entry.now.job ≡ Some job → IfSome place.exit.now.out (J.gives job) }
        { place.run(alloc, gate, number) },
    );
}

/// The outs of the jobs, in the jobs' order: the k-th is one that the k-th job may give.
///
/// `gate.pass(k)` is called in the thread of job k before it runs. With 1 worker the jobs run one
/// after another in the caller's thread, else at most `workers` run at a time, by fork and join:
/// at most one run of neighbours a worker, of equal lengths but for the last. Want of memory in one
/// job is want of memory of the call, given once every job has run, so no thread is left.
pub fn each<R: Threads + Sync, J: Job, G: Gate>(
    rt: &R,
    alloc: Global,
    jobs: List<J>,
    workers: u8,
    gate: &G,
) -> Result<List<J::Out>, NoMemory>
    requires least { 1 ≤ workers }
    requires most { workers ≤ 16 }
    ensures { IfOk result (λ outs. AllZip J.gives jobs outs) }
{
    let mut places = places(alloc, jobs)?.into_vec();
    run_all(rt, alloc, places.as_mut_slice(), workers, gate);
    outs(alloc, places)
}
