ghost use Rattle.std.specs.Prelude.{◌≡◌, ◌≤◌, ◌*◌, ◌%◌, ◌^◌, Some};

use std::alloc::Global;
use std::test::Fail;
use std::thread::Threads;
use su_base::{List, NoMemory};
use su_gates::{InTurn, Meeting};
use su_par::{Gate, Job, OpenGate, each};

#[derive(Drop)]
struct Twice(u64);

impl Job for Twice {
    type Out = u64;

    ghost gives = { λ job out. out ≡ job.0 * 2 % 2 ^ 64 };

    fn run(self, _alloc: Global) -> Result<u64, NoMemory> {
        Ok(self.0.wrapping_mul(2))
    }
}

fn numbers(alloc: Global, count: u64) -> Result<List<Twice>, NoMemory> {
    let mut jobs = List::new(alloc);
    for number in 0..count {
        jobs.push(Twice(number))?;
    }
    Ok(jobs)
}

/// What comes of so many jobs.
fn doubled<R: Threads + Sync, G: Gate>(
    rt: &R,
    alloc: Global,
    count: u64,
    workers: u8,
    gate: &G,
) -> Result<List<u64>, NoMemory>
    requires least { 1 ≤ workers }
    requires most { workers ≤ 16 }
{
    each(rt, alloc, numbers(alloc, count)?, workers, gate)
}

#[test]
fn outs_stand_in_the_order_of_the_jobs(rt: HostRuntime) -> Result<(), Fail> {
    for workers in [1u8, 2, 3, 8, 16] {
        let outs = doubled(&rt, rt.alloc(), 5, workers, &OpenGate)?;
        assert!(rt;
            outs.as_slice() == [0, 2, 4, 6, 8].as_slice(),
            "{workers} workers"
        );
    }
    Ok(())
}

#[test]
fn of_no_job_nothing_comes(rt: HostRuntime) -> Result<(), Fail> {
    let outs = doubled(&rt, rt.alloc(), 0, 2, &OpenGate)?;
    assert!(rt; outs.is_empty());
    Ok(())
}

/// A job that finds memory only where there is a number.
#[derive(Drop)]
struct Found(Option<u64>);

impl Job for Found {
    type Out = u64;

    ghost gives = { λ job out. job.0 ≡ Some out };

    fn run(self, _alloc: Global) -> Result<u64, NoMemory> {
        self.0.ok_or(NoMemory)
    }
}

/// Three jobs, of which the middle one finds no memory.
fn starving(alloc: Global) -> Result<List<Found>, NoMemory> {
    let mut jobs = List::new(alloc);
    for number in [Some(1), None, Some(3)] {
        jobs.push(Found(number))?;
    }
    Ok(jobs)
}

#[test]
fn a_job_without_memory_is_want_of_memory_of_the_call(rt: HostRuntime) -> Result<(), Fail> {
    for workers in [1u8, 2, 16] {
        let jobs = starving(rt.alloc())?;
        let outs = each(&rt, rt.alloc(), jobs, workers, &OpenGate);
        assert!(rt; outs.is_err(), "{workers} workers");
    }
    Ok(())
}

#[test]
fn two_jobs_meet_at_the_gate(rt: HostRuntime) -> Result<(), Fail> {
    let gate = Meeting::default();
    let outs = doubled(&rt, rt.alloc(), 2, 2, &gate)?;
    assert!(rt; outs.as_slice() == [0, 2].as_slice());
    assert!(rt; gate.passes() == (1, 1, 0));
    Ok(())
}

#[test]
fn one_worker_takes_the_jobs_one_after_another(rt: HostRuntime) -> Result<(), Fail> {
    let gate = InTurn::default();
    let outs = doubled(&rt, rt.alloc(), 9, 1, &gate)?;
    assert!(rt; outs.len() == 9);
    assert!(rt; gate.passes() == (9, 0));
    Ok(())
}
