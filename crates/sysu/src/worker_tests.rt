//! A run by two workers, whose jobs meet.
use crate::fault_tests::{BANK, words};
use crate::top::run;
use std::alloc::Global;
use std::sync::atomic::{AtomicU64, Ordering};
use std::test::Fail;
use std::thread::Threads;
use su_base::{List, NoMemory, Str};
use su_io::{File, Outside, Status, SteadyShelf, SteadySink};
use su_par::Gate;

/// Jones has an account at one bank and a loan from another: two terms, both kept.
const SCRIPT: &str =
    "insert BA ('B1', 1); insert AC (1, 'Jones'); insert AB (1, 100); insert BL ('B3', 7); insert LC (7, 'Jones'); insert LA (7, 500); insert CA ('Jones', 'Main'); retrieve (BANK) where CUST = 'Jones'";

const REPLIES: &str =
    "inserted 1\ninserted 1\ninserted 1\ninserted 1\ninserted 1\ninserted 1\ninserted 1\nrows 2\nBANK\nB1\nB3\n";

/// A gate at which jobs 0 and 1 wait for each other, for a bounded number of turns.
#[derive(Default, Drop)]
struct Pairs {
    first: AtomicU64,
    second: AtomicU64,
    missed: AtomicU64,
}

impl Pairs {
    /// How often each job passed, and how often one did not meet the other.
    fn seen(&self) -> (u64, u64, u64) {
        (
            self.first.load(Ordering::SeqCst),
            self.second.load(Ordering::SeqCst),
            self.missed.load(Ordering::SeqCst),
        )
    }
}

impl Gate for Pairs {
    fn pass(&self, job: usize) {
        let (own, other) = if job == 0 {
            (&self.first, &self.second)
        } else {
            (&self.second, &self.first)
        };
        let passes = own.fetch_add(1, Ordering::SeqCst).wrapping_add(1);
        for _ in 0..500_000_000u32 {
            if other.load(Ordering::SeqCst) >= passes {
                return;
            }
        }
        self.missed.fetch_add(1, Ordering::SeqCst);
    }
}

fn file(alloc: Global, name: &str, text: &str) -> Result<File, NoMemory> {
    Ok(File {
        name: Str::new(alloc, name)?,
        bytes: List::from_vec(text.as_bytes().to_vec(alloc)?),
    })
}

/// The bank's schema and the script on a shelf, and a sink.
fn outside(alloc: Global) -> Result<Outside<SteadyShelf, SteadySink>, NoMemory> {
    let mut files = List::new(alloc);
    for (name, text) in [("s", BANK), ("t", SCRIPT)] {
        files.push(file(alloc, name, text)?)?;
    }
    let sink = SteadySink::new(alloc, 1000)?;
    let shelf = SteadyShelf::new(files);
    Ok(Outside { shelf, sink })
}

/// Whether the run writes the replies and ends with 0.
fn replies<R: Threads + Sync, G: Gate>(
    rt: &R,
    alloc: Global,
    words: &[Str],
    outside: &mut Outside<SteadyShelf, SteadySink>,
    gate: &G,
) -> bool {
    let status = run(rt, alloc, words, outside, gate);
    status == Status::Done && outside.sink.written() == REPLIES.as_bytes()
}

/// The same with two workers, over an outside of its own.
fn replies_by_two<R: Threads + Sync, G: Gate>(
    rt: &R,
    alloc: Global,
    gate: &G,
) -> Result<bool, NoMemory> {
    let words = words(alloc, &["run", "s", "t", "--workers", "2"])?;
    let mut outside = outside(alloc)?;
    Ok(replies(rt, alloc, words.as_slice(), &mut outside, gate))
}

#[test]
fn two_workers_take_two_terms_side_by_side(rt: HostRuntime) -> Result<(), Fail> {
    let gate = Pairs::default();
    let replied = replies_by_two(&rt, rt.alloc(), &gate)?;
    assert!(rt; replied);
    assert_eq!(rt; gate.seen(), (2, 2, 0));
    Ok(())
}
