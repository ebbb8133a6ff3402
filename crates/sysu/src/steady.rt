//! Runs over files in memory and a sink in memory, of which no call fails.
ghost use Rattle.std.specs.Prelude.{◌≢◌, IsSome};
ghost use Rattle.su_io.specs.Moments.{Moment};
ghost use Rattle.sysu.specs.inside.Steady.{FinishesOver};

use crate::top::run;
use std::alloc::Global;
use std::thread::Threads;
use su_base::Str;
use su_io::{Outside, Status, SteadyShelf, SteadySink};
use su_par::Gate;

/// A run over a shelf and a sink that never fail. No status is that of a fault, and where the schema is
/// accepted and no file is past its limit the run comes to its end or to want of memory.
pub fn run_steadily<R: Threads + Sync, G: Gate>(
    rt: &R,
    alloc: Global,
    words: &[Str],
    outside: &mut Outside<SteadyShelf, SteadySink>,
    gate: &G,
) -> Status
    ensures told { IsSome outside.old.files }
    ensures no_read_fault { result ≢ Status.ReadFault }
    ensures no_write_fault { result ≢ Status.WriteFault }
    ensures ends { FinishesOver words.now outside.old.files result }
{
    // For the proof: the shelf tells its files, and no call of it fails.
    let _before = &outside.shelf;
    let status = run(rt, alloc, words, outside, gate);
    // For the proof: no call of the shelf has failed.
    let _after = &outside.shelf;
    status
}
