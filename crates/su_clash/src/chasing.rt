//! The plain chase: rows that break a dependency are made equal, again and again.
ghost use Rattle.std.specs.Prelude.{◌≡◌, ◌<◌, ℕ, length, IfOk, MatchOption};
ghost use Rattle.su_chase.specs.Chase.{IsConsistent};
ghost use Rattle.su_clash.specs.inside.Renames.{BreaksBy, HaveOneWidth, IsRefutation, NoneBreaks};

use crate::renaming::Rename;
use crate::replaying::{breaks, take_step};
use crate::steps::Step;
use crate::thinning::Refutation;
use std::alloc::Global;
use su_base::{List, NoMemory};
use su_fd::Fd;
use su_tableau::Sym;

/// The first row that breaks the dependency with this one.
fn breaking_second(
    fds: &[Fd],
    rows: &[List<Sym>],
    renames: &[Rename],
    fd: usize,
    first: usize,
) -> Option<Step>
    requires { HaveOneWidth rows.now }
    ensures { MatchOption result ((second : ℕ) → ¬ BreaksBy fds.now rows.now renames.now (record { fd = fd; first = first; second = second })) (BreaksBy fds.now rows.now renames.now) }
{
    for second in 0..rows.len() {
        let step = Step { fd, first, second };
        if breaks(fds, rows, renames, &step) {
            return Some(step);
        }
    }
    None
}

/// The first two rows that break the dependency.
fn breaking_rows(fds: &[Fd], rows: &[List<Sym>], renames: &[Rename], fd: usize) -> Option<Step>
    requires { HaveOneWidth rows.now }
    ensures { MatchOption result ((first second : ℕ) → ¬ BreaksBy fds.now rows.now renames.now (record { fd = fd; first = first; second = second })) (BreaksBy fds.now rows.now renames.now) }
{
    for first in 0..rows.len() {
        if let Some(step) = breaking_second(fds, rows, renames, fd, first) {
            return Some(step);
        }
    }
    None
}

/// The first dependency that is broken, and the first two rows that break it.
fn breaking(fds: &[Fd], rows: &[List<Sym>], renames: &[Rename]) -> Option<Step>
    requires { HaveOneWidth rows.now }
    ensures { MatchOption result (NoneBreaks fds.now rows.now renames.now) (BreaksBy fds.now rows.now renames.now) }
{
    for fd in 0..fds.len() {
        if let Some(step) = breaking_rows(fds, rows, renames, fd) {
            return Some(step);
        }
    }
    None
}

/// Steps that refute the rows; none where no two constants meet. Slow: each step looks at all pairs of rows.
pub fn chased(alloc: Global, fds: &[Fd], rows: &[List<Sym>]) -> Result<Option<Refutation>, NoMemory>
    requires { HaveOneWidth rows.now }
    ensures { IfOk result (λ found. MatchOption found (IsConsistent fds.now rows.now) (IsRefutation fds.now rows.now)) }
{
    let mut renames = List::new(alloc);
    let mut steps = List::new(alloc);
    while let Some(step) = breaking(fds, rows, renames.as_slice()) {
        steps.push(step)?;
        if let Some(pair) = take_step(alloc, fds, rows, &mut renames, &step)? {
            return Ok(Some(Refutation { steps, pair }));
        }
    }
    Ok(None)
}
