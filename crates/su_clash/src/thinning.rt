//! Steps of which none can be left out.
ghost use Rattle.std.specs.Prelude.{◌≡◌, ◌<◌, ◌≤◌, length, take, IfOk, MatchOption};
ghost use Rattle.std.specs.List.{remove};
ghost use Rattle.su_clash.specs.Derivations.{Refutes, AllAreNeeded};
ghost use Rattle.su_clash.specs.inside.Renames.{HaveOneWidth, IsRefutation};

use crate::renaming::Pair;
use crate::replaying::{Front, refuting_front};
use crate::steps::Step;
use std::alloc::Global;
use su_base::{List, NoMemory};
use su_fd::Fd;
use su_tableau::Sym;

/// Steps that refute the rows, and the constants that they make equal.
#[derive(Debug, Drop)]
pub struct Refutation {
    pub steps: List<Step>,
    pub pair: Pair,
}

/// The first steps, so many.
pub fn front_of(alloc: Global, steps: &[Step], count: usize) -> Result<List<Step>, NoMemory>
    ensures { IfOk result (λ front. front ≡ take count steps.now) }
{
    let mut front = List::new(alloc);
    for i in 0..count.min(steps.len()) {
        front.push(steps[i])?;
    }
    Ok(front)
}

/// The steps without the one at this place.
fn without(alloc: Global, steps: &[Step], place: usize) -> Result<List<Step>, NoMemory>
    requires { place < length steps.now }
    ensures { IfOk result (λ others. others ≡ remove steps.now place) }
{
    let mut others = front_of(alloc, steps, steps.len())?.into_vec();
    others.remove(place);
    Ok(List::from_vec(others))
}

/// The steps up to where they refute the rows.
pub fn refutation_by(
    alloc: Global,
    fds: &[Fd],
    rows: &[List<Sym>],
    steps: &[Step],
) -> Result<Option<Refutation>, NoMemory>
    requires { HaveOneWidth rows.now }
    ensures { IfOk result (λ found. MatchOption found (¬ Refutes fds.now rows.now steps.now) (λ r. IsRefutation fds.now rows.now r × (length r.steps ≤ length steps.now))) }
{
    match refuting_front(alloc, fds, rows, steps)? {
        Some(front) => {
            let Front { count, pair } = front;
            let steps = front_of(alloc, steps, count)?;
            Ok(Some(Refutation { steps, pair }))
        }
        None => Ok(None),
    }
}

/// A refutation by the steps without one of them, if there is one.
fn shorter(
    alloc: Global,
    fds: &[Fd],
    rows: &[List<Sym>],
    steps: &[Step],
) -> Result<Option<Refutation>, NoMemory>
    requires { HaveOneWidth rows.now }
    ensures { IfOk result (λ found. MatchOption found (AllAreNeeded fds.now rows.now steps.now) (λ r. IsRefutation fds.now rows.now r × (length r.steps < length steps.now))) }
{
    for place in 0..steps.len() {
        let others = without(alloc, steps, place)?;
        if let Some(found) = refutation_by(alloc, fds, rows, others.as_slice())? {
            return Ok(Some(found));
        }
    }
    Ok(None)
}

/// Leaves out steps as long as the others refute the rows.
pub fn thinned(
    alloc: Global,
    fds: &[Fd],
    rows: &[List<Sym>],
    found: Refutation,
) -> Result<Refutation, NoMemory>
    requires wide { HaveOneWidth rows.now }
    requires found { IsRefutation fds.now rows.now found }
    ensures refutation { IfOk result (IsRefutation fds.now rows.now) }
    ensures needed { IfOk result (λ r. AllAreNeeded fds.now rows.now r.steps) }
{
    let mut last = found;
    while let Some(less) = shorter(alloc, fds, rows, last.steps.as_slice())? {
        last = less;
    }
    Ok(last)
}
