//! Steps that are checked one after another.
ghost use Rattle.std.specs.Prelude.{◌≡◌, ◌↔◌, ◌<◌, ◌≤◌, IsTrue, length, IfOk, MatchOption};
ghost use Rattle.su_chase.specs.Chase.{SameLabels};
ghost use Rattle.su_clash.specs.Derivations.{KeepsStep, Refutes};
ghost use Rattle.su_clash.specs.inside.Renames as naming;

use crate::renaming::{Pair, Rename, are_equal, equate};
use crate::steps::Step;
use std::alloc::Global;
use su_base::{AttrSet, List, NoMemory};
use su_fd::Fd;
use su_tableau::Sym;

/// So many of the first steps make two different constants equal.
#[derive(Debug, Drop)]
pub struct Front {
    pub count: usize,
    pub pair: Pair,
}

/// Whether the rows are called the same at the attribute, if it is in the set.
fn agree_at(renames: &[Rename], set: AttrSet, first: &[Sym], second: &[Sym], a: usize) -> bool
    requires narrow { a < 128 }
    requires first { a < length first.now }
    requires second { a < length second.now }
    ensures { IsTrue result ↔ naming.OneAt set first.now second.now a (naming.renamed renames.now) }
{
    !set.contains(a as u8) || are_equal(renames, &first[a], &second[a])
}

/// Whether the rows are called the same at each attribute of the set.
fn agree(renames: &[Rename], set: AttrSet, first: &[Sym], second: &[Sym]) -> bool
    requires narrow { length first.now ≤ 128 }
    requires lengths { length first.now ≡ length second.now }
    ensures { IsTrue result ↔ SameLabels (naming.renamed renames.now) set first.now second.now }
{
    for a in 0..first.len() {
        if !agree_at(renames, set, first, second, a) {
            return false;
        }
    }
    true
}

/// Whether the step names a dependency and two rows that agree on its left side.
pub fn follows(fds: &[Fd], rows: &[List<Sym>], renames: &[Rename], step: &Step) -> bool
    requires { naming.HaveOneWidth rows.now }
    ensures { IsTrue result ↔ naming.FollowsBy fds.now rows.now renames.now step.now }
{
    if step.fd >= fds.len() || step.first >= rows.len() || step.second >= rows.len() {
        return false;
    }
    let first = rows[step.first].as_slice();
    let second = rows[step.second].as_slice();
    agree(renames, fds[step.fd].left, first, second)
}

/// Whether the step follows, and makes something equal that isn't yet.
pub fn breaks(fds: &[Fd], rows: &[List<Sym>], renames: &[Rename], step: &Step) -> bool
    requires { naming.HaveOneWidth rows.now }
    ensures { IsTrue result ↔ naming.BreaksBy fds.now rows.now renames.now step.now }
{
    if !follows(fds, rows, renames, step) {
        return false;
    }
    let first = rows[step.first].as_slice();
    let second = rows[step.second].as_slice();
    !agree(renames, fds[step.fd].right, first, second)
}

/// Makes the rows equal at the attribute, if it is in the set.
fn take_at(
    alloc: Global,
    renames: &mut List<Rename>,
    set: AttrSet,
    first: &[Sym],
    second: &[Sym],
    a: usize,
) -> Result<Option<Pair>, NoMemory>
    requires narrow { a < 128 }
    requires first { a < length first.now }
    requires second { a < length second.now }
    requires names { naming.AreNames renames.old }
    ensures { IfOk result (λ met. MatchOption met (naming.Makes (naming.OneAt set first.now second.now a) renames.old renames.new) (naming.Meet (naming.OneAt set first.now second.now a) renames.old)) }
{
    if !set.contains(a as u8) {
        return Ok(None);
    }
    equate(alloc, renames, &first[a], &second[a])
}

/// Makes the rows equal at each attribute of the set, up to the first place where two different
/// constants meet.
fn take(
    alloc: Global,
    renames: &mut List<Rename>,
    set: AttrSet,
    first: &[Sym],
    second: &[Sym],
) -> Result<Option<Pair>, NoMemory>
    requires narrow { length first.now ≤ 128 }
    requires lengths { length first.now ≡ length second.now }
    requires names { naming.AreNames renames.old }
    ensures { IfOk result (λ met. MatchOption met (naming.Makes (naming.RowsAreOne set first.now second.now) renames.old renames.new) (naming.Meet (naming.RowsAreOne set first.now second.now) renames.old)) }
{
    for a in 0..first.len() {
        if let Some(pair) = take_at(alloc, renames, set, first, second, a)? {
            return Ok(Some(pair));
        }
    }
    Ok(None)
}

/// Takes the step, which names a dependency and two rows.
pub fn take_step(
    alloc: Global,
    fds: &[Fd],
    rows: &[List<Sym>],
    renames: &mut List<Rename>,
    step: &Step,
) -> Result<Option<Pair>, NoMemory>
    requires wide { naming.HaveOneWidth rows.now }
    requires named { naming.IsStepOf fds.now rows.now step.now }
    requires names { naming.AreNames renames.old }
    ensures { IfOk result (λ met. MatchOption met (naming.Makes (naming.StepIsTaken fds.now rows.now step.now) renames.old renames.new) (naming.Meet (naming.StepIsTaken fds.now rows.now step.now) renames.old)) }
{
    let first = rows[step.first].as_slice();
    let second = rows[step.second].as_slice();
    take(alloc, renames, fds[step.fd].right, first, second)
}

/// The least front of the steps that refutes the rows; none where a step doesn't follow before, or where no
/// two constants meet.
pub fn refuting_front(
    alloc: Global,
    fds: &[Fd],
    rows: &[List<Sym>],
    steps: &[Step],
) -> Result<Option<Front>, NoMemory>
    requires { naming.HaveOneWidth rows.now }
    ensures { IfOk result (λ found. MatchOption found (¬ Refutes fds.now rows.now steps.now) (naming.IsFront fds.now rows.now steps.now)) }
{
    let mut renames = List::new(alloc);
    for i in 0..steps.len() {
        let step = steps[i];
        if !follows(fds, rows, renames.as_slice(), &step) {
            return Ok(None);
        }
        if let Some(pair) = take_step(alloc, fds, rows, &mut renames, &step)? {
            return Ok(Some(Front { count: i + 1, pair }));
        }
    }
    Ok(None)
}
