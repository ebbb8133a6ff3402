//! An order of the dependencies in which a pass of a closure goes far.
//!
//! A dependency feeds another where its right side meets the other's left side. Where none feeds
//! itself round a circle, each stands behind all that feed it, and one pass makes a closure. This
//! saves time alone: no contract of a public call speaks of the order.
ghost use Rattle.std.specs.Prelude.{ℕ, ◌≡◌, ◌<◌, ◌≤◌, true, false, All, IsTrue, IsNone, IfOk, IfSome, MatchOption, length, replicate, slice_get};
ghost use Rattle.su_maxobj.specs.inside.Ordered.{HaveSameMembers};

use std::alloc::Global;
use su_base::{AttrSet, List, NoMemory};
use su_fd::Fd;

fn meets(s: AttrSet, t: AttrSet) -> bool {
    !s.meet(t).is_empty()
}

/// How many of the dependencies feed one with this left side.
fn feeder_count(fds: &[Fd], left: AttrSet) -> u16 {
    let mut count: u16 = 0;
    for fd in fds {
        if meets(fd.right, left) {
            count = count.saturating_add(1);
        }
    }
    count
}

fn feeder_counts(alloc: Global, fds: &[Fd]) -> Result<Vec<u16>, NoMemory>
    ensures { IfOk result (λ counts. length counts.items ≡ length fds.now) }
{
    let mut counts = vec![in alloc; 0; fds.len()]?;
    for i in 0..fds.len() {
        counts[i] = feeder_count(fds, fds[i].left);
    }
    Ok(counts)
}

/// Takes one off the counts of those that the right side feeds.
fn discount(fds: &[Fd], right: AttrSet, counts: &mut [u16])
    requires { length fds.now ≡ length counts.old }
{
    for i in 0..fds.len() {
        if meets(right, fds[i].left) {
            counts[i] = counts[i].saturating_sub(1);
        }
    }
}

fn is_less_fed(counts: &[u16], i: usize, least: Option<usize>) -> bool
    requires in_range { i < length counts.now }
    requires least { IfSome least (λ l. l < length counts.now) }
    ensures { IsNone least → IsTrue result }
{
    match least {
        Some(l) => counts[i] < counts[l],
        None => true,
    }
}

/// The waiting one with the least count, the first of them.
fn least_fed(waiting: &[bool], counts: &[u16]) -> Option<usize>
    requires { length waiting.now ≡ length counts.now }
    ensures { MatchOption result (All (λ w. w ≡ false) waiting.now) (λ i. slice_get waiting.now i ≡ Some true) }
{
    let mut least: Option<usize> = None;
    for i in 0..waiting.len() {
        if !waiting[i] {
            continue;
        }
        if is_less_fed(counts, i, least) {
            least = Some(i);
        }
    }
    least
}

/// The dependencies, each when it is the one with the least count of those that wait.
fn placed(
    alloc: Global,
    fds: &[Fd],
    counts: &mut [u16],
    waiting: &mut [bool],
) -> Result<List<Fd>, NoMemory>
    requires counts { length counts.old ≡ length fds.now }
    requires waiting { waiting.old ≡ replicate (length fds.now) true }
    ensures { IfOk result (HaveSameMembers fds.now) }
{
    let mut list = List::new(alloc);
    while let Some(i) = least_fed(waiting, counts) {
        waiting[i] = false;
        discount(fds, fds[i].right, counts);
        list.push(fds[i])?;
    }
    Ok(list)
}

/// The same dependencies: again and again the one that the fewest others feed which still wait.
pub fn ordered(alloc: Global, fds: &[Fd]) -> Result<List<Fd>, NoMemory>
    ensures { IfOk result (HaveSameMembers fds.now) }
{
    let mut counts = feeder_counts(alloc, fds)?;
    let mut waiting = vec![in alloc; true; fds.len()]?;
    placed(alloc, fds, &mut counts, &mut waiting)
}
