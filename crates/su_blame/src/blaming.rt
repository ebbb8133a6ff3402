//! The set that makes a trial fail.
ghost use Rattle.std.specs.Prelude.{◌≡◌, ◌≤◌, ◌↔◌, IsTrue, IfOk, MatchOption};
ghost use Rattle.std.specs.List.{range_with_len};
ghost use Rattle.su_blame.specs.Blame.{IsBlame, NoneFails, most_tried as most};

use crate::searching::first_up_to;
use crate::thinning::{thinned, whole};
use crate::trials::Trial;
use std::alloc::Global;
use su_base::{List, NoMemory};

/// Numbers that together make a trial fail, ascending.
#[derive(Debug, Drop)]
pub enum Blame {
    /// None before them do.
    Least(List<usize>),
    /// None of them can be left out.
    Narrow(List<usize>),
}

/// How many numbers the sets have at most that are all tried.
fn most_tried(n: usize) -> usize
    ensures is { result ≡ most n }
    ensures within { result ≤ n }
{
    if n <= 12 {
        n
    } else if n <= 30 {
        3
    } else if n <= 90 {
        2
    } else {
        1
    }
}

/// Whether all numbers together fail.
fn whole_fails<T: Trial>(alloc: Global, trial: &T) -> Result<bool, NoMemory>
    ensures { IfOk result (λ fails. IsTrue fails ↔ T.Fails trial.now (range_with_len 0 (T.size trial.now))) }
{
    let all = whole(alloc, trial.size())?;
    trial.fails(alloc, all.as_slice())
}

/// A least set that fails, by size and then by its numbers, where one has few enough numbers that all such
/// sets are tried; else a narrow one. None where no set fails.
pub fn blame_of<T: Trial>(alloc: Global, trial: &T) -> Result<Option<Blame>, NoMemory>
    ensures { IfOk result (λ found. MatchOption found (NoneFails (T.Fails trial.now) (T.size trial.now)) (IsBlame (T.Fails trial.now) (T.size trial.now))) }
{
    if !whole_fails(alloc, trial)? {
        return Ok(None);
    }
    match first_up_to(alloc, trial, most_tried(trial.size()))? {
        Some(set) => Ok(Some(Blame::Least(set))),
        None => Ok(Some(Blame::Narrow(thinned(alloc, trial)?))),
    }
}
