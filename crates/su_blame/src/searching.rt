//! The first set of so many numbers that fails.
ghost use Rattle.std.specs.Prelude.{◌≡◌, ◌-◌, ◌<◌, ◌^◌, ◌++◌, ◌∷◌, ℕ, List as Items, [], length, IfOk, MatchOption};
ghost use Rattle.su_blame.specs.Sets.{AreRising};
ghost use Rattle.su_blame.specs.Blame.{IsLeast};
ghost use Rattle.su_blame.specs.inside.Fronts.{Fits, HasFirst, HasNone};

use crate::trials::Trial;
use std::alloc::Global;
use su_base::{List, NoMemory};

/// The front, and a number behind it.
fn with(alloc: Global, front: &[usize], i: usize) -> Result<List<usize>, NoMemory>
    ensures { IfOk result (λ longer. longer ≡ front.now ++ i ∷ []) }
{
    let mut longer = List::from_vec(Vec::from_slice(alloc, front)?);
    longer.push(i)?;
    Ok(longer)
}

/// The front, where it fails.
fn alone<T: Trial>(
    alloc: Global,
    trial: &T,
    front: &[usize],
) -> Result<Option<List<usize>>, NoMemory>
    requires { AreRising (T.size trial.now) 0 front.now }
    ensures { IfOk result (λ found. MatchOption found (¬ T.Fails trial.now front.now) (λ set. (set ≡ front.now) × T.Fails trial.now front.now)) }
{
    if trial.fails(alloc, front)? {
        let set = List::from_vec(Vec::from_slice(alloc, front)?);
        return Ok(Some(set));
    }
    Ok(None)
}

/// The front with the first so many numbers, from `from` on, that fail behind it.
fn find<T: Trial>(
    alloc: Global,
    trial: &T,
    front: &[usize],
    wanted: usize,
    from: usize,
) -> Result<Option<List<usize>>, NoMemory>
    requires { Fits (T.size trial.now) from front.now }
    ensures { IfOk result (λ found. MatchOption found (HasNone (T.Fails trial.now) (T.size trial.now) wanted from front.now) (HasFirst (T.Fails trial.now) (T.size trial.now) wanted from front.now)) }
{
    if wanted == 0 {
        return alone(alloc, trial, front);
    }
    for i in from..trial.size() {
        let longer = with(alloc, front, i)?;
        if let Some(set) = find(alloc, trial, longer.as_slice(), wanted - 1, i + 1)? {
            return Ok(Some(set));
        }
    }
    Ok(None)
}

/// The first set of at most so many numbers that fails: by size, then by its numbers.
pub fn first_up_to<T: Trial>(
    alloc: Global,
    trial: &T,
    most: usize,
) -> Result<Option<List<usize>>, NoMemory>
    requires { most < 2 ^ 64 - 1 }
    ensures { IfOk result (λ found. MatchOption found ((t : Items ℕ) → AreRising (T.size trial.now) 0 t → T.Fails trial.now t → most < length t) (IsLeast (T.Fails trial.now) (T.size trial.now))) }
{
    for wanted in 0..most + 1 {
        if let Some(set) = find(alloc, trial, &[], wanted, 0)? {
            return Ok(Some(set));
        }
    }
    Ok(None)
}
