//! A failing set, thinned until none of it can be left out.
ghost use Rattle.std.specs.Prelude.{◌≡◌, ◌==◌, ◌≤◌, ◌<◌, ℕ, not, nat_eq, IfOk};
ghost use Rattle.std.specs.List.{filter, range_with_len};
ghost use Rattle.su_blame.specs.Blame.{IsNarrow};

use crate::trials::Trial;
use std::alloc::Global;
use su_base::{List, NoMemory};

/// All numbers below n.
pub fn whole(alloc: Global, n: usize) -> Result<List<usize>, NoMemory>
    ensures { IfOk result (λ set. set ≡ range_with_len 0 n) }
{
    let mut set = List::new(alloc);
    for i in 0..n {
        set.push(i)?;
    }
    Ok(set)
}

/// The set without the number.
fn without(alloc: Global, set: &[usize], i: usize) -> Result<List<usize>, NoMemory>
    ensures { IfOk result (λ fewer. fewer ≡ filter (λ k. not (nat_eq k i)) set.now) }
{
    let mut fewer = List::new(alloc);
    for k in set {
        fewer.push_if(*k != i, *k)?;
    }
    Ok(fewer)
}

/// What is left of the whole, which fails, when number by number, the last first, each is left out that
/// isn't needed to fail.
pub fn thinned<T: Trial>(alloc: Global, trial: &T) -> Result<List<usize>, NoMemory>
    requires { T.Fails trial.now (range_with_len 0 (T.size trial.now)) }
    ensures { IfOk result (IsNarrow (T.Fails trial.now) (T.size trial.now)) }
{
    let size = trial.size();
    let mut set = whole(alloc, size)?;
    for k in 0..size {
        let fewer = without(alloc, set.as_slice(), size - 1 - k)?;
        if trial.fails(alloc, fewer.as_slice())? {
            set = fewer;
        }
    }
    Ok(set)
}
