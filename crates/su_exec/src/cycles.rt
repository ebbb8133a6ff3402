//! Cycles of a body are closed, three edges at a time.
ghost use Rattle.std.specs.Prelude.{◌≡◌, ◌<◌, ◌≤◌, ◌+◌, length, IfOk};
ghost use Rattle.su_exec.specs.inside.Bodies.{AreThere};
ghost use Rattle.su_exec.specs.inside.Kept.{KeepsWith};

use crate::candidates::Candidates;
use crate::closing::join_three;
use crate::merging::{Body, wanted_by};
use crate::reducing::has_empty;
use crate::threes::three_of;
use std::alloc::{AllocError, Global};
use su_reduce::Codes;

/// Three that are taken out of a body, to be joined at once.
struct Three {
    first: Candidates,
    second: Candidates,
    third: Candidates,
}

/// Not derived, so that it is a single call wherever the three go out of scope.
impl Drop for Three {
    fn drop(self) {
        let Three {
            first: _,
            second: _,
            third: _,
        } = self;
    }
}

/// Three edges of the body become one, with the variables that are still needed.
fn close(
    alloc: Global,
    codes: &Codes,
    body: &mut Body,
    needed: &[u32],
    three: (usize, usize, usize),
) -> Result<(), AllocError>
    requires first { three.0 < length body.old.edges.items }
    requires second { three.1 + 1 < length body.old.edges.items }
    requires third { three.2 + 2 < length body.old.edges.items }
    requires there { AreThere needed.now body.old.checks.items body.old.edges.items }
    ensures checks { IfOk result (λ _. body.new.checks.items ≡ body.old.checks.items) }
    ensures keeps { IfOk result (λ _. KeepsWith needed.now codes.now body.old body.new.edges.items) }
    ensures there { IfOk result (λ _. AreThere needed.now body.old.checks.items body.new.edges.items) }
    ensures some { IfOk result (λ _. 0 < length body.new.edges.items) }
    ensures fewer { IfOk result (λ _. length body.new.edges.items ≤ length body.old.edges.items) }
{
    let a = body.edges.remove(three.0);
    let b = body.edges.remove(three.1);
    let c = body.edges.remove(three.2);
    let taken = Three {
        first: a,
        second: b,
        third: c,
    };
    let wanted = wanted_by(alloc, body, needed)?;
    let joined = join_three(
        alloc,
        codes,
        &taken.first,
        &taken.second,
        &taken.third,
        &wanted,
    )?;
    body.edges.push(joined)?;
    Ok(())
}

/// The body without cycles that three edges close, of which it closes at most so many. Where an edge has
/// no rows, it stays as it is.
pub fn close_cycles(
    alloc: Global,
    codes: &Codes,
    body: &mut Body,
    needed: &[u32],
    most: usize,
) -> Result<(), AllocError>
    requires some { 0 < length body.old.edges.items }
    requires there { AreThere needed.now body.old.checks.items body.old.edges.items }
    ensures checks { IfOk result (λ _. body.new.checks.items ≡ body.old.checks.items) }
    ensures keeps { IfOk result (λ _. KeepsWith needed.now codes.now body.old body.new.edges.items) }
    ensures there { IfOk result (λ _. AreThere needed.now body.old.checks.items body.new.edges.items) }
    ensures some { IfOk result (λ _. 0 < length body.new.edges.items) }
    ensures fewer { IfOk result (λ _. length body.new.edges.items ≤ length body.old.edges.items) }
{
    for _ in 0..most {
        if has_empty(&body.edges) {
            return Ok(());
        }
        let found = three_of(alloc, &body.edges)?;
        let Some(three) = found else {
            return Ok(());
        };
        close(alloc, codes, body, needed, three)?;
    }
    Ok(())
}
