//! Whether each kept row has a tree.
ghost use Rattle.std.specs.Prelude.{◌≡◌, ◌<◌, ◌≤◌, ◌↔◌, ℕ, IsTrue, IfOk, MatchOption, [], length};
ghost use Rattle.su_check.specs.inside.Boards.{IsReady};
ghost use Rattle.su_check.specs.Certificate.{lines_of, IsGoodTree};
ghost use Rattle.su_check.specs.inside.Guides.{IsGuide};
ghost use Rattle.su_check.specs.Verdict.{IsTreeFault};
ghost use Rattle.su_check.specs.inside.Trees.{HasGoodTrees};

use crate::boards::Board;
use crate::certificates::StatedTerm;
use crate::claims::Claim;
use crate::guides::{Guide, guide_of};
use crate::refuting::refutes;
use crate::sending::StepColumn;
use std::alloc::Global;
use su_base::{List, NoMemory};

/// Whether the tree at this place is that of the kept row at this place, and refutes.
fn is_good_tree(
    alloc: Global,
    term: &StatedTerm,
    board: &Board,
    guide: &Guide,
    places: &mut [StepColumn],
    k: usize,
) -> Result<bool, NoMemory>
    requires ready { IsReady (lines_of term.now) board.now [] places.old }
    requires guide { IsGuide (lines_of term.now) guide.now }
    requires place { k < length term.now.kept }
    ensures tells { IfOk result (λ b. IsTrue b ↔ IsGoodTree term.now k) }
    ensures ready { IfOk result (λ _. IsReady (lines_of term.now) board.now [] places.new) }
{
    if k >= term.trees.len() {
        return Ok(false);
    }
    let tree = term.trees.get(k);
    if tree.row != term.kept.as_slice()[k] {
        return Ok(false);
    }
    let mut sent = List::new(alloc);
    let claim = Claim {
        term,
        board,
        guide,
        left_out: tree.row,
    };
    refutes(&claim, &tree.node, &mut sent, places)
}

/// The row whose tree is at fault, if there is one.
pub fn tree_fault(
    alloc: Global,
    term: &StatedTerm,
    board: &Board,
    places: &mut [StepColumn],
) -> Result<Option<u8>, NoMemory>
    requires ready { IsReady (lines_of term.now) board.now [] places.old }
    requires few { length term.now.rows ≤ 64 }
    ensures { IfOk result (λ f. MatchOption f (HasGoodTrees term.now) (IsTreeFault term.now)) }
{
    let guide = guide_of(alloc, term, board, places)?;
    for k in 0..term.kept.len() {
        if !is_good_tree(alloc, term, board, &guide, places, k)? {
            return Ok(Some(term.kept.as_slice()[k]));
        }
    }
    if term.trees.len() > term.kept.len() {
        return Ok(Some(term.trees.get(term.kept.len()).row));
    }
    Ok(None)
}
