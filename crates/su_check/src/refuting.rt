//! Whether a tree shows that a row can't be left out.
ghost use Rattle.std.specs.Prelude.{◌≡◌, ◌≢◌, ◌≤◌, ◌↔◌, IsTrue, IfOk, All, Contains, length};
ghost use Rattle.su_check.specs.Certificate.{lines_of};
ghost use Rattle.su_check.specs.SentRows.{sent_too};
ghost use Rattle.su_check.specs.inside.Boards.{Keeps, IsReady};
ghost use Rattle.su_check.specs.inside.Guides.{HasTargets, IsGuide};
ghost use Rattle.su_check.specs.Refutations.{IsOpen, IsFitting, Refutes};
ghost use Rattle.su_check.specs.inside.Branches.{BranchRefutes};

use crate::certificates::StatedTerm;
use crate::claims::Claim;
use crate::fitting::fits;
use crate::guides::candidates;
use crate::nodes::{Branch, Node};
use crate::numbers::contains;
use crate::sending::{Sent, StepColumn};
use su_base::{List, NoMemory};
use su_tableau::has;

/// Whether the row is kept and has no target.
fn is_open(term: &StatedTerm, sent: &[Sent], row: u8) -> bool
    ensures { IsTrue result ↔ IsOpen (lines_of term.now) sent.now row }
{
    contains(term.kept.as_slice(), row) && sent.iter().all(|one| one.row != row)
}

/// Whether the row can go to the target, which is kept, and not the row that is left out. A target that
/// is not in the set doesn't come into question.
fn is_fitting(
    claim: &Claim,
    set: u64,
    sent: &mut List<Sent>,
    places: &mut [StepColumn],
    row: u8,
    target: u8,
) -> Result<bool, NoMemory>
    requires ready { IsReady (lines_of claim.now.term.now) claim.now.board.now sent.old places.old }
    requires few { length claim.now.term.now.rows ≤ 64 }
    requires set { HasTargets (lines_of claim.now.term.now) sent.old row set }
    requires row { Contains claim.now.term.now.kept row }
    requires target { Contains claim.now.term.now.kept target }
    ensures same { IfOk result (λ _. sent.new ≡ sent.old) }
    ensures fits { IfOk result (λ b. IsTrue b ↔ IsFitting (lines_of claim.now.term.now) claim.now.left_out sent.old row target) }
    ensures ready { IfOk result (λ b. IsTrue b → IsReady (lines_of claim.now.term.now) claim.now.board.now (sent_too sent.old row target) places.new) }
    ensures keeps { IfOk result (λ _. Keeps (lines_of claim.now.term.now) claim.now.board.now sent.old places.old places.new) }
{
    if target == claim.left_out || !has(set, target as usize) {
        return Ok(false);
    }
    fits(claim.term, claim.board, sent, places, row, target)
}

/// Whether the node refutes the partial list.
#[cycle(refuting)]
pub fn refutes(
    claim: &Claim,
    node: &Node,
    sent: &mut List<Sent>,
    places: &mut [StepColumn],
) -> Result<bool, NoMemory>
    requires ready { IsReady (lines_of claim.now.term.now) claim.now.board.now sent.old places.old }
    requires guide { IsGuide (lines_of claim.now.term.now) claim.now.guide.now }
    ensures same { IfOk result (λ _. sent.new ≡ sent.old) }
    ensures tells { IfOk result (λ b. IsTrue b ↔ Refutes (lines_of claim.now.term.now) claim.now.left_out node.now sent.old) }
    ensures keeps { IfOk result (λ _. Keeps (lines_of claim.now.term.now) claim.now.board.now sent.old places.old places.new) }
{
    let term = claim.term;
    if !is_open(term, sent.as_slice(), node.row) {
        return Ok(false);
    }
    let set = candidates(
        term,
        claim.board,
        claim.guide,
        sent.as_slice(),
        places,
        node.row,
    );
    let mut passed = 0;
    for target in term.kept.as_slice() {
        if is_fitting(claim, set, sent, places, node.row, *target)? {
            if passed == node.next.len() {
                return Ok(false);
            }
            let branch = &node.next.as_slice()[passed];
            if !branch_refutes(claim, node.row, *target, branch, sent, places)? {
                return Ok(false);
            }
            passed += 1;
        }
    }
    if passed != node.next.len() {
        return Ok(false);
    }
    Ok(true)
}

/// Whether the branch is that of the target, and its node refutes the list in which the row goes there.
#[cycle(refuting)]
fn branch_refutes(
    claim: &Claim,
    row: u8,
    target: u8,
    branch: &Branch,
    sent: &mut List<Sent>,
    places: &mut [StepColumn],
) -> Result<bool, NoMemory>
    requires ready { IsReady (lines_of claim.now.term.now) claim.now.board.now (sent_too sent.old row target) places.old }
    requires guide { IsGuide (lines_of claim.now.term.now) claim.now.guide.now }
    ensures same { IfOk result (λ _. sent.new ≡ sent.old) }
    ensures tells { IfOk result (λ b. IsTrue b ↔ BranchRefutes (lines_of claim.now.term.now) claim.now.left_out sent.old row target branch.now) }
    ensures keeps { IfOk result (λ _. Keeps (lines_of claim.now.term.now) claim.now.board.now sent.old places.old places.new) }
{
    if branch.target != target {
        return Ok(false);
    }
    sent.push(Sent { row, target })?;
    let refuted = refutes(claim, &branch.node, sent, places)?;
    sent.pop();
    Ok(refuted)
}
