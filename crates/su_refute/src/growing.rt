//! Trees, node by node.
ghost use Rattle.std.specs.Prelude.{◌≡◌, ◌≤◌, ◌<◌, ◌+◌, ◌↔◌, ℕ, IfOk, IsErrOf, length};
ghost use Rattle.std.specs.Int.{bit_at};
ghost use Rattle.su_refute.specs.Trees.{node_count};
ghost use Rattle.su_refute.specs.inside.Positions.{Stands, IsFewestOf, IsTreeFor, AreLeftAndAgree, NeedMoreThan};

use crate::faults::RefuteFault;
use crate::nets::Net;
use std::alloc::Global;
use su_base::{List, NoMemory};
use su_check::{Branch, Node};
use su_tableau::{both, has, without};

/// A tree, and how many nodes of the budget it left.
#[derive(Drop)]
pub struct Grown {
    pub node: Node,
    pub unused: u32,
}

/// The row of the set with the fewest targets, the least such row.
fn fewest(todo: u64, left: &[u64]) -> usize
    requires some { 0 < todo }
    requires within { (q : ℕ) → bit_at todo q ≡ 1 → q < length left.now }
    requires rows { length left.now ≤ 64 }
    ensures { IsFewestOf left.now todo result }
{
    let mut row = todo.trailing_zeros() as usize;
    for q in 0..left.len() {
        if has(todo, q) && left[q].count_ones() < left[row].count_ones() {
            row = q;
        }
    }
    row
}

/// The targets that are left to each row, and agree.
fn narrowed(alloc: Global, left: &[u64], agree: &[u64]) -> Result<List<u64>, NoMemory>
    requires { length left.now ≡ length agree.now }
    ensures one_each { IfOk result (λ next. length next ≡ length left.now) }
    ensures both { IfOk result (AreLeftAndAgree left.now agree.now) }
{
    let mut next = List::new(alloc);
    for q in 0..left.len() {
        next.push(both(left[q], agree[q]))?;
    }
    Ok(next)
}

/// The tree where the rows of `todo` have no target yet, and these targets are left to each row. A
/// node takes a pass over the rows, and one more for each of its branches.
pub fn grow(
    alloc: Global,
    net: &Net,
    todo: u64,
    left: &[u64],
    budget: u32,
) -> Result<Grown, RefuteFault>
    requires stands { Stands net.now todo left.now }
    ensures tree { IfOk result (λ g. (s : Stands net.now todo left.now) → IsTreeFor net.now todo left.now s g.node) }
    ensures counted { IfOk result (λ g. g.unused + node_count g.node ≡ budget) }
    ensures over { IsErrOf result RefuteFault.Nodes → NeedMoreThan budget net.now todo left.now }
{
    if budget == 0 {
        return Err(RefuteFault::Nodes);
    }
    let row = fewest(todo, left);
    let rest = without(todo, row);
    let mut unused = budget - 1;
    let mut next = List::new(alloc);
    for target in 0..left.len() {
        if has(left[row], target) {
            let less = narrowed(alloc, left, net.agree(row, target))?;
            let grown = grow(alloc, net, rest, less.as_slice(), unused)?;
            unused = grown.unused;
            next.push(Branch {
                target: target as u8,
                node: grown.node,
            })?;
        }
    }
    Ok(Grown {
        node: Node {
            row: row as u8,
            next,
        },
        unused,
    })
}
