//! The trees of kept rows.
ghost use Rattle.std.specs.Prelude.{◌≡◌, ◌≢◌, ◌≤◌, ◌<◌, ◌+◌, ℕ, IfOk, IsErrOf, length, get_or};
ghost use Rattle.std.specs.Int.{bit_at};
ghost use Rattle.su_check.specs.declared.nodes.Node.{Node as ANode};
ghost use Rattle.su_refute.specs.inside.Nets.{IsNet};
ghost use Rattle.su_refute.specs.Trees.{IsTree, node_count};
ghost use Rattle.su_refute.specs.AllTrees.{lines_of, HasLargerTree};

use crate::faults::RefuteFault;
use crate::growing::{Grown, grow};
use crate::nets::Net;
use std::alloc::Global;
use su_base::{List, NoMemory};
use su_check::Node;
use su_min::Minimal;
use su_tableau::without;

/// The tree of a row, and how many nodes it has.
#[derive(Debug, Drop)]
pub struct Refuted {
    pub node: Node,
    pub nodes: u32,
}

/// The sets without the row.
fn others(alloc: Global, sets: &[u64], row: usize) -> Result<List<u64>, NoMemory>
    requires { row < 64 }
    ensures one_each { IfOk result (λ list. length list ≡ length sets.now) }
    ensures same { IfOk result (λ list. (q i : ℕ) → q < length sets.now → i ≢ row → bit_at (get_or list q 0) i ≡ bit_at (get_or sets.now q 0) i) }
    ensures out { IfOk result (λ list. (q : ℕ) → q < length sets.now → bit_at (get_or list q 0) row ≡ 0) }
{
    let mut list = List::new(alloc);
    for set in sets {
        list.push(without(*set, row))?;
    }
    Ok(list)
}

/// The tree of a kept row, by the net of the kept rows.
pub fn tree_of(
    alloc: Global,
    net: &Net,
    minimal: &Minimal,
    left_out: usize,
    budget: u32,
) -> Result<Grown, RefuteFault>
    requires net { IsNet minimal.now.tableau minimal.now.mask net.now }
    requires kept { bit_at minimal.now.mask left_out ≡ 1 }
    ensures tree { IfOk result (λ g. IsTree (lines_of minimal.now) left_out g.node) }
    ensures counted { IfOk result (λ g. g.unused + node_count g.node ≡ budget) }
    ensures over { IsErrOf result RefuteFault.Nodes → (n : ANode) → IsTree (lines_of minimal.now) left_out n → budget < node_count n }
{
    minimal.keeps_its_rules();
    minimal.tableau().keeps_its_rules();
    let left = others(alloc, net.base.as_slice(), left_out)?;
    grow(alloc, net, minimal.mask(), left.as_slice(), budget)
}

/// The tree that shows why a kept row can't be left out: at each node it names the row with the
/// fewest fitting targets, the least such row. It makes the net of the kept rows, and gives up at the
/// first node over the budget.
pub fn refute(
    alloc: Global,
    minimal: &Minimal,
    left_out: u8,
    budget: u32,
) -> Result<Refuted, RefuteFault>
    requires kept { bit_at minimal.now.mask left_out ≡ 1 }
    ensures tree { IfOk result (λ r. IsTree (lines_of minimal.now) left_out r.node) }
    ensures nodes { IfOk result (λ r. r.nodes ≡ node_count r.node) }
    ensures within { IfOk result (λ r. r.nodes ≤ budget) }
    ensures few { IfOk result (λ _. HasLargerTree minimal.now left_out budget → ⊥) }
    ensures over { IsErrOf result RefuteFault.Nodes → HasLargerTree minimal.now left_out budget }
{
    minimal.keeps_its_rules();
    minimal.tableau().keeps_its_rules();
    let net = Net::of(alloc, minimal.tableau(), minimal.mask())?;
    let grown = tree_of(alloc, &net, minimal, left_out as usize, budget)?;
    Ok(Refuted {
        node: grown.node,
        nodes: budget - grown.unused,
    })
}
