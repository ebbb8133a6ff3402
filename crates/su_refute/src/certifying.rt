//! The trees of all kept rows.
ghost use Rattle.std.specs.Prelude.{◌≡◌, ◌≤◌, ◌<◌, ◌+◌, IfOk, IsErrOf, List as Items};
ghost use Rattle.su_check.specs.declared.nodes.Node.{Node as ANode};
ghost use Rattle.su_refute.specs.AllTrees.{AreTreesOf, AreTrees, HasMoreNodes, nodes_in, all_nodes};

use crate::faults::RefuteFault;
use crate::nets::Net;
use crate::refuting::tree_of;
use std::alloc::Global;
use su_base::{List, NoMemory};
use su_check::Node;
use su_min::Minimal;
use su_tableau::has;

/// Trees, and how many nodes of the budget they left.
#[derive(Drop)]
struct Planted {
    trees: List<Node>,
    unused: u32,
}

/// The trees of the kept rows, in their order.
fn trees_of(alloc: Global, minimal: &Minimal, budget: u32) -> Result<Planted, RefuteFault>
    ensures trees { IfOk result (λ x. AreTreesOf minimal.now x.trees) }
    ensures counted { IfOk result (λ x. x.unused + nodes_in x.trees ≡ budget) }
    ensures over { IsErrOf result RefuteFault.Nodes → (trees : Items ANode) → AreTreesOf minimal.now trees → budget < nodes_in trees }
{
    let t = minimal.tableau();
    let mask = minimal.mask();
    let net = Net::of(alloc, t, mask)?;
    let mut trees = List::new(alloc);
    let mut unused = budget;
    for row in 0..t.row_count() {
        if has(mask, row) {
            let grown = tree_of(alloc, &net, minimal, row, unused)?;
            unused = grown.unused;
            trees.push(grown.node)?;
        }
    }
    Ok(Planted { trees, unused })
}

/// The trees of the kept rows of each tableau, in their order, if all of them together have no more
/// nodes than the budget. It makes one net for each tableau, and gives up at the first node over the
/// budget.
pub fn certify(
    alloc: Global,
    minimals: &[Minimal],
    budget: u32,
) -> Result<List<List<Node>>, RefuteFault>
    ensures trees { IfOk result (AreTrees minimals.now) }
    ensures within { IfOk result (λ trees. all_nodes trees ≤ budget) }
    ensures few { IfOk result (λ _. HasMoreNodes minimals.now budget → ⊥) }
    ensures over { IsErrOf result RefuteFault.Nodes → HasMoreNodes minimals.now budget }
{
    let mut all = List::new(alloc);
    let mut unused = budget;
    for minimal in minimals {
        minimal.keeps_its_rules();
        minimal.tableau().keeps_its_rules();
        let planted = trees_of(alloc, minimal, unused)?;
        unused = planted.unused;
        all.push(planted.trees)?;
    }
    Ok(all)
}
