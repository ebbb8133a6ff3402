//! Which edges share the variables of an edge.
ghost use Rattle.std.specs.Prelude.{◌≡◌, ◌↔◌, ◌<◌, ◌≤◌, ℕ, IsTrue, IfOk, Contains, length, Option, MatchOption};
ghost use Rattle.su_tableau.specs.declared.symbols.Sym.TheVariants.{Var};
ghost use Rattle.su_reduce.specs.Ears.{cells_of};
ghost use Rattle.su_base.specs.Sets.{set_at};
ghost use Rattle.su_reduce.specs.inside.Partners.{In, AreSets, AreTable, IsParentBy, IsTouched};

use crate::edges::Edge;
use std::alloc::Global;
use su_base::{List, NoMemory, ObjSet};
use su_tableau::Sym;

/// Whether the symbol is a variable, and one of these.
fn is_among(cells: &[Sym], x: &Sym) -> bool
    ensures { IsTrue result ↔ ((k : ℕ) × (x.now ≡ Var k) × Contains cells.now (Var k)) }
{
    if let Sym::Const(_) = x {
        return false;
    }
    for y in cells {
        if y.same(x) {
            return true;
        }
    }
    false
}

/// The edges that have the symbol, if it is a variable.
fn touched(edges: &[Edge], x: &Sym) -> ObjSet
    requires { length edges.now ≤ 64 }
    ensures { IsTouched (cells_of edges.now) x.now result }
{
    let mut set = ObjSet::empty();
    for j in 0..edges.len() {
        if is_among(edges[j].cells.as_slice(), x) {
            set = set.insert(j as u8);
        }
    }
    set
}

/// For each cell the edges that have its variable.
fn sets_of(alloc: Global, edges: &[Edge], cells: &[Sym]) -> Result<List<ObjSet>, NoMemory>
    requires { length edges.now ≤ 64 }
    ensures { IfOk result (AreSets (cells_of edges.now) cells.now) }
{
    let mut sets = List::new(alloc);
    for x in cells {
        sets.push(touched(edges, x))?;
    }
    Ok(sets)
}

/// For each edge the sets of its cells.
pub fn table_of(alloc: Global, edges: &[Edge]) -> Result<List<List<ObjSet>>, NoMemory>
    requires { length edges.now ≤ 64 }
    ensures { IfOk result (AreTable (cells_of edges.now)) }
{
    let mut table = List::new(alloc);
    for edge in edges {
        table.push(sets_of(alloc, edges, edge.cells.as_slice())?)?;
    }
    Ok(table)
}

/// Whether the edge shares no variable with the others.
fn is_alone(sets: &[ObjSet], others: ObjSet) -> bool
    ensures { IsTrue result ↔ IsParentBy sets.now others None }
{
    for set in sets {
        if !set.meet(others).is_empty() {
            return false;
        }
    }
    true
}

/// Whether p has each variable that the edge shares with the others.
fn has_shared(sets: &[ObjSet], others: ObjSet, p: u8) -> bool
    ensures { IsTrue result ↔ ((c j : ℕ) → c < length sets.now → In others j → In (set_at sets.now c) j → In (set_at sets.now c) p) }
{
    for set in sets {
        if !set.contains(p) && !set.meet(others).is_empty() {
            return false;
        }
    }
    true
}

/// The parent of the edge with these sets beside the others, or that it needs none; none where it is no
/// ear beside them.
pub fn parent_of(sets: &[ObjSet], others: ObjSet) -> Option<Option<u8>>
    requires { (j : ℕ) → In others j → j < 64 }
    ensures { MatchOption result ((parent : Option ℕ) → ¬ IsParentBy sets.now others parent) (IsParentBy sets.now others) }
{
    if is_alone(sets, others) {
        return Some(None);
    }
    for p in 0..64u8 {
        if others.contains(p) && has_shared(sets, others, p) {
            return Some(Some(p));
        }
    }
    None
}
