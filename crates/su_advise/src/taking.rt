//! Whether a maximal object is acyclic.
ghost use Rattle.std.specs.Prelude.{◌≡◌, ◌<◌, ◌≤◌, IfOk, All, MatchOption, length, map, get_or};
ghost use Rattle.su_base.specs.Sets.{set_at};
ghost use Rattle.su_reduce.specs.Ears.{cells_of, AreAcyclic, numbers};
ghost use Rattle.su_advise.specs.Acyclic.{edge_of as edge, edges_of as edges, members_of as members, IsTakenApart};

use std::alloc::Global;
use su_base::{AttrSet, List, NoMemory, ObjSet};
use su_reduce::{Ear, Edge, ears};
use su_tableau::Sym;

/// The object's attributes as variables. No values are looked at.
fn edge_of(alloc: Global, object: AttrSet) -> Result<Edge, NoMemory>
    ensures { IfOk result (λ e. e.cells ≡ edge object) }
{
    let mut cells = List::new(alloc);
    for a in 0..128u8 {
        cells.push_if(object.contains(a), Sym::Var(a as u32))?;
    }
    let candidates = List::new(alloc);
    Ok(Edge { cells, candidates })
}

/// The members of the set, ascending.
fn members_of(alloc: Global, objects: &[AttrSet], set: ObjSet) -> Result<List<u8>, NoMemory>
    requires { length objects.now ≤ 64 }
    ensures members { IfOk result (λ list. list ≡ members objects.now set) }
    ensures in_range { IfOk result (All (λ o. o < length objects.now)) }
    ensures few { IfOk result (λ list. length list ≤ length objects.now) }
{
    let mut list = List::new(alloc);
    for o in 0..objects.len() as u8 {
        list.push_if(set.contains(o), o)?;
    }
    Ok(list)
}

/// The edges of these objects.
fn edges_of(alloc: Global, objects: &[AttrSet], members: &[u8]) -> Result<List<Edge>, NoMemory>
    requires { All (λ o. o < length objects.now) members.now }
    ensures { IfOk result (λ list. cells_of list ≡ map (λ o. edge (set_at objects.now o)) members.now) }
{
    let mut list = List::new(alloc);
    for o in members {
        list.push(edge_of(alloc, objects[*o as usize])?)?;
    }
    Ok(list)
}

/// The objects of these ears.
fn objects_of(alloc: Global, members: &[u8], order: &[Ear]) -> Result<List<u8>, NoMemory>
    requires { All (λ e. e.edge < length members.now) order.now }
    ensures { IfOk result (λ list. list ≡ map (λ i. get_or members.now i 0) (numbers order.now)) }
{
    let mut list = List::new(alloc);
    for ear in order {
        list.push(members[ear.edge as usize])?;
    }
    Ok(list)
}

/// The objects of the set in an order in which they can be taken apart ear by ear; none where there is no
/// such order, as they form a cycle.
pub fn ear_order(
    alloc: Global,
    objects: &[AttrSet],
    set: ObjSet,
) -> Result<Option<List<u8>>, NoMemory>
    requires { length objects.now ≤ 64 }
    ensures { IfOk result (λ found. MatchOption found (¬ AreAcyclic (edges objects.now set)) (IsTakenApart objects.now set)) }
{
    let members = members_of(alloc, objects, set)?;
    let edges = edges_of(alloc, objects, members.as_slice())?;
    match ears(alloc, edges.as_slice())? {
        Some(order) => Ok(Some(objects_of(alloc, members.as_slice(), order.as_slice())?)),
        None => Ok(None),
    }
}
