//! An ear order.
ghost use Rattle.std.specs.Prelude.{◌≡◌, ◌↔◌, ◌<◌, ◌≤◌, ℕ, IfOk, length, [], Option, MatchOption};
ghost use Rattle.su_reduce.specs.Ears.{AreAcyclic, IsEarOrder, cells_of};
ghost use Rattle.su_reduce.specs.inside.Partners.{In, without, IsEarAmong};

use crate::edges::{Ear, Edge};
use crate::sharing::{parent_of, table_of};
use std::alloc::Global;
use su_base::{List, NoMemory, ObjSet};

/// The numbers below n.
fn all_below(n: usize) -> ObjSet
    requires { n ≤ 64 }
    ensures { (j : ℕ) → In result j ↔ (j < n) }
{
    let mut set = ObjSet::empty();
    for j in 0..n {
        set = set.insert(j as u8);
    }
    set
}

/// The set without the number.
fn take_out(set: ObjSet, e: u8) -> ObjSet
    requires { e < 64 }
    ensures { result ≡ without set e }
{
    set.minus(ObjSet::empty().insert(e))
}

/// An ear among those that are left.
fn find_ear(table: &[List<ObjSet>], left: ObjSet) -> Option<Ear>
    requires few { length table.now ≤ 64 }
    requires within { (j : ℕ) → In left j → j < length table.now }
    ensures { IsEarAmong table.now left result }
{
    for e in 0..table.len() {
        let edge = e as u8;
        if left.contains(edge) {
            if let Some(parent) = parent_of(table[e].as_slice(), take_out(left, edge)) {
                return Some(Ear { edge, parent });
            }
        }
    }
    None
}

/// An order in which the edges can be taken apart ear by ear, or that there is none. An ear is taken
/// wherever there is one. (The reduction of Graham, and of Yu and Özsoyoğlu.) The time is that of
/// comparing all cells with one another once, and per ear a pass over all of them for each edge left.
pub fn ears(alloc: Global, edges: &[Edge]) -> Result<Option<List<Ear>>, NoMemory>
    requires { length edges.now ≤ 64 }
    ensures { IfOk result (λ found. MatchOption found (¬ AreAcyclic (cells_of edges.now)) (IsEarOrder (cells_of edges.now))) }
{
    let table = table_of(alloc, edges)?;
    let mut left = all_below(edges.len());
    let mut order = List::new(alloc);
    while !left.is_empty() {
        let Some(ear) = find_ear(table.as_slice(), left) else {
            return Ok(None);
        };
        order.push(ear)?;
        left = take_out(left, ear.edge);
    }
    Ok(Some(order))
}
