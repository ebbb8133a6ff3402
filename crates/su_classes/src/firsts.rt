//! For each row the first one with its left side.
ghost use Rattle.std.specs.Prelude.{◌≡◌, ◌↔◌, ℕ, ◌<◌, ◌≤◌, ◌++◌, ◌∷◌, [], if◌then◌else◌, IsTrue, All, length, IfOk, OnOk};
ghost use Rattle.su_fd.specs.MetDependencies.{LiesIn};
ghost use Rattle.su_classes.specs.Items.{item_of, IsPlacedBelow};
ghost use Rattle.su_classes.specs.Tables.{rep};
ghost use Rattle.su_classes.specs.inside.Firsts.{AreMembersBelow, key, AreFirsts, noted_in, Notes, IsFirstNoted};

use crate::items::{Placed, item_at};
use crate::left_sides::LeftSide;
use std::alloc::Global;
use std::collections::HashMap;
use su_base::{AttrSet, List, NoMemory};
use su_fd::Fd;

/// Whether all attributes of the dependency are the row's.
pub fn lies_in(fd: &Fd, row: &Placed) -> bool
    ensures { IsTrue result ↔ LiesIn fd.now row.now.has }
{
    if !fd.left.within(row.has) {
        return false;
    }
    fd.right.within(row.has)
}

/// The attributes of the set, ascending.
pub fn members(alloc: Global, set: AttrSet) -> Result<List<u8>, NoMemory>
    ensures { IfOk result (AreMembersBelow 128 set) }
{
    let mut list = List::new(alloc);
    for a in 0..128u8 {
        list.push_if(set.contains(a), a)?;
    }
    Ok(list)
}

/// The parents of the row's items at the attributes.
fn key_of(
    alloc: Global,
    table: &[usize],
    attributes: &[u8],
    row: &Placed,
) -> Result<List<usize>, NoMemory>
    requires { All (λ a. (a < length row.now.cells) × (item_of row.now a < length table.now)) attributes.now }
    ensures { IfOk result (λ k. k ≡ key (rep table.now) attributes.now row.now) }
{
    let mut labels = List::new(alloc);
    for a in attributes {
        labels.push(table[item_at(row, *a)])?;
    }
    Ok(labels)
}

/// The position that is noted under the key; where none is, this one is noted.
fn first_with(
    notes: &mut HashMap<List<usize>, usize>,
    labels: List<usize>,
    position: usize,
) -> Result<usize, NoMemory>
    ensures { IfOk result (Notes (noted_in notes.old) (noted_in notes.new) labels position) }
{
    if let Some(first) = notes.get(&labels) {
        return Ok(*first);
    }
    match notes.insert(labels, position) {
        Ok(_) => Ok(position),
        Err(_) => Err(NoMemory),
    }
}

/// The position of the first row with the row's left side, where the dependency lies in the row; else
/// its own.
fn first_of(
    alloc: Global,
    side: &LeftSide,
    notes: &mut HashMap<List<usize>, usize>,
    row: &Placed,
    position: usize,
) -> Result<usize, NoMemory>
    requires left { AreMembersBelow 128 side.now.fd.now.left side.now.left.now }
    requires cells { IsPlacedBelow (length side.now.table.now) row.now }
    ensures { IfOk result (IsFirstNoted (rep side.now.table.now) side.now.fd.now side.now.left.now row.now (noted_in notes.old) (noted_in notes.new) position) }
{
    if !lies_in(side.fd, row) {
        return Ok(position);
    }
    let labels = key_of(alloc, side.table, side.left, row)?;
    first_with(notes, labels, position)
}

/// As `firsts`, by the attributes of the left side.
fn firsts_by(alloc: Global, side: &LeftSide, rows: &[Placed]) -> Result<List<usize>, NoMemory>
    requires left { AreMembersBelow 128 side.now.fd.now.left side.now.left.now }
    requires cells { All (IsPlacedBelow (length side.now.table.now)) rows.now }
    ensures { IfOk result (AreFirsts (rep side.now.table.now) side.now.fd.now rows.now) }
{
    let mut notes = HashMap::new(alloc);
    let mut firsts = List::new(alloc);
    for position in 0..rows.len() {
        let row = &rows[position];
        let first = first_of(alloc, side, &mut notes, row, position)?;
        firsts.push(first)?;
    }
    Ok(firsts)
}

/// For each row in which the dependency lies the position of the first one that agrees with it on the
/// left side.
pub fn firsts(
    alloc: Global,
    table: &[usize],
    fd: &Fd,
    rows: &[Placed],
) -> Result<List<usize>, NoMemory>
    requires { All (IsPlacedBelow (length table.now)) rows.now }
    ensures { IfOk result (AreFirsts (rep table.now) fd.now rows.now) }
{
    let left = members(alloc, fd.left)?;
    let side = LeftSide {
        table,
        fd,
        left: left.as_slice(),
    };
    firsts_by(alloc, &side, rows)
}
