//! Passes over the rows that merge what the dependencies put together.
ghost use Rattle.std.specs.Prelude.{◌≡◌, ℕ, ◌<◌, ◌≤◌, false, All, length, IfOk, OnOk};
ghost use Rattle.su_classes.specs.Items.{item_of, Keeps, IsPlacedBelow};
ghost use Rattle.su_classes.specs.Tables.{rep, IsTable};
ghost use Rattle.su_classes.specs.inside.Tables.{IsForest, IsJoining, IsMerging, IsProgress};
ghost use Rattle.su_classes.specs.inside.Firsts.{AreMembersBelow, AreFirsts};

use crate::firsts::{firsts, lies_in, members};
use crate::items::{Placed, item_at};
use crate::tables::{flatten, join};
use std::alloc::Global;
use su_base::{List, NoMemory};
use su_fd::Fd;

/// Merges the items of the two rows at these attributes; whether some were apart.
fn join_at(table: &mut [usize], attributes: &[u8], row: &Placed, other: &Placed) -> bool
    requires ordered { IsForest table.old }
    requires left { All (λ a. (a < length row.now.cells) × (item_of row.now a < length table.old)) attributes.now }
    requires right { All (λ a. (a < length other.now.cells) × (item_of other.now a < length table.old)) attributes.now }
    ensures joining { IsJoining (λ label. All (λ a. label (item_of row.now a) ≡ label (item_of other.now a)) attributes.now) table.old table.new }
    ensures progress { IsProgress table.old table.new result }
{
    let mut changed = false;
    for a in attributes {
        changed |= join(table, item_at(row, *a), item_at(other, *a));
    }
    changed
}

/// Merges each row with its first one at the right side; whether something was apart.
fn join_firsts(
    table: &mut [usize],
    fd: &Fd,
    right: &[u8],
    rows: &[Placed],
    firsts: &[usize],
) -> bool
    requires flat { IsTable table.old }
    requires cells { All (IsPlacedBelow (length table.old)) rows.now }
    requires right { AreMembersBelow 128 fd.now.right right.now }
    requires firsts { AreFirsts (rep table.old) fd.now rows.now firsts.now }
    ensures merging { IsMerging (λ label. Keeps label rows.now fd.now) table.old table.new }
    ensures progress { IsProgress table.old table.new result }
    ensures settled { result ≡ false → Keeps (rep table.new) rows.now fd.now }
{
    let mut changed = false;
    for position in 0..rows.len() {
        let row = &rows[position];
        if lies_in(fd, row) {
            changed |= join_at(table, right, row, &rows[firsts[position]]);
        }
    }
    changed
}

/// Merges what the dependency puts together; whether something was apart.
fn bind(alloc: Global, table: &mut [usize], fd: &Fd, rows: &[Placed]) -> Result<bool, NoMemory>
    requires flat { IsTable table.old }
    requires cells { All (IsPlacedBelow (length table.old)) rows.now }
    ensures flat { OnOk result (IsTable table.new) }
    ensures merging { OnOk result (IsMerging (λ label. Keeps label rows.now fd.now) table.old table.new) }
    ensures progress { IfOk result (IsProgress table.old table.new) }
    ensures settled { IfOk result (λ changed. changed ≡ false → Keeps (rep table.new) rows.now fd.now) }
{
    let firsts = firsts(alloc, table, fd, rows)?;
    let right = members(alloc, fd.right)?;
    let changed = join_firsts(table, fd, right.as_slice(), rows, firsts.as_slice());
    if changed {
        flatten(table);
    }
    Ok(changed)
}

/// Merges what the dependencies put together, one after the other; whether something was apart.
pub fn sweep(
    alloc: Global,
    table: &mut [usize],
    fds: &[Fd],
    rows: &[Placed],
) -> Result<bool, NoMemory>
    requires flat { IsTable table.old }
    requires cells { All (IsPlacedBelow (length table.old)) rows.now }
    ensures flat { OnOk result (IsTable table.new) }
    ensures merging { OnOk result (IsMerging (λ label. All (Keeps label rows.now) fds.now) table.old table.new) }
    ensures progress { IfOk result (IsProgress table.old table.new) }
    ensures settled { IfOk result (λ changed. changed ≡ false → All (Keeps (rep table.new) rows.now) fds.now) }
{
    let mut changed = false;
    for fd in fds {
        changed |= bind(alloc, table, fd, rows)?;
    }
    Ok(changed)
}
