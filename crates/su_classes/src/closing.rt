//! The least classes.
ghost use Rattle.std.specs.Prelude.{◌≡◌, ◌<◌, All, length, OnOk};
ghost use Rattle.su_classes.specs.Items.{IsPlacedBelow};
ghost use Rattle.su_classes.specs.Tables.{IsLeastTable};

use crate::items::{Placed, Together};
use crate::rushing::rush;
use crate::sweeping::sweep;
use crate::tables::{flatten, join_all, number};
use std::alloc::Global;
use su_base::NoMemory;
use su_fd::Fd;

/// The least classes in which equal items are together and the dependencies are kept: each item gets
/// the least item of its class. What the table holds before tells nothing but how many items there are.
/// Passes over the dependencies go on until one merges nothing; a pass takes a time by the rows and
/// dependencies, in memory for the rows' left sides. From 64 rows on a worklist merges before them, so
/// that mostly one pass is left: it looks each row up under each dependency once, and each cell again as
/// often as its class doubles, under each dependency with its attribute on the left, in memory for all
/// cells and left sides. Fewer rows have as many passes at most as the longest chain of merges of which
/// each brings about the next, and one more.
pub fn close(
    alloc: Global,
    table: &mut [usize],
    equal: &[Together],
    fds: &[Fd],
    rows: &[Placed],
) -> Result<(), NoMemory>
    requires within { All (λ e. (e.left < length table.old) × (e.right < length table.old)) equal.now }
    requires cells { All (IsPlacedBelow (length table.old)) rows.now }
    ensures length { OnOk result (length table.new ≡ length table.old) }
    ensures least { OnOk result (IsLeastTable fds.now rows.now equal.now table.new) }
{
    number(table);
    join_all(table, equal);
    rush(alloc, table, fds, rows)?;
    flatten(table);
    'sweeps: loop {
        let changed = sweep(alloc, table, fds, rows)?;
        if !changed {
            return Ok(());
        }
    }
}
