//! The least set of rows that a tableau maps into.
ghost use Rattle.su_map.specs.Rooms.{IsRoomFor, HasSizesOf, IsPreparedFor};
ghost use Rattle.su_min.specs.Kept.{all_rows, IsKept};

use std::sync::ledger::Ledger;
use su_base::Steps;
use su_map::{Room, exists_prepared, prepare};
use su_tableau::{Tableau, bit, full};

/// Of all sets of rows that the tableau maps into, the one with the least sum of 2 to the row
/// number. It takes no memory. One search for each row; a row that goes to itself alone needs none.
/// The room is then prepared for all rows.
pub fn kept_mask<L: Ledger>(t: &Tableau, room: &mut Room, steps: &mut Steps<L>) -> u64
    requires room { IsRoomFor t.now room.old }
    ensures kept { IsKept t.now result }
    ensures sizes { HasSizesOf room.old room.new }
    ensures prepared { IsPreparedFor t.now (all_rows t.now) t.now (all_rows t.now) room.new }
{
    let all = full(t.row_count());
    // Never false: a tableau maps into all its rows.
    prepare(room, t, all, t, all);
    let mut kept = all;
    for i in (0..t.row_count()).rev() {
        let fewer = kept - bit(i);
        if exists_prepared(room, t, kept, t, fewer, steps) {
            kept = fewer;
        }
    }
    kept
}
