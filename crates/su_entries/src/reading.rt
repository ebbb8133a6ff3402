//! A tree is read whole.
ghost use Rattle.std.specs.Prelude.{◌≡◌, map, All, IfOk, IfErr, OnErr, OnOk, IsSome};
ghost use Rattle.sqlite_trees.specs.Tree.{IsIndexShape};
ghost use Rattle.sqlite_trees.specs.View.{IsClean, IsQuiet};
ghost use Rattle.su_entries.specs.Entries.{entry_of, HoldsRow};
ghost use Rattle.su_entries.specs.Reading.{FailsToRead, MovesCursors, StandsAfterFault, TellsKind};
ghost use Rattle.su_entries.specs.inside.Steps.{FailsAtStep, ReadsOne};

use crate::entries::row_of;
use crate::faults::ReadFault;
use sqlite_trees::store::{Direction, Store};
use sqlite_value::row::Row as Entry;
use std::alloc::Global;
use su_base::{List, Row};

/// Adds the row of the first cursor's next entry, which has this number; false at the end.
#[tactic(auto, using(crate::proofs::FaultStands::stands_moved, crate::proofs::FaultStands::stands_failed))]
fn read_next<S: Store>(
    alloc: Global,
    store: &mut S,
    entry: &mut Entry,
    number: u64,
    rows: &mut List<Row>,
) -> Result<bool, ReadFault>
    requires { IsSome ((S.Store.view store.old).cursors 0) }
    ensures read { IfOk result (λ found. IsClean (S.Store.view store.new) → ReadsOne (S.Store.view store.old) (S.Store.view store.new) rows.old rows.new found) }
    ensures live { OnOk result (IsSome ((S.Store.view store.new).cursors 0)) }
    ensures fault { IfErr result (FailsAtStep S.Store.view S.Store.faults store.old store.new number) }
    ensures told { IfErr result (TellsKind (S.Store.blamed store.new)) }
    ensures stands { OnErr result (IsClean (S.Store.view store.new) → StandsAfterFault (S.Store.view store.old) (S.Store.view store.new)) }
    ensures quiet { IsQuiet S.Store.view S.Store.faults S.Store.recovers S.Store.is_shielded store.old store.new }
{
    if !store.next(0, entry)? {
        return Ok(false);
    }
    match row_of(alloc, entry)? {
        Some(row) => match rows.push(row) {
            Ok(()) => Ok(true),
            Err(_) => Err(ReadFault::NoMemory),
        },
        None => Err(ReadFault::NoRow(number)),
    }
}

/// The rows of the tree in its order, at most so many. The store's first cursor is used.
pub fn read_rows<S: Store>(
    alloc: Global,
    store: &mut S,
    tree: u32,
    most: u64,
) -> Result<List<Row>, ReadFault>
    requires { IsClean (S.Store.view store.old) → IsIndexShape ((S.Store.view store.old).shape tree) }
    ensures rows { IfOk result (λ rows. IsClean (S.Store.view store.new) → map entry_of rows ≡ (S.Store.view store.old).trees tree) }
    ensures held { OnOk result (IsClean (S.Store.view store.new) → All HoldsRow ((S.Store.view store.old).trees tree)) }
    ensures same { OnOk result (IsClean (S.Store.view store.new) → MovesCursors (S.Store.view store.old) (S.Store.view store.new)) }
    ensures fault { IfErr result (FailsToRead S.Store.view S.Store.faults store.old store.new tree most) }
    ensures told { IfErr result (TellsKind (S.Store.blamed store.new)) }
    ensures stands { OnErr result (IsClean (S.Store.view store.new) → StandsAfterFault (S.Store.view store.old) (S.Store.view store.new)) }
    ensures quiet { IsQuiet S.Store.view S.Store.faults S.Store.recovers S.Store.is_shielded store.old store.new }
{
    let mut entry = Entry::new(alloc);
    store.seek(0, tree, &entry, Direction::Forward)?;
    let mut rows = List::new(alloc);
    for number in 0..most {
        if !read_next(alloc, store, &mut entry, number + 1, &mut rows)? {
            return Ok(rows);
        }
    }
    if store.next(0, &mut entry)? {
        return Err(ReadFault::TooMany);
    }
    Ok(rows)
}
