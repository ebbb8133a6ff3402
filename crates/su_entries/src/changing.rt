//! Rows are put into a tree and taken out of it.
ghost use Rattle.std.specs.Prelude.{◌≡◌, IfErr, OnErr, OnOk};
ghost use Rattle.sqlite_trees.specs.Tree.{IsIndexShape};
ghost use Rattle.sqlite_trees.specs.View.{IsClean, IsQuiet, KeepsCommitted, Tells};
ghost use Rattle.su_entries.specs.Changes.{AreStorable, IsCaused, PutsFront, PutsIn, TakesFront, TakesOut};
ghost use Rattle.su_entries.specs.TreeRows.{PutsRows, TakesRows};

use crate::entries::fill_entry;
use sqlite_trees::error::StoreError;
use sqlite_trees::store::Store;
use sqlite_value::row::Row as Entry;
use su_base::Row;

/// Puts the rows into the tree; one that is there stays, and one may be told twice. `entry` is used for
/// each in turn. After an error the first ones may be in.
pub fn put_in<S: Store>(
    store: &mut S,
    tree: u32,
    rows: &[Row],
    entry: &mut Entry,
) -> Result<(), StoreError>
    requires { IsClean (S.Store.view store.old) → IsIndexShape ((S.Store.view store.old).shape tree) }
    ensures done { OnOk result (IsClean (S.Store.view store.new) → PutsIn (S.Store.view store.old) (S.Store.view store.new) tree rows.now) }
    ensures rows { OnOk result (IsClean (S.Store.view store.new) → PutsRows (S.Store.view store.old) (S.Store.view store.new) tree rows.now) }
    ensures kept { OnErr result (IsClean (S.Store.view store.new) → KeepsCommitted (S.Store.view store.old) (S.Store.view store.new)) }
    ensures front { OnErr result (IsClean (S.Store.view store.new) → PutsFront (S.Store.view store.old) (S.Store.view store.new) tree rows.now) }
    ensures told { IfErr result (Tells (S.Store.blamed store.new)) }
    ensures cause { IfErr result (IsCaused S.Store.view S.Store.faults store.old store.new (¬ AreStorable ((S.Store.view store.old).reals tree) rows.now)) }
    ensures quiet { IsQuiet S.Store.view S.Store.faults S.Store.recovers S.Store.is_shielded store.old store.new }
{
    for row in rows {
        if fill_entry(entry, row).is_err() {
            return Err(StoreError::OutOfMemory);
        }
        store.insert(tree, entry)?;
    }
    Ok(())
}

/// Takes the rows out of the tree; one that isn't there is passed over. `entry` is used for each in turn.
/// After an error the first ones may be out.
pub fn take_out<S: Store>(
    store: &mut S,
    tree: u32,
    rows: &[Row],
    entry: &mut Entry,
) -> Result<(), StoreError>
    requires { IsClean (S.Store.view store.old) → IsIndexShape ((S.Store.view store.old).shape tree) }
    ensures done { OnOk result (IsClean (S.Store.view store.new) → TakesOut (S.Store.view store.old) (S.Store.view store.new) tree rows.now) }
    ensures rows { OnOk result (IsClean (S.Store.view store.new) → TakesRows (S.Store.view store.old) (S.Store.view store.new) tree rows.now) }
    ensures kept { OnErr result (IsClean (S.Store.view store.new) → KeepsCommitted (S.Store.view store.old) (S.Store.view store.new)) }
    ensures front { OnErr result (IsClean (S.Store.view store.new) → TakesFront (S.Store.view store.old) (S.Store.view store.new) tree rows.now) }
    ensures told { IfErr result (Tells (S.Store.blamed store.new)) }
    ensures cause { IfErr result (IsCaused S.Store.view S.Store.faults store.old store.new ⊥) }
    ensures quiet { IsQuiet S.Store.view S.Store.faults S.Store.recovers S.Store.is_shielded store.old store.new }
{
    for row in rows {
        if fill_entry(entry, row).is_err() {
            return Err(StoreError::OutOfMemory);
        }
        store.remove(tree, entry)?;
    }
    Ok(())
}
