//! What a group writes into the store, before it is committed.
ghost use Rattle.std.specs.Prelude.{◌≡◌, ◌≢◌, ◌<◌, false, [], ◌∷◌, length, OnOk, IfErr, IfOk, IsTrue};
ghost use Rattle.sqlite_value.specs.declared.value.Value.TheVariants as entry_value;
ghost use Rattle.sqlite_value.specs.Keys.{plain};
ghost use Rattle.sqlite_value.specs.Order.{column};
ghost use Rattle.sqlite_trees.specs.Tree.{IsIndexShape, order_of, insert_entry, remove_entry};
ghost use Rattle.sqlite_trees.specs.Objects.{catalog_tree};
ghost use Rattle.sqlite_trees.specs.View.{IsClean, IsQuiet};
ghost use Rattle.su_keep.specs.inside.Faults.{HasWriteCause};
ghost use Rattle.su_keep.specs.inside.Writes.{MakesTable, MakesTables, Edits, WritesText, WritesTable, WritesTables, WritesAll, AreUnnamed};

use crate::faults::KeepFault;
use crate::listing::table_of;
use sqlite_trees::store::{Alter, Shape, Store};
use sqlite_value::keys::Order;
use sqlite_value::row::Row as Entry;
use sqlite_value::value::ValueRef;
use std::alloc::{AllocError, Global};
use su_base::{List, sorted_rows};
use su_changes::Change;
use su_entries::{laws, put_in, take_out};
use su_schema::Schema;

/// The user version of a file that holds a database.
pub(crate) const VERSION: u32 = 1;

/// Whether the tree is a set of entries in SQLite's own order.
pub(crate) fn is_set<S: Store>(store: &S, tree: u32) -> bool
    ensures set { IsTrue result → IsIndexShape ((S.Store.view store.now).shape tree) }
    ensures plain { IsTrue result → order_of ((S.Store.view store.now).shape tree) ≡ plain }
{
    match store.shape(tree) {
        Shape::Index(order) => order.digits == Order::PLAIN.digits,
        _ => false,
    }
}

/// Whether no tree has the number.
pub(crate) fn is_absent<S: Store>(store: &S, tree: u32) -> bool
    ensures { IsTrue result → (S.Store.view store.now).shape tree ≡ Shape.Absent }
{
    matches!(store.shape(tree), Shape::Absent)
}

/// Whether a row of the list has this name.
fn is_named(row: &Entry, name: &str) -> bool
    ensures { result ≡ false → column row.now 2 ≢ entry_value.Text name.now }
{
    match row.get(2) {
        ValueRef::Text(found) => found == name.as_bytes(),
        _ => false,
    }
}

/// Whether a row of the list has this name.
fn is_among(rows: &[Entry], name: &str) -> bool
    ensures { result ≡ false → AreUnnamed name.now rows.now }
{
    for row in rows {
        if is_named(row, name) {
            return true;
        }
    }
    false
}

/// Whether an object of the store has this name.
#[tactic(auto, using(crate::proofs::Written::named_of_front))]
fn is_taken<S: Alter>(alloc: Global, store: &S, name: &str) -> Result<bool, AllocError>
    ensures { IfOk result (λ taken. IsClean (S.Store.view store.now) → taken ≡ false → AreUnnamed name.now ((S.Store.view store.now).trees catalog_tree)) }
{
    let rows = store.objects(alloc)?;
    Ok(is_among(rows.as_slice(), name))
}

/// Makes the table of the relation, where its number and its name are free.
#[tactic(auto, using(crate::proofs::Caused::cause_of_error))]
fn make_table<S: Alter>(
    alloc: Global,
    store: &mut S,
    schema: &Schema,
    r: u8,
) -> Result<(), KeepFault>
    requires relation { r < length schema.now.relations }
    requires numbered { IsClean (S.Store.view store.old) → IsTrue (S.Store.view store.old).is_numbered }
    ensures done { OnOk result (IsClean (S.Store.view store.new) → MakesTable schema.now r (S.Store.view store.old) (S.Store.view store.new)) }
    ensures cause { IfErr result (HasWriteCause S.Store.view S.Store.faults store.old store.new) }
    ensures quiet { IsQuiet S.Store.view S.Store.faults S.Store.recovers S.Store.is_shielded store.old store.new }
{
    let made = table_of(alloc, schema, r)?;
    let object = made.object();
    let tree = u32::from(r) + 1;
    if !is_absent(store, tree) {
        return Err(KeepFault::Damaged);
    }
    if is_taken(alloc, store, object.name)? {
        return Err(KeepFault::Damaged);
    }
    store.create(tree, &object)?;
    Ok(())
}

/// Makes the table of each relation from this number on.
#[tactic(auto, using(crate::proofs::Caused::cause_within, crate::proofs::Written::tables_none, crate::proofs::Written::tables_more, crate::proofs::Written::tables_until))]
fn make_tables<S: Alter>(
    alloc: Global,
    store: &mut S,
    schema: &Schema,
    first: u8,
) -> Result<(), KeepFault>
    requires numbered { IsClean (S.Store.view store.old) → IsTrue (S.Store.view store.old).is_numbered }
    ensures done { OnOk result (IsClean (S.Store.view store.new) → MakesTables schema.now first (length schema.now.relations) (S.Store.view store.old) (S.Store.view store.new)) }
    ensures cause { IfErr result (HasWriteCause S.Store.view S.Store.faults store.old store.new) }
    ensures quiet { IsQuiet S.Store.view S.Store.faults S.Store.recovers S.Store.is_shielded store.old store.new }
{
    schema.keeps_its_rules();
    for r in first..schema.relations() as u8 {
        make_table(alloc, store, schema, r)?;
    }
    Ok(())
}

/// Puts the text into its table.
#[tactic(auto, using(crate::proofs::Caused::cause_of_error, crate::proofs::Written::edits))]
fn put_text<S: Alter>(store: &mut S, text: &[u8], entry: &mut Entry) -> Result<(), KeepFault>
    ensures done { OnOk result (IsClean (S.Store.view store.new) → Edits 0 (S.Store.view store.old) (S.Store.view store.new) (insert_entry plain (entry_value.Text text.now ∷ []))) }
    ensures cause { IfErr result (HasWriteCause S.Store.view S.Store.faults store.old store.new) }
    ensures quiet { IsQuiet S.Store.view S.Store.faults S.Store.recovers S.Store.is_shielded store.old store.new }
{
    if !is_set(store, 0) {
        return Err(KeepFault::Damaged);
    }
    entry.clear();
    entry.push(ValueRef::Text(text))?;
    store.insert(0, entry)?;
    Ok(())
}

/// Takes the text out of its table.
#[tactic(auto, using(crate::proofs::Caused::cause_of_error, crate::proofs::Written::edits))]
fn take_text<S: Alter>(store: &mut S, text: &[u8], entry: &mut Entry) -> Result<(), KeepFault>
    ensures done { OnOk result (IsClean (S.Store.view store.new) → Edits 0 (S.Store.view store.old) (S.Store.view store.new) (remove_entry plain (entry_value.Text text.now ∷ []))) }
    ensures cause { IfErr result (HasWriteCause S.Store.view S.Store.faults store.old store.new) }
    ensures quiet { IsQuiet S.Store.view S.Store.faults S.Store.recovers S.Store.is_shielded store.old store.new }
{
    if !is_set(store, 0) {
        return Err(KeepFault::Damaged);
    }
    entry.clear();
    entry.push(ValueRef::Text(text))?;
    store.remove(0, entry)?;
    Ok(())
}

/// Writes the text in the place of the one that is held; a first one brings the version.
#[tactic(auto, using(crate::proofs::Caused::cause_of_error, crate::proofs::Caused::cause_within, crate::proofs::Written::edits, crate::proofs::Written::first_text, crate::proofs::Written::other_text, crate::proofs::Written::same_text))]
fn write_text<S: Alter>(
    store: &mut S,
    held: &Option<List<u8>>,
    text: &[u8],
    entry: &mut Entry,
) -> Result<(), KeepFault>
    ensures done { OnOk result (IsClean (S.Store.view store.new) → WritesText held.now text.now (S.Store.view store.old) (S.Store.view store.new)) }
    ensures cause { IfErr result (HasWriteCause S.Store.view S.Store.faults store.old store.new) }
    ensures quiet { IsQuiet S.Store.view S.Store.faults S.Store.recovers S.Store.is_shielded store.old store.new }
{
    match held {
        Some(held) => {
            if held.as_slice() == text {
                return Ok(());
            }
            take_text(store, held.as_slice(), entry)?;
        }
        None => store.set_version(VERSION)?,
    }
    put_text(store, text, entry)
}

/// Puts the rows of the change into their table, or takes them out. They go ascending, so that pages
/// are filled one after another.
#[tactic(auto, using(crate::proofs::Caused::cause_of_error, crate::proofs::Written::puts, crate::proofs::Written::takes))]
fn write_change<S: Alter>(store: &mut S, change: Change, entry: &mut Entry) -> Result<(), KeepFault>
    ensures done { OnOk result (IsClean (S.Store.view store.new) → WritesTable change (S.Store.view store.old) (S.Store.view store.new)) }
    ensures cause { IfErr result (HasWriteCause S.Store.view S.Store.faults store.old store.new) }
    ensures quiet { IsQuiet S.Store.view S.Store.faults S.Store.recovers S.Store.is_shielded store.old store.new }
{
    let tree = u32::from(change.relation) + 1;
    if !is_set(store, tree) {
        return Err(KeepFault::Damaged);
    }
    laws::put_in_adds_rows();
    laws::take_out_leaves_rows();
    let rows = sorted_rows(change.rows);
    if change.is_in {
        put_in(store, tree, rows.as_slice(), entry)?;
        return Ok(());
    }
    take_out(store, tree, rows.as_slice(), entry)?;
    Ok(())
}

/// Makes the changes one after another.
#[tactic(auto, using(crate::proofs::Caused::cause_within, crate::proofs::Written::changes_none, crate::proofs::Written::changes_more))]
fn write_changes<S: Alter>(
    store: &mut S,
    changes: List<Change>,
    entry: &mut Entry,
) -> Result<(), KeepFault>
    ensures done { OnOk result (IsClean (S.Store.view store.new) → WritesTables changes (S.Store.view store.old) (S.Store.view store.new)) }
    ensures cause { IfErr result (HasWriteCause S.Store.view S.Store.faults store.old store.new) }
    ensures quiet { IsQuiet S.Store.view S.Store.faults S.Store.recovers S.Store.is_shielded store.old store.new }
{
    for change in changes.into_vec() {
        write_change(store, change, entry)?;
    }
    Ok(())
}

/// Makes the tables of the relations from this number on, replaces the text and makes the changes.
#[tactic(auto, using(crate::proofs::Caused::cause_within))]
pub(crate) fn write_group<S: Alter>(
    alloc: Global,
    store: &mut S,
    schema: &Schema,
    first: u8,
    held: &Option<List<u8>>,
    text: &[u8],
    changes: List<Change>,
    entry: &mut Entry,
) -> Result<(), KeepFault>
    requires numbered { IsClean (S.Store.view store.old) → IsTrue (S.Store.view store.old).is_numbered }
    ensures done { OnOk result (IsClean (S.Store.view store.new) → WritesAll first schema.now held.now text.now changes (S.Store.view store.old) (S.Store.view store.new)) }
    ensures cause { IfErr result (HasWriteCause S.Store.view S.Store.faults store.old store.new) }
    ensures quiet { IsQuiet S.Store.view S.Store.faults S.Store.recovers S.Store.is_shielded store.old store.new }
{
    make_tables(alloc, store, schema, first)?;
    write_text(store, held, text, entry)?;
    write_changes(store, changes, entry)
}
