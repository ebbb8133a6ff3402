//! What a file holds is read and checked.
ghost use Rattle.std.specs.Prelude.{◌≡◌, ◌<◌, ℕ, ◌+◌, true, false, [], ◌∷◌, length, map, take, Ok as OkOf, OnOk, IfOk, IsTrue};
ghost use Rattle.sqlite_trees.specs.View.{IsClean, IsQuiet};
ghost use Rattle.su_ddl.specs.Files.{Reads};
ghost use Rattle.su_ddl.specs.Shown.{schema_text};
ghost use Rattle.su_state.specs.DatabaseValue.{rows_of};
ghost use Rattle.su_entries.specs.Entries.{entry_of};
ghost use Rattle.su_entries.specs.TreeRows.{AreEntries};
ghost use Rattle.su_entries.specs.Reading.{MovesCursors};
ghost use Rattle.su_keep.specs.Listed.{catalog_of, text_row};
ghost use Rattle.su_keep.specs.inside.Writes.{held_entries};
ghost use Rattle.su_keep.specs.inside.Finds.{FillsTable, FindsKept, HoldsRows};

use crate::faults::{KeepFault, OpenFault, read_fault};
use crate::listing::{is_row_of, is_text_row};
use crate::refusing::{MOST_ROWS, row_fault};
use crate::writing::{VERSION, is_set};
use sqlite_trees::store::{Alter, Store};
use sqlite_value::row::Row as Entry;
use sqlite_value::value::ValueRef;
use std::alloc::Global;
use su_base::{List, Row, Str, Value};
use su_entries::{ReadFault, read_rows};
use su_schema::Schema;
use su_state::{Database, LoadEnd};

/// The text that is the one value of the one row, where there is a row.
fn text_in(alloc: Global, rows: &[Row]) -> Result<Option<List<u8>>, OpenFault>
    ensures { IfOk result (λ text. map entry_of rows.now ≡ held_entries text) }
{
    match rows {
        [] => Ok(None),
        [row] => match row.as_slice() {
            [Value::Text(text)] => {
                let bytes = Vec::from_slice(alloc, text.as_str().as_bytes())?;
                Ok(Some(List::from_vec(bytes)))
            }
            _ => Err(OpenFault::NoSchema),
        },
        _ => Err(OpenFault::NoSchema),
    }
}

/// The fault that one of reading the text's table stands for.
fn text_fault(fault: ReadFault) -> OpenFault {
    match fault {
        ReadFault::TooMany | ReadFault::NoRow(_) => OpenFault::NoSchema,
        ReadFault::NoMemory => OpenFault::NoMemory,
        ReadFault::Store(error) => OpenFault::from(KeepFault::from(error)),
    }
}

/// The schema's text; none where its table is empty.
fn read_text<S: Alter>(alloc: Global, store: &mut S) -> Result<Option<List<u8>>, OpenFault>
    ensures text { IfOk result (λ text. IsClean (S.Store.view store.new) → (S.Store.view store.old).trees 0 ≡ held_entries text) }
    ensures same { OnOk result (IsClean (S.Store.view store.new) → MovesCursors (S.Store.view store.old) (S.Store.view store.new)) }
    ensures quiet { IsQuiet S.Store.view S.Store.faults S.Store.recovers S.Store.is_shielded store.old store.new }
{
    if !is_set(store, 0) {
        return Err(OpenFault::NotADatabase);
    }
    match read_rows(alloc, store, 0, 1) {
        Ok(rows) => text_in(alloc, rows.as_slice()),
        Err(fault) => Err(text_fault(fault)),
    }
}

/// Whether the two texts are the same.
fn is_same(shown: &[u8], text: &[u8]) -> bool
    ensures { IsTrue result → shown.now ≡ text.now }
{
    shown == text
}

/// The schema whose text this is, as `schema` tells it.
fn read_schema(alloc: Global, text: &[u8]) -> Result<Schema, OpenFault>
    ensures text { IfOk result (λ schema. schema_text schema ≡ text.now) }
    ensures reads { IfOk result (λ schema. Reads text.now (OkOf schema)) }
{
    if text.len() >= 4294967296 {
        return Err(OpenFault::NoSchema);
    }
    let schema = match su_ddl::read(alloc, text) {
        Ok(schema) => schema,
        Err(fault) => return Err(OpenFault::Schema(fault)),
    };
    let shown = su_ddl::show(alloc, &schema)?;
    if is_same(shown.as_slice(), text) {
        return Ok(schema);
    }
    Err(OpenFault::NoSchema)
}

/// That the table of the relation is missing.
fn missing(alloc: Global, schema: &Schema, r: u8) -> OpenFault
    requires { r < length schema.now.relations }
{
    match Str::new(alloc, schema.relation_name(r)) {
        Ok(name) => OpenFault::Missing(name),
        Err(_) => OpenFault::NoMemory,
    }
}

/// Behind the table of the text the tables are those of the schema, in its order.
#[tactic(auto, using(crate::proofs::Written::first_row))]
fn check_tables(alloc: Global, objects: &[Entry], schema: &Schema) -> Result<(), OpenFault>
    requires { take 1 objects.now ≡ text_row ∷ [] }
    ensures { OnOk result (objects.now ≡ catalog_of schema.now) }
{
    schema.keeps_its_rules();
    for r in 0..schema.relations() as u8 {
        let Some(row) = objects.get(r as usize + 1) else {
            return Err(missing(alloc, schema, r));
        };
        if !is_row_of(alloc, row, schema, r)? {
            return Err(missing(alloc, schema, r));
        }
    }
    match objects.get(schema.relations() + 1) {
        Some(row) => Err(foreign(alloc, row)),
        None => Ok(()),
    }
}

/// The name in a row of the list is not the schema's.
pub(crate) fn foreign(alloc: Global, row: &Entry) -> OpenFault {
    let name = match row.get(2) {
        ValueRef::Text(bytes) => match std::str::from_utf8(bytes) {
            Ok(name) => name,
            Err(_) => "?",
        },
        _ => "?",
    };
    match Str::new(alloc, name) {
        Ok(name) => OpenFault::Foreign(name),
        Err(_) => OpenFault::NoMemory,
    }
}

/// The rows of the relation's table are put into the database, as a load.
#[tactic(auto, using(crate::proofs::Found::fills_table, crate::proofs::Found::loads_schema))]
fn fill_table<S: Store>(
    alloc: Global,
    store: &mut S,
    database: &mut Database,
    r: u8,
) -> Result<(), OpenFault>
    requires relation { r < length database.old.schema.relations }
    ensures done { OnOk result (IsClean (S.Store.view store.new) → FillsTable r (S.Store.view store.old).trees database.old database.new) }
    ensures schema { database.new.schema ≡ database.old.schema }
    ensures same { OnOk result (IsClean (S.Store.view store.new) → MovesCursors (S.Store.view store.old) (S.Store.view store.new)) }
    ensures quiet { IsQuiet S.Store.view S.Store.faults S.Store.recovers S.Store.is_shielded store.old store.new }
{
    let tree = u32::from(r) + 1;
    let name = Str::new(alloc, database.schema().relation_name(r))?;
    if !is_set(store, tree) {
        return Err(OpenFault::Missing(name));
    }
    match read_rows(alloc, store, tree, MOST_ROWS) {
        Ok(rows) => match database.load(r, rows) {
            Ok(_) => Ok(()),
            Err(LoadEnd::NoMemory) => Err(OpenFault::NoMemory),
            Err(LoadEnd::Refused(fault)) => {
                Err(row_fault(alloc, store, database.schema(), r, fault))
            }
        },
        Err(fault) => Err(read_fault(alloc, name.as_str(), fault)),
    }
}

/// The rows of the relations are put into the database, which has none.
#[tactic(auto, using(crate::proofs::Found::fills_none, crate::proofs::Found::fills_more, crate::proofs::Found::fills_rows, crate::proofs::Found::moves_none, crate::proofs::Found::moves_then, su_entries::proofs::QuietCalls::quiet_then))]
fn fill<S: Store>(alloc: Global, store: &mut S, database: &mut Database) -> Result<(), OpenFault>
    requires empty { (r : ℕ) → rows_of database.old r ≡ [] }
    ensures done { OnOk result (IsClean (S.Store.view store.new) → HoldsRows (length database.old.schema.relations) (S.Store.view store.old).trees database.new) }
    ensures schema { database.new.schema ≡ database.old.schema }
    ensures same { OnOk result (IsClean (S.Store.view store.new) → MovesCursors (S.Store.view store.old) (S.Store.view store.new)) }
    ensures quiet { IsQuiet S.Store.view S.Store.faults S.Store.recovers S.Store.is_shielded store.old store.new }
{
    database.schema().keeps_its_rules();
    for r in 0..database.schema().relations() as u8 {
        fill_table(alloc, store, database, r)?;
    }
    Ok(())
}

/// The database of the schema, with the rows of the tables.
#[tactic(auto, using(crate::proofs::Found::no_rows, crate::proofs::Found::filled_rows))]
fn filled<S: Alter>(alloc: Global, store: &mut S, schema: Schema) -> Result<Database, OpenFault>
    ensures schema { IfOk result (λ db. db.schema ≡ schema) }
    ensures tables { IfOk result (λ db. length db.tables ≡ length schema.relations) }
    ensures rows { IfOk result (λ db. IsClean (S.Store.view store.new) → HoldsRows (length db.tables) (S.Store.view store.old).trees db) }
    ensures same { OnOk result (IsClean (S.Store.view store.new) → MovesCursors (S.Store.view store.old) (S.Store.view store.new)) }
    ensures quiet { IsQuiet S.Store.view S.Store.faults S.Store.recovers S.Store.is_shielded store.old store.new }
{
    let mut database = Database::new(alloc, schema)?;
    fill(alloc, store, &mut database)?;
    database.keeps_its_rules();
    Ok(database)
}

/// Whether the first object is the table of the text.
fn is_ours(alloc: Global, objects: &[Entry]) -> Result<bool, OpenFault>
    ensures { IfOk result (λ ours. ours ≡ true → take 1 objects.now ≡ text_row ∷ []) }
{
    match objects {
        [first, ..] => Ok(is_text_row(alloc, first)?),
        [] => Ok(false),
    }
}

/// The database that the store holds, with the text of its schema; none where nothing has been kept
/// in it yet.
#[tactic(auto, using(crate::proofs::Found::finds, crate::proofs::Found::moves_then, su_entries::proofs::QuietCalls::quiet_then))]
pub(crate) fn read_database<S: Alter>(
    alloc: Global,
    store: &mut S,
) -> Result<Option<(Database, List<u8>)>, OpenFault>
    requires is_open { IsClean (S.Store.view store.old) → IsTrue (S.Store.view store.old).is_open }
    requires sound { IsClean (S.Store.view store.old) → (S.Store.view store.old).is_broken ≡ false }
    ensures found { IfOk result (λ found. IsClean (S.Store.view store.new) → FindsKept (S.Store.view store.old).trees found) }
    ensures same { OnOk result (IsClean (S.Store.view store.new) → MovesCursors (S.Store.view store.old) (S.Store.view store.new)) }
    ensures quiet { IsQuiet S.Store.view S.Store.faults S.Store.recovers S.Store.is_shielded store.old store.new }
{
    let objects = store.objects(alloc)?;
    if !is_ours(alloc, objects.as_slice())? {
        return Err(match objects.as_slice() {
            [first, ..] => foreign(alloc, first),
            [] => OpenFault::NotADatabase,
        });
    }
    let version = store.version();
    let Some(text) = read_text(alloc, store)? else {
        if version == 0 && objects.len() == 1 {
            return Ok(None);
        }
        return Err(OpenFault::NoSchema);
    };
    if version != VERSION {
        return Err(OpenFault::Version(version));
    }
    let schema = read_schema(alloc, text.as_slice())?;
    check_tables(alloc, objects.as_slice(), &schema)?;
    let database = filled(alloc, store, schema)?;
    Ok(Some((database, text)))
}
