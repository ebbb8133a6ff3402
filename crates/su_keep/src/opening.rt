//! Two files are opened as a database.
ghost use Rattle.std.specs.Prelude.{◌≡◌, ◌↔◌, ◌<◌, length, IfOk, IfErr, IfSome, OnOk, IsTrue};
ghost use Rattle.sqlite_wal.specs.Reads.{AreClean, OnlyReads};
ghost use Rattle.sqlite_pool.specs.Opening.{IsBlankFile};
ghost use Rattle.sqlite_trees.specs.View.{View, IsClean};
ghost use Rattle.sqlite_store.specs.FileStore.{view};
ghost use Rattle.sqlite_store.specs.Unopened.{state_of, files_of, AreUsable, Opens};
ghost use Rattle.su_entries.specs.Reading.{MovesCursors};
ghost use Rattle.su_keep.specs.Kept.{HasCleanDisk, IsAt};
ghost use Rattle.su_keep.specs.Opened.{image_of, IsFoundIn, StoodIn, HasCleanLeftover, LeavesFiles};
ghost use Rattle.su_keep.specs.inside.Finds.{FindsKept};
ghost use Rattle.su_keep.specs.inside.Stores.{StandsOpen, IsListedIn, IsAttached, LeavesOpened, database_in};

use crate::beginning::begin;
use crate::faults::{OpenFault, store_fault, wal_fault};
use crate::keeping::Keeper;
use crate::leaving::{Leftover, Refusal};
use crate::listing::text_object;
use crate::reading::{foreign, read_database};
use sqlite_disk::{Disk, Files};
use sqlite_pager::{Options, Pager};
use sqlite_pool::probe_blank;
use sqlite_store::{FileStore, Unopened};
use sqlite_trees::schema::Object;
use sqlite_trees::store::Shape;
use sqlite_value::keys::Order;
use sqlite_value::row::Row as Entry;
use sqlite_value::value::ValueRef;
use sqlite_wal::PageSize;
use std::alloc::{AllocError, AllocFailed, Global};
use su_base::List;
use su_state::Database;

/// The size of a page in bytes.
const PAGE: usize = 4096;

/// Whether no database has been made in the files yet. They are only read.
fn is_blank<D: Disk>(alloc: Global, files: &mut Files<D>) -> Result<bool, OpenFault>
    requires { IsTrue (D.Disk.is_usable files.old.log) × IsTrue (D.Disk.is_usable files.old.db) }
    ensures ok { IfOk result (λ blank. AreClean D.Disk files.new.log files.new.db → (IsTrue blank ↔ IsBlankFile 4096 (image_of D.Disk files.old))) }
    ensures log { OnlyReads D.Disk files.old.log files.new.log }
    ensures db { OnlyReads D.Disk files.old.db files.new.db }
{
    let size = PageSize::new(PAGE).unwrap();
    match probe_blank(alloc, files, size, false) {
        Ok(is_blank) => Ok(is_blank),
        Err(error) => Err(wal_fault(error)),
    }
}

/// The files with this schema, of which nothing is known yet; or the files, where memory is wanting.
fn unopened<D: Disk>(
    alloc: Global,
    files: Files<D>,
    seed: u64,
    schema: &[Object<'_>],
) -> Result<Unopened<D>, Files<D>>
    ensures files { IfOk result (λ it. files_of it ≡ (files.log, files.db)) }
    ensures size { IfOk result (λ it. (state_of it).page_size ≡ 4096) }
    ensures back { IfErr result (λ left. (left.log ≡ files.log) × (left.db ≡ files.db)) }
{
    let size = PageSize::new(PAGE).unwrap();
    let pager = match Pager::new(alloc, files, size, Options::new(seed)) {
        Ok(pager) => pager,
        Err(AllocFailed { value }) => return Err(value),
    };
    match Unopened::new(alloc, pager, schema) {
        Ok(unopened) => Ok(unopened),
        Err(AllocFailed { value }) => Err(value.close()),
    }
}

/// Makes the table of the schema's text in files that hold no database.
fn make<D: Disk + Drop>(
    alloc: Global,
    files: Files<D>,
    seed: u64,
) -> Result<FileStore<D>, Refusal<D>>
    requires usable { IsTrue (D.Disk.is_usable files.log) × IsTrue (D.Disk.is_usable files.db) }
    requires blank { AreClean D.Disk files.log files.db → IsBlankFile 4096 (image_of D.Disk files) }
    ensures stands { IfOk result (λ it. IsClean (view it) → StandsOpen (view it)) }
    ensures found { IfOk result (λ it. IsClean (view it) → StoodIn (image_of D.Disk files) (view it).trees) }
    ensures unharmed { IfErr result (λ it. HasCleanLeftover it.left → LeavesFiles files it.left) }
{
    let schema = [text_object()];
    let fresh = match unopened(alloc, files, seed, &schema) {
        Ok(fresh) => fresh,
        Err(files) => {
            return Err(Refusal {
                fault: OpenFault::NoMemory,
                left: Leftover::Files(files),
            });
        }
    };
    match fresh.create() {
        Ok(store) => Ok(store),
        Err((error, left)) => Err(Refusal {
            fault: store_fault(error),
            left: Leftover::Unopened(left),
        }),
    }
}

/// The first row of the list that is no table of a set of rows, whose pages begin with that of one.
fn first_foreign(rows: &[Entry], roots: &[bool]) -> Option<usize>
    ensures { IfSome result (λ at. at < length rows.now) }
{
    for at in 0..rows.len() {
        let is_table =
            matches!(rows[at].get(1), ValueRef::Text(kind) if kind == "table".as_bytes());
        let is_next = matches!(rows[at].get(0), ValueRef::Int(number) if number == at as i64 + 1);
        let is_set = matches!(roots.get(at), Some(true));
        if !is_table || !is_next || !is_set {
            return Some(at);
        }
    }
    None
}

/// The row of the list without its root page.
fn without_root(alloc: Global, row: &Entry) -> Result<Entry, AllocError> {
    let mut described = Entry::new(alloc);
    described.push(row.get(0))?;
    described.push(row.get(1))?;
    described.push(row.get(2))?;
    described.push(row.get(3))?;
    described.push(row.get(5))?;
    Ok(described)
}

/// The rows without their root pages, and for each that it is a set of entries in SQLite's own order.
fn listing_of(alloc: Global, rows: &[Entry]) -> Result<(Vec<Entry>, Vec<(Shape, u64)>), AllocError>
    ensures { IfOk result (λ it. length it.1.items ≡ length it.0.items) }
{
    let mut listed = Vec::new(alloc);
    let mut layouts = Vec::new(alloc);
    for row in rows {
        listed.push(without_root(alloc, row)?)?;
        layouts.push((Shape::Index(Order::PLAIN), 0))?;
    }
    Ok((listed, layouts))
}

/// The rows of SQLite's list, and for each whether its pages begin with those of a set of rows.
fn read_list<D: Disk>(files: &mut Unopened<D>) -> Result<(Vec<Entry>, Vec<bool>), OpenFault>
    requires { AreUsable files.old }
    ensures usable { OnOk result (AreUsable files.new) }
    ensures honest { IsTrue (state_of files.new).is_clean → IsTrue (state_of files.old).is_clean }
    ensures ok { OnOk result (IsTrue (state_of files.new).is_clean → IsListedIn files.old files.new) }
    ensures kept { IsTrue (state_of files.new).is_clean → Opens files.old (state_of files.new) }
{
    let rows = match files.read_catalog() {
        Ok(rows) => rows,
        Err(error) => return Err(store_fault(error)),
    };
    match files.index_roots(rows.as_slice()) {
        Ok(roots) => Ok((rows, roots)),
        Err(error) => Err(store_fault(error)),
    }
}

/// Gives the files the tables that they list, each a set of rows.
fn list_tables<D: Disk>(alloc: Global, files: &mut Unopened<D>) -> Result<(), OpenFault>
    requires { AreUsable files.old }
    ensures usable { OnOk result (AreUsable files.new) }
    ensures honest { IsTrue (state_of files.new).is_clean → IsTrue (state_of files.old).is_clean }
    ensures ok { OnOk result (IsTrue (state_of files.new).is_clean → IsListedIn files.old files.new) }
    ensures kept { IsTrue (state_of files.new).is_clean → Opens files.old (state_of files.new) }
{
    let (rows, roots) = read_list(files)?;
    if let Some(at) = first_foreign(rows.as_slice(), roots.as_slice()) {
        return Err(foreign(alloc, &rows[at]));
    }
    let (listed, layouts) = listing_of(alloc, rows.as_slice())?;
    if files.list_schema(listed.as_slice(), layouts.as_slice())? {
        return Ok(());
    }
    Err(OpenFault::NotADatabase)
}

/// The files as the tables that they list.
fn attach<D: Disk + Drop>(alloc: Global, mut files: Unopened<D>) -> Result<FileStore<D>, Refusal<D>>
    requires { AreUsable files }
    ensures ok { IfOk result (λ it. IsClean (view it) → IsAttached files it) }
    ensures unharmed { IfErr result (λ it. HasCleanLeftover it.left → LeavesOpened files it.left) }
{
    if let Err(fault) = list_tables(alloc, &mut files) {
        return Err(Refusal {
            fault,
            left: Leftover::Unopened(files),
        });
    }
    match files.open_numbered() {
        Ok(store) => Ok(store),
        Err((error, left)) => Err(Refusal {
            fault: store_fault(error),
            left: Leftover::Unopened(left),
        }),
    }
}

/// The store of files that hold a database. One without a table and of version 0 gets the table of the
/// schema's text.
fn store_found<D: Disk + Drop>(
    alloc: Global,
    files: Files<D>,
    seed: u64,
) -> Result<FileStore<D>, Refusal<D>>
    requires { IsTrue (D.Disk.is_usable files.log) × IsTrue (D.Disk.is_usable files.db) }
    ensures stands { IfOk result (λ it. IsClean (view it) → StandsOpen (view it)) }
    ensures found { IfOk result (λ it. IsClean (view it) → StoodIn (image_of D.Disk files) (view it).trees) }
    ensures unharmed { IfErr result (λ it. HasCleanLeftover it.left → LeavesFiles files it.left) }
{
    let found = match unopened(alloc, files, seed, &[]) {
        Ok(found) => found,
        Err(files) => {
            return Err(Refusal {
                fault: OpenFault::NoMemory,
                left: Leftover::Files(files),
            });
        }
    };
    let mut store = match attach(alloc, found) {
        Ok(store) => store,
        Err(refusal) => return Err(refusal),
    };
    match begin(alloc, &mut store) {
        Ok(()) => Ok(store),
        Err(fault) => Err(Refusal {
            fault,
            left: Leftover::Store(store),
        }),
    }
}

/// The store of the files; a new one where they hold no database, or one without a table.
fn open_store<D: Disk + Drop>(
    alloc: Global,
    mut files: Files<D>,
    seed: u64,
) -> Result<FileStore<D>, Refusal<D>>
    requires { IsTrue (D.Disk.is_usable files.log) × IsTrue (D.Disk.is_usable files.db) }
    ensures stands { IfOk result (λ it. IsClean (view it) → StandsOpen (view it)) }
    ensures found { IfOk result (λ it. IsClean (view it) → StoodIn (image_of D.Disk files) (view it).trees) }
    ensures unharmed { IfErr result (λ it. HasCleanLeftover it.left → LeavesFiles files it.left) }
{
    match is_blank(alloc, &mut files) {
        Ok(true) => make(alloc, files, seed),
        Ok(false) => store_found(alloc, files, seed),
        Err(fault) => Err(Refusal {
            fault,
            left: Leftover::Files(files),
        }),
    }
}

/// The keeper of a store in which this was found, and the database.
fn keeper_of<D: Disk + Drop>(
    alloc: Global,
    store: FileStore<D>,
    found: Option<(Database, List<u8>)>,
) -> (Keeper<FileStore<D>>, Option<Database>)
    requires { IsClean (view store) → IsTrue (view store).is_numbered }
    ensures at { (before : View) → StandsOpen before → MovesCursors before (view store) → FindsKept before.trees found → IsAt result.0 result.1 }
    ensures store { result.0.store ≡ store }
    ensures database { result.1 ≡ database_in found }
{
    let entry = Entry::new(alloc);
    match found {
        Some((database, text)) => {
            database.schema().keeps_its_rules();
            database.keeps_its_rules();
            let relations = database.schema().relations() as u8;
            let keeper = Keeper {
                alloc,
                store,
                relations,
                text: Some(text),
                entry,
                has_failed: false,
            };
            (keeper, Some(database))
        }
        None => {
            let keeper = Keeper {
                alloc,
                store,
                relations: 0,
                text: None,
                entry,
                has_failed: false,
            };
            (keeper, None)
        }
    }
}

/// Opens the two files. Without a database they are a new file, in which nothing has been kept. Where
/// they are refused, what is left of them is handed back.
pub fn open_over<D: Disk + Drop>(
    alloc: Global,
    files: Files<D>,
    seed: u64,
) -> Result<(Keeper<FileStore<D>>, Option<Database>), Refusal<D>>
    requires { IsTrue (D.Disk.is_usable files.log) × IsTrue (D.Disk.is_usable files.db) }
    ensures at { IfOk result (λ it. HasCleanDisk it.0 → IsAt it.0 it.1) }
    ensures found { IfOk result (λ it. HasCleanDisk it.0 → IsFoundIn (image_of D.Disk files) it.1) }
    ensures unharmed { IfErr result (λ it. HasCleanLeftover it.left → LeavesFiles files it.left) }
{
    let mut store = match open_store(alloc, files, seed) {
        Ok(store) => store,
        Err(refusal) => return Err(refusal),
    };
    match read_database(alloc, &mut store) {
        Ok(found) => Ok(keeper_of(alloc, store, found)),
        Err(fault) => Err(Refusal {
            fault,
            left: Leftover::Store(store),
        }),
    }
}
