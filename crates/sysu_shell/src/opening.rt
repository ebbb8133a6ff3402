//! The database that a talk begins with.
ghost use Rattle.std.specs.Prelude.{◌≡◌, ◌↔◌, true, is_some, IfOk, OnOk, None};
ghost use Rattle.sqlite_wal.specs.Files.{image_at};
ghost use Rattle.su_ddl.specs.Shown.{schema_text};
ghost use Rattle.su_keep.specs.Kept.{HasCleanDisk, IsAt};
ghost use Rattle.sysu_shell.specs.Keeping.{IsKept};
ghost use Rattle.sysu_shell.specs.NewDatabases.{IsAskedFor, IsFirstOf, IsNew, IsNewSchema};
ghost use Rattle.sysu_shell.specs.Openings.{IsOpened};

use crate::telling::End;
use crate::words::Asked;
use sqlite_std_file::{FileFrom, Start};
use sqlite_store::FileStore;
use std::alloc::Global;
use su_base::{List, NoMemory, Str};
use su_ddl::{read, show};
use su_keep::{Keeper, OpenFault, line_of};
use su_schema::Schema;
use su_state::Database;

/// The schema that is asked for, or that of an empty text.
fn first_schema(alloc: Global, schema: Option<Schema>) -> Result<Schema, End>
    ensures { IfOk result (IsNewSchema schema) }
{
    match schema {
        Some(schema) => Ok(schema),
        None => match read(alloc, b"") {
            Ok(schema) => Ok(schema),
            Err(_) => Err(End::NoMemory),
        },
    }
}

/// A database without rows.
fn new_database(alloc: Global, schema: Option<Schema>) -> Result<Database, End>
    ensures { IfOk result (IsNew schema) }
{
    let own = first_schema(alloc, schema)?;
    match Database::new(alloc, own) {
        Ok(db) => Ok(db),
        Err(NoMemory) => Err(End::NoMemory),
    }
}

/// `FILE: WHY` and a line feed.
fn line(alloc: Global, path: &Str, why: &str) -> Result<List<u8>, NoMemory> {
    let mut line = Vec::new(alloc);
    line.extend_from_slice(path.as_str().as_bytes())?;
    line.extend_from_slice(b": ")?;
    line.extend_from_slice(why.as_bytes())?;
    line.extend_from_slice(b"\n")?;
    Ok(List::from_vec(line))
}

fn bad_file(alloc: Global, path: &Str, why: &str) -> End {
    match line(alloc, path, why) {
        Ok(line) => End::BadFile(line),
        Err(NoMemory) => End::NoMemory,
    }
}

/// The end for a file that isn't opened.
fn unopened(alloc: Global, path: &Str, fault: &OpenFault) -> End {
    if matches!(fault, OpenFault::NoMemory) {
        return End::NoMemory;
    }
    match line_of(alloc, fault) {
        Ok(why) => bad_file(alloc, path, why.as_str()),
        Err(_) => End::NoMemory,
    }
}

/// Whether the two schemas are the same.
fn are_same(alloc: Global, one: &Schema, other: &Schema) -> Result<bool, NoMemory>
    ensures { IfOk result (λ same. same ≡ true ↔ schema_text one.now ≡ schema_text other.now) }
{
    let one = show(alloc, one)?;
    let other = show(alloc, other)?;
    Ok(one.as_slice() == other.as_slice())
}

/// Whether the database has the schema, where one is asked for.
fn has_schema(alloc: Global, db: &Database, schema: &Option<Schema>) -> Result<bool, NoMemory>
    ensures { IfOk result (λ same. same ≡ true ↔ IsAskedFor schema.now db.now.schema) }
{
    match schema {
        Some(schema) => are_same(alloc, db.schema(), schema),
        None => Ok(true),
    }
}

/// Keeps a new database in a new file.
fn begin<S: Start>(
    alloc: Global,
    mut keeper: Keeper<FileStore<FileFrom<S>>>,
    schema: Option<Schema>,
) -> Result<(Keeper<FileStore<FileFrom<S>>>, Database), End>
    requires { HasCleanDisk keeper → IsAt keeper None }
    ensures kept { IfOk result (λ it. IsKept it.0 it.1) }
    ensures new { IfOk result (λ it. IsNew schema it.1) }
    ensures clean { IfOk result (λ it. HasCleanDisk it.0 → HasCleanDisk keeper) }
{
    let db = new_database(alloc, schema)?;
    match keeper.keep(&db, List::new(alloc)) {
        Ok(()) => Ok((keeper, db)),
        Err(_) => {
            drop(keeper);
            Err(End::KeepFault)
        }
    }
}

/// The database that was found in the file, which has the schema that is asked for.
fn go_on(alloc: Global, path: &Str, db: Database, schema: Option<Schema>) -> Result<Database, End>
    ensures same { IfOk result (λ it. it ≡ db) }
    ensures schema { OnOk result (IsAskedFor schema db.schema) }
{
    match has_schema(alloc, &db, &schema) {
        Ok(true) => Ok(db),
        Ok(false) => Err(bad_file(alloc, path, "has another schema")),
        Err(NoMemory) => Err(End::NoMemory),
    }
}

/// The file at the path, and the database that is in it; a new one is kept in a new file. `start` stands
/// for what the files hold.
fn open_file<S: Start>(
    rt: HostRuntime,
    path: &Str,
    start: S,
    schema: Option<Schema>,
) -> Result<(Keeper<FileStore<FileFrom<S>>>, Database), End>
    ensures kept { IfOk result (λ it. IsKept it.0 it.1) }
    ensures first { IfOk result (λ it. HasCleanDisk it.0 → IsFirstOf (image_at S.Start) schema it.1) }
    ensures schema { IfOk result (λ it. IsAskedFor schema it.1.schema) }
{
    let alloc = rt.alloc();
    let (keeper, found) = match su_keep::open(&rt, path.as_str(), start) {
        Ok(opened) => opened,
        Err(fault) => return Err(unopened(alloc, path, &fault)),
    };
    match found {
        Some(db) => {
            let db = go_on(alloc, path, db, schema)?;
            Ok((keeper, db))
        }
        None => {
            let (keeper, db) = begin(alloc, keeper, schema)?;
            Ok((keeper, db))
        }
    }
}

/// The file that the words name, if any, and the database that it keeps; without one a new database.
/// `start` stands for what the files hold.
pub fn open<S: Start>(
    rt: HostRuntime,
    wanted: &Asked,
    start: S,
    schema: Option<Schema>,
) -> Result<(Option<Keeper<FileStore<FileFrom<S>>>>, Database), End>
    ensures opened { IfOk result (λ it. IsOpened (image_at S.Start) schema it.0 it.1) }
    ensures file { IfOk result (λ it. is_some it.0 ≡ is_some wanted.now.file) }
{
    match &wanted.file {
        Some(path) => {
            let (file, db) = open_file(rt, path, start, schema)?;
            Ok((Some(file), db))
        }
        None => Ok((None, new_database(rt.alloc(), schema)?)),
    }
}
