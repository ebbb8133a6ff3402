//! The statements that show what is there.
ghost use Rattle.std.specs.Prelude.{◌≡◌, IfOk};
ghost use Rattle.su_maxobj.specs.MaximalObjects.{AreMaximalObjects};
ghost use Rattle.su_schema.specs.Entries.{column_names};
ghost use Rattle.su_session.specs.RowStatements.{InRelation};
ghost use Rattle.su_session.specs.Statements.{PrintsRows, ShowsSchema, ShowsClosure};

use crate::replies::{Reply, accepted, known, refused, unknown};
use std::alloc::Global;
use su_base::{Column, List, NoMemory, ObjSet, Str};
use su_query::resolve_attributes;
use su_show::{Refusal, closure as closure_text, rows, schema};
use su_state::Database;

/// The names of the columns.
fn names(alloc: Global, columns: &[Column]) -> Result<List<Str>, NoMemory>
    ensures { IfOk result (λ names. names ≡ column_names columns.now) }
{
    let mut names = List::new(alloc);
    for column in columns {
        names.push(column.name.copy(alloc)?)?;
    }
    Ok(names)
}

pub(crate) fn print(alloc: Global, db: &Database, name: &Str) -> Result<Reply, NoMemory>
    ensures { IfOk result (λ reply. InRelation db.now name.now reply db.now (PrintsRows db.now reply db.now)) }
{
    let Some(relation) = known(db, name) else {
        return unknown(alloc, db, name);
    };
    let header = names(alloc, db.schema().columns(relation))?;
    let sorted = db.rows(relation)?;
    Ok(accepted(rows(alloc, header.as_slice(), sorted.as_slice())?))
}

pub(crate) fn show_schema(
    alloc: Global,
    db: &Database,
    maximal: &[ObjSet],
) -> Result<Reply, NoMemory>
    requires { AreMaximalObjects db.now.schema maximal.now }
    ensures { IfOk result (λ reply. ShowsSchema db.now reply db.now) }
{
    Ok(accepted(schema(alloc, db.schema(), maximal)?))
}

pub(crate) fn closure(alloc: Global, db: &Database, names: &[Str]) -> Result<Reply, NoMemory>
    ensures { IfOk result (λ reply. ShowsClosure db.now names.now reply db.now) }
{
    match resolve_attributes(alloc, db.schema(), names) {
        Ok(start) => Ok(accepted(closure_text(alloc, db.schema(), start)?)),
        Err(fault) => refused(alloc, db, Refusal::Query(fault)),
    }
}
