//! The rows of a file that are put in.
ghost use Rattle.std.specs.Prelude.{◌≡◌, ◌≢◌, IfOk};
ghost use Rattle.su_session.specs.RowStatements.{InRelation, LoadsRows};
ghost use Rattle.su_effects.specs.inside.Statements.{MakesWhere, AreNewOf};

use crate::effects::{Effect, change};
use crate::tables::{columns, known, table};
use std::alloc::Global;
use su_base::{List, NoMemory, Row, Str};
use su_csv::{CsvFault, read};
use su_index::Table;
use su_state::Database;

/// The rows that the table doesn't have.
pub(crate) fn new_ones(alloc: Global, table: &Table, rows: List<Row>) -> Result<List<Row>, NoMemory>
    ensures { IfOk result (λ kept. AreNewOf table.now.rows rows kept) }
{
    let mut new_ones = List::new(alloc);
    for row in rows.into_vec() {
        let is_new = !table.has(&row);
        new_ones.push_if(is_new, row)?;
    }
    Ok(new_ones)
}

/// A file that is refused changes nothing. Want of memory is handed on.
fn unread(fault: CsvFault) -> Result<Effect, NoMemory>
    ensures { IfOk result (λ effect. (effect ≡ Effect.Nothing) × (fault ≢ CsvFault.NoMemory)) }
{
    match fault {
        CsvFault::NoMemory => Err(NoMemory),
        _ => Ok(Effect::Nothing),
    }
}

/// The rows of the file that are not there are put in.
pub(crate) fn load(
    alloc: Global,
    db: &Database,
    name: &Str,
    file: &[u8],
) -> Result<Effect, NoMemory>
    ensures { IfOk result (λ effect. MakesWhere effect db.now (λ reply new. InRelation db.now name.now reply new (LoadsRows db.now file.now reply new))) }
{
    let Some(relation) = known(db, name) else {
        return Ok(Effect::Nothing);
    };
    match read(alloc, file, columns(db, relation)) {
        Ok(rows) => {
            let kept = new_ones(alloc, table(db, relation), rows)?;
            Ok(change(relation, kept, true))
        }
        Err(fault) => unread(fault),
    }
}
