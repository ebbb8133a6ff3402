//! Databases that hold rows.
use crate::rows::row_of;
use crate::schemas::schema_of;
use std::alloc::Global;
use su_base::{NoMemory, Row};
use su_state::Database;

/// Puts the row into the relation; whether it is new there.
fn put(db: &mut Database, relation: &str, row: Row) -> bool {
    match db.relation(relation) {
        Ok(number) if (number as usize) < db.schema().relations() => {
            matches!(db.insert(number, row), Ok(true))
        }
        _ => false,
    }
}

/// Puts the rows in; whether each is new.
fn put_all(alloc: Global, db: &mut Database, rows: &[(&str, &str)]) -> Result<bool, NoMemory> {
    for (relation, words) in rows {
        let row = row_of(alloc, words)?;
        if !put(db, relation, row) {
            return Ok(false);
        }
    }
    Ok(true)
}

/// A database of the schema of the text, which has these rows: each a relation and its words. None
/// where the schema or a row is refused.
pub fn stored(
    alloc: Global,
    schema: &str,
    rows: &[(&str, &str)],
) -> Result<Option<Database>, NoMemory> {
    let Some(schema) = schema_of(alloc, schema) else {
        return Ok(None);
    };
    let mut db = Database::new(alloc, schema)?;
    if put_all(alloc, &mut db, rows)? {
        Ok(Some(db))
    } else {
        Ok(None)
    }
}
