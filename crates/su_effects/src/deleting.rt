//! Rows that are taken out.
ghost use Rattle.std.specs.Prelude.{◌≡◌, ◌≢◌, ◌≤◌, true, length, IfOk, All};
ghost use Rattle.su_where.specs.Truth.{comparisons_of};
ghost use Rattle.su_where.specs.Places.{Fits};
ghost use Rattle.su_query.specs.Mentions.{are_columns};
ghost use Rattle.su_session.specs.RowStatements.{InRelation, DeletesRow, DeletesRows};
ghost use Rattle.su_effects.specs.inside.Statements.{MakesWhere, AreMet};

use crate::effects::{Effect, change};
use crate::inserting::one;
use crate::tables::{known, table};
use std::alloc::Global;
use su_base::{List, NoMemory, Row, Str, copy_row};
use su_query::{NamedCond, QueryFault, resolve_columns};
use su_state::Database;
use su_where::{Cond, truth};

/// The row is taken out, where it is there.
pub(crate) fn delete(
    alloc: Global,
    db: &Database,
    name: &Str,
    row: &Row,
) -> Result<Effect, NoMemory>
    ensures { IfOk result (λ effect. MakesWhere effect db.now (λ reply new. InRelation db.now name.now reply new (DeletesRow db.now row.now reply new))) }
{
    let Some(relation) = known(db, name) else {
        return Ok(Effect::Nothing);
    };
    if !table(db, relation).has(row) {
        return Ok(Effect::Nothing);
    }
    let rows = one(alloc, row)?;
    Ok(change(relation, rows, false))
}

/// Copies of the rows of which the condition is true.
fn met(alloc: Global, rows: &[Row], cond: &Cond) -> Result<List<Row>, NoMemory>
    requires { All (λ row. Fits (length row) cond.now) rows.now }
    ensures { IfOk result (λ met. AreMet cond.now rows.now met) }
{
    let mut met = List::new(alloc);
    for row in rows {
        if truth(cond, row) {
            met.push(copy_row(alloc, row)?)?;
        }
    }
    Ok(met)
}

/// A condition that is refused changes nothing. Want of memory is handed on.
fn unmet(fault: QueryFault) -> Result<Effect, NoMemory>
    ensures { IfOk result (λ effect. (effect ≡ Effect.Nothing) × (fault ≢ QueryFault.NoMemory)) }
{
    match fault {
        QueryFault::NoMemory => Err(NoMemory),
        _ => Ok(Effect::Nothing),
    }
}

/// The rows of which the condition is true are taken out.
pub(crate) fn delete_where(
    alloc: Global,
    db: &Database,
    name: &Str,
    cond: &NamedCond,
) -> Result<Effect, NoMemory>
    requires few { length (comparisons_of cond.now) ≤ 256 }
    requires columns { are_columns cond.now ≡ true }
    ensures { IfOk result (λ effect. MakesWhere effect db.now (λ reply new. InRelation db.now name.now reply new (DeletesRows db.now cond.now reply new))) }
{
    let Some(relation) = known(db, name) else {
        return Ok(Effect::Nothing);
    };
    // For the proof: the condition fits the rows.
    db.keeps_its_rules();
    match resolve_columns(alloc, db.schema(), relation, cond) {
        Ok(cond) => {
            let rows = met(alloc, table(db, relation).as_slice(), &cond)?;
            Ok(change(relation, rows, false))
        }
        Err(fault) => unmet(fault),
    }
}
