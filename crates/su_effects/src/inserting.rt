//! A row that is put in.
ghost use Rattle.std.specs.Prelude.{◌≡◌, ◌∷◌, [], IfOk};
ghost use Rattle.su_session.specs.RowStatements.{InRelation, InsertsRow};
ghost use Rattle.su_effects.specs.inside.Statements.{MakesWhere};

use crate::effects::{Effect, change};
use crate::loading::new_ones;
use crate::tables::{known, table};
use std::alloc::Global;
use su_base::{List, NoMemory, Row, Str, copy_row};
use su_state::Database;

/// A list of a copy of the row.
pub(crate) fn one(alloc: Global, row: &Row) -> Result<List<Row>, NoMemory>
    ensures { IfOk result (λ rows. rows ≡ row.now ∷ []) }
{
    let mut rows = List::new(alloc);
    rows.push(copy_row(alloc, row)?)?;
    Ok(rows)
}

/// The row is put in, unless it is there.
pub(crate) fn insert(
    alloc: Global,
    db: &Database,
    name: &Str,
    row: &Row,
) -> Result<Effect, NoMemory>
    ensures { IfOk result (λ effect. MakesWhere effect db.now (λ reply new. InRelation db.now name.now reply new (InsertsRow db.now row.now reply new))) }
{
    let Some(relation) = known(db, name) else {
        return Ok(Effect::Nothing);
    };
    let rows = one(alloc, row)?;
    let kept = new_ones(alloc, table(db, relation), rows)?;
    Ok(change(relation, kept, true))
}
