//! The selects of a prepared query.
ghost use Rattle.std.specs.Prelude.{◌≡◌, ◌<◌, All, length, map, IfOk};
ghost use Rattle.std.specs.List.{AllZip};
ghost use Rattle.su_tableau.specs.Kinds.{IsTyped};
ghost use Rattle.su_schema.specs.Entries.{attribute_kinds};
ghost use Rattle.su_min.specs.Reduction.{term_at};
ghost use Rattle.su_answer.specs.Prepared.{IsPreparedOn};
ghost use Rattle.su_sql.specs.TermSelects.{table_of, select_of, IsSelectOf};
ghost use Rattle.su_sql.specs.Meaning.{MeanAnswers};

use crate::cells::cells_of;
use crate::linking::{comparisons_of, fixed_of, joins_of, operands_of};
use crate::tables::{Select, Table};
use std::alloc::Global;
use su_answer::{Prepared, task_for};
use su_base::{List, NoMemory};
use su_exec::{Task, TaskRow, copy_sources};
use su_min::Minimal;
use su_state::Database;
use su_steps::laws::terms_are_valid_and_typed;

fn tables_of(alloc: Global, rows: &[TaskRow]) -> Result<List<Table>, NoMemory>
    ensures { IfOk result (λ tables. tables ≡ map table_of rows.now) }
{
    let mut tables = List::new(alloc);
    for row in rows {
        let sources = copy_sources(alloc, row.sources.as_slice())?;
        tables.push(Table { sources })?;
    }
    Ok(tables)
}

fn select_of(alloc: Global, task: &Task) -> Result<Select, NoMemory>
    ensures { IfOk result (λ select. select ≡ select_of task.now) }
{
    let cells = cells_of(alloc, task.rows.as_slice())?;
    let cells = cells.as_slice();
    Ok(Select {
        tables: tables_of(alloc, task.rows.as_slice())?,
        joins: joins_of(alloc, cells)?,
        fixed: fixed_of(alloc, cells)?,
        comparisons: comparisons_of(alloc, cells, task.comparisons.as_slice())?,
        outputs: operands_of(alloc, cells, task.outputs.as_slice())?,
    })
}

/// The select of a term's kept rows.
fn select_for(alloc: Global, db: &Database, minimal: &Minimal) -> Result<Select, NoMemory>
    requires { IsTyped (attribute_kinds db.now.schema) minimal.now.tableau }
    ensures { IfOk result (IsSelectOf db.now.schema minimal.now) }
{
    let task = task_for(alloc, db, minimal)?;
    let select = select_of(alloc, &task)?;
    Ok(select)
}

fn selects_for(
    alloc: Global,
    db: &Database,
    minimals: &[Minimal],
    kept: &[u16],
) -> Result<List<Select>, NoMemory>
    requires typed { All (λ m. IsTyped (attribute_kinds db.now.schema) m.tableau) minimals.now }
    requires within { All (λ k. k < length minimals.now) kept.now }
    ensures { IfOk result (AllZip (λ k select. IsSelectOf db.now.schema (term_at minimals.now k) select) kept.now) }
{
    let mut selects = List::new(alloc);
    for k in kept {
        let select = select_for(alloc, db, &minimals[*k as usize])?;
        selects.push(select)?;
    }
    Ok(selects)
}

/// A select for each kept term of the query, over its kept rows alone: a table for each, joined where
/// they share a variable. Over any rows that have the columns' kinds, of any number and whether or not
/// they meet the dependencies, the union of the selects gives exactly the rows of the query's answer.
/// The database's own rows play no part.
pub fn selects(alloc: Global, db: &Database, prepared: &Prepared) -> Result<List<Select>, NoMemory>
    requires prepared { IsPreparedOn db.now.schema prepared.now }
    ensures selects { IfOk result (AllZip (λ k select. IsSelectOf db.now.schema (term_at prepared.now.minimals k) select) prepared.now.reduced.kept) }
    ensures means { IfOk result (MeanAnswers db.now.schema prepared.now) }
{
    db.keeps_its_rules();
    let minimals = prepared.minimals.as_slice();
    let kept = prepared.reduced.kept.as_slice();
    terms_are_valid_and_typed();
    let selects = selects_for(alloc, db, minimals, kept)?;
    Ok(selects)
}
