//! The answer of a prepared query over a store of the caller's own.
ghost use Rattle.std.specs.Prelude.{◌≡◌, ◌≤◌, List as Items, [], ◌∷◌, length, IfOk, IfErr};
ghost use Rattle.su_rel.specs.Stored.{Stored};
ghost use Rattle.su_rel.specs.MoreThan.{AreMoreThan};
ghost use Rattle.su_tableau.specs.Kinds.{IsTyped};
ghost use Rattle.su_schema.specs.Entries.{attribute_kinds};
ghost use Rattle.su_state.specs.DatabaseValue.{IsWellKept};
ghost use Rattle.su_exec.specs.Tasks.{IsTask};
ghost use Rattle.su_answer.specs.declared.faults.AnswerFault.TheVariants.{Limit};
ghost use Rattle.su_answer.specs.Prepared.{IsPreparedOn};
ghost use Rattle.su_answer.specs.Joined.{IsTaskOf};
ghost use Rattle.su_answer.specs.Answers.{IsAnswer, AreAnswers};
ghost use Rattle.su_answer.specs.inside.Executed.{IsFoundFor};

use crate::executing::found_over;
use crate::faults::AnswerFault;
use crate::found::Found;
use crate::preparing::Prepared;
use crate::tasks::task_of;
use crate::uniting::gathered;
use std::alloc::Global;
use su_base::{List, NoMemory, Row};
use su_exec::Task;
use su_index::Rows;
use su_min::Minimal;
use su_min::laws::kept_rows_are_least;
use su_schema::Schema;
use su_steps::laws::terms_are_valid_and_typed;

/// The join that answers the kept rows of a term that is well typed for the schema. It fits all tables
/// that make a database with the schema.
fn task_in(alloc: Global, schema: &Schema, minimal: &Minimal) -> Result<Task, NoMemory>
    requires { IsTyped (attribute_kinds schema.now) minimal.now.tableau }
    ensures task { IfOk result (IsTaskOf schema.now minimal.now.tableau minimal.now.mask) }
    ensures fits { IfOk result (λ task. (tables : Items Stored) → IsWellKept (record { schema = schema.now; tables = tables }) → IsTask tables task) }
{
    minimal.keeps_its_rules();
    let t = minimal.tableau();
    t.keeps_its_rules();
    kept_rows_are_least();
    let task = task_of(alloc, schema, t, minimal.mask())?;
    Ok(task)
}

/// The answers of the term over the store's rows.
fn found_in<S: Rows>(
    alloc: Global,
    schema: &Schema,
    store: &mut S,
    minimal: &Minimal,
) -> Result<Found, NoMemory>
    requires typed { IsTyped (attribute_kinds schema.now) minimal.now.tableau }
    requires kept { IsWellKept (record { schema = schema.now; tables = S.tables store.old }) }
    ensures found { IfOk result (IsFoundFor (record { schema = schema.now; tables = S.tables store.old }) minimal.now) }
    ensures tables { S.tables store.new ≡ S.tables store.old }
{
    minimal.tableau().keeps_its_rules();
    let task = task_in(alloc, schema, minimal)?;
    let found = found_over(alloc, &task, store)?;
    Ok(found)
}

/// A list of this alone.
fn alone(alloc: Global, found: Found) -> Result<List<Found>, NoMemory>
    ensures { IfOk result (λ lists. lists ≡ found ∷ []) }
{
    let mut lists = List::new(alloc);
    lists.push(found)?;
    Ok(lists)
}

/// What `answer` gives, over the rows of a store of the caller's own: one term is executed after
/// another, and the store hands its rows out as it is asked.
///
/// The store has to hold a database: as many tables as the schema has relations, rows of their columns'
/// kinds, all different, which meet the dependencies, and at most 1,000,000 in each.
pub fn answer_over<S: Rows>(
    alloc: Global,
    schema: &Schema,
    store: &mut S,
    prepared: &Prepared,
) -> Result<List<Row>, AnswerFault>
    requires prepared { IsPreparedOn schema.now prepared.now }
    requires kept { IsWellKept (record { schema = schema.now; tables = S.tables store.old }) }
    ensures answers { IfOk result (AreAnswers (record { schema = schema.now; tables = S.tables store.old }) prepared.now) }
    ensures few { IfOk result (λ rows. length rows ≤ 1000000) }
    ensures limit { IfErr result (λ fault. fault ≡ Limit → AreMoreThan 1000000 (IsAnswer (record { schema = schema.now; tables = S.tables store.old }) prepared.now)) }
    ensures tables { S.tables store.new ≡ S.tables store.old }
{
    let minimals = prepared.minimals.as_slice();
    let kept = prepared.reduced.kept.as_slice();
    terms_are_valid_and_typed();
    let mut rows = List::new(alloc);
    let mut left = kept;
    while !left.is_empty() {
        let (now, later) = left.split_at(1);
        let found = found_in(alloc, schema, store, &minimals[now[0] as usize])?;
        let lists = alone(alloc, found)?;
        rows = gathered(alloc, rows, lists)?;
        left = later;
    }
    Ok(rows)
}
