//! A query answered, by su_answer, over any store that holds a database.
ghost use Rattle.std.specs.Prelude.{◌≡◌, IfOk, IfErr};
ghost use Rattle.su_query.specs.Limits.{AreFew};
ghost use Rattle.su_maxobj.specs.MaximalObjects.{AreMaximalObjects};
ghost use Rattle.su_state.specs.DatabaseValue.{IsWellKept};
ghost use Rattle.library_query.specs.Asked.{IsAnswered, IsRefused};

use std::alloc::Global;
use std::thread::Threads;
use su_answer::laws::answers_are_the_expression;
use su_answer::{AnswerFault, answer_over, prepare};
use su_base::{List, ObjSet, Row};
use su_index::Rows;
use su_maxobj::laws::a_schema_has_few_maximal_objects;
use su_par::OpenGate;
use su_query::{Query, QueryFault, resolve};
use su_state::Database;
use su_steps::StepFault;

/// Why a query is not answered: its names and kinds, its terms, or how long its answer is.
#[derive(Drop)]
pub enum Refused {
    Names(QueryFault),
    Terms(StepFault),
    Answer(AnswerFault),
}

/// The rows of the query over the store's rows. Of the database the schema alone is asked, whose
/// maximal objects are handed in; the store has to hold a database of that schema.
pub fn ask<R: Threads + Sync, S: Rows>(
    rt: &R,
    alloc: Global,
    db: &Database,
    maximal: &[ObjSet],
    query: &Query,
    store: &mut S,
) -> Result<List<Row>, Refused>
    requires few { AreFew query.now.outputs query.now.cond }
    requires maximal { AreMaximalObjects db.now.schema maximal.now }
    requires kept { IsWellKept (record { schema = db.now.schema; tables = S.tables store.old }) }
    ensures answered { IfOk result (IsAnswered (record { schema = db.now.schema; tables = S.tables store.old }) maximal.now query.now) }
    ensures refused { IfErr result (IsRefused (record { schema = db.now.schema; tables = S.tables store.old }) maximal.now query.now) }
{
    db.keeps_its_rules();
    a_schema_has_few_maximal_objects();
    answers_are_the_expression();
    let schema = db.schema();
    let resolved = match resolve(alloc, schema, query) {
        Ok(resolved) => resolved,
        Err(fault) => return Err(Refused::Names(fault)),
    };
    let prepared = match prepare(rt, alloc, db, maximal, &resolved, 1, &OpenGate) {
        Ok(prepared) => prepared,
        Err(fault) => return Err(Refused::Terms(fault)),
    };
    match answer_over(alloc, schema, store, &prepared) {
        Ok(rows) => Ok(rows),
        Err(fault) => Err(Refused::Answer(fault)),
    }
}
