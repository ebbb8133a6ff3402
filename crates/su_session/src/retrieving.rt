//! Queries over the universal relation.
ghost use Rattle.std.specs.Prelude.{◌≡◌, ◌≤◌, ℕ, List, IfOk, IfErr};
ghost use Rattle.su_maxobj.specs.MaximalObjects.{AreMaximalObjects};
ghost use Rattle.su_query.specs.NumberedConditions.{resolved_of};
ghost use Rattle.su_query.specs.Limits.{AreFew};
ghost use Rattle.su_answer.specs.Prepared.{IsPrepared};
ghost use Rattle.su_show.specs.RefusalLines.{IsRefusalLine};
ghost use Rattle.su_session.specs.Retrievals.{IsRefusalOf, HasTerms, Retrieves};
ghost use Rattle.su_session.specs.Explanations.{Explains};

use crate::replies::{Reply, accepted, refused};
use std::alloc::Global;
use std::thread::Threads;
use su_answer::{AnswerFault, Prepared, answer, prepare};
use su_base::{NoMemory, ObjSet};
use su_maxobj::laws::a_schema_has_few_maximal_objects;
use su_par::Gate;
use su_query::{Query, Resolved, resolve};
use su_show::{Refusal, explanation, header, rows};
use su_state::Database;

/// A query over numbers, ready to be answered.
pub(crate) struct Ready {
    pub(crate) resolved: Resolved,
    pub(crate) prepared: Prepared,
}

/// Not derived, so that it is a single call wherever a query goes out of scope.
impl Drop for Ready {
    fn drop(self) {
        let Ready {
            resolved: _,
            prepared: _,
        } = self;
    }
}

/// The terms of the query, minimised, or why it has none.
pub(crate) fn make_ready<R: Threads + Sync, G: Gate>(
    rt: &R,
    alloc: Global,
    db: &Database,
    maximal: &[ObjSet],
    query: &Query,
    workers: u8,
    gate: &G,
) -> Result<Ready, Refusal>
    requires few { AreFew query.now.outputs query.now.cond }
    requires maximal { AreMaximalObjects db.now.schema maximal.now }
    requires least { 1 ≤ workers }
    requires most { workers ≤ 16 }
    ensures resolved { IfOk result (λ ready. ready.resolved ≡ resolved_of db.now.schema query.now) }
    ensures prepared { IfOk result (λ ready. IsPrepared db.now.schema maximal.now ready.resolved ready.prepared) }
    ensures terms { IfOk result (λ ready. HasTerms db.now.schema maximal.now query.now) }
    ensures refused { IfErr result (λ why. (line : List ℕ) → IsRefusalLine db.now.schema why line → IsRefusalOf db.now.schema maximal.now query.now why) }
{
    db.keeps_its_rules();
    a_schema_has_few_maximal_objects();
    let resolved = match resolve(alloc, db.schema(), query) {
        Ok(resolved) => resolved,
        Err(fault) => return Err(Refusal::Query(fault)),
    };
    match prepare(rt, alloc, db, maximal, &resolved, workers, gate) {
        Ok(prepared) => Ok(Ready { resolved, prepared }),
        Err(fault) => Err(Refusal::Steps(fault)),
    }
}

/// The answer of a query, or why it is refused. Want of memory is handed on.
pub(crate) fn retrieve<R: Threads + Sync, G: Gate>(
    rt: &R,
    alloc: Global,
    db: &Database,
    maximal: &[ObjSet],
    query: &Query,
    workers: u8,
    gate: &G,
) -> Result<Reply, NoMemory>
    requires few { AreFew query.now.outputs query.now.cond }
    requires maximal { AreMaximalObjects db.now.schema maximal.now }
    requires least { 1 ≤ workers }
    requires most { workers ≤ 16 }
    ensures { IfOk result (λ reply. Retrieves db.now query.now reply db.now) }
{
    let ready = match make_ready(rt, alloc, db, maximal, query, workers, gate) {
        Ok(ready) => ready,
        Err(why) => return refused(alloc, db, why),
    };
    match answer(rt, alloc, db, &ready.prepared, workers, gate) {
        Ok(found) => {
            let header = header(alloc, query)?;
            Ok(accepted(rows(alloc, header.as_slice(), found.as_slice())?))
        }
        Err(AnswerFault::Limit) => refused(alloc, db, Refusal::Answer),
        Err(AnswerFault::NoMemory) => Err(NoMemory),
    }
}

/// How a query is prepared, or why it is refused. Want of memory is handed on.
pub(crate) fn explain<R: Threads + Sync, G: Gate>(
    rt: &R,
    alloc: Global,
    db: &Database,
    maximal: &[ObjSet],
    query: &Query,
    workers: u8,
    gate: &G,
) -> Result<Reply, NoMemory>
    requires few { AreFew query.now.outputs query.now.cond }
    requires maximal { AreMaximalObjects db.now.schema maximal.now }
    requires least { 1 ≤ workers }
    requires most { workers ≤ 16 }
    ensures { IfOk result (λ reply. Explains db.now query.now reply db.now) }
{
    let ready = match make_ready(rt, alloc, db, maximal, query, workers, gate) {
        Ok(ready) => ready,
        Err(why) => return refused(alloc, db, why),
    };
    let Prepared {
        terms,
        minimals,
        reduced,
    } = &ready.prepared;
    let text = explanation(
        alloc,
        db.schema(),
        query,
        &ready.resolved,
        terms.as_slice(),
        minimals.as_slice(),
        reduced,
    )?;
    Ok(accepted(text))
}
