//! The answer of a prepared query.
ghost use Rattle.std.specs.Prelude.{◌≡◌, ◌≤◌, length, IfOk, IfErr};
ghost use Rattle.su_answer.specs.declared.faults.AnswerFault.TheVariants.{Limit};
ghost use Rattle.su_answer.specs.Prepared.{IsPreparedOn};
ghost use Rattle.su_answer.specs.Answers.{IsAnswer, AreAnswers};
ghost use Rattle.su_rel.specs.MoreThan.{AreMoreThan};

use crate::executing::found;
use crate::faults::AnswerFault;
use crate::later::Later;
use crate::preparing::Prepared;
use crate::uniting::gathered;
use std::alloc::Global;
use std::thread::Threads;
use su_base::{List, Row};
use su_par::Gate;
use su_state::Database;
use su_steps::laws::terms_are_valid_and_typed;

/// The rows of the kept terms over the stored rows, ascending, each once; `Limit` where there are more
/// than 1,000,000. `workers` terms are executed at a time, and the gate is passed for each, with its
/// place among the kept ones. What they give is merged with the rows so far before the next ones
/// begin: beside the answer no more lists are held than there are workers.
///
/// Where the relations are the projections of one universal relation that meets the dependencies, they
/// are those of the query's expression (`laws::answers_are_the_expression`). Beside the joins, the
/// time is that of two comparisons at most for each row so far and for each kept term.
pub fn answer<R: Threads + Sync, G: Gate>(
    rt: &R,
    alloc: Global,
    db: &Database,
    prepared: &Prepared,
    workers: u8,
    gate: &G,
) -> Result<List<Row>, AnswerFault>
    requires prepared { IsPreparedOn db.now.schema prepared.now }
    requires least { 1 ≤ workers }
    requires most { workers ≤ 16 }
    ensures answers { IfOk result (AreAnswers db.now prepared.now) }
    ensures few { IfOk result (λ rows. length rows ≤ 1000000) }
    ensures limit { IfErr result (λ fault. fault ≡ Limit → AreMoreThan 1000000 (IsAnswer db.now prepared.now)) }
{
    db.keeps_its_rules();
    let minimals = prepared.minimals.as_slice();
    let kept = prepared.reduced.kept.as_slice();
    terms_are_valid_and_typed();
    let mut rows = List::new(alloc);
    let mut left = kept;
    while !left.is_empty() {
        let (now, later) = left.split_at(left.len().min(workers as usize));
        let first = kept.len() - left.len();
        let later_gate = Later { gate, first };
        let lists = found(rt, alloc, db, minimals, now, workers, &later_gate)?;
        rows = gathered(alloc, rows, lists)?;
        left = later;
    }
    Ok(rows)
}
