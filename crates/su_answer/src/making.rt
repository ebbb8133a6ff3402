//! Terms that are minimised and compared.
ghost use Rattle.std.specs.Prelude.{◌≡◌, ◌⊎◌, ◌≤◌, length, IfOk, IfErr, OnOk};
ghost use Rattle.std.specs.List.{AllZip};
ghost use Rattle.su_query.specs.Ranges.{IsResolved};
ghost use Rattle.su_steps.specs.Refusals.{IsAccepted, IsStepRefusal};
ghost use Rattle.su_answer.specs.Prepared.{IsMinimisedOf, IsPrepared};

use crate::preparing::Prepared;
use std::alloc::Global;
use std::thread::Threads;
use su_base::{List, NoMemory, ObjSet};
use su_min::{Minimal, minimise, reduce};
use su_par::{Gate, Job, each};
use su_query::Resolved;
use su_state::Database;
use su_steps::{StepFault, Term, terms};
use su_tableau::Tableau;

/// A tableau to be minimised. It is copied where it is minimised.
#[derive(Drop)]
struct Minimising<'a> {
    tableau: &'a Tableau,
}

impl<'a> Job for Minimising<'a> {
    type Out = Minimal;

    ghost gives = { λ job m. IsMinimisedOf job.tableau.now m };

    fn run(self, alloc: Global) -> Result<Minimal, NoMemory> {
        let tableau = self.tableau.copy(alloc)?;
        match minimise(alloc, tableau) {
            Ok(minimal) => Ok(minimal),
            Err((_, e)) => Err(e),
        }
    }
}

/// A job for each term.
fn jobs<'a>(alloc: Global, terms: &'a [Term]) -> Result<List<Minimising<'a>>, NoMemory>
    ensures { IfOk result (AllZip (λ term job. job.tableau.now ≡ term.tableau) terms.now) }
{
    let mut jobs = List::from_vec(Vec::with_capacity(alloc, terms.len())?);
    for term in terms {
        let tableau = &term.tableau;
        jobs.push(Minimising { tableau })?;
    }
    Ok(jobs)
}

/// The tableaux of the terms with their kept rows, in the terms' order.
fn minimals<R: Threads + Sync, G: Gate>(
    rt: &R,
    alloc: Global,
    terms: &[Term],
    workers: u8,
    gate: &G,
) -> Result<List<Minimal>, NoMemory>
    requires least { 1 ≤ workers }
    requires most { workers ≤ 16 }
    ensures { IfOk result (AllZip (λ term m. IsMinimisedOf term.tableau m) terms.now) }
{
    let jobs = jobs(alloc, terms)?;
    let minimals = each(rt, alloc, jobs, workers, gate)?;
    Ok(minimals)
}

/// The terms of the query in the database's schema, with these maximal objects, each with its least
/// rows, and which of the terms are kept. At most `workers` terms are minimised at a time, and the
/// gate is passed for each, with the number of the term. The stored rows play no part.
///
/// A refusal is one of `terms`, in the same order.
pub fn prepare<R: Threads + Sync, G: Gate>(
    rt: &R,
    alloc: Global,
    db: &Database,
    maximal: &[ObjSet],
    resolved: &Resolved,
    workers: u8,
    gate: &G,
) -> Result<Prepared, StepFault>
    requires few { length maximal.now ≤ 128 }
    requires resolved { IsResolved db.now.schema resolved.now }
    requires least { 1 ≤ workers }
    requires most { workers ≤ 16 }
    ensures prepared { IfOk result (IsPrepared db.now.schema maximal.now resolved.now) }
    ensures accepted { OnOk result (IsAccepted db.now.schema maximal.now resolved.now) }
    ensures refused { IfErr result (λ fault. (fault ≡ StepFault.NoMemory) ⊎ IsStepRefusal db.now.schema maximal.now resolved.now fault) }
{
    let terms = terms(alloc, db.schema(), maximal, resolved)?;
    let minimals = minimals(rt, alloc, terms.as_slice(), workers, gate)?;
    let reduced = reduce(rt, alloc, minimals.as_slice())?;
    Ok(Prepared {
        terms,
        minimals,
        reduced,
    })
}
