//! Joins that are executed side by side.
ghost use Rattle.std.specs.Prelude.{◌≡◌, ◌≤◌, ◌<◌, ◌+◌, length, All, IfOk};
ghost use Rattle.std.specs.List.{AllZip};
ghost use Rattle.su_tableau.specs.Kinds.{IsTyped};
ghost use Rattle.su_schema.specs.Entries.{attribute_kinds};
ghost use Rattle.su_exec.specs.Shares.{task_share};
ghost use Rattle.su_exec.specs.Tasks.{IsTask};
ghost use Rattle.su_min.specs.Reduction.{term_at};
ghost use Rattle.su_answer.specs.Joined.{IsTaskOf};
ghost use Rattle.su_answer.specs.inside.Executed.{IsFound, IsFoundFor};

use crate::found::Found;
use crate::tasks::task_of;
use std::alloc::Global;
use std::marker::{Brand, Model};
use std::sync::ledger::{Blank, Ledger};
use std::thread::Threads;
use su_base::{List, NoMemory};
use su_exec::{ExecFault, Task, execute};
use su_index::{Rows, Table, TableRows};
use su_min::Minimal;
use su_min::laws::kept_rows_are_least;
use su_par::{Gate, Job, each};
use su_state::Database;

/// The most rows of an answer.
pub const MOST: u64 = 1_000_000;

/// A term whose kept rows are to be joined. Its task is made where it runs.
#[derive(Drop)]
struct Joining<'a> {
    db: &'a Database,
    minimal: &'a Minimal,
}

impl<'a> Model for Joining<'a> {
    ghost use Rattle.std.specs.Coded.{codes, coded_ℕ};
    ghost use Rattle.std.specs.Ordering.{nat_cmp};
    ghost use Rattle.std.specs.FinSet as set;
    ghost use Rattle.su_base.specs.contracts.attr_sets.AttrSet as attr_set;
    ghost use Rattle.su_min.specs.contracts.minimal.Minimal as minimals;
    ghost use Rattle.su_schema.specs.contracts.schemas.Schema as schemas;
    ghost use Rattle.su_state.specs.contracts.databases.Database as databases;
    ghost use Rattle.su_tableau.specs.Kinds.{IsTyped};
    ghost use Rattle.su_schema.specs.Entries.{attribute_kinds};
    ghost use Rattle.su_answer.specs.inside.Executed.{TermOver};

    ghost Value = { TermOver };

    ghost coded = { Prim.hlevel (
      codes,
      databases.the_row.coded,
      schemas.the_row.coded,
      minimals.the_row.coded,
      attr_set.the_row.coded,
      set.code {R = nat_cmp} coded_ℕ,
    ) };

    ghost view = { λ j. record { db = j.db.now; minimal = j.minimal.now } };

    ghost invariant = { λ j. IsTyped (attribute_kinds j.db.now.schema) j.minimal.now.tableau };
}

impl<'a> Job for Joining<'a> {
    type Out = Found;

    ghost gives = { λ term found. IsFoundFor term.db term.minimal found };

    fn run(self, alloc: Global) -> Result<Found, NoMemory> {
        joined(alloc, self.db, self.minimal)
    }
}

/// The outputs of the task over these rows.
pub fn found_over<S: Rows>(alloc: Global, task: &Task, rows: &mut S) -> Result<Found, NoMemory>
    requires { IsTask (S.tables rows.old) task.now }
    ensures found { IfOk result (IsFound (record { tables = S.tables rows.old; task = task.now })) }
    ensures tables { S.tables rows.new ≡ S.tables rows.old }
    ensures fetches { S.fetches rows.new ≤ S.fetches rows.old + task_share (S.tables rows.old) task.now }
{
    match execute(alloc, task, rows, MOST) {
        Ok(found) => Ok(Found { rows: Some(found) }),
        Err(ExecFault::More) => Ok(Found { rows: None }),
        Err(ExecFault::NoMemory) => Err(NoMemory),
    }
}

/// The outputs of the task, whose fetches are counted in a ledger.
fn executed<L: Ledger>(
    alloc: Global,
    tables: &[Table],
    task: &Task,
    blank: Blank,
) -> Result<Found, NoMemory>
    requires task { IsTask tables.now task.now }
    requires name { blank.name ≡ L.name }
    requires parts { blank.parts ≡ L.parts }
    requires some { 0 < blank.parts }
    ensures { IfOk result (IsFound (record { tables = tables.now; task = task.now })) }
{
    let mut rows = TableRows::<L>::new(tables, blank);
    found_over(alloc, task, &mut rows)
}

/// The join that answers the kept rows of a term that is well typed for the schema.
pub fn task_for(alloc: Global, db: &Database, minimal: &Minimal) -> Result<Task, NoMemory>
    requires { IsTyped (attribute_kinds db.now.schema) minimal.now.tableau }
    ensures task { IfOk result (IsTaskOf db.now.schema minimal.now.tableau minimal.now.mask) }
    ensures fits { IfOk result (IsTask db.now.tables) }
{
    db.keeps_its_rules();
    minimal.keeps_its_rules();
    let t = minimal.tableau();
    t.keeps_its_rules();
    kept_rows_are_least();
    let task = task_of(alloc, db.schema(), t, minimal.mask())?;
    Ok(task)
}

/// The answers of the term.
fn joined(alloc: Global, db: &Database, minimal: &Minimal) -> Result<Found, NoMemory>
    requires { IsTyped (attribute_kinds db.now.schema) minimal.now.tableau }
    ensures { IfOk result (IsFoundFor db.now minimal.now) }
{
    db.keeps_its_rules();
    minimal.tableau().keeps_its_rules();
    let task = task_for(alloc, db, minimal)?;
    let found = executed::<Brand>(alloc, db.tables(), &task, Blank::new(1))?;
    Ok(found)
}

/// The job of the term.
fn job_of<'a>(db: &'a Database, minimal: &'a Minimal) -> Joining<'a>
    requires { IsTyped (attribute_kinds db.now.schema) minimal.now.tableau }
    ensures { result ≡ record { db = db.now; minimal = minimal.now } }
{
    Joining { db, minimal }
}

/// A job for each of the terms with these numbers.
fn jobs<'a>(
    alloc: Global,
    db: &'a Database,
    minimals: &'a [Minimal],
    kept: &[u16],
) -> Result<List<Joining<'a>>, NoMemory>
    requires typed { All (λ m. IsTyped (attribute_kinds db.now.schema) m.tableau) minimals.now }
    requires within { All (λ k. k < length minimals.now) kept.now }
    ensures { IfOk result (AllZip (λ k job. job ≡ record { db = db.now; minimal = term_at minimals.now k }) kept.now) }
{
    let mut jobs = List::from_vec(Vec::with_capacity(alloc, kept.len())?);
    for k in kept {
        let job = job_of(db, &minimals[*k as usize]);
        jobs.push(job)?;
    }
    Ok(jobs)
}

/// The answers of the terms with these numbers, one after another.
pub fn found<R: Threads + Sync, G: Gate>(
    rt: &R,
    alloc: Global,
    db: &Database,
    minimals: &[Minimal],
    kept: &[u16],
    workers: u8,
    gate: &G,
) -> Result<List<Found>, NoMemory>
    requires typed { All (λ m. IsTyped (attribute_kinds db.now.schema) m.tableau) minimals.now }
    requires within { All (λ k. k < length minimals.now) kept.now }
    requires least { 1 ≤ workers }
    requires most { workers ≤ 16 }
    ensures { IfOk result (AllZip (λ k found. IsFoundFor db.now (term_at minimals.now k) found) kept.now) }
{
    let jobs = jobs(alloc, db, minimals, kept)?;
    let found = each(rt, alloc, jobs, workers, gate)?;
    Ok(found)
}
