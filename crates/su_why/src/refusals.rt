//! Why a row is no answer of the terms of a query.
ghost use Rattle.std.specs.Prelude.{◌≡◌, ◌<◌, ◌^◌, length, All, IfOk};
ghost use Rattle.std.specs.List.{AllZip};
ghost use Rattle.su_tableau.specs.Kinds.{IsTyped};
ghost use Rattle.su_schema.specs.Entries.{attribute_kinds};
ghost use Rattle.su_exec.specs.Tasks.{IsTask};
ghost use Rattle.su_min.specs.Reduction.{term_at};
ghost use Rattle.su_answer.specs.Prepared.{IsPreparedOn};
ghost use Rattle.su_why.specs.Met.{size_of};
ghost use Rattle.su_why.specs.Heads.{HaveNoClash};
ghost use Rattle.su_why.specs.WhyNot.{AreWhyNot, IsWhyNot, IsWhyNotBy, IsPinnedBlame, ArePins, pin as pin_of};

use crate::blaming::{blame_for, kept_task};
use crate::heads::first_clash;
use std::alloc::Global;
use su_answer::Prepared;
use su_base::{List, NoMemory, Row, Value};
use su_blame::Blame;
use su_exec::{Compared, Task};
use su_min::Minimal;
use su_state::Database;
use su_steps::laws::terms_are_valid_and_typed;
use su_tableau::Sym;
use su_where::Op;

/// Why a row is no answer of a term.
#[derive(Debug, Drop)]
pub enum WhyNot {
    /// The place at which the head can't be the row.
    Head(usize),
    /// What is to blame for it; none where the row is an answer.
    Rows(Option<Blame>),
}

/// The comparison by which the output has the value.
fn pin(alloc: Global, output: &Sym, value: &Value) -> Result<Compared, NoMemory>
    ensures { IfOk result (λ c. c ≡ pin_of output.now value.now) }
{
    Ok(Compared {
        left: output.copy(alloc)?,
        op: Op::Equal,
        right: Sym::Const(value.copy(alloc)?),
    })
}

/// The comparisons by which the outputs have the row's values.
fn pinned(alloc: Global, outputs: &[Sym], row: &[Value]) -> Result<List<Compared>, NoMemory>
    ensures { IfOk result (ArePins outputs.now row.now) }
{
    let symbols = outputs.len();
    let values = row.len();
    let both = symbols.min(values);
    let mut list = List::new(alloc);
    for i in 0..both {
        let one = pin(alloc, &outputs[i], &row[i])?;
        list.push(one)?;
    }
    Ok(list)
}

/// What is to blame for it that no valuation of the task gives the row, with which its outputs don't clash.
fn pinned_blame(
    alloc: Global,
    db: &Database,
    task: &Task,
    row: &Row,
) -> Result<Option<Blame>, NoMemory>
    requires task { IsTask db.now.tables task.now }
    requires small { size_of task.now < 2 ^ 64 }
    requires no_clash { HaveNoClash task.now.outputs row.now }
    ensures { IfOk result (IsPinnedBlame db.now row.now task.now) }
{
    let fixed = pinned(alloc, task.outputs.as_slice(), row.as_slice())?;
    let found = blame_for(alloc, db.tables(), task, &fixed)?;
    Ok(found)
}

/// Why the row is no output of the task.
fn refusal_by(alloc: Global, db: &Database, task: &Task, row: &Row) -> Result<WhyNot, NoMemory>
    requires task { IsTask db.now.tables task.now }
    requires small { size_of task.now < 2 ^ 64 }
    ensures { IfOk result (IsWhyNotBy db.now row.now task.now) }
{
    let outputs = task.outputs.as_slice();
    match first_clash(outputs, row) {
        Some(place) => Ok(WhyNot::Head(place)),
        None => {
            let found = pinned_blame(alloc, db, task, row)?;
            Ok(WhyNot::Rows(found))
        }
    }
}

/// Why the row is no answer of the term.
fn refusal(alloc: Global, db: &Database, minimal: &Minimal, row: &Row) -> Result<WhyNot, NoMemory>
    requires { IsTyped (attribute_kinds db.now.schema) minimal.now.tableau }
    ensures { IfOk result (IsWhyNot db.now row.now minimal.now) }
{
    db.keeps_its_rules();
    minimal.tableau().keeps_its_rules();
    let task = kept_task(alloc, db, minimal)?;
    let why = refusal_by(alloc, db, &task, row)?;
    Ok(why)
}

/// Why the row is no answer of the terms with these numbers.
fn refusals(
    alloc: Global,
    db: &Database,
    minimals: &[Minimal],
    kept: &[u16],
    row: &Row,
) -> Result<List<WhyNot>, NoMemory>
    requires typed { All (λ m. IsTyped (attribute_kinds db.now.schema) m.tableau) minimals.now }
    requires within { All (λ k. k < length minimals.now) kept.now }
    ensures { IfOk result (AllZip (λ k why. IsWhyNot db.now row.now (term_at minimals.now k) why) kept.now) }
{
    let mut whys = List::new(alloc);
    for k in kept {
        let one = refusal(alloc, db, &minimals[*k as usize], row)?;
        whys.push(one)?;
    }
    Ok(whys)
}

/// For each kept term of the query, in order, why the row is no answer of it, or that it is one.
pub fn why_not(
    alloc: Global,
    db: &Database,
    prepared: &Prepared,
    row: &Row,
) -> Result<List<WhyNot>, NoMemory>
    requires { IsPreparedOn db.now.schema prepared.now }
    ensures { IfOk result (AreWhyNot db.now prepared.now row.now) }
{
    db.keeps_its_rules();
    terms_are_valid_and_typed();
    let minimals = prepared.minimals.as_slice();
    let kept = prepared.reduced.kept.as_slice();
    let whys = refusals(alloc, db, minimals, kept, row)?;
    Ok(whys)
}
