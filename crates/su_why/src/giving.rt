//! What valuations that meet a part of a task give some symbols.
ghost use Rattle.std.specs.Prelude.{◌≡◌, ◌<◌, ◌^◌, IfOk, MatchOption, All};
ghost use Rattle.su_exec.specs.Tasks.{IsTask};
ghost use Rattle.su_exec.specs.Outputs.{IsOutput, AreOutputs};
ghost use Rattle.su_rel.specs.MoreThan.{AreMoreThan};
ghost use Rattle.su_why.specs.Met.{size_of, IsHeld};
ghost use Rattle.su_why.specs.Given.{AreGiven};

use crate::parts::part_of;
use std::alloc::Global;
use std::marker::Brand;
use std::sync::ledger::{Blank, Ledger};
use su_base::{List, NoMemory, Row};
use su_exec::{Compared, ExecFault, Task, execute};
use su_index::{Table, TableRows};
use su_tableau::{Sym, copy_symbols};

/// The outputs of the task, whose fetches are counted in a ledger; none where there are more than `cap`.
fn outputs_of<L: Ledger>(
    alloc: Global,
    tables: &[Table],
    task: &Task,
    cap: u64,
    blank: Blank,
) -> Result<Option<List<Row>>, NoMemory>
    requires task { IsTask tables.now task.now }
    requires name { blank.name ≡ L.name }
    requires parts { blank.parts ≡ L.parts }
    requires some { 0 < blank.parts }
    ensures { IfOk result (λ found. MatchOption found (AreMoreThan cap (IsOutput tables.now task.now)) (AreOutputs tables.now task.now)) }
{
    let mut rows = TableRows::<L>::new(tables, blank);
    match execute(alloc, task, &mut rows, cap) {
        Ok(found) => Ok(Some(found)),
        Err(ExecFault::More) => Ok(None),
        Err(ExecFault::NoMemory) => Err(NoMemory),
    }
}

/// The task with these outputs.
fn with_outputs(task: Task, outputs: List<Sym>) -> Task
    ensures { result ≡ record { rows = task.rows; outputs = outputs; comparisons = task.comparisons } }
{
    let mut giving = task;
    giving.outputs = outputs;
    giving
}

/// What the symbols are given where the set is met: ascending, each once; none where there are more than
/// `cap`. Of one row alone and its cells these are its candidates.
pub fn given(
    alloc: Global,
    tables: &[Table],
    task: &Task,
    fixed: &List<Compared>,
    set: &[usize],
    symbols: &[Sym],
    cap: u64,
) -> Result<Option<List<Row>>, NoMemory>
    requires task { IsTask tables.now task.now }
    requires small { size_of task.now < 2 ^ 64 }
    requires held { All (IsHeld task.now set.now) symbols.now }
    ensures { IfOk result (AreGiven (record { tables = tables.now; task = task.now; fixed = fixed.now }) set.now symbols.now cap) }
{
    let part = part_of(alloc, task, fixed, set)?;
    let outputs = copy_symbols(alloc, symbols)?;
    let giving = with_outputs(part, outputs);
    let found = outputs_of::<Brand>(alloc, tables, &giving, cap, Blank::new(1))?;
    Ok(found)
}
