//! Whether some valuation meets a part of a task.
ghost use Rattle.std.specs.Prelude.{◌≡◌, ◌<◌, ◌^◌, ◌↔◌, List as Items, IsTrue, IfOk};
ghost use Rattle.su_base.specs.declared.values.Value.{Value};
ghost use Rattle.su_exec.specs.Tasks.{IsTask};
ghost use Rattle.su_exec.specs.Outputs.{IsOutput};
ghost use Rattle.su_why.specs.Met.{IsUnmet, size_of};

use crate::parts::part_of;
use std::alloc::Global;
use std::marker::{Brand, Model};
use std::sync::ledger::{Blank, Ledger};
use su_base::{List, NoMemory};
use su_blame::Trial;
use su_exec::{Compared, ExecFault, Task, execute};
use su_index::{Table, TableRows};

/// A task over stored rows, and comparisons that are fixed, whose parts are tried. Contracts see the three
/// as one value.
#[derive(Drop)]
pub struct Asking<'a> {
    pub tables: &'a [Table],
    pub task: &'a Task,
    pub fixed: &'a List<Compared>,
}

impl<'a> Model for Asking<'a> {
    ghost use Rattle.std.specs.Prelude.{◌<◌, ◌^◌};
    ghost use Rattle.su_exec.specs.Tasks.{IsTask};
    ghost use Rattle.su_why.specs.Met.{Asked, size_of};

    ghost Value = { Asked };

    ghost view = { λ asking. record { tables = asking.tables.now; task = asking.task.now; fixed = asking.fixed.now } };

    ghost invariant = { λ asking. IsTask asking.tables.now asking.task.now × (size_of asking.task.now < 2 ^ 64) };
}

/// How many rows and comparisons the task has.
fn size_of_task(task: &Task) -> usize
    requires { size_of task.now < 2 ^ 64 }
    ensures { result ≡ size_of task.now }
{
    task.rows.len() + task.comparisons.len()
}

/// Whether no valuation meets the task, whose fetches are counted in a ledger.
fn is_unmet<L: Ledger>(
    alloc: Global,
    tables: &[Table],
    task: &Task,
    blank: Blank,
) -> Result<bool, NoMemory>
    requires task { IsTask tables.now task.now }
    requires name { blank.name ≡ L.name }
    requires parts { blank.parts ≡ L.parts }
    requires some { 0 < blank.parts }
    ensures { IfOk result (λ unmet. IsTrue unmet ↔ ((h : Items Value) → ¬ IsOutput tables.now task.now h)) }
{
    let mut rows = TableRows::<L>::new(tables, blank);
    match execute(alloc, task, &mut rows, 1) {
        Ok(found) => Ok(found.is_empty()),
        Err(ExecFault::More) => Ok(false),
        Err(ExecFault::NoMemory) => Err(NoMemory),
    }
}

/// Whether no valuation meets the set.
fn is_set_unmet(
    alloc: Global,
    tables: &[Table],
    task: &Task,
    fixed: &List<Compared>,
    set: &[usize],
) -> Result<bool, NoMemory>
    requires task { IsTask tables.now task.now }
    requires small { size_of task.now < 2 ^ 64 }
    ensures { IfOk result (λ unmet. IsTrue unmet ↔ IsUnmet (record { tables = tables.now; task = task.now; fixed = fixed.now }) set.now) }
{
    let part = part_of(alloc, task, fixed, set)?;
    let unmet = is_unmet::<Brand>(alloc, tables, &part, Blank::new(1))?;
    Ok(unmet)
}

impl<'a> Trial for Asking<'a> {
    ghost use Rattle.su_why.specs.inside.Growing.{unmet_grows};

    ghost size = { λ asking. size_of asking.task };

    ghost Fails = { IsUnmet };

    fn size(&self) -> usize {
        size_of_task(self.task)
    }

    fn fails(&self, alloc: Global, set: &[usize]) -> Result<bool, NoMemory> {
        is_set_unmet(alloc, self.tables, self.task, self.fixed, set)
    }

    ghost grows = { λ asking s t rs rt more unmet. unmet_grows asking s t more unmet };
}
