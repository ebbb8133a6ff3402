//! What is to blame for it that a task has no valuation.
ghost use Rattle.std.specs.Prelude.{◌<◌, ◌^◌, IfOk};
ghost use Rattle.su_tableau.specs.Kinds.{IsTyped};
ghost use Rattle.su_schema.specs.Entries.{attribute_kinds};
ghost use Rattle.su_exec.specs.Tasks.{IsTask};
ghost use Rattle.su_answer.specs.Joined.{IsTaskOf};
ghost use Rattle.su_why.specs.Met.{size_of};
ghost use Rattle.su_why.specs.Blame.{IsBlameFor};

use crate::trying::Asking;
use std::alloc::Global;
use su_answer::task_for;
use su_base::{List, NoMemory};
use su_blame::{Blame, blame_of};
use su_exec::{Compared, Task};
use su_index::Table;
use su_min::Minimal;
use su_state::Database;

/// The join of the term's kept rows, whose comparisons can be counted.
pub fn kept_task(alloc: Global, db: &Database, minimal: &Minimal) -> Result<Task, NoMemory>
    requires { IsTyped (attribute_kinds db.now.schema) minimal.now.tableau }
    ensures task { IfOk result (IsTaskOf db.now.schema minimal.now.tableau minimal.now.mask) }
    ensures fits { IfOk result (IsTask db.now.tables) }
    ensures small { IfOk result (λ task. size_of task < 2 ^ 64) }
{
    let t = minimal.tableau();
    t.keeps_its_rules();
    // For the proof: the symbols of the head, two for each comparison, can be counted.
    let _count = t.head().len();
    let task = task_for(alloc, db, minimal)?;
    Ok(task)
}

/// What is to blame for it that no valuation meets the whole task.
pub fn blame_for(
    alloc: Global,
    tables: &[Table],
    task: &Task,
    fixed: &List<Compared>,
) -> Result<Option<Blame>, NoMemory>
    requires task { IsTask tables.now task.now }
    requires small { size_of task.now < 2 ^ 64 }
    ensures { IfOk result (IsBlameFor (record { tables = tables.now; task = task.now; fixed = fixed.now })) }
{
    let asking = Asking {
        tables,
        task,
        fixed,
    };
    blame_of(alloc, &asking)
}
