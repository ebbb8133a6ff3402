//! The rows of an object's view that take part in a join of views.
ghost use Rattle.std.specs.Prelude.{◌≡◌, ◌<◌, IsTrue, Contains, length, IfOk};
ghost use Rattle.std.specs.FinSet as set;
ghost use Rattle.su_rel.specs.ExactRows.{AreExactlyRows};
ghost use Rattle.su_exec.specs.Tasks.{IsTask};
ghost use Rattle.su_exec.specs.Outputs.{AreOutputs};
ghost use Rattle.su_state.specs.Views.{view_of};
ghost use Rattle.su_dangling.specs.Joins.{TakesPart};

use crate::tasks::join_of;
use std::alloc::Global;
use std::marker::Brand;
use std::sync::ledger::{Blank, Ledger};
use su_base::{List, NoMemory, ObjSet, Row};
use su_exec::{ExecFault, Task, execute};
use su_index::{Table, TableRows};
use su_state::Database;

/// All outputs of the task, whose fetches are counted in a ledger.
fn outputs_of<L: Ledger>(
    alloc: Global,
    tables: &[Table],
    task: &Task,
    blank: Blank,
) -> Result<List<Row>, NoMemory>
    requires task { IsTask tables.now task.now }
    requires name { blank.name ≡ L.name }
    requires parts { blank.parts ≡ L.parts }
    requires some { 0 < blank.parts }
    ensures { IfOk result (AreOutputs tables.now task.now) }
{
    let mut rows = TableRows::<L>::new(tables, blank);
    match execute(alloc, task, &mut rows, u64::MAX) {
        Ok(outputs) => Ok(outputs),
        // No memory holds more rows than 64 bits can count.
        Err(ExecFault::More) => Err(NoMemory),
        Err(ExecFault::NoMemory) => Err(NoMemory),
    }
}

/// The rows of the object's view that take part in the join of the views of these objects, of which it
/// is one: ascending, each once.
pub fn taking_part(
    alloc: Global,
    db: &Database,
    objects: ObjSet,
    object: u8,
) -> Result<List<Row>, NoMemory>
    requires in_range { object < length db.now.schema.objects }
    requires member { IsTrue (set.contains objects object) }
    ensures { IfOk result (AreExactlyRows (TakesPart db.now objects object)) }
{
    db.keeps_its_rules();
    let task = join_of(alloc, db.schema(), objects, object)?;
    let rows = outputs_of::<Brand>(alloc, db.tables(), &task, Blank::new(1))?;
    Ok(rows)
}

/// The rows of the object's view: ascending, each once.
pub fn rows_of_view(alloc: Global, db: &Database, object: u8) -> Result<List<Row>, NoMemory>
    requires { object < length db.now.schema.objects }
    ensures { IfOk result (AreExactlyRows (Contains (view_of db.now object))) }
{
    db.keeps_its_rules();
    let rows = taking_part(alloc, db, ObjSet::empty().insert(object), object)?;
    Ok(rows)
}
