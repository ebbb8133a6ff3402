//! The candidates of each row of a task by itself.
ghost use Rattle.std.specs.Prelude.{◌≡◌, ◌≤◌, ◌+◌, All, IfOk};
ghost use Rattle.std.specs.List.{AllZip};
ghost use Rattle.su_exec.specs.Shares.{row_share, task_share};
ghost use Rattle.su_exec.specs.Tasks.{HasSources, IsTask};
ghost use Rattle.su_answer.specs.inside.Alone.{alone, AreCountable, IsEdgeOf};

use std::alloc::Global;
use su_base::{List, NoMemory};
use su_exec::{ExecFault, Task, TaskRow, copy_sources, execute};
use su_index::Rows;
use su_reduce::Edge;
use su_tableau::copy_symbols;

/// The row's task by itself.
fn task_alone(alloc: Global, row: &TaskRow) -> Result<Task, NoMemory>
    ensures { IfOk result (λ task. task ≡ alone row.now) }
{
    let mut rows = List::new(alloc);
    rows.push(TaskRow {
        cells: copy_symbols(alloc, row.cells.as_slice())?,
        sources: copy_sources(alloc, row.sources.as_slice())?,
    })?;
    Ok(Task {
        rows,
        outputs: copy_symbols(alloc, row.cells.as_slice())?,
        comparisons: List::new(alloc),
    })
}

/// The row's cells with its candidates: the outputs of its task by itself.
fn edge_of<R: Rows>(alloc: Global, row: &TaskRow, rows: &mut R) -> Result<Edge, NoMemory>
    requires sources { HasSources (R.tables rows.old) row.now }
    requires countable { AreCountable (R.tables rows.old) row.now }
    ensures edge { IfOk result (IsEdgeOf (R.tables rows.old) row.now) }
    ensures tables { R.tables rows.new ≡ R.tables rows.old }
    ensures fetches { R.fetches rows.new ≤ R.fetches rows.old + row_share (R.tables rows.old) row.now }
{
    let own = row.cells.as_slice();
    let cells = copy_symbols(alloc, own)?;
    let task = task_alone(alloc, row)?;
    match execute(alloc, &task, rows, u64::MAX) {
        Ok(candidates) => Ok(Edge { cells, candidates }),
        Err(ExecFault::More) => unreachable!(),
        Err(ExecFault::NoMemory) => Err(NoMemory),
    }
}

/// For each row of the task its cells and its candidates, as `execute` would fetch those of a task of
/// this row alone: ascending, each once. Beside the fetches the time is that of sorting them.
pub fn candidates<R: Rows>(alloc: Global, task: &Task, rows: &mut R) -> Result<List<Edge>, NoMemory>
    requires task { IsTask (R.tables rows.old) task.now }
    requires countable { All (AreCountable (R.tables rows.old)) task.now.rows }
    ensures edges { IfOk result (AllZip (IsEdgeOf (R.tables rows.old)) task.now.rows) }
    ensures tables { R.tables rows.new ≡ R.tables rows.old }
    ensures fetches { R.fetches rows.new ≤ R.fetches rows.old + task_share (R.tables rows.old) task.now }
{
    let list = task.rows.as_slice();
    let mut edges = List::new(alloc);
    for row in list {
        let edge = edge_of(alloc, row, rows)?;
        edges.push(edge)?;
    }
    Ok(edges)
}
