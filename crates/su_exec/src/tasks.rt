//! What is to be joined, and why it is not answered.
ghost use Rattle.std.specs.Prelude.{◌≡◌, IfOk};
ghost use Rattle.su_exec.specs.declared.tasks.ExecFault.TheVariants.{NoMemory as OutOfMemory};

use std::alloc::{AllocError, Global};
use su_base::{List, NoMemory};
use su_tableau::Sym;
use su_where::Op;
use thiserror::Error;

/// Where rows are stored: a table's number, and the column of each cell.
#[derive(Debug, Drop)]
pub struct Source {
    pub relation: u8,
    pub columns: List<u8>,
}

impl Source {
    /// An equal source of its own.
    fn copy(&self, alloc: Global) -> Result<Source, NoMemory>
        ensures { IfOk result (λ source. source ≡ self.now) }
    {
        Ok(Source {
            relation: self.relation,
            columns: List::from_vec(Vec::from_slice(alloc, self.columns.as_slice())?),
        })
    }
}

/// Equal sources of their own.
pub fn copy_sources(alloc: Global, sources: &[Source]) -> Result<List<Source>, NoMemory>
    ensures { IfOk result (λ copied. copied ≡ sources.now) }
{
    let mut copied = List::new(alloc);
    for source in sources {
        copied.push(source.copy(alloc)?)?;
    }
    Ok(copied)
}

/// Symbols that stand for a stored row, and the sources that it may come from.
#[derive(Debug, Drop)]
pub struct TaskRow {
    pub cells: List<Sym>,
    pub sources: List<Source>,
}

/// A comparison of two symbols.
#[derive(Debug, Drop)]
pub struct Compared {
    pub left: Sym,
    pub op: Op,
    pub right: Sym,
}

/// Rows to be joined, the symbols to be answered, and the comparisons that are to hold.
#[derive(Debug, Drop)]
pub struct Task {
    pub rows: List<TaskRow>,
    pub outputs: List<Sym>,
    pub comparisons: List<Compared>,
}

/// Why a task is not answered.
#[derive(Debug, Drop, Error)]
pub enum ExecFault {
    /// There are more answers than the cap.
    #[error("there are more answers than asked for")]
    More,
    #[error("memory could not be had")]
    NoMemory,
}

impl From<NoMemory> for ExecFault {
    ghost from_gives = { λ _ fault. fault ≡ OutOfMemory };

    fn from(_: NoMemory) -> ExecFault {
        ExecFault::NoMemory
    }
}

impl From<AllocError> for ExecFault {
    ghost from_gives = { λ _ fault. fault ≡ OutOfMemory };

    fn from(_: AllocError) -> ExecFault {
        ExecFault::NoMemory
    }
}
