//! What is noted while a net is filled.
ghost use Rattle.std.specs.Prelude.{◌≡◌, IfOk, length};
ghost use Rattle.su_map.specs.inside.RoomParts.{AreRoomy};

use std::alloc::{AllocError, Global};
use su_base::NoMemory;

/// What is noted of two tableaux while a net is filled for them.
#[derive(Drop)]
pub struct Notes {
    /// for each variable of the one its rows that have it
    pub rows_of: Vec<u64>,
    /// the same of the other
    pub rows_at: Vec<u64>,
    /// for each column and row of the other the rows that hold the same symbol there
    pub alike: Vec<u64>,
    /// for each column of a row of the one its variable's column in another row
    pub columns: Vec<Option<usize>>,
    /// for each row of the one the targets that rows with one target leave it
    pub domains: Vec<u64>,
}

/// So many sets, all empty.
pub fn zeros(alloc: Global, count: usize) -> Result<Vec<u64>, NoMemory>
    ensures { IfOk result (λ sets. length sets.items ≡ count) }
{
    Ok(vec![in alloc; 0; count].map_err(AllocError::from)?)
}

impl Notes {
    /// Room for so many rows and variables.
    pub fn new(alloc: Global, rows: usize, symbols: usize) -> Result<Notes, NoMemory>
        ensures roomy { IfOk result (AreRoomy rows) }
        ensures symbols { IfOk result (λ notes. length notes.rows_of.items ≡ symbols) }
    {
        Ok(Notes {
            rows_of: zeros(alloc, symbols)?,
            rows_at: zeros(alloc, symbols)?,
            alike: zeros(alloc, 8192)?,
            columns: vec![in alloc; None; 128].map_err(AllocError::from)?,
            domains: zeros(alloc, rows)?,
        })
    }
}
