//! Deletes by a condition.
ghost use Rattle.std.specs.Prelude.{◌≡◌, ◌<◌, List, All, not, map, length, IfOk, OnErr};
ghost use Rattle.su_base.specs.declared.values.Value.{Value};
ghost use Rattle.su_where.specs.Truth.{truth_of};
ghost use Rattle.su_where.specs.Places.{Fits};
ghost use Rattle.su_state.specs.DatabaseValue.{columns_of};
ghost use Rattle.su_state.specs.Changes.{DeletesWhere};

use crate::databases::Database;
use std::alloc::Global;
use su_base::{NoMemory, Row};
use su_where::{Cond, truth};

/// For each row whether it stays: whether the condition isn't true of it.
fn marks(alloc: Global, rows: &[Row], condition: &Cond) -> Result<Vec<bool>, NoMemory>
    requires { All (λ row. Fits (length row) condition.now) rows.now }
    ensures { IfOk result (λ marks. marks.items ≡ map (λ row. not (truth_of condition.now row)) rows.now) }
{
    let mut marks = Vec::with_capacity(alloc, rows.len())?;
    for row in rows {
        if marks.push(!truth(condition, row)).is_err() {
            return Err(NoMemory);
        }
    }
    Ok(marks)
}

impl Database {
    /// Takes out the rows of which the condition is true, and answers how many there were. One pass
    /// over the rows and their indexes.
    pub fn delete_where(&mut self, relation: u8, condition: &Cond) -> Result<u64, NoMemory>
        requires relation { relation < length self.old.schema.relations }
        requires places { Fits (length (columns_of self.old relation)) condition.now }
        ensures done { IfOk result (λ count. DeletesWhere self.old relation condition.now count self.new) }
        ensures unchanged { OnErr result (self.new ≡ self.old) }
    {
        let place = relation as usize;
        let kept = marks(self.alloc, self.tables[place].as_slice(), condition)?;
        let before = self.tables[place].len();
        self.tables[place].keep(kept.as_slice())?;
        Ok((before - self.tables[place].len()) as u64)
    }
}
