//! Copies of a relation's rows.
ghost use Rattle.std.specs.Prelude.{◌<◌, length, IfOk};
ghost use Rattle.su_state.specs.DatabaseValue.{rows_of};
ghost use Rattle.su_state.specs.Changes.{AreInOrder};

use crate::databases::Database;
use crate::ordering::in_order;
use su_base::{List, NoMemory, Row};

impl Database {
    /// Copies of the relation's rows in ascending order: whole numbers before texts, value by value.
    pub fn rows(&self, relation: u8) -> Result<List<Row>, NoMemory>
        requires { relation < length self.now.schema.relations }
        ensures { IfOk result (AreInOrder (rows_of self.now relation)) }
    {
        in_order(self.alloc, self.tables[relation as usize].as_slice())
    }
}
