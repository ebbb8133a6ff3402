//! Inserts and deletes of single rows.
ghost use Rattle.std.specs.Prelude.{◌≡◌, ◌⊎◌, ◌<◌, length, take, IfOk, IfErr, OnErr};
ghost use Rattle.su_state.specs.DatabaseValue.{rows_of};
ghost use Rattle.su_state.specs.RowChanges.{InsertAnswers, Inserts, Deletes};

use crate::breaches::first_breach;
use crate::checks::check_row;
use crate::databases::Database;
use crate::faults::StateFault;
use su_base::{Row, copy_row};

/// A relation has at most so many rows.
pub const MOST: usize = 1_000_000;

impl Database {
    /// What an insert of the row answers.
    fn insert_answer(&self, relation: u8, row: &Row) -> Result<bool, StateFault>
        requires { relation < length self.now.schema.relations }
        ensures answer { IfOk result (λ is_new. InsertAnswers self.now relation row.now (Ok is_new)) }
        ensures refused { IfErr result (λ fault. (fault ≡ StateFault.NoMemory) ⊎ InsertAnswers self.now relation row.now (Err fault)) }
    {
        self.schema.keeps_its_rules();
        check_row(relation, self.schema.columns(relation), row)?;
        let table = &self.tables[relation as usize];
        if table.has(row) {
            return Ok(false);
        }
        if let Some(breach) = first_breach(&self.schema, table, relation, row) {
            let row = copy_row(self.alloc, table.row(breach.position))?;
            return Err(StateFault::Breaks {
                relation,
                fd: breach.fd,
                object: breach.object,
                row,
            });
        }
        if table.len() >= MOST {
            return Err(StateFault::Limit { relation });
        }
        Ok(true)
    }

    /// Puts the row in, and answers whether it is new. For each enforced dependency a row with its whole
    /// left side is looked up in the notes. Where such a row has gone or moved since it was noted, the rows
    /// that have the new one's value in one left column are looked at up to the first; all of them only
    /// where it breaks the dependency. The first insert after a load notes all rows.
    pub fn insert(&mut self, relation: u8, row: Row) -> Result<bool, StateFault>
        requires { relation < length self.old.schema.relations }
        ensures done { IfOk result (λ is_new. Inserts self.old relation row (Ok is_new) self.new) }
        ensures refused { IfErr result (λ fault. (fault ≡ StateFault.NoMemory) ⊎ Inserts self.old relation row (Err fault) self.new) }
        ensures unchanged { OnErr result (self.new ≡ self.old) }
        ensures front { take (length (rows_of self.old relation)) (rows_of self.new relation) ≡ rows_of self.old relation }
    {
        if !self.insert_answer(relation, &row)? {
            return Ok(false);
        }
        match self.tables[relation as usize].insert(row) {
            Ok(_) => Ok(true),
            Err(_) => Err(StateFault::NoMemory),
        }
    }

    /// Takes the row out, and answers whether it was there. It takes no memory.
    pub fn delete(&mut self, relation: u8, row: &Row) -> Result<bool, StateFault>
        requires { relation < length self.old.schema.relations }
        ensures { Deletes self.old relation row.now result self.new }
    {
        check_row(relation, self.schema.columns(relation), row)?;
        let was_there = self.tables[relation as usize].remove(row);
        // For the proof: the rows that are left differ.
        let _rows = self.tables[relation as usize].as_slice();
        Ok(was_there)
    }
}
