//! Loads of many rows.
ghost use Rattle.std.specs.Prelude.{◌≡◌, ◌⊎◌, ◌<◌, length, take, IfOk, IfErr, OnErr};
ghost use Rattle.su_state.specs.DatabaseValue.{rows_of};
ghost use Rattle.su_state.specs.Loads.{Loads};
ghost use Rattle.su_state.specs.inside.LoadEnds.{IsEnd, InsertsSome};
ghost use Rattle.su_state.specs.inside.AdmissibleRows.{MayTake};

use crate::databases::Database;
use crate::faults::{LoadEnd, LoadFault, StateFault};
use su_base::{List, Row};

/// How a load ends where the insert of the row with this number is refused.
fn end_of(number: u64, fault: StateFault) -> LoadEnd
    ensures { IsEnd number fault result }
{
    match fault {
        StateFault::NoMemory => LoadEnd::NoMemory,
        fault => LoadEnd::Refused(LoadFault { number, fault }),
    }
}

impl Database {
    /// Inserts the rows one after another until one is refused, and answers how many were new.
    fn insert_each(&mut self, relation: u8, rows: List<Row>) -> Result<u64, LoadEnd>
        requires { relation < length self.old.schema.relations }
        ensures some { InsertsSome self.old relation rows result self.new }
        ensures front { take (length (rows_of self.old relation)) (rows_of self.new relation) ≡ rows_of self.old relation }
    {
        let mut number = 0;
        let mut new = 0;
        for row in rows.into_vec() {
            number += 1;
            match self.insert(relation, row) {
                Ok(true) => new += 1,
                Ok(false) => {}
                Err(fault) => return Err(end_of(number, fault)),
            }
        }
        Ok(new)
    }

    /// Puts in rows that may all be put in, and answers how many were new.
    fn put_all(&mut self, relation: u8, rows: List<Row>) -> Result<u64, LoadEnd>
        requires relation { relation < length self.old.schema.relations }
        requires may { MayTake self.old relation rows }
        ensures done { IfOk result (λ count. Loads self.old relation rows (Ok count) self.new) }
        ensures refused { IfErr result (λ end. (end ≡ LoadEnd.NoMemory) ⊎ Loads self.old relation rows (Err end) self.new) }
        ensures unchanged { OnErr result (self.new ≡ self.old) }
    {
        let new = self.tables[relation as usize].insert_all(rows)?;
        Ok(new as u64)
    }

    /// Inserts the rows one after another. Where one is refused, those before it are taken out again, which
    /// takes no memory: they stand last.
    pub(crate) fn load_each(&mut self, relation: u8, rows: List<Row>) -> Result<u64, LoadEnd>
        requires { relation < length self.old.schema.relations }
        ensures done { IfOk result (λ count. Loads self.old relation rows (Ok count) self.new) }
        ensures refused { IfErr result (λ end. (end ≡ LoadEnd.NoMemory) ⊎ Loads self.old relation rows (Err end) self.new) }
        ensures unchanged { OnErr result (self.new ≡ self.old) }
    {
        let place = relation as usize;
        let before = self.tables[place].len();
        match self.insert_each(relation, rows) {
            Ok(new) => Ok(new),
            Err(end) => {
                self.tables[place].truncate(before);
                Err(end)
            }
        }
    }

    /// Inserts the rows one after another, and answers how many were new. The first row that is
    /// refused refuses them all, and none is put in.
    ///
    /// Where no row is refused they go in at once: for each enforced dependency one pass over the
    /// rows there and the rows given, in memory for their values on its left side, and one sort per
    /// column; few rows are held against those there by the indexes. Else they go in one by one, until
    /// the row is met that is refused, or that would be one too many if all were new, and are taken out
    /// again: the time goes with the rows given.
    pub fn load(&mut self, relation: u8, rows: List<Row>) -> Result<u64, LoadEnd>
        requires { relation < length self.old.schema.relations }
        ensures done { IfOk result (λ count. Loads self.old relation rows (Ok count) self.new) }
        ensures refused { IfErr result (λ end. (end ≡ LoadEnd.NoMemory) ⊎ Loads self.old relation rows (Err end) self.new) }
        ensures unchanged { OnErr result (self.new ≡ self.old) }
    {
        if self.may_take(relation, rows.as_slice())? {
            self.put_all(relation, rows)
        } else {
            self.load_each(relation, rows)
        }
    }
}
