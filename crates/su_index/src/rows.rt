//! Rows as an executor reads them: counted.
ghost use Rattle.std.specs.Prelude.{◌≡◌, ◌<◌, ◌≤◌, ◌+◌, ◌↔◌, ℕ, List, length, slice_get, map, IsTrue, IfOk};
ghost use Rattle.std.specs.Bool.{OnTrue, OnFalse};
ghost use Rattle.std.specs.Borrow.{sem};
ghost use Rattle.std.specs.Io.BufRead.{Rests};
ghost use Rattle.su_rel.specs.Stored.{Stored, IsRelation};
ghost use Rattle.su_index.specs.Matches.{matches, AreAdded};
ghost use Rattle.su_index.specs.Tables.{rows_at, table_at};

use crate::tables::Table;
use std::alloc::AllocError;
use std::sync::ledger::{Blank, Ledger};
use su_base::{Row, Steps, Value};

/// Numbered tables whose rows are looked up and fetched. Contracts see the tables, and how many rows
/// were fetched.
pub trait Rows {
    ghost tables: { Self → List Stored };

    ghost fetches: { Self → ℕ };

    /// How many rows the table has.
    fn len(&self, table: u8) -> usize
        requires { table < length (tables self.now) }
        ensures rows { result ≡ length (rows_at (tables self.now) table) }
        ensures relation { IsRelation (table_at (tables self.now) table) };

    /// How many of its rows have the value in the column.
    fn matching(&self, table: u8, column: u8, value: &Value) -> usize
        requires table { table < length (tables self.now) }
        requires column { column < (table_at (tables self.now) table).width }
        ensures { result ≡ matches column value.now (rows_at (tables self.now) table) };

    /// Puts the positions of these rows, ascending, behind those that are there, and answers true; where
    /// there are more than `most` of them it answers false. The value is looked up once.
    fn add_positions(
        &self,
        table: u8,
        column: u8,
        value: &Value,
        most: usize,
        positions: &mut Vec<usize>,
    ) -> Result<bool, AllocError>
        requires table { table < length (tables self.now) }
        requires column { column < (table_at (tables self.now) table).width }
        ensures few { IfOk result (λ few. IsTrue few ↔ (matches column value.now (rows_at (tables self.now) table) ≤ most)) }
        ensures added { IfOk result (λ few. OnTrue few (AreAdded column value.now (rows_at (tables self.now) table) positions.old.items positions.new.items)) }
        ensures unchanged { IfOk result (λ few. OnFalse few (positions.new.items ≡ positions.old.items)) };

    /// The row at the position; it counts as fetched.
    fn fetch(&mut self, table: u8, i: usize) -> &Row
        requires table { table < length (tables self.old) }
        requires within { i < length (rows_at (tables self.old) table) }
        ensures row { slice_get (rows_at (tables self.old) table) i ≡ Some result.now }
        ensures* counted { sem 𝓛 (Rests Self.row self.entry (λ after. (tables after ≡ tables self.old) × (fetches after ≡ fetches self.old + 1))) };
}

/// Tables with a counter of the rows that were fetched from them.
#[derive(Drop)]
pub struct TableRows<'a, L: Ledger> {
    tables: &'a [Table],
    steps: Steps<L>,
}

impl<'a, L: Ledger> TableRows<'a, L> {
    /// The tables, nothing fetched so far. The counter is that of the blank's ledger.
    pub fn new(tables: &'a [Table], blank: Blank) -> TableRows<'a, L>
        requires name { blank.name ≡ L.name }
        requires parts { blank.parts ≡ L.parts }
        requires some { 0 < blank.parts }
        ensures tables { result.tables.now ≡ tables.now }
        ensures fetches { result.steps ≡ 0 }
    {
        TableRows {
            tables,
            steps: Steps::new(blank),
        }
    }
}

impl<'a, L: Ledger> Rows for TableRows<'a, L> {
    ghost tables = { λ rows. rows.tables.now };

    ghost fetches = { λ rows. rows.steps };

    fn len(&self, table: u8) -> usize {
        self.tables[table as usize].as_slice().len()
    }

    fn matching(&self, table: u8, column: u8, value: &Value) -> usize {
        self.tables[table as usize].matching(column, value)
    }

    fn add_positions(
        &self,
        table: u8,
        column: u8,
        value: &Value,
        most: usize,
        positions: &mut Vec<usize>,
    ) -> Result<bool, AllocError> {
        let found = self.tables[table as usize].found(column, value);
        if found.len() > most {
            return Ok(false);
        }
        found.list(positions)?;
        Ok(true)
    }

    fn fetch(&mut self, table: u8, i: usize) -> &Row {
        self.tables[table as usize].fetch(i, &mut self.steps)
    }
}
