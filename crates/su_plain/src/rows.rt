//! The trait `Rows` of su_index over plain tables.
ghost use Rattle.std.specs.Prelude.{◌≡◌, ◌<◌, ◌≤◌, length, slice_index_or};

use crate::scanning::{add_all, count_with};
use crate::tables::PlainTable;
use std::alloc::AllocError;
use std::sync::ledger::{Blank, Ledger};
use su_base::{Row, Steps, Value};
use su_index::Rows;

/// Plain tables with a counter of the rows that were fetched from them.
#[derive(Drop)]
pub struct PlainRows<'a, L: Ledger> {
    tables: &'a [PlainTable],
    steps: Steps<L>,
    fetched: u64,
}

impl<'a, L: Ledger> PlainRows<'a, L> {
    /// The tables, nothing fetched so far.
    pub fn new(tables: &'a [PlainTable], blank: Blank) -> PlainRows<'a, L>
        requires name { blank.name ≡ L.name }
        requires parts { blank.parts ≡ L.parts }
        requires some { 0 < blank.parts }
        ensures { result.tables.now ≡ tables.now }
    {
        PlainRows {
            tables,
            steps: Steps::new(blank),
            fetched: 0,
        }
    }

    /// How many rows were fetched, as a number to be read; at its type's end it stays there.
    pub fn fetched(&self) -> u64 {
        self.fetched
    }
}

impl<'a, L: Ledger> Rows for PlainRows<'a, L> {
    ghost tables = { λ rows. rows.tables.now };

    ghost fetches = { λ rows. rows.steps };

    fn len(&self, table: u8) -> usize {
        self.tables[table as usize].rows().len()
    }

    fn matching(&self, table: u8, column: u8, value: &Value) -> usize {
        count_with(self.tables[table as usize].rows().as_slice(), column, value)
    }

    fn add_positions(
        &self,
        table: u8,
        column: u8,
        value: &Value,
        most: usize,
        positions: &mut Vec<usize>,
    ) -> Result<bool, AllocError> {
        let rows = self.tables[table as usize].rows().as_slice();
        if count_with(rows, column, value) > most {
            return Ok(false);
        }
        add_all(rows, column, value, positions)?;
        Ok(true)
    }

    fn fetch(&mut self, table: u8, i: usize) -> &Row {
        self.steps.tick();
        self.fetched = self.fetched.saturating_add(1);
        self.tables[table as usize].rows().get(i)
    }
}
