//! Rows of one width, all different.
ghost use Rattle.std.specs.Prelude.{◌≡◌, IfOk};
ghost use Rattle.su_rel.specs.Stored.{Stored, IsRelation};

use std::alloc::Global;
use std::marker::Model;
use su_base::{List, NoMemory, Row, copy_row};
use su_index::Table;

/// Rows of one width, all different.
#[derive(Drop)]
pub struct PlainTable {
    width: u8,
    rows: List<Row>,
}

impl Model for PlainTable {
    ghost use Rattle.su_rel.specs.Stored.{Stored, IsRelation};

    ghost Value = { Stored };

    ghost view = { λ t. record { width = t.width; rows = t.rows } };

    ghost invariant = { λ t. IsRelation (record { width = t.width; rows = t.rows }) };
}

impl PlainTable {
    /// The rows by position.
    pub(crate) fn rows(&self) -> &List<Row>
        ensures rows { result.now ≡ self.now.rows }
        ensures relation { IsRelation self.now }
    {
        &self.rows
    }
}

/// The rows of the table, copied.
fn plain_table(alloc: Global, table: &Table) -> Result<PlainTable, NoMemory>
    ensures { IfOk result (λ plain. plain ≡ table.now) }
{
    let mut rows = List::new(alloc);
    for row in table.as_slice() {
        rows.push(copy_row(alloc, row)?)?;
    }
    Ok(PlainTable {
        width: table.width(),
        rows,
    })
}

/// The rows of the tables, copied.
pub fn plain_tables(alloc: Global, tables: &[Table]) -> Result<List<PlainTable>, NoMemory>
    ensures { IfOk result (λ plain. plain ≡ tables.now) }
{
    let mut plain = List::new(alloc);
    for table in tables {
        plain.push(plain_table(alloc, table)?)?;
    }
    Ok(plain)
}
