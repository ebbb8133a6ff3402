//! The indexes of all columns.
ghost use Rattle.std.specs.Prelude.{◌≡◌, ◌<◌, ◌≤◌, ◌+◌, ◌^◌, ℕ, length, slice_index_or, IfOk, OnOk};
ghost use Rattle.su_rel.specs.Stored.{HaveWidth};
ghost use Rattle.su_index.specs.inside.Indexed.{AreIndexesBelow, entries_in};
ghost use Rattle.su_index.specs.inside.Upkeep.{HaveRoom, AreIndexesWithout, AreRuns};
ghost use Rattle.su_index.specs.declared.index.Index.{Index as Indexed};

use crate::index::Index;
use std::alloc::Global;
use su_base::{NoMemory, Row};

/// Makes room for one more row in each index.
pub(crate) fn make_room(
    alloc: Global,
    rows: &[Row],
    indexes: &mut Vec<Index>,
) -> Result<(), NoMemory>
    requires columns { HaveWidth (length indexes.old.items) rows.now }
    requires indexes { AreIndexesBelow rows.now (length rows.now) indexes.old.items }
    ensures len { length indexes.new.items ≡ length indexes.old.items }
    ensures indexes { AreIndexesBelow rows.now (length rows.now) indexes.new.items }
    ensures room { OnOk result (HaveRoom indexes.new.items) }
{
    for column in 0..indexes.len() {
        indexes[column].make_room(alloc, rows, column)?;
    }
    Ok(())
}

/// Takes the last row, at the position, into each index.
pub(crate) fn add(rows: &[Row], position: u32, indexes: &mut Vec<Index>)
    requires columns { HaveWidth (length indexes.old.items) rows.now }
    requires small { length rows.now < 2 ^ 32 }
    requires last { position + 1 ≡ length rows.now }
    requires indexes { AreIndexesBelow rows.now position indexes.old.items }
    requires room { HaveRoom indexes.old.items }
    ensures len { length indexes.new.items ≡ length indexes.old.items }
    ensures indexes { AreIndexesBelow rows.now (length rows.now) indexes.new.items }
{
    for column in 0..indexes.len() {
        indexes[column].add(rows, column, position);
    }
}

/// Leaves the row at the position out of each index, and lets the last row be there.
pub(crate) fn take_out(rows: &[Row], position: u32, indexes: &mut Vec<Index>)
    requires columns { HaveWidth (length indexes.old.items) rows.now }
    requires within { position < length rows.now }
    requires indexes { AreIndexesBelow rows.now (length rows.now) indexes.old.items }
    ensures len { length indexes.new.items ≡ length indexes.old.items }
    ensures indexes { AreIndexesWithout rows.now position indexes.new.items }
{
    for column in 0..indexes.len() {
        indexes[column].take_out(rows, column, position);
    }
}

/// The indexes of the first `before` rows, with the later ones taken in.
pub(crate) fn grown(
    alloc: Global,
    rows: &[Row],
    indexes: &[Index],
    before: usize,
) -> Result<Vec<Index>, NoMemory>
    requires columns { HaveWidth (length indexes.now) rows.now }
    requires small { length rows.now < 2 ^ 32 }
    requires runs { AreRuns rows.now indexes.now }
    requires before { (column : ℕ) (d : Indexed) → column < length indexes.now → before ≡ length (entries_in (slice_index_or indexes.now column d)) }
    requires within { before ≤ length rows.now }
    ensures len { IfOk result (λ grown. length grown.items ≡ length indexes.now) }
    ensures indexes { IfOk result (λ grown. AreIndexesBelow rows.now (length rows.now) grown.items) }
{
    let mut grown = Vec::with_capacity(alloc, indexes.len())?;
    for column in 0..indexes.len() {
        let index = indexes[column].grown(alloc, rows, column, before)?;
        if grown.push(index).is_err() {
            return Err(NoMemory);
        }
    }
    Ok(grown)
}
