//! The index of one column.
ghost use Rattle.std.specs.Prelude.{◌≡◌, ◌<◌, ◌≤◌, ◌+◌, ◌^◌, length, [], IfOk, OnOk};
ghost use Rattle.su_index.specs.inside.Chunks.{HasRoom};
ghost use Rattle.su_index.specs.inside.Indexed.{IsIndexBelow, entries_in};
ghost use Rattle.su_index.specs.inside.Upkeep.{IsIndexOf, IsIndexWithout};
ghost use Rattle.su_index.specs.inside.Entries.{IsRunWithLeads};
ghost use Rattle.su_index.specs.Matches.{matches, AreMatches, IsMatch};
ghost use Rattle.su_index.specs.inside.Order.{value_at};
ghost use Rattle.su_index.specs.inside.Spans.{HaveColumn};

use crate::chunk::Chunk;
use crate::chunks::{between, chunks_of, flat, is_sparse, make_room};
use crate::edits::{put_in, rename, take_out};
use crate::finding::span;
use crate::found::Found;
use crate::order::value;
use crate::sorting::{merged, sorted};
use std::alloc::Global;
use su_base::{NoMemory, Row, Value};

/// An entry for each row in order of (lead, value, position).
#[derive(Drop)]
pub(crate) struct Index {
    pub(crate) chunks: Vec<Chunk>,
    /// The chunk to which the entry went that was added last, or any other.
    pub(crate) latest: usize,
}

impl Index {
    /// The index of a column without rows.
    pub(crate) fn new(alloc: Global) -> Index
        ensures { result.chunks.items ≡ [] }
    {
        Index {
            chunks: Vec::new(alloc),
            latest: 0,
        }
    }

    /// The index of the first `before` rows, with the later ones taken in.
    pub(crate) fn grown(
        &self,
        alloc: Global,
        rows: &[Row],
        column: usize,
        before: usize,
    ) -> Result<Index, NoMemory>
        requires columns { HaveColumn column rows.now }
        requires small { length rows.now < 2 ^ 32 }
        requires run { IsRunWithLeads (value_at rows.now column) 0 (entries_in self.now) }
        requires before { before ≡ length (entries_in self.now) }
        requires within { before ≤ length rows.now }
        ensures { IfOk result (IsIndexOf rows.now column) }
    {
        let late = sorted(alloc, rows, column, before)?;
        let early = flat(alloc, self.chunks.as_slice(), before)?;
        let run = merged(alloc, rows, column, early.as_slice(), late.as_slice())?;
        let chunks = chunks_of(alloc, run.as_slice())?;
        Ok(Index { chunks, latest: 0 })
    }

    /// Makes room for one more entry. Chunks that are mostly empty are put together first, and a full one
    /// to which the last entry went is split.
    pub(crate) fn make_room(
        &mut self,
        alloc: Global,
        rows: &[Row],
        column: usize,
    ) -> Result<(), NoMemory>
        requires index { IsIndexOf rows.now column self.old }
        ensures index { IsIndexOf rows.now column self.new }
        ensures room { OnOk result (HasRoom self.new.chunks.items) }
    {
        if is_sparse(self.chunks.as_slice(), rows.len()) {
            let run = flat(alloc, self.chunks.as_slice(), rows.len())?;
            self.chunks = chunks_of(alloc, run.as_slice())?;
        }
        make_room(alloc, &mut self.chunks, self.latest)
    }

    /// The positions of the rows that have the value, ascending.
    pub(crate) fn found<'a>(&'a self, rows: &[Row], column: usize, wanted: &Value) -> Found<'a>
        requires columns { HaveColumn column rows.now }
        requires index { IsIndexOf rows.now column self.now }
        ensures { AreMatches column wanted.now rows.now result }
    {
        let chunks = self.chunks.as_slice();
        if chunks.is_empty() {
            return Found::new(chunks, 0, 0);
        }
        let (first, past) = span(rows, column, chunks, wanted);
        let count = between(chunks, first, past);
        Found::new(&chunks[first.chunk..], first.at, count)
    }

    /// How many rows have the value.
    pub(crate) fn matching(&self, rows: &[Row], column: usize, wanted: &Value) -> usize
        requires columns { HaveColumn column rows.now }
        requires index { IsIndexOf rows.now column self.now }
        ensures { result ≡ matches column wanted.now rows.now }
    {
        self.found(rows, column, wanted).len()
    }

    /// The position of the k-th row that has the value.
    pub(crate) fn matched(&self, rows: &[Row], column: usize, wanted: &Value, k: usize) -> usize
        requires columns { HaveColumn column rows.now }
        requires index { IsIndexOf rows.now column self.now }
        requires within { k < matches column wanted.now rows.now }
        ensures { IsMatch column wanted.now rows.now k result }
    {
        self.found(rows, column, wanted).position(k)
    }

    /// Takes in the last row.
    pub(crate) fn add(&mut self, rows: &[Row], column: usize, position: u32)
        requires columns { HaveColumn column rows.now }
        requires small { length rows.now < 2 ^ 32 }
        requires last { position + 1 ≡ length rows.now }
        requires index { IsIndexBelow rows.now column position self.old }
        requires room { HasRoom self.old.chunks.items }
        ensures { IsIndexOf rows.now column self.new }
    {
        let wanted = value(rows, column, position);
        self.latest = put_in(rows, column, &mut self.chunks, wanted, position);
    }

    /// Leaves the row at the position out, and lets the last row be at the position.
    pub(crate) fn take_out(&mut self, rows: &[Row], column: usize, position: u32)
        requires columns { HaveColumn column rows.now }
        requires index { IsIndexOf rows.now column self.old }
        requires within { position < length rows.now }
        ensures { IsIndexWithout rows.now column position self.new }
    {
        take_out(rows, column, &mut self.chunks, position);
        let last = (rows.len() - 1) as u32;
        if position < last {
            rename(rows, column, &mut self.chunks, last, position);
        }
    }
}
