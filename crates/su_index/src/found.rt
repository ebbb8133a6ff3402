//! The rows that have a value in a column.
ghost use Rattle.std.specs.Prelude.{◌≡◌, ◌≤◌, ◌<◌, ◌+◌, ◌↔◌, ◌^◌, ◌++◌, IsTrue, IfOk, Some, length, slice_get};
ghost use Rattle.su_index.specs.Entries.{entries_of, stretch};

use crate::chunk::Chunk;
use crate::chunks::{add_stretch, entry_at};
use std::alloc::AllocError;
use std::marker::Model;

/// The entries of a value in the index of its column, found by one search. Contracts see the positions
/// of the rows that have the value, ascending.
#[derive(Drop)]
pub struct Found<'a> {
    /// The chunks from the one on where the entries begin.
    chunks: &'a [Chunk],
    /// How many entries of these come before.
    at: usize,
    count: usize,
}

impl<'a> Model for Found<'a> {
    ghost use Rattle.std.specs.Prelude.{◌≤◌, ◌<◌, ◌+◌, ◌^◌, ℕ, List, length};
    ghost use Rattle.su_index.specs.Entries.{entries_of, stretch};

    ghost Value = { List ℕ };

    ghost view = { λ f. stretch (entries_of f.chunks.now) f.at f.count };

    ghost invariant = { λ f. (f.at + f.count ≤ length (entries_of f.chunks.now)) × (length (entries_of f.chunks.now) < 2 ^ 32) };
}

impl<'a> Found<'a> {
    /// The entries of the chunks past the first `at` ones, `count` of them.
    pub(crate) fn new(chunks: &'a [Chunk], at: usize, count: usize) -> Found<'a>
        requires within { at + count ≤ length (entries_of chunks.now) }
        requires small { length (entries_of chunks.now) < 2 ^ 32 }
        ensures { result ≡ stretch (entries_of chunks.now) at count }
    {
        Found { chunks, at, count }
    }

    /// How many rows have the value.
    pub fn len(&self) -> usize
        ensures { result ≡ length self.now }
    {
        self.count
    }

    /// Whether no row has the value.
    pub fn is_empty(&self) -> bool
        ensures { IsTrue result ↔ (length self.now ≡ 0) }
    {
        self.count == 0
    }

    /// The position of the k-th row that has the value.
    pub fn position(&self, k: usize) -> usize
        requires { k < length self.now }
        ensures { slice_get self.now k ≡ Some result }
    {
        entry_at(self.chunks, self.at + k).position as usize
    }

    /// Puts the positions behind those that are there, in one pass over the entries.
    pub fn list(&self, positions: &mut Vec<usize>) -> Result<(), AllocError>
        ensures { IfOk result (λ _. positions.new.items ≡ positions.old.items ++ self.now) }
    {
        add_stretch(self.chunks, self.at, self.count, positions)
    }
}
