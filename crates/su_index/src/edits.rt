//! One entry into an index, or out of it.
ghost use Rattle.std.specs.Prelude.{◌≡◌, ◌<◌, ◌+◌, length, Contains};
ghost use Rattle.su_index.specs.Entries.{entries_of, positions};
ghost use Rattle.su_index.specs.inside.Chunks.{HaveEntries, HasRoom};
ghost use Rattle.su_index.specs.inside.Entries.{HaveLeads, AreOrdered};
ghost use Rattle.su_index.specs.inside.Edits.{LacksOne, HasOneMore, HasOther};
ghost use Rattle.su_index.specs.inside.Order.{value_at};
ghost use Rattle.su_index.specs.inside.Spans.{with_value, HaveColumn, ArePositions};

use crate::chunk::Chunk;
use crate::chunks::{put_at, shift, take_at};
use crate::entry::Entry;
use crate::finding::find;
use crate::lead::lead;
use crate::order::value;
use su_base::{Row, Value};

/// Takes the entry of the position out of the entries, among which it is.
pub(crate) fn take_out(rows: &[Row], column: usize, chunks: &mut Vec<Chunk>, position: u32)
    requires columns { HaveColumn column rows.now }
    requires some { HaveEntries chunks.old.items }
    requires positions { ArePositions (length rows.now) (positions (entries_of chunks.old.items)) }
    requires ordered { AreOrdered (value_at rows.now column) (entries_of chunks.old.items) }
    requires leads { HaveLeads (value_at rows.now column) (entries_of chunks.old.items) }
    requires there { Contains (positions (entries_of chunks.old.items)) position }
    ensures some { HaveEntries chunks.new.items }
    ensures ordered { AreOrdered (value_at rows.now column) (entries_of chunks.new.items) }
    ensures count { LacksOne position (entries_of chunks.old.items) (entries_of chunks.new.items) }
    ensures len { length (entries_of chunks.new.items) + 1 ≡ length (entries_of chunks.old.items) }
    ensures leads { HaveLeads (value_at rows.now column) (entries_of chunks.new.items) }
{
    let wanted = value(rows, column, position);
    let lead = lead(wanted);
    let place = find(rows, column, chunks.as_slice(), lead, wanted, position);
    take_at(chunks, place);
}

/// Puts an entry of the position among the entries, as one whose row has come to have the value, and
/// answers to which chunk it was to go.
pub(crate) fn put_in(
    rows: &[Row],
    column: usize,
    chunks: &mut Vec<Chunk>,
    wanted: &Value,
    position: u32,
) -> usize
    requires columns { HaveColumn column rows.now }
    requires some { HaveEntries chunks.old.items }
    requires positions { ArePositions (length rows.now) (positions (entries_of chunks.old.items)) }
    requires ordered { AreOrdered (value_at rows.now column) (entries_of chunks.old.items) }
    requires leads { HaveLeads (value_at rows.now column) (entries_of chunks.old.items) }
    requires apart { ¬ Contains (positions (entries_of chunks.old.items)) position }
    requires room { HasRoom chunks.old.items }
    ensures some { HaveEntries chunks.new.items }
    ensures ordered { AreOrdered (with_value (value_at rows.now column) position wanted.now) (entries_of chunks.new.items) }
    ensures count { HasOneMore position (entries_of chunks.old.items) (entries_of chunks.new.items) }
    ensures len { length (entries_of chunks.new.items) ≡ length (entries_of chunks.old.items) + 1 }
    ensures leads { HaveLeads (with_value (value_at rows.now column) position wanted.now) (entries_of chunks.new.items) }
{
    let lead = lead(wanted);
    let place = find(rows, column, chunks.as_slice(), lead, wanted, position);
    put_at(chunks, place, Entry { lead, position });
    place.chunk
}

/// Lets the entry of the position `from` be one of the position `to`, whose row has come to have the
/// same value.
pub(crate) fn rename(rows: &[Row], column: usize, chunks: &mut Vec<Chunk>, from: u32, to: u32)
    requires columns { HaveColumn column rows.now }
    requires some { HaveEntries chunks.old.items }
    requires positions { ArePositions (length rows.now) (positions (entries_of chunks.old.items)) }
    requires ordered { AreOrdered (value_at rows.now column) (entries_of chunks.old.items) }
    requires leads { HaveLeads (value_at rows.now column) (entries_of chunks.old.items) }
    requires there { Contains (positions (entries_of chunks.old.items)) from }
    requires apart { ¬ Contains (positions (entries_of chunks.old.items)) to }
    requires earlier { to < from }
    ensures some { HaveEntries chunks.new.items }
    ensures ordered { AreOrdered (with_value (value_at rows.now column) to (value_at rows.now column from)) (entries_of chunks.new.items) }
    ensures count { HasOther from to (entries_of chunks.old.items) (entries_of chunks.new.items) }
    ensures len { length (entries_of chunks.new.items) ≡ length (entries_of chunks.old.items) }
    ensures leads { HaveLeads (with_value (value_at rows.now column) to (value_at rows.now column from)) (entries_of chunks.new.items) }
{
    let wanted = value(rows, column, from);
    let lead = lead(wanted);
    let old = find(rows, column, chunks.as_slice(), lead, wanted, from);
    let new = find(rows, column, chunks.as_slice(), lead, wanted, to);
    let position = to;
    shift(chunks, old, new, Entry { lead, position });
}
