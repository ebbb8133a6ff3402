//! Searches in the chunks of an index.
ghost use Rattle.std.specs.Prelude.{◌≡◌, ◌<◌, ◌≤◌, ◌+◌, ◌-◌, ◌^◌, length, slice_index_or};
ghost use Rattle.su_index.specs.Entries.{entries_of, positions};
ghost use Rattle.su_index.specs.inside.Chunks.{len_at, HaveEntries, before_chunk, rank_in, IsPlace};
ghost use Rattle.su_index.specs.inside.Entries.{HaveLeads, AreOrdered};
ghost use Rattle.su_index.specs.inside.Lead.{IsLead};
ghost use Rattle.su_index.specs.inside.Order.{value_at};
ghost use Rattle.su_index.specs.inside.Spans.{HaveColumn, ArePositions};
ghost use Rattle.su_index.specs.inside.Searches.{AreBefore, NoneBefore, NoneBeforeAtEnd, IsSpanIn};
ghost use Rattle.su_index.specs.declared.chunk.Chunk.{Chunk as Piece};

use crate::chunk::Chunk;
use crate::chunks::{entry, len_of};
use crate::entry::Entry;
use crate::lead::lead;
use crate::order::{is_before, order_at};
use crate::place::ChunkPlace;
use su_base::{Row, Value};

/// The last entry of a chunk.
fn last_of(chunks: &[Chunk], chunk: usize) -> Entry
    requires some { HaveEntries chunks.now }
    requires within { chunk + 1 < length chunks.now }
    ensures there { before_chunk chunks.now (chunk + 1) ≤ length (entries_of chunks.now) }
    ensures some { 0 < before_chunk chunks.now (chunk + 1) }
    ensures last { result ≡ slice_index_or (entries_of chunks.now) (before_chunk chunks.now (chunk + 1) - 1) result }
{
    let at = len_of(chunks, chunk) - 1;
    entry(chunks, ChunkPlace { chunk, at })
}

/// The chunk in which the value at `position` is to be looked for: the entries of those before it come
/// before the value, and the last one of it does not, unless it is the last chunk.
fn chunk_for(
    rows: &[Row],
    column: usize,
    chunks: &[Chunk],
    lead: u32,
    wanted: &Value,
    position: u32,
) -> usize
    requires columns { HaveColumn column rows.now }
    requires positions { ArePositions (length rows.now) (positions (entries_of chunks.now)) }
    requires ordered { AreOrdered (value_at rows.now column) (entries_of chunks.now) }
    requires leads { HaveLeads (value_at rows.now column) (entries_of chunks.now) }
    requires lead { IsLead lead wanted.now }
    requires some { HaveEntries chunks.now }
    requires chunks { 0 < length chunks.now }
    ensures within { result < length chunks.now }
    ensures below { AreBefore (value_at rows.now column) wanted.now position (entries_of chunks.now) (before_chunk chunks.now result) }
    ensures above { NoneBeforeAtEnd (value_at rows.now column) wanted.now position chunks.now result }
{
    let mut low = 0;
    let mut high = chunks.len() - 1;
    while low < high {
        let middle = low + (high - low) / 2;
        let found = last_of(chunks, middle);
        if is_before(rows, column, found, lead, wanted, position) {
            low = middle + 1;
        } else {
            high = middle;
        }
    }
    low
}

/// How many entries of the chunk come before the value at `position`. Once one before the place and one
/// behind it have the value, no row between them is read.
fn place_in(
    rows: &[Row],
    column: usize,
    chunks: &[Chunk],
    chunk: usize,
    lead: u32,
    wanted: &Value,
    position: u32,
) -> usize
    requires columns { HaveColumn column rows.now }
    requires positions { ArePositions (length rows.now) (positions (entries_of chunks.now)) }
    requires ordered { AreOrdered (value_at rows.now column) (entries_of chunks.now) }
    requires leads { HaveLeads (value_at rows.now column) (entries_of chunks.now) }
    requires lead { IsLead lead wanted.now }
    requires within { chunk < length chunks.now }
    requires below { AreBefore (value_at rows.now column) wanted.now position (entries_of chunks.now) (before_chunk chunks.now chunk) }
    requires above { NoneBeforeAtEnd (value_at rows.now column) wanted.now position chunks.now chunk }
    ensures most { (d : Piece) → result ≤ len_at chunks.now chunk d }
    ensures below { AreBefore (value_at rows.now column) wanted.now position (entries_of chunks.now) (before_chunk chunks.now chunk + result) }
    ensures above { NoneBefore (value_at rows.now column) wanted.now position (entries_of chunks.now) (before_chunk chunks.now chunk + result) }
{
    let mut low = 0;
    let mut high = len_of(chunks, chunk);
    let mut low_has = false;
    let mut high_has = false;
    while low < high {
        let middle = low + (high - low) / 2;
        let found = entry(chunks, ChunkPlace { chunk, at: middle });
        let order = order_at(rows, column, found, lead, wanted, low_has && high_has);
        if order.then(found.position.cmp(&position)).is_lt() {
            low = middle + 1;
            low_has = order.is_eq();
        } else {
            high = middle;
            high_has = order.is_eq();
        }
    }
    low
}

/// The place of the value at `position`: the entries that come before it are those before the place.
pub(crate) fn find(
    rows: &[Row],
    column: usize,
    chunks: &[Chunk],
    lead: u32,
    wanted: &Value,
    position: u32,
) -> ChunkPlace
    requires columns { HaveColumn column rows.now }
    requires positions { ArePositions (length rows.now) (positions (entries_of chunks.now)) }
    requires ordered { AreOrdered (value_at rows.now column) (entries_of chunks.now) }
    requires leads { HaveLeads (value_at rows.now column) (entries_of chunks.now) }
    requires lead { IsLead lead wanted.now }
    requires some { HaveEntries chunks.now }
    requires chunks { 0 < length chunks.now }
    ensures place { IsPlace chunks.now result }
    ensures below { AreBefore (value_at rows.now column) wanted.now position (entries_of chunks.now) (rank_in chunks.now result) }
    ensures above { NoneBefore (value_at rows.now column) wanted.now position (entries_of chunks.now) (rank_in chunks.now result) }
{
    let chunk = chunk_for(rows, column, chunks, lead, wanted, position);
    let at = place_in(rows, column, chunks, chunk, lead, wanted, position);
    ChunkPlace { chunk, at }
}

/// The place past the value, where `first` is that of the value itself. Most values stand in one row or
/// in none: then it asks no more than two entries.
fn past(
    rows: &[Row],
    column: usize,
    chunks: &[Chunk],
    lead: u32,
    wanted: &Value,
    first: ChunkPlace,
) -> ChunkPlace
    requires small { length rows.now < 2 ^ 32 }
    requires columns { HaveColumn column rows.now }
    requires positions { ArePositions (length rows.now) (positions (entries_of chunks.now)) }
    requires ordered { AreOrdered (value_at rows.now column) (entries_of chunks.now) }
    requires leads { HaveLeads (value_at rows.now column) (entries_of chunks.now) }
    requires lead { IsLead lead wanted.now }
    requires some { HaveEntries chunks.now }
    requires first { IsPlace chunks.now first }
    requires below { AreBefore (value_at rows.now column) wanted.now 0 (entries_of chunks.now) (rank_in chunks.now first) }
    ensures place { IsPlace chunks.now result }
    ensures below { AreBefore (value_at rows.now column) wanted.now (length rows.now) (entries_of chunks.now) (rank_in chunks.now result) }
    ensures above { NoneBefore (value_at rows.now column) wanted.now (length rows.now) (entries_of chunks.now) (rank_in chunks.now result) }
{
    let top = rows.len() as u32;
    let len = len_of(chunks, first.chunk);
    if first.at == len {
        return first;
    }
    if !is_before(rows, column, entry(chunks, first), lead, wanted, top) {
        return first;
    }
    let chunk = first.chunk;
    let at = first.at + 1;
    if at < len
        && !is_before(
            rows,
            column,
            entry(chunks, ChunkPlace { chunk, at }),
            lead,
            wanted,
            top,
        )
    {
        return ChunkPlace { chunk, at };
    }
    find(rows, column, chunks, lead, wanted, top)
}

/// Where the entries of the value stand: the first place, and the one past the last.
pub(crate) fn span(
    rows: &[Row],
    column: usize,
    chunks: &[Chunk],
    wanted: &Value,
) -> (ChunkPlace, ChunkPlace)
    requires small { length rows.now < 2 ^ 32 }
    requires columns { HaveColumn column rows.now }
    requires positions { ArePositions (length rows.now) (positions (entries_of chunks.now)) }
    requires ordered { AreOrdered (value_at rows.now column) (entries_of chunks.now) }
    requires leads { HaveLeads (value_at rows.now column) (entries_of chunks.now) }
    requires some { HaveEntries chunks.now }
    requires chunks { 0 < length chunks.now }
    ensures first { IsPlace chunks.now result.0 }
    ensures past { IsPlace chunks.now result.1 }
    ensures span { IsSpanIn (value_at rows.now column) wanted.now chunks.now result.0 result.1 }
{
    let lead = lead(wanted);
    let first = find(rows, column, chunks, lead, wanted, 0);
    let past = past(rows, column, chunks, lead, wanted, first);
    (first, past)
}
