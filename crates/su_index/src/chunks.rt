//! The entries of an index in chunks. An entry that goes out or in moves entries of its own chunk alone.
//! Only where that has no room, the last entry of it goes on to the next chunk, and so on up to the first
//! one with room; before the next entry comes, the full chunk is split.
ghost use Rattle.std.specs.Prelude.{◌≡◌, ◌≢◌, ◌<◌, ◌≤◌, ◌+◌, ◌++◌, ◌-◌, ◌^◌, ◌∷◌, [], ℕ, length, drop, slice_index_or, IfOk, OnOk};
ghost use Rattle.std.specs.Bool.{OnTrue, OnFalse};
ghost use Rattle.std.specs.List.{insert};
ghost use Rattle.std.specs.VecDeque.{deque_len, deque_capacity};
ghost use Rattle.su_index.specs.Entries.{entries_of, stretch};
ghost use Rattle.su_index.specs.inside.Chunks.{len_at, HaveEntries, capacity_at, before_chunk, rank_in, with_entry, without_entry, IsGap, IsPlace, HasRoom, HasRoomFrom};
ghost use Rattle.su_index.specs.declared.chunk.Chunk.{Chunk as Piece};

use crate::chunk::Chunk;
use crate::entry::Entry;
use crate::place::ChunkPlace;
use std::alloc::{AllocError, Global};
use std::collections::VecDeque;
use su_base::NoMemory;

/// How many entries a chunk has at most.
const FULL: usize = 512;

/// How many of them stay where a chunk is split.
const HALF: usize = 256;

/// The entry at the place.
pub(crate) fn entry(chunks: &[Chunk], place: ChunkPlace) -> Entry
    requires within { place.chunk < length chunks.now }
    requires there { (d : Piece) → place.at < len_at chunks.now place.chunk d }
    ensures { result ≡ slice_index_or (entries_of chunks.now) (rank_in chunks.now place) result }
{
    chunks[place.chunk].entries[place.at]
}

/// How many entries the chunk has.
pub(crate) fn len_of(chunks: &[Chunk], chunk: usize) -> usize
    requires { chunk < length chunks.now }
    ensures { (d : Piece) → result ≡ len_at chunks.now chunk d }
{
    chunks[chunk].entries.len()
}

/// A chunk of the entries, with memory for `room` of them at least.
fn chunk_of(alloc: Global, entries: &[Entry], room: usize) -> Result<Chunk, NoMemory>
    ensures { IfOk result (λ chunk. chunk.entries.items ≡ entries.now) }
{
    let mut held = Vec::with_capacity(alloc, room)?;
    held.extend_from_slice(entries)?;
    Ok(Chunk {
        entries: VecDeque::from_vec(held),
    })
}

/// The entries of a full chunk, and those behind them.
fn parted(entries: &[Entry]) -> (&[Entry], &[Entry])
    requires { 512 < length entries.now }
    ensures parts { result.0.now ++ result.1.now ≡ entries.now }
    ensures len { length result.0.now ≡ 512 }
    ensures fewer { length result.1.now < length entries.now }
{
    entries.split_at(FULL)
}

/// The entries in chunks.
pub(crate) fn chunks_of(alloc: Global, entries: &[Entry]) -> Result<Vec<Chunk>, NoMemory>
    ensures entries { IfOk result (λ chunks. entries_of chunks.items ≡ entries.now) }
    ensures some { IfOk result (λ chunks. HaveEntries chunks.items) }
{
    let mut chunks = Vec::with_capacity(alloc, entries.len() / FULL + 1)?;
    let mut rest = entries;
    while rest.len() > FULL {
        let (front, back) = parted(rest);
        let chunk = chunk_of(alloc, front, front.len())?;
        if chunks.push(chunk).is_err() {
            return Err(NoMemory);
        }
        rest = back;
    }
    let chunk = chunk_of(alloc, rest, rest.len())?;
    if chunks.push(chunk).is_err() {
        return Err(NoMemory);
    }
    Ok(chunks)
}

/// The entries of the chunks in one list, `count` of them.
pub(crate) fn flat(alloc: Global, chunks: &[Chunk], count: usize) -> Result<Vec<Entry>, NoMemory>
    ensures { IfOk result (λ entries. entries.items ≡ entries_of chunks.now) }
{
    let mut entries = Vec::with_capacity(alloc, count)?;
    for chunk in chunks {
        let (front, back) = chunk.entries.as_slices();
        entries.extend_from_slice(front)?;
        entries.extend_from_slice(back)?;
    }
    Ok(entries)
}

/// The entries of the chunk from the place on, as a chunk of their own that may grow.
fn later_part(alloc: Global, chunk: &Chunk, at: usize) -> Result<Chunk, NoMemory>
    requires { at ≤ deque_len chunk.now.entries }
    ensures { IfOk result (λ later. later.entries.items ≡ drop at chunk.now.entries.items) }
{
    let mut entries = Vec::with_capacity(alloc, chunk.entries.len())?;
    let (front, back) = chunk.entries.as_slices();
    entries.extend_from_slice(front)?;
    entries.extend_from_slice(back)?;
    let (_early, late) = entries.as_slice().split_at(at);
    chunk_of(alloc, late, FULL)
}

/// Whether the chunk is full and isn't the last one.
fn is_crowded(chunks: &[Chunk], chunk: usize) -> bool
    ensures within { OnTrue result (chunk + 1 < length chunks.now) }
    ensures len { OnTrue result ((d : Piece) → 512 ≤ len_at chunks.now chunk d) }
{
    let count = chunks.len();
    count > 0 && chunk < count - 1 && chunks[chunk].entries.len() >= FULL
}

/// Splits the chunk into two: its entries before the place stay.
fn split(alloc: Global, chunks: &mut Vec<Chunk>, chunk: usize, at: usize) -> Result<(), NoMemory>
    requires some { HaveEntries chunks.old.items }
    requires within { chunk < length chunks.old.items }
    requires first { 0 < at }
    requires second { (d : Piece) → at < len_at chunks.old.items chunk d }
    ensures entries { entries_of chunks.new.items ≡ entries_of chunks.old.items }
    ensures some { HaveEntries chunks.new.items }
{
    let later = later_part(alloc, &chunks[chunk], at)?;
    if chunks.insert(chunk + 1, later).is_err() {
        return Err(NoMemory);
    }
    chunks[chunk].entries.truncate(at);
    Ok(())
}

/// Splits the chunk, if it is full and isn't the last one.
fn relieve(alloc: Global, chunks: &mut Vec<Chunk>, chunk: usize) -> Result<(), NoMemory>
    requires some { HaveEntries chunks.old.items }
    ensures entries { entries_of chunks.new.items ≡ entries_of chunks.old.items }
    ensures some { HaveEntries chunks.new.items }
{
    if is_crowded(chunks.as_slice(), chunk) {
        return split(alloc, chunks, chunk, HALF);
    }
    Ok(())
}

/// Whether the last chunk may have more entries.
fn is_open(chunks: &[Chunk]) -> bool
    requires some { HaveEntries chunks.now }
    ensures open { OnTrue result (0 < length chunks.now) }
    ensures some { OnFalse result ((k : ℕ) (d : Piece) → k < length chunks.now → 0 < len_at chunks.now k d) }
{
    let count = chunks.len();
    if count == 0 {
        return false;
    }
    chunks[count - 1].entries.len() < FULL
}

/// Makes room for one more entry in the last chunk, or in a new one behind it.
fn open_last(alloc: Global, chunks: &mut Vec<Chunk>) -> Result<(), NoMemory>
    requires some { HaveEntries chunks.old.items }
    ensures entries { entries_of chunks.new.items ≡ entries_of chunks.old.items }
    ensures some { HaveEntries chunks.new.items }
    ensures room { OnOk result (HasRoom chunks.new.items) }
{
    if is_open(chunks.as_slice()) {
        let last = chunks.len() - 1;
        chunks[last].entries.reserve(1)?;
        return Ok(());
    }
    let entries = VecDeque::with_capacity(alloc, 1)?;
    if chunks.push(Chunk { entries }).is_err() {
        return Err(NoMemory);
    }
    Ok(())
}

/// Makes room for one more entry. The chunk to which the last one went is split, if it is full and isn't
/// the last one.
pub(crate) fn make_room(
    alloc: Global,
    chunks: &mut Vec<Chunk>,
    latest: usize,
) -> Result<(), NoMemory>
    requires some { HaveEntries chunks.old.items }
    ensures entries { entries_of chunks.new.items ≡ entries_of chunks.old.items }
    ensures some { HaveEntries chunks.new.items }
    ensures room { OnOk result (HasRoom chunks.new.items) }
{
    relieve(alloc, chunks, latest)?;
    open_last(alloc, chunks)
}

/// Whether the entries need less than a quarter of the chunks.
pub(crate) fn is_sparse(chunks: &[Chunk], count: usize) -> bool {
    chunks.len() / 4 > count / FULL + 1
}

/// Puts the entry in, and takes the last one out, which may be the entry itself.
fn push_through(held: &mut VecDeque<Entry>, at: usize, entry: Entry) -> Entry
    requires { at ≤ deque_len held.old }
    ensures items { held.new.items ++ result ∷ [] ≡ insert held.old.items at entry }
    ensures len { deque_len held.new ≡ deque_len held.old }
    ensures capacity { deque_capacity held.old ≤ deque_capacity held.new }
{
    if at == held.len() {
        return entry;
    }
    match held.pop_back() {
        Some(last) => {
            if held.insert(at, entry).is_err() {
                unreachable!();
            }
            last
        }
        None => unreachable!(),
    }
}

/// Puts the entry in at the place, and takes the last one of the chunk out: it is to come first in the
/// next chunk.
fn displace(chunks: &mut Vec<Chunk>, place: ChunkPlace, entry: Entry) -> Entry
    requires place { IsGap chunks.old.items place }
    ensures count { length chunks.new.items ≡ length chunks.old.items }
    ensures entries { insert (entries_of chunks.new.items) (before_chunk chunks.new.items (place.chunk + 1)) result ≡ with_entry chunks.old.items place entry }
    ensures lens { (k : ℕ) (d : Piece) → len_at chunks.new.items k d ≡ len_at chunks.old.items k d }
    ensures capacities { (k : ℕ) (d : Piece) → capacity_at chunks.old.items k d ≤ capacity_at chunks.new.items k d }
{
    push_through(&mut chunks[place.chunk].entries, place.at, entry)
}

/// Whether the chunk can take no entry without memory.
fn is_full(chunks: &[Chunk], chunk: usize) -> bool
    requires { chunk < length chunks.now }
    ensures full { OnTrue result ((d : Piece) → capacity_at chunks.now chunk d ≤ len_at chunks.now chunk d) }
    ensures room { OnFalse result ((d : Piece) → len_at chunks.now chunk d < capacity_at chunks.now chunk d) }
{
    chunks[chunk].entries.len() >= chunks[chunk].entries.capacity()
}

/// Puts an entry in at the place, in a chunk that has room.
fn fill(chunks: &mut Vec<Chunk>, place: ChunkPlace, entry: Entry)
    requires place { IsGap chunks.old.items place }
    requires room { (d : Piece) → len_at chunks.old.items place.chunk d < capacity_at chunks.old.items place.chunk d }
    ensures count { length chunks.new.items ≡ length chunks.old.items }
    ensures entries { entries_of chunks.new.items ≡ with_entry chunks.old.items place entry }
    ensures lens { (k : ℕ) (d : Piece) → len_at chunks.old.items k d ≤ len_at chunks.new.items k d }
{
    if chunks[place.chunk].entries.insert(place.at, entry).is_err() {
        unreachable!();
    }
}

/// Puts an entry in at the place.
pub(crate) fn put_at(chunks: &mut Vec<Chunk>, place: ChunkPlace, entry: Entry)
    requires place { IsGap chunks.old.items place }
    requires room { HasRoomFrom place.chunk chunks.old.items }
    ensures count { length chunks.new.items ≡ length chunks.old.items }
    ensures entries { entries_of chunks.new.items ≡ with_entry chunks.old.items place entry }
    ensures lens { (k : ℕ) (d : Piece) → len_at chunks.old.items k d ≤ len_at chunks.new.items k d }
{
    let mut place = place;
    let mut entry = entry;
    while is_full(chunks.as_slice(), place.chunk) {
        entry = displace(chunks, place, entry);
        place = ChunkPlace {
            chunk: place.chunk + 1,
            at: 0,
        };
    }
    fill(chunks, place, entry);
}

/// Takes the entry at the place out of its chunk.
fn dig(chunks: &mut Vec<Chunk>, place: ChunkPlace)
    requires within { place.chunk < length chunks.old.items }
    requires there { (d : Piece) → place.at < len_at chunks.old.items place.chunk d }
    ensures count { length chunks.new.items ≡ length chunks.old.items }
    ensures entries { entries_of chunks.new.items ≡ without_entry chunks.old.items place }
    ensures before { (k : ℕ) → k ≤ place.chunk → before_chunk chunks.new.items k ≡ before_chunk chunks.old.items k }
    ensures len { (d : Piece) → len_at chunks.new.items place.chunk d + 1 ≡ len_at chunks.old.items place.chunk d }
    ensures lens { (k : ℕ) (d : Piece) → k ≢ place.chunk → len_at chunks.new.items k d ≡ len_at chunks.old.items k d }
    ensures room { (d : Piece) → len_at chunks.new.items place.chunk d < capacity_at chunks.new.items place.chunk d }
{
    let _entry = chunks[place.chunk].entries.remove(place.at);
}

/// Lets the chunk go, if it has no entry.
fn drop_empty(chunks: &mut Vec<Chunk>, chunk: usize)
    requires within { chunk < length chunks.old.items }
    requires others { (k : ℕ) (d : Piece) → k ≢ chunk → k + 1 < length chunks.old.items → 0 < len_at chunks.old.items k d }
    ensures entries { entries_of chunks.new.items ≡ entries_of chunks.old.items }
    ensures some { HaveEntries chunks.new.items }
{
    if chunks[chunk].entries.is_empty() {
        let _chunk = chunks.remove(chunk);
    }
}

/// Takes the entry at the place out.
pub(crate) fn take_at(chunks: &mut Vec<Chunk>, place: ChunkPlace)
    requires some { HaveEntries chunks.old.items }
    requires within { place.chunk < length chunks.old.items }
    requires there { (d : Piece) → place.at < len_at chunks.old.items place.chunk d }
    ensures entries { entries_of chunks.new.items ≡ without_entry chunks.old.items place }
    ensures some { HaveEntries chunks.new.items }
{
    dig(chunks, place);
    drop_empty(chunks, place.chunk);
}

/// Takes the entry at `from` out, and puts one in at `to`, which is no later.
pub(crate) fn shift(chunks: &mut Vec<Chunk>, from: ChunkPlace, to: ChunkPlace, entry: Entry)
    requires some { HaveEntries chunks.old.items }
    requires within { from.chunk < length chunks.old.items }
    requires there { (d : Piece) → from.at < len_at chunks.old.items from.chunk d }
    requires place { IsPlace chunks.old.items to }
    requires order { rank_in chunks.old.items to ≤ rank_in chunks.old.items from }
    ensures entries { entries_of chunks.new.items ≡ insert (without_entry chunks.old.items from) (rank_in chunks.old.items to) entry }
    ensures some { HaveEntries chunks.new.items }
{
    dig(chunks, from);
    put_at(chunks, to, entry);
    drop_empty(chunks, from.chunk);
}

/// How many entries stand from one place up to another.
pub(crate) fn between(chunks: &[Chunk], first: ChunkPlace, past: ChunkPlace) -> usize
    requires first { IsPlace chunks.now first }
    requires past { IsPlace chunks.now past }
    requires order { rank_in chunks.now first ≤ rank_in chunks.now past }
    requires small { length (entries_of chunks.now) < 2 ^ 32 }
    ensures { result + rank_in chunks.now first ≡ rank_in chunks.now past }
{
    let mut count = past.at;
    for k in first.chunk..past.chunk {
        count += chunks[k].entries.len();
    }
    count - first.at
}

/// The place of the entry that is to be found at the place or, past the end of its chunk, so many
/// entries on.
pub(crate) fn settled(chunks: &[Chunk], place: ChunkPlace) -> ChunkPlace
    requires within { rank_in chunks.now place < length (entries_of chunks.now) }
    ensures rank { rank_in chunks.now result ≡ rank_in chunks.now place }
    ensures within { result.chunk < length chunks.now }
    ensures there { (d : Piece) → result.at < len_at chunks.now result.chunk d }
{
    let mut chunk = place.chunk;
    let mut at = place.at;
    while at >= chunks[chunk].entries.len() {
        at -= chunks[chunk].entries.len();
        chunk += 1;
    }
    ChunkPlace { chunk, at }
}

/// The entry at the rank.
pub(crate) fn entry_at(chunks: &[Chunk], rank: usize) -> Entry
    requires within { rank < length (entries_of chunks.now) }
    ensures { result ≡ slice_index_or (entries_of chunks.now) rank result }
{
    entry(chunks, settled(chunks, ChunkPlace { chunk: 0, at: rank }))
}

/// Puts the positions of `count` entries past the first `at` ones behind those that are there.
pub(crate) fn add_stretch(
    chunks: &[Chunk],
    at: usize,
    count: usize,
    positions: &mut Vec<usize>,
) -> Result<(), AllocError>
    requires within { at + count ≤ length (entries_of chunks.now) }
    requires small { length (entries_of chunks.now) < 2 ^ 32 }
    ensures { IfOk result (λ _. positions.new.items ≡ positions.old.items ++ stretch (entries_of chunks.now) at count) }
{
    let mut place = ChunkPlace { chunk: 0, at };
    for _ in 0..count {
        place = settled(chunks, place);
        positions.push(entry(chunks, place).position as usize)?;
        place.at += 1;
    }
    Ok(())
}
