//! Runs of the rows that are kept.
ghost use Rattle.std.specs.Prelude.{◌≡◌, ◌<◌, ◌^◌, ℕ, cond, length, slice_index, IfOk};
ghost use Rattle.su_index.specs.Entries.{positions};
ghost use Rattle.su_index.specs.inside.Entries.{kept_entries};
ghost use Rattle.su_index.specs.inside.Upkeep.{HavePositions, AreKept};
ghost use Rattle.su_index.specs.inside.Spans.{rank_of, ArePositions};

use crate::chunks::{chunks_of, flat};
use crate::entry::Entry;
use crate::index::Index;
use std::alloc::Global;
use su_base::NoMemory;

fn one_if(mark: bool) -> u32
    ensures { result ≡ cond mark 1 0 }
{
    if mark { 1 } else { 0 }
}

/// The position that each row comes to, if it is kept.
pub(crate) fn ranks(alloc: Global, kept: &[bool]) -> Result<Vec<u32>, NoMemory>
    requires { length kept.now < 2 ^ 32 }
    ensures len { IfOk result (λ ranks. length ranks.items ≡ length kept.now) }
    ensures ranks { IfOk result (λ ranks. (p : ℕ) → p < length kept.now → slice_index ranks.items p ≡ rank_of kept.now p) }
{
    let mut ranks = Vec::with_capacity(alloc, kept.len())?;
    let mut rank = 0;
    for mark in kept {
        if ranks.push(rank).is_err() {
            return Err(NoMemory);
        }
        rank += one_if(*mark);
    }
    Ok(ranks)
}

/// The entries of the rows that are kept, each with the position that it comes to.
fn kept_run(
    alloc: Global,
    run: &[Entry],
    kept: &[bool],
    ranks: &[u32],
) -> Result<Vec<Entry>, NoMemory>
    requires positions { ArePositions (length kept.now) (positions run.now) }
    requires len { length ranks.now ≡ length kept.now }
    requires ranks { (p : ℕ) → p < length kept.now → slice_index ranks.now p ≡ rank_of kept.now p }
    ensures { IfOk result (λ new. new.items ≡ kept_entries kept.now run.now) }
{
    let mut new = Vec::with_capacity(alloc, run.len())?;
    for entry in run {
        let place = entry.position as usize;
        let lead = entry.lead;
        let position = ranks[place];
        if kept[place] && new.push(Entry { lead, position }).is_err() {
            return Err(NoMemory);
        }
    }
    Ok(new)
}

/// The indexes of the rows that are kept.
pub(crate) fn kept_indexes(
    alloc: Global,
    kept: &[bool],
    ranks: &[u32],
    indexes: &[Index],
) -> Result<Vec<Index>, NoMemory>
    requires positions { HavePositions (length kept.now) indexes.now }
    requires len { length ranks.now ≡ length kept.now }
    requires ranks { (p : ℕ) → p < length kept.now → slice_index ranks.now p ≡ rank_of kept.now p }
    ensures len { IfOk result (λ new. length new.items ≡ length indexes.now) }
    ensures kept { IfOk result (λ new. AreKept kept.now indexes.now new.items) }
{
    let mut new = Vec::with_capacity(alloc, indexes.len())?;
    for index in indexes {
        let run = flat(alloc, index.chunks.as_slice(), kept.len())?;
        let left = kept_run(alloc, run.as_slice(), kept, ranks)?;
        let chunks = chunks_of(alloc, left.as_slice())?;
        if new.push(Index { chunks, latest: 0 }).is_err() {
            return Err(NoMemory);
        }
    }
    Ok(new)
}
