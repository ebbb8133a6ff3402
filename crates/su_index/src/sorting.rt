//! Runs made at once: by a sort, and of two runs.
ghost use Rattle.std.specs.Prelude.{◌≡◌, ◌<◌, ◌≤◌, ◌+◌, ◌^◌, length, map, All, IfOk};
ghost use Rattle.su_index.specs.inside.Entries.{IsRunWithLeads};
ghost use Rattle.su_index.specs.inside.Lead.{IsLead};
ghost use Rattle.su_index.specs.inside.Keys.{AreEachOnce};
ghost use Rattle.su_index.specs.inside.Order.{value_at};
ghost use Rattle.su_index.specs.inside.Spans.{HaveColumn};

use crate::entry::Entry;
use crate::lead::lead;
use crate::order::{place, value};
use std::alloc::Global;
use su_base::{NoMemory, Row, Value};

/// Both runs as one.
pub(crate) fn merged(
    alloc: Global,
    rows: &[Row],
    column: usize,
    early: &[Entry],
    late: &[Entry],
) -> Result<Vec<Entry>, NoMemory>
    requires columns { HaveColumn column rows.now }
    requires whole { length early.now + length late.now ≤ length rows.now }
    requires early { IsRunWithLeads (value_at rows.now column) 0 early.now }
    requires late { IsRunWithLeads (value_at rows.now column) (length early.now) late.now }
    ensures run { IfOk result (λ run. IsRunWithLeads (value_at rows.now column) 0 run.items) }
    ensures len { IfOk result (λ run. length run.items ≡ length early.now + length late.now) }
{
    let mut run = Vec::with_capacity(alloc, early.len() + late.len())?;
    let mut from = 0;
    for entry in late {
        let rest = &early[from..];
        let count = place(
            rows,
            column,
            rest,
            entry.lead,
            value(rows, column, entry.position),
            entry.position,
        );
        run.extend_from_slice(&rest[..count])?;
        if run.push(*entry).is_err() {
            return Err(NoMemory);
        }
        from += count;
    }
    run.extend_from_slice(&early[from..])?;
    Ok(run)
}

/// The values in the column from the row at `from` on, each with its lead and its position.
fn keys_of<'a>(
    alloc: Global,
    rows: &'a [Row],
    column: usize,
    from: usize,
) -> Result<Vec<(u32, &'a Value, u32)>, NoMemory>
    requires columns { HaveColumn column rows.now }
    requires small { length rows.now < 2 ^ 32 }
    requires from { from ≤ length rows.now }
    ensures values { IfOk result (λ keys. All (λ key. IsLead key.0 key.1.now × (key.1.now ≡ value_at rows.now column key.2)) keys.items) }
    ensures each { IfOk result (λ keys. AreEachOnce from (length rows.now) keys.items) }
    ensures len { IfOk result (λ keys. from + length keys.items ≡ length rows.now) }
{
    let mut keys = Vec::with_capacity(alloc, rows.len() - from)?;
    for position in from..rows.len() {
        let found = value(rows, column, position as u32);
        let key = (lead(found), found, position as u32);
        if keys.push(key).is_err() {
            return Err(NoMemory);
        }
    }
    Ok(keys)
}

/// The entries of the keys.
fn entries_of(alloc: Global, keys: &[(u32, &Value, u32)]) -> Result<Vec<Entry>, NoMemory>
    ensures { IfOk result (λ run. run.items ≡ map (λ key. record { lead = key.0; position = key.2 }) keys.now) }
{
    let mut run = Vec::with_capacity(alloc, keys.len())?;
    for key in keys {
        let entry = Entry {
            lead: key.0,
            position: key.2,
        };
        if run.push(entry).is_err() {
            return Err(NoMemory);
        }
    }
    Ok(run)
}

/// The rows from `from` on as a run.
pub(crate) fn sorted(
    alloc: Global,
    rows: &[Row],
    column: usize,
    from: usize,
) -> Result<Vec<Entry>, NoMemory>
    requires columns { HaveColumn column rows.now }
    requires small { length rows.now < 2 ^ 32 }
    requires from { from ≤ length rows.now }
    ensures run { IfOk result (λ run. IsRunWithLeads (value_at rows.now column) from run.items) }
    ensures len { IfOk result (λ run. from + length run.items ≡ length rows.now) }
{
    let mut keys = keys_of(alloc, rows, column, from)?;
    keys.sort_unstable();
    let run = entries_of(alloc, keys.as_slice())?;
    Ok(run)
}
