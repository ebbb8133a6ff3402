//! The order of an index.
ghost use Rattle.std.specs.Prelude.{◌≡◌, ◌<◌, ◌≤◌, true, IsTrue, length};
ghost use Rattle.std.specs.Ordering.{nat_cmp, ordering_then, is_lt};
ghost use Rattle.su_base.specs.Value.{compare_values};
ghost use Rattle.su_index.specs.Entries.{positions};
ghost use Rattle.su_index.specs.inside.Entries.{HaveLeads, AreOrdered};
ghost use Rattle.su_index.specs.inside.Lead.{IsLead};
ghost use Rattle.su_index.specs.inside.Order.{value_at, compare_keys};
ghost use Rattle.su_index.specs.inside.Spans.{comes_before, has_at, HaveColumn, ArePositions};
ghost use Rattle.su_index.specs.inside.Searches.{AreBefore, NoneBefore};

use crate::entry::Entry;
use std::cmp::Ordering;
use su_base::{Row, Value};

/// The value in the column of the row at the position.
pub(crate) fn value(rows: &[Row], column: usize, position: u32) -> &Value
    requires columns { HaveColumn column rows.now }
    requires within { position < length rows.now }
    ensures { result.now ≡ value_at rows.now column position }
{
    rows[position as usize].get(column)
}

/// Whether the row at `found` comes before one with the value at `position`, where their leads are
/// equal.
fn is_before_by_value(
    rows: &[Row],
    column: usize,
    found: u32,
    wanted: &Value,
    position: u32,
) -> bool
    requires columns { HaveColumn column rows.now }
    requires within { found < length rows.now }
    ensures { result ≡ is_lt (ordering_then (compare_values (value_at rows.now column found) wanted.now) (nat_cmp found position)) }
{
    value(rows, column, found)
        .compare(wanted)
        .then(found.cmp(&position))
        .is_lt()
}

/// Whether the row of the entry comes before one with the value at `position`. The leads tell where
/// they differ, and then the row is not read.
pub(crate) fn is_before(
    rows: &[Row],
    column: usize,
    found: Entry,
    lead: u32,
    wanted: &Value,
    position: u32,
) -> bool
    requires columns { HaveColumn column rows.now }
    requires within { found.position < length rows.now }
    requires found { IsLead found.lead (value_at rows.now column found.position) }
    requires lead { IsLead lead wanted.now }
    ensures { result ≡ comes_before (value_at rows.now column) wanted.now position found.position }
{
    if found.lead != lead {
        return found.lead < lead;
    }
    is_before_by_value(rows, column, found.position, wanted, position)
}

/// How the value in the row of the entry stands to the value. The row isn't read where the leads
/// differ, nor where it is known that it has the value.
pub(crate) fn order_at(
    rows: &[Row],
    column: usize,
    found: Entry,
    lead: u32,
    wanted: &Value,
    has: bool,
) -> Ordering
    requires columns { HaveColumn column rows.now }
    requires within { found.position < length rows.now }
    requires found { IsLead found.lead (value_at rows.now column found.position) }
    requires lead { IsLead lead wanted.now }
    requires known { IsTrue has → has_at (value_at rows.now column) wanted.now found.position ≡ true }
    ensures { result ≡ compare_keys (value_at rows.now column found.position) wanted.now }
{
    if has {
        return Ordering::Equal;
    }
    if found.lead != lead {
        return found.lead.cmp(&lead);
    }
    value(rows, column, found.position).compare(wanted)
}

/// How many entries of the run come before the value at `position`: they are its first ones.
pub(crate) fn place(
    rows: &[Row],
    column: usize,
    run: &[Entry],
    lead: u32,
    wanted: &Value,
    position: u32,
) -> usize
    requires columns { HaveColumn column rows.now }
    requires positions { ArePositions (length rows.now) (positions run.now) }
    requires ordered { AreOrdered (value_at rows.now column) run.now }
    requires leads { HaveLeads (value_at rows.now column) run.now }
    requires lead { IsLead lead wanted.now }
    ensures within { result ≤ length run.now }
    ensures below { AreBefore (value_at rows.now column) wanted.now position run.now result }
    ensures above { NoneBefore (value_at rows.now column) wanted.now position run.now result }
{
    let mut low = 0;
    let mut high = run.len();
    while low < high {
        let middle = low + (high - low) / 2;
        if is_before(rows, column, run[middle], lead, wanted, position) {
            low = middle + 1;
        } else {
            high = middle;
        }
    }
    low
}
