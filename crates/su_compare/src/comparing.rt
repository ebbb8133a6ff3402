//! Two queries compared by their terms.
ghost use Rattle.std.specs.Prelude.{IfOk};
ghost use Rattle.su_compare.specs.Comparable.{AreComparable};
ghost use Rattle.su_compare.specs.Verdict.{IsVerdict, Decides, ShowsApart};
ghost use Rattle.su_compare.specs.inside.Settlements.{HasRoomFor};

use crate::laws::verdicts_decide;
use crate::settling::{Settled, settle};
use crate::shown::show_apart;
use crate::verdicts::{Reason, Verdict};
use std::alloc::Global;
use su_base::{List, NoMemory};
use su_chase::Frozen;
use su_map::Room;
use su_schema::Schema;
use su_steps::Term;

/// A room for searches from each of the terms.
fn room_for(alloc: Global, terms: &[Term]) -> Result<Room, NoMemory>
    ensures { IfOk result (HasRoomFor terms.now) }
{
    let mut rows = 0;
    let mut symbols = 0;
    for term in terms {
        rows = rows.max(term.tableau.row_count());
        symbols = symbols.max(term.tableau.symbols());
    }
    let room = Room::new(alloc, rows, symbols)?;
    Ok(room)
}

/// Each term of the first is settled by the terms of the second, up to the first that isn't.
fn compared(
    alloc: Global,
    schema: &Schema,
    first: &[Term],
    second: &[Term],
) -> Result<Verdict, NoMemory>
    requires comparable { AreComparable schema.now first.now second.now }
    ensures { IfOk result (IsVerdict schema.now first.now second.now) }
{
    schema.keeps_its_rules();
    let mut room = room_for(alloc, second)?;
    let mut reasons = List::new(alloc);
    for i in 0..first.len() {
        let t = &first[i].tableau;
        match settle(alloc, &mut room, schema.fds(), t, second)? {
            Settled::By(by) => reasons.push(Reason { term: i as u16, by })?,
            Settled::Open(c) => {
                let Frozen { universe, head } = show_apart(alloc, schema, first, second, &c)?;
                return Ok(Verdict::Apart {
                    term: i as u16,
                    universe,
                    head,
                });
            }
        }
    }
    Ok(Verdict::Within(reasons))
}

/// Whether the first query is within the second, by the terms of both, none of which compares: each
/// term of the first is chased, and mapped into by the first term of the second that can be. It is not
/// where some term is left: this term's chased rows are then frozen, and show a row of the first query
/// that is none of the second. Exponential in the rows at worst, as each search is.
pub fn within(
    alloc: Global,
    schema: &Schema,
    first: &[Term],
    second: &[Term],
) -> Result<Verdict, NoMemory>
    requires comparable { AreComparable schema.now first.now second.now }
    ensures verdict { IfOk result (IsVerdict schema.now first.now second.now) }
    ensures decides { IfOk result (Decides schema.now first.now second.now) }
    ensures apart { IfOk result (ShowsApart schema.now first.now second.now) }
{
    schema.keeps_its_rules();
    verdicts_decide();
    let verdict = compared(alloc, schema, first, second)?;
    Ok(verdict)
}
