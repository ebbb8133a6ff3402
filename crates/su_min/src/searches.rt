//! Searches between terms, in one room that is made for the first of them.
ghost use Rattle.std.specs.Prelude.{◌≡◌, ◌↔◌, IsTrue, IfOk, Contains, None};
ghost use Rattle.su_min.specs.Cover.{AreAlike, Covers};
ghost use Rattle.su_min.specs.Reduction.{IsFirstMapping};
ghost use Rattle.su_min.specs.inside.Rooms.{IsRoomForAll, IsRoomOf};

use crate::alike::{are_alike, heads_fit};
use crate::minimal::Minimal;
use std::alloc::Global;
use std::sync::ledger::Ledger;
use su_base::{NoMemory, Steps};
use su_map::{Mapping, Room, certify, exists, first};

/// A room for each of the terms.
fn room_for(alloc: Global, terms: &[Minimal]) -> Result<Room, NoMemory>
    ensures { IfOk result (IsRoomForAll terms.now) }
{
    let mut rows = 0;
    let mut symbols = 0;
    for term in terms {
        let t = term.tableau();
        rows = rows.max(t.row_count());
        symbols = symbols.max(t.symbols());
    }
    Room::new(alloc, rows, symbols)
}

/// Takes the room, which is made for the terms where there is none yet.
fn taken(alloc: Global, terms: &[Minimal], room: &mut Option<Room>) -> Result<Room, NoMemory>
    requires { IsRoomOf terms.now room.old }
    ensures taken { IfOk result (IsRoomForAll terms.now) }
    ensures none { room.new ≡ None }
{
    match room.take() {
        Some(room) => Ok(room),
        None => room_for(alloc, terms),
    }
}

/// Whether the kept rows of the one term map into those of the other. The room is for all the terms.
fn maps<L: Ledger>(
    alloc: Global,
    terms: &[Minimal],
    one: &Minimal,
    other: &Minimal,
    room: &mut Option<Room>,
    steps: &mut Steps<L>,
) -> Result<bool, NoMemory>
    requires term { Contains terms.now one.now }
    requires alike { AreAlike one.now.tableau other.now.tableau }
    requires room { IsRoomOf terms.now room.old }
    ensures tells { IfOk result (λ maps. IsTrue maps ↔ Covers one.now other.now) }
    ensures room { IsRoomOf terms.now room.new }
{
    let (from, to) = (one.tableau(), other.tableau());
    from.keeps_its_rules();
    to.keeps_its_rules();
    let mut own = taken(alloc, terms, room)?;
    let found = exists(&mut own, from, one.mask(), to, other.mask(), steps);
    *room = Some(own);
    Ok(found)
}

/// Whether the one term covers the other. The room is for all the terms.
pub fn covers<L: Ledger>(
    alloc: Global,
    terms: &[Minimal],
    one: &Minimal,
    other: &Minimal,
    room: &mut Option<Room>,
    steps: &mut Steps<L>,
) -> Result<bool, NoMemory>
    requires term { Contains terms.now one.now }
    requires room { IsRoomOf terms.now room.old }
    ensures tells { IfOk result (λ covers. IsTrue covers ↔ Covers one.now other.now) }
    ensures room { IsRoomOf terms.now room.new }
{
    let (from, to) = (one.tableau(), other.tableau());
    from.keeps_its_rules();
    to.keeps_its_rules();
    if !are_alike(from, to) {
        return Ok(false);
    }
    if !heads_fit(from.head(), to.head()) {
        return Ok(false);
    }
    maps(alloc, terms, one, other, room, steps)
}

/// The first mapping of the kept rows of the one term into those of the other, which it covers. The
/// room is for all the terms.
pub fn first_mapping<L: Ledger>(
    alloc: Global,
    terms: &[Minimal],
    one: &Minimal,
    other: &Minimal,
    room: &mut Option<Room>,
    steps: &mut Steps<L>,
) -> Result<Mapping, NoMemory>
    requires term { Contains terms.now one.now }
    requires covers { Covers one.now other.now }
    requires room { IsRoomOf terms.now room.old }
    ensures first { IfOk result (IsFirstMapping one.now other.now) }
    ensures room { IsRoomOf terms.now room.new }
{
    let (from, to) = (one.tableau(), other.tableau());
    from.keeps_its_rules();
    to.keeps_its_rules();
    let mut own = taken(alloc, terms, room)?;
    // Never false, where the one covers the other.
    first(&mut own, from, one.mask(), to, other.mask(), steps);
    let mapping = certify(alloc, &own, from, one.mask(), to, other.mask())?;
    *room = Some(own);
    Ok(mapping)
}
