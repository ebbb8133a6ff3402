//! The room of a search, and the searches in it.
ghost use Rattle.std.specs.Prelude.{◌≡◌, ◌≤◌, ◌<◌, ◌+◌, ◌*◌, ◌↔◌, ◌⊎◌, ℕ, Bool, IsTrue, IsFalse, IfOk, IfSome, None, List as Items, length, get_or, take, map};
ghost use Rattle.std.specs.Int.{bit_at};
ghost use Rattle.su_tableau.specs.Kinds.{Kinds};
ghost use Rattle.su_tableau.specs.Parts.{part};
ghost use Rattle.su_tableau.specs.Equivalent.{IsWithin};
ghost use Rattle.su_map.specs.declared.search.Order.TheVariants.{Ascending};
ghost use Rattle.su_map.specs.Lists.{IsMapping, IsFirst, numbers_of};
ghost use Rattle.su_map.specs.Candidates.{IsWithinProducts};
ghost use Rattle.su_map.specs.Laws.{TellsContainment};
ghost use Rattle.su_map.specs.Rooms.{IsRoomFor, HasSizesOf, IsPreparedFor, StaysPrepared};
ghost use Rattle.su_map.specs.inside.Netted.{HasRoom, base_of};
ghost use Rattle.su_map.specs.inside.Choices.{IsChoiceInto, choice_of, IsFound, IsFirstOf};
ghost use Rattle.su_map.specs.inside.SearchEnds.{AreAtStart, LacksTarget, IsWithinTriesInto};

use crate::aims::Aim;
use crate::domains::propagate;
use crate::mappings::Mapping;
use crate::nets::Net;
use crate::notes::{Notes, zeros};
use crate::search::{Order, search};
use std::alloc::{AllocError, Global};
use std::marker::Model;
use std::sync::ledger::Ledger;
use su_base::{List, NoMemory, Steps};
use su_tableau::{Tableau, both, full, has};

/// What a search reads and writes, so that it takes no memory: 33 KiB per row, 66 KiB for the columns
/// and 16 bytes per variable.
#[derive(Drop)]
pub struct Room {
    rows: usize,
    net: Net,
    notes: Notes,
    domains: Vec<u64>,
    levels: Vec<u64>,
    choice: Vec<u8>,
    list: Vec<u8>,
    count: usize,
}

impl Model for Room {
    ghost use Rattle.std.specs.Prelude.{◌≡◌, ◌≤◌, ◌*◌, length, take};
    ghost use Rattle.su_map.specs.Rooms.{Space};
    ghost use Rattle.su_map.specs.inside.Netted.{HasRoom};
    ghost use Rattle.su_map.specs.inside.RoomParts.{IsSound};

    ghost Value = { Space };

    ghost view = { λ r. record { rows = r.rows; symbols = length r.notes.rows_of.items; list = take r.count r.list.items; net = r.net } };

    ghost invariant = { λ r. IsSound r.net r.notes r.rows
        (length r.list.items) (length r.domains.items) (length r.levels.items) (length r.choice.items)
        r.count };
}

impl Room {
    /// Room for tableaux of so many rows and variables; no tableau has more than 64 rows.
    pub fn new(alloc: Global, rows: usize, symbols: usize) -> Result<Room, NoMemory>
        ensures { IfOk result (λ room. (room.rows ≡ rows) × (room.symbols ≡ symbols)) }
    {
        let tables = rows.min(64);
        Ok(Room {
            rows,
            net: Net::new(alloc, tables)?,
            notes: Notes::new(alloc, tables, symbols)?,
            domains: zeros(alloc, tables)?,
            levels: zeros(alloc, tables * tables)?,
            choice: vec![in alloc; 0; tables].map_err(AllocError::from)?,
            list: vec![in alloc; 0; tables].map_err(AllocError::from)?,
            count: 0,
        })
    }

    /// The row list that the last search found. It means nothing after an answer false.
    pub fn list(&self) -> &[u8]
        ensures { result.now ≡ self.now.list }
    {
        &self.list[..self.count]
    }
}

/// Fills the room's tables for the masked rows of both tableaux, for `exists_prepared` and
/// `first_prepared`. False: no list is a mapping.
pub fn prepare(room: &mut Room, from: &Tableau, from_mask: u64, to: &Tableau, to_mask: u64) -> bool
    requires room { IsRoomFor from.now room.old }
    requires width { from.now.width ≡ to.now.width }
    requires heads { length from.now.head ≡ length to.now.head }
    ensures prepared { IsTrue result → IsPreparedFor from.now from_mask to.now to_mask room.new }
    ensures none { IsFalse result → (list : Items ℕ) → IsMapping from.now from_mask to.now to_mask list → ⊥ }
    ensures sizes { HasSizesOf room.old room.new }
{
    from.keeps_its_rules();
    let notes = &mut room.notes;
    room.net.fill(notes, from, from_mask, to, to_mask)
}

/// The domains at the start, and whether each row has a target.
fn begin(net: &Net, rows: u64, to_mask: u64, domains: &mut [u64]) -> bool
    requires room { HasRoom (length domains.old) net.now }
    requires rows { length domains.old ≤ 64 }
    ensures domains { IsTrue result → AreAtStart net.now (length domains.old) rows to_mask domains.new }
    ensures none { IsFalse result → LacksTarget net.now (length domains.old) rows to_mask }
{
    for r in 0..domains.len() {
        if has(rows, r) {
            let left = both(net.base(r), to_mask);
            if left == 0 {
                return false;
            }
            domains[r] = left;
        }
    }
    true
}

/// Moves the targets of the rows in the mask to the front of the list; how many these are.
fn gather(list: &mut [u8], choice: &[u8], mask: u64) -> usize
    requires rows { length choice.now ≤ 64 }
    requires room { length choice.now ≤ length list.old }
    ensures within { result ≤ length choice.now }
    ensures is { take result list.new ≡ map (choice_of choice.now) (numbers_of mask (length choice.now)) }
{
    let mut count = 0;
    for r in 0..choice.len() {
        if has(mask, r) {
            list[count] = choice[r];
            count += 1;
        }
    }
    count
}

/// The search in the parts of the room that the rows need, and the targets that it chose as a list:
/// how many these are, or none where no choice sends the masked rows into the masked targets.
fn settle<L: Ledger>(
    aim: &Aim,
    to_mask: u64,
    domains: &mut [u64],
    levels: &mut [u64],
    choice: &mut [u8],
    list: &mut [u8],
    steps: &mut Steps<L>,
) -> Option<usize>
    requires net { HasRoom aim.now.rows aim.now.net.now }
    requires rows { aim.now.rows ≤ 64 }
    requires domains { aim.now.rows ≤ length domains.old }
    requires choice { aim.now.rows ≤ length choice.old }
    requires list { aim.now.rows ≤ length list.old }
    requires levels { aim.now.rows * aim.now.rows ≤ length levels.old }
    requires targets { (r x : ℕ) → r < aim.now.rows → bit_at aim.now.mask r ≡ 1 → bit_at (base_of aim.now.net.now r) x ≡ 1 → x < aim.now.net.now.targets }
    ensures within { IfSome result (λ count. count ≤ aim.now.rows) }
    ensures found { IfSome result (λ count. IsFound aim.now.net.now aim.now.rows aim.now.mask to_mask (take count list.new)) }
    ensures first { IfSome result (λ count. aim.now.order ≡ Ascending → IsFirstOf aim.now.net.now aim.now.rows aim.now.mask to_mask (take count list.new)) }
    ensures none { result ≡ None → (other : ℕ → ℕ) → IsChoiceInto aim.now.net.now aim.now.rows aim.now.mask to_mask other → ⊥ }
    ensures cost { IsWithinTriesInto aim.now.order aim.now.net.now aim.now.rows aim.now.mask to_mask steps.old steps.new }
{
    let rows = both(aim.mask, full(aim.rows));
    let domains = &mut domains[..aim.rows];
    let choice = &mut choice[..aim.rows];
    if !begin(aim.net, rows, to_mask, domains) {
        return None;
    }
    if !propagate(aim.net, rows, rows, domains) {
        return None;
    }
    let within = Aim {
        net: aim.net,
        rows: aim.rows,
        mask: rows,
        order: aim.order,
    };
    if !search(&within, rows, domains, levels, choice, steps) {
        return None;
    }
    Some(gather(list, choice, aim.mask))
}

/// The search over the tables that were prepared.
fn search_in<L: Ledger>(
    room: &mut Room,
    from: &Tableau,
    from_mask: u64,
    to: &Tableau,
    to_mask: u64,
    order: Order,
    steps: &mut Steps<L>,
) -> bool
    requires room { IsRoomFor from.now room.old }
    requires width { from.now.width ≡ to.now.width }
    requires heads { length from.now.head ≡ length to.now.head }
    requires prepared { IsPreparedFor from.now from_mask to.now to_mask room.old }
    ensures found { IsTrue result → IsMapping from.now from_mask to.now to_mask room.new.list }
    ensures first { IsTrue result → order ≡ Ascending → IsFirst from.now from_mask to.now to_mask room.new.list }
    ensures none { IsFalse result → (list : Items ℕ) → IsMapping from.now from_mask to.now to_mask list → ⊥ }
    ensures cost { order ≡ Ascending → IsWithinProducts from.now from_mask to.now to_mask steps.old steps.new }
    ensures sizes { HasSizesOf room.old room.new }
    ensures net { room.new.net ≡ room.old.net }
{
    from.keeps_its_rules();
    to.keeps_its_rules();
    let aim = Aim {
        net: &room.net,
        rows: from.row_count(),
        mask: from_mask,
        order,
    };
    let Some(count) = settle(
        &aim,
        to_mask,
        &mut room.domains,
        &mut room.levels,
        &mut room.choice,
        &mut room.list,
        steps,
    ) else {
        return false;
    };
    room.count = count;
    true
}

/// Whether the masked rows of one tableau have a mapping into the masked rows of the other; the
/// room's list is then the first row list of a mapping, in lexicographic order. One step is counted
/// per row and candidate tried: exponential in the rows at worst.
pub fn first<L: Ledger>(
    room: &mut Room,
    from: &Tableau,
    from_mask: u64,
    to: &Tableau,
    to_mask: u64,
    steps: &mut Steps<L>,
) -> bool
    requires room { IsRoomFor from.now room.old }
    requires width { from.now.width ≡ to.now.width }
    requires heads { length from.now.head ≡ length to.now.head }
    ensures found { IsTrue result → IsFirst from.now from_mask to.now to_mask room.new.list }
    ensures none { IsFalse result ↔ ((list : Items ℕ) → IsMapping from.now from_mask to.now to_mask list → ⊥) }
    ensures contains { TellsContainment result from.now from_mask to.now to_mask }
    ensures cost { IsWithinProducts from.now from_mask to.now to_mask steps.old steps.new }
    ensures sizes { HasSizesOf room.old room.new }
{
    prepare(room, from, from_mask, to, to_mask)
        && search_in(room, from, from_mask, to, to_mask, Order::Ascending, steps)
}

/// The same in a room that is prepared for these rows.
pub fn first_prepared<L: Ledger>(
    room: &mut Room,
    from: &Tableau,
    from_mask: u64,
    to: &Tableau,
    to_mask: u64,
    steps: &mut Steps<L>,
) -> bool
    requires room { IsRoomFor from.now room.old }
    requires width { from.now.width ≡ to.now.width }
    requires heads { length from.now.head ≡ length to.now.head }
    requires prepared { IsPreparedFor from.now from_mask to.now to_mask room.old }
    ensures found { IsTrue result → IsFirst from.now from_mask to.now to_mask room.new.list }
    ensures none { IsFalse result ↔ ((list : Items ℕ) → IsMapping from.now from_mask to.now to_mask list → ⊥) }
    ensures cost { IsWithinProducts from.now from_mask to.now to_mask steps.old steps.new }
    ensures sizes { HasSizesOf room.old room.new }
    ensures prepared { StaysPrepared room.old room.new }
{
    search_in(room, from, from_mask, to, to_mask, Order::Ascending, steps)
}

/// Whether there is any mapping, in a room that is prepared for these rows. The rows are taken in
/// any order, those with the fewest targets first, so that hard cases end sooner than by `first`;
/// still exponential in the rows at worst. The room's list is then the row list of a mapping.
pub fn exists_prepared<L: Ledger>(
    room: &mut Room,
    from: &Tableau,
    from_mask: u64,
    to: &Tableau,
    to_mask: u64,
    steps: &mut Steps<L>,
) -> bool
    requires room { IsRoomFor from.now room.old }
    requires width { from.now.width ≡ to.now.width }
    requires heads { length from.now.head ≡ length to.now.head }
    requires prepared { IsPreparedFor from.now from_mask to.now to_mask room.old }
    ensures found { IsTrue result → IsMapping from.now from_mask to.now to_mask room.new.list }
    ensures none { IsFalse result ↔ ((list : Items ℕ) → IsMapping from.now from_mask to.now to_mask list → ⊥) }
    ensures sizes { HasSizesOf room.old room.new }
    ensures prepared { StaysPrepared room.old room.new }
{
    let order = Order::FewestFirst;
    search_in(room, from, from_mask, to, to_mask, order, steps)
}

/// Whether the masked rows of one tableau have any mapping into the masked rows of the other.
/// Exponential in the rows at worst.
pub fn exists<L: Ledger>(
    room: &mut Room,
    from: &Tableau,
    from_mask: u64,
    to: &Tableau,
    to_mask: u64,
    steps: &mut Steps<L>,
) -> bool
    requires room { IsRoomFor from.now room.old }
    requires width { from.now.width ≡ to.now.width }
    requires heads { length from.now.head ≡ length to.now.head }
    ensures found { IsTrue result → IsMapping from.now from_mask to.now to_mask room.new.list }
    ensures none { IsFalse result ↔ ((list : Items ℕ) → IsMapping from.now from_mask to.now to_mask list → ⊥) }
    ensures sizes { HasSizesOf room.old room.new }
{
    prepare(room, from, from_mask, to, to_mask)
        && exists_prepared(room, from, from_mask, to, to_mask, steps)
}

/// The mapping by the room's list, with copies of both tableaux.
pub fn certify(
    alloc: Global,
    room: &Room,
    from: &Tableau,
    from_mask: u64,
    to: &Tableau,
    to_mask: u64,
) -> Result<Mapping, NoMemory>
    requires { IsMapping from.now from_mask to.now to_mask room.now.list }
    ensures is { IfOk result (λ m. m ≡ record { from = from.now; from_mask = from_mask; to = to.now; to_mask = to_mask; list = room.now.list }) }
    ensures contains { IfOk result (λ m. (kinds : Kinds) → IsWithin kinds (part m.to m.to_mask) (part m.from m.from_mask)) }
{
    let list = List::from_vec(Vec::from_slice(alloc, room.list())?);
    Ok(Mapping::new(from.copy(alloc)?, from_mask, to.copy(alloc)?, to_mask, list))
}
