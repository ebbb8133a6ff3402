//! Which targets a row has by itself, and which targets of two rows agree.
ghost use Rattle.std.specs.Prelude.{◌≡◌, ◌≤◌, ◌<◌, ◌^◌, ◌↔◌, ℕ, IfOk, IsTrue, [], length, get_or};
ghost use Rattle.std.specs.Int.{bit_at};
ghost use Rattle.su_map.specs.Lists.{row_of};
ghost use Rattle.su_check.specs.inside.Agreement.{KeepsConstants, GoAlike, Goes};
ghost use Rattle.su_refute.specs.inside.Nets.{AreWithin, AreShared, AgreeInPlaces, IsSetOf, IsBase, AreTold, AreToldOf, IsNet};

use crate::places::{Places, agree_at, shared};
use std::alloc::Global;
use su_base::{List, NoMemory};
use su_tableau::{Sym, Tableau, has, with};

/// For each kept row its targets by itself, and for each of its targets the targets of each row that agree.
#[derive(Drop)]
pub struct Net {
    pub base: List<u64>,
    pub agree: List<List<List<u64>>>,
}

/// Whether the target has the row's constants.
fn keeps_constants(row: &[Sym], target: &[Sym]) -> bool
    requires { length row.now ≤ length target.now }
    ensures { IsTrue result ↔ KeepsConstants row.now target.now }
{
    for c in 0..row.len() {
        if let Sym::Const(_) = &row[c] {
            if !row[c].same(&target[c]) {
                return false;
            }
        }
    }
    true
}

/// Whether the row goes to the target by itself, beside the head: these are the places of the row
/// with itself, and of the head with the row.
fn goes(head: &[Sym], row: &[Sym], target: &[Sym], own: &[Places], heads: &[Places]) -> bool
    requires same { length row.now ≡ length target.now }
    requires own { AreShared row.now row.now own.now }
    requires heads { AreShared head.now row.now heads.now }
    ensures { IsTrue result ↔ Goes head.now row.now target.now }
{
    if !keeps_constants(row, target) {
        return false;
    }
    if !agree_at(own, target, target) {
        return false;
    }
    agree_at(heads, head, target)
}

/// The targets to which the row goes by itself.
fn base_of(alloc: Global, t: &Tableau, mask: u64, row: usize) -> Result<u64, NoMemory>
    requires { row < length t.now.rows }
    ensures { IfOk result (λ set. IsBase t.now mask row set) }
{
    let head = t.head();
    let cells = t.row(row);
    let own = shared(alloc, cells, cells)?;
    let heads = shared(alloc, head, cells)?;
    let mut set = 0;
    for i in 0..t.row_count() {
        if has(mask, i) && goes(head, cells, t.row(i), own.as_slice(), heads.as_slice()) {
            set = with(set, i);
        }
    }
    Ok(set)
}

/// The rows in the mask that hold what the target holds at the places.
fn agreeing(places: &[Places], target: &[Sym], t: &Tableau, mask: u64) -> u64
    requires target { length target.now ≡ t.now.width }
    requires places { AreWithin t.now.width t.now.width places.now }
    requires mask { mask < 2 ^ length t.now.rows }
    ensures { IsSetOf t.now mask (λ i. AgreeInPlaces places.now target.now (row_of t.now i)) result }
{
    if places.is_empty() {
        return mask;
    }
    let mut set = 0;
    for i in 0..t.row_count() {
        if has(mask, i) && agree_at(places, target, t.row(i)) {
            set = with(set, i);
        }
    }
    set
}

/// For each row its places with this row.
fn all_shared(alloc: Global, t: &Tableau, row: usize) -> Result<List<List<Places>>, NoMemory>
    requires { row < length t.now.rows }
    ensures one_each { IfOk result (λ lists. length lists ≡ length t.now.rows) }
    ensures shared { IfOk result (λ lists. (q : ℕ) → q < length t.now.rows → AreShared (row_of t.now row) (row_of t.now q) (get_or lists q [])) }
{
    let cells = t.row(row);
    let mut lists = List::new(alloc);
    for q in 0..t.row_count() {
        lists.push(shared(alloc, cells, t.row(q))?)?;
    }
    Ok(lists)
}

/// For each row its targets that agree with this target of this row.
fn told(
    alloc: Global,
    t: &Tableau,
    mask: u64,
    row: usize,
    target: usize,
    lists: &[List<Places>],
) -> Result<List<u64>, NoMemory>
    requires row { row < length t.now.rows }
    requires target { target < length t.now.rows }
    requires mask { mask < 2 ^ length t.now.rows }
    requires one_each { length lists.now ≡ length t.now.rows }
    requires shared { (q : ℕ) → q < length t.now.rows → AreShared (row_of t.now row) (row_of t.now q) (get_or lists.now q []) }
    ensures { IfOk result (AreTold t.now mask row target) }
{
    t.keeps_its_rules();
    let mut sets = List::new(alloc);
    for list in lists {
        sets.push(agreeing(list.as_slice(), t.row(target), t, mask))?;
    }
    Ok(sets)
}

/// For each target of this row and each row its targets that agree.
fn told_of(alloc: Global, t: &Tableau, mask: u64, row: usize) -> Result<List<List<u64>>, NoMemory>
    requires row { row < length t.now.rows }
    requires mask { mask < 2 ^ length t.now.rows }
    ensures { IfOk result (AreToldOf t.now mask row) }
{
    let shared = all_shared(alloc, t, row)?;
    let mut lists = List::new(alloc);
    for target in 0..t.row_count() {
        lists.push(told(alloc, t, mask, row, target, shared.as_slice())?)?;
    }
    Ok(lists)
}

/// What a net has of one row: nothing if it isn't in the mask.
fn of_row(
    alloc: Global,
    t: &Tableau,
    mask: u64,
    row: usize,
) -> Result<(u64, List<List<u64>>), NoMemory>
    requires row { row < length t.now.rows }
    requires small { row < 64 }
    requires mask { mask < 2 ^ length t.now.rows }
    ensures base { IfOk result (λ x. bit_at mask row ≡ 1 → IsBase t.now mask row x.0) }
    ensures agree { IfOk result (λ x. bit_at mask row ≡ 1 → AreToldOf t.now mask row x.1) }
{
    if !has(mask, row) {
        return Ok((0, List::new(alloc)));
    }
    Ok((base_of(alloc, t, mask, row)?, told_of(alloc, t, mask, row)?))
}

impl Net {
    /// The net of the kept rows. For each two of them it takes the places that they share, and for
    /// each of their targets, where they share any, a test of each place: at most the fourth power
    /// of the rows times the places.
    pub fn of(alloc: Global, t: &Tableau, mask: u64) -> Result<Net, NoMemory>
        requires { mask < 2 ^ length t.now.rows }
        ensures { IfOk result (IsNet t.now mask) }
    {
        let mut base = List::new(alloc);
        let mut agree = List::new(alloc);
        for row in 0..t.row_count() {
            let (targets, lists) = of_row(alloc, t, mask, row)?;
            base.push(targets)?;
            agree.push(lists)?;
        }
        Ok(Net { base, agree })
    }

    /// For each row its targets that agree with this target of this row.
    pub fn agree(&self, row: usize, target: usize) -> &[u64]
        requires row { row < length self.now.agree }
        requires target { target < length (get_or self.now.agree row []) }
        ensures { result.now ≡ get_or (get_or self.now.agree row []) target [] }
    {
        self.agree.as_slice()[row].as_slice()[target].as_slice()
    }
}
