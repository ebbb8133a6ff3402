//! What a search reads.
ghost use Rattle.std.specs.Prelude.{◌≡◌, ◌≢◌, ◌<◌, ◌≤◌, ◌+◌, ◌*◌, ℕ, List as Items, length, get_or, IfOk, IsTrue, IsFalse};
ghost use Rattle.std.specs.Int.{bit_at};
ghost use Rattle.su_tableau.specs.Tableaux.{AreVarsBelow};
ghost use Rattle.su_map.specs.Lists.{IsMapping};
ghost use Rattle.su_map.specs.Candidates.{KeepsConstants, MapAlike};
ghost use Rattle.su_map.specs.inside.Netted.{Netted, HasRoom, base_of, near_of, agree_of};
ghost use Rattle.su_map.specs.inside.Nets.{HasBase, HasNear, IsNet};
ghost use Rattle.su_map.specs.inside.RoomParts.{AreRoomy};
ghost use Rattle.su_map.specs.inside.Sendings.{AreRows, IsSending};
ghost use Rattle.su_map.specs.inside.Targets.{AreNoted, AreSides, AreAllTold};

use crate::columns::line_fits;
use crate::notes::Notes;
use crate::sides::{Sides, fill_alike};
use crate::singles::narrow;
use crate::tables::{fill_agree, fill_near, note_rows};
use crate::targets::fill_base;
use std::alloc::{AllocError, Global};
use std::marker::Model;
use su_base::NoMemory;
use su_tableau::Tableau;

/// For each row its targets and the rows that share a variable with it, and for each of these and
/// each target the targets that agree.
#[derive(Drop)]
pub struct Net {
    base: Vec<u64>,
    near: Vec<u64>,
    agree: Vec<u64>,
    targets: usize,
}

impl Model for Net {
    ghost use Rattle.std.specs.Prelude.{◌≤◌};
    ghost use Rattle.su_map.specs.inside.Netted.{Netted};

    ghost Value = { Netted };

    ghost view = { λ n. record { base = n.base.items; near = n.near.items; agree = n.agree.items; targets = n.targets } };

    ghost invariant = { λ n. n.targets ≤ 64 };
}

impl Net {
    /// Room for a net of so many rows.
    pub fn new(alloc: Global, rows: usize) -> Result<Net, NoMemory>
        requires { rows ≤ 64 }
        ensures { IfOk result (λ net. HasRoom rows net) }
    {
        Ok(Net {
            base: vec![in alloc; 0; rows].map_err(AllocError::from)?,
            near: vec![in alloc; 0; rows].map_err(AllocError::from)?,
            agree: vec![in alloc; 0; rows * 4096].map_err(AllocError::from)?,
            targets: 0,
        })
    }

    /// How many targets there are.
    pub fn targets(&self) -> usize
        ensures is { result ≡ self.now.targets }
        ensures small { result ≤ 64 }
    {
        self.targets
    }

    /// The targets of a row by itself.
    pub fn base(&self, row: usize) -> u64
        requires { row < length self.now.base }
        ensures { result ≡ base_of self.now row }
    {
        self.base[row]
    }

    /// The rows that share a variable with a row.
    pub fn near(&self, row: usize) -> u64
        requires { row < length self.now.near }
        ensures { result ≡ near_of self.now row }
    {
        self.near[row]
    }

    /// The targets of the other row that agree with the target of the row.
    pub fn agree(&self, row: usize, other: usize, target: usize) -> u64
        requires row { (row + 1) * 4096 ≤ length self.now.agree }
        requires other { other < 64 }
        requires target { target < 64 }
        ensures { result ≡ agree_of self.now row other target }
    {
        self.agree[row * 4096 + other * 64 + target]
    }

    /// Fills the net for the masked rows of both tableaux. False: there is no mapping.
    pub fn fill(
        &mut self,
        notes: &mut Notes,
        from: &Tableau,
        from_mask: u64,
        to: &Tableau,
        to_mask: u64,
    ) -> bool
        requires room { HasRoom (length from.now.rows) self.old }
        requires notes { AreRoomy (length from.now.rows) notes.old }
        requires symbols { AreVarsBelow (length notes.old.rows_of.items) from.now }
        requires width { from.now.width ≡ to.now.width }
        requires heads { length from.now.head ≡ length to.now.head }
        ensures net { IsTrue result → IsNet from.now from_mask to.now to_mask self.new }
        ensures none { IsFalse result → (list : Items ℕ) → IsMapping from.now from_mask to.now to_mask list → ⊥ }
        ensures room { (n : ℕ) → HasRoom n self.old → HasRoom n self.new }
        ensures notes { (n : ℕ) → AreRoomy n notes.old → AreRoomy n notes.new }
        ensures symbols { length notes.new.rows_of.items ≡ length notes.old.rows_of.items }
    {
        from.keeps_its_rules();
        to.keeps_its_rules();
        self.targets = to.row_count();
        if !fill_own(
            &mut self.base,
            &mut self.near,
            &mut notes.rows_of,
            from,
            from_mask,
            to,
            to_mask,
        ) {
            return false;
        }
        if !are_any(&self.near, from.row_count()) {
            return true;
        }
        fill_alike(&mut notes.alike, &mut notes.rows_at, to);
        let sides = Sides {
            from,
            mask: from_mask,
            to,
            rows_of: &notes.rows_of,
            alike: &notes.alike,
        };
        fill_pairs(
            &mut self.agree,
            &mut notes.columns,
            &mut notes.domains,
            &sides,
            &self.base,
            &self.near,
        )
    }
}

/// Copies the targets of so many rows.
fn copy_targets(domains: &mut [u64], base: &[u64], rows: usize)
    requires domains { rows ≤ length domains.old }
    requires base { rows ≤ length base.now }
    ensures { (i : ℕ) → i < rows → get_or domains.new i 0 ≡ get_or base.now i 0 }
{
    for i in 0..rows {
        let targets = base[i];
        domains[i] = targets;
    }
}

/// Whether some of the first sets, so many, has a member.
fn are_any(sets: &[u64], count: usize) -> bool
    requires { count ≤ length sets.now }
    ensures { IsFalse result → (i : ℕ) → i < count → get_or sets.now i 0 ≡ 0 }
{
    for i in 0..count {
        if sets[i] != 0 {
            return true;
        }
    }
    false
}

/// Fills the targets of each masked row by itself, and the rows that share a variable with it. False:
/// there is no mapping.
fn fill_own(
    base: &mut [u64],
    near: &mut [u64],
    rows_of: &mut [u64],
    from: &Tableau,
    from_mask: u64,
    to: &Tableau,
    to_mask: u64,
) -> bool
    requires base { length from.now.rows ≤ length base.old }
    requires near { length from.now.rows ≤ length near.old }
    requires symbols { AreVarsBelow (length rows_of.old) from.now }
    requires width { from.now.width ≡ to.now.width }
    requires heads { length from.now.head ≡ length to.now.head }
    ensures heads { IsTrue result → KeepsConstants from.now.head to.now.head × MapAlike from.now.head to.now.head from.now.head to.now.head }
    ensures base { IsTrue result → HasBase from.now from_mask to.now to_mask base.new }
    ensures near { IsTrue result → HasNear from.now from_mask near.new }
    ensures noted { IsTrue result → AreNoted from.now from_mask rows_of.new }
    ensures none { IsFalse result → (list : Items ℕ) → IsMapping from.now from_mask to.now to_mask list → ⊥ }
{
    if !line_fits(from.head(), to.head()) {
        return false;
    }
    let repeating = note_rows(rows_of, from, from_mask);
    if !fill_base(base, from, from_mask, repeating, to, to_mask) {
        return false;
    }
    fill_near(near, rows_of, from, from_mask);
    true
}

/// Fills the targets that agree, the largest table, if the rows that have one target leave each other
/// row one. False: there is no mapping.
fn fill_pairs(
    agree: &mut [u64],
    columns: &mut [Option<usize>],
    domains: &mut [u64],
    sides: &Sides,
    base: &[u64],
    near: &[u64],
) -> bool
    requires room { length sides.now.from.now.rows * 4096 ≤ length agree.old }
    requires columns { sides.now.from.now.width ≤ length columns.old }
    requires domains { length sides.now.from.now.rows ≤ length domains.old }
    requires sides { AreSides sides.now.from.now sides.now.mask sides.now.to.now sides.now.rows_of.now sides.now.alike.now }
    requires base { length sides.now.from.now.rows ≤ length base.now }
    requires near { length sides.now.from.now.rows ≤ length near.now }
    requires rows { AreRows sides.now.from.now sides.now.mask sides.now.to.now base.now }
    ensures agree { IsTrue result → AreAllTold sides.now.from.now sides.now.mask sides.now.to.now base.now near.now agree.new }
    ensures none { IsFalse result → (a : ℕ → ℕ) → IsSending sides.now.from.now sides.now.mask sides.now.to.now base.now a → ⊥ }
{
    copy_targets(domains, base, sides.from.row_count());
    if !narrow(domains, columns, sides, near) {
        return false;
    }
    fill_agree(agree, columns, sides, base, near);
    true
}
