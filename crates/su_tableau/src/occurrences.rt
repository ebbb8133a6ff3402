//! The essential columns of all rows at once.
ghost use Rattle.std.specs.Prelude.{◌≡◌, ◌≢◌, ◌+◌, ◌<◌, ◌≤◌, ◌↔◌, ◌⊎◌, ℕ, [], IsTrue, IfOk, OnOk, length, get_or, Contains};
ghost use Rattle.std.specs.Int.{bit_at};
ghost use Rattle.std.specs.FinSet as set;
ghost use Rattle.su_tableau.specs.declared.symbols.Sym.TheVariants.{Var};
ghost use Rattle.su_tableau.specs.declared.occurrences.Times.TheVariants.{Again};
ghost use Rattle.su_tableau.specs.Tableaux.{AreVarsBelow};
ghost use Rattle.su_tableau.specs.Essential.{IsEssential, AreEssential};
ghost use Rattle.su_tableau.specs.inside.Occurrences.{more, times_of, AreCounted, AreTold, IsNotedAt, CellHolds, IsTwice};

use crate::masks::has;
use crate::symbols::Sym;
use crate::tableaux::Tableau;
use std::alloc::{AllocError, Global};
use su_base::{AttrSet, List, NoMemory};

/// How often a variable was met.
#[derive(Clone, Copy)]
pub enum Times {
    Never,
    Once,
    Again,
}

impl Times {
    /// After one time more.
    fn more(self) -> Times
        ensures { result ≡ more self }
    {
        match self {
            Times::Never => Times::Once,
            Times::Once | Times::Again => Times::Again,
        }
    }

    fn is_again(self) -> bool
        ensures { IsTrue result ↔ (self ≡ Again) }
    {
        match self {
            Times::Never | Times::Once => false,
            Times::Again => true,
        }
    }
}

/// Notes that the symbol was met.
fn note(times: &mut [Times], x: &Sym)
    requires below { (k : ℕ) → x.now ≡ Var k → k < length times.old }
    ensures met { (k : ℕ) → x.now ≡ Var k → times_of times.new k ≡ more (times_of times.old k) }
    ensures others { (k : ℕ) → x.now ≢ Var k → times_of times.new k ≡ times_of times.old k }
{
    if let Sym::Var(k) = x {
        let met = times[*k as usize].more();
        times[*k as usize] = met;
    }
}

/// Notes each cell of a row of the mask.
fn note_row(times: &mut [Times], t: &Tableau, mask: u64, row: usize)
    requires row { row < length t.now.rows }
    requires in_mask { bit_at mask row ≡ 1 }
    requires below { AreVarsBelow (length times.old) t.now }
    requires counted { AreCounted t.now mask row 0 times.old }
    ensures { AreCounted t.now mask (row + 1) 0 times.new }
{
    t.keeps_its_rules();
    for cell in t.row(row) {
        note(times, cell);
    }
}

/// Notes each cell of the mask's rows.
fn note_rows(times: &mut [Times], t: &Tableau, mask: u64)
    requires { AreVarsBelow (length times.old) t.now }
    ensures { (k : ℕ) → (times_of times.new k ≡ Again) ↔ IsTwice (CellHolds t.now mask k) }
{
    t.keeps_its_rules();
    times.fill(Times::Never);
    for row in 0..t.row_count() {
        if has(mask, row) {
            note_row(times, t, mask, row);
        }
    }
}

/// Notes the symbol as one that was met again.
fn mark(times: &mut [Times], x: &Sym)
    requires below { (k : ℕ) → x.now ≡ Var k → k < length times.old }
    ensures marked { (k : ℕ) → x.now ≡ Var k → times_of times.new k ≡ Again }
    ensures others { (k : ℕ) → x.now ≢ Var k → times_of times.new k ≡ times_of times.old k }
{
    if let Sym::Var(k) = x {
        times[*k as usize] = Times::Again;
    }
}

/// Notes the head's variables as met again.
fn mark_head(times: &mut [Times], head: &[Sym])
    requires { (k : ℕ) → Contains head.now (Var k) → k < length times.old }
    ensures { (k : ℕ) → (times_of times.new k ≡ Again) ↔ (Contains head.now (Var k) ⊎ (times_of times.old k ≡ Again)) }
{
    for x in head {
        mark(times, x);
    }
}

/// Whether the symbol is a constant, or a variable that was met again.
fn is_noted(times: &[Times], x: &Sym) -> bool
    requires below { (k : ℕ) → x.now ≡ Var k → k < length times.now }
    ensures { IsTrue result ↔ IsNotedAt times.now x.now }
{
    match x {
        Sym::Const(_) => true,
        Sym::Var(k) => times[*k as usize].is_again(),
    }
}

/// The essential columns of a row of the mask.
fn columns_of(times: &[Times], t: &Tableau, mask: u64, row: usize) -> AttrSet
    requires row { row < length t.now.rows }
    requires in_mask { bit_at mask row ≡ 1 }
    requires below { AreVarsBelow (length times.now) t.now }
    requires told { AreTold t.now mask times.now }
    ensures { (c : ℕ) → IsTrue (set.contains result c) ↔ IsEssential t.now mask row c }
{
    t.keeps_its_rules();
    let mut columns = AttrSet::empty();
    for c in 0..t.width() {
        if is_noted(times, t.cell(row, c)) {
            columns = columns.insert(c);
        }
    }
    columns
}

/// The essential columns of a row, if it is one of the mask.
fn columns_at(times: &[Times], t: &Tableau, mask: u64, row: usize) -> AttrSet
    requires row { row < length t.now.rows }
    requires below { AreVarsBelow (length times.now) t.now }
    requires told { AreTold t.now mask times.now }
    ensures { bit_at mask row ≡ 1 → (c : ℕ) → IsTrue (set.contains result c) ↔ IsEssential t.now mask row c }
{
    t.keeps_its_rules();
    if !has(mask, row) {
        return AttrSet::empty();
    }
    columns_of(times, t, mask, row)
}

/// Tells which variables stand in the head or at two cells of the mask's rows.
fn tell(times: &mut [Times], t: &Tableau, mask: u64)
    requires { AreVarsBelow (length times.old) t.now }
    ensures { AreTold t.now mask times.new }
{
    note_rows(times, t, mask);
    mark_head(times, t.head());
}

/// Writes the essential columns of each row of the mask; what stands at other rows means nothing.
/// Two passes over these rows, and no memory: the symbols are counted in the first list.
pub fn fill_essential(times: &mut [Times], columns: &mut [AttrSet], t: &Tableau, mask: u64)
    requires symbols { AreVarsBelow (length times.old) t.now }
    requires rows { length t.now.rows ≤ length columns.old }
    ensures { AreEssential t.now mask columns.new }
{
    tell(times, t, mask);
    for row in 0..t.row_count() {
        let own = columns_at(times, t, mask, row);
        columns[row] = own;
    }
}

/// As many that were never met.
fn never_met(alloc: Global, count: usize) -> Result<Vec<Times>, NoMemory>
    ensures { IfOk result (λ times. length times.items ≡ count) }
{
    Ok(vec![in alloc; Times::Never; count].map_err(AllocError::from)?)
}

/// Pushes the essential columns of each row of the mask.
fn push_essential(
    all: &mut List<AttrSet>,
    times: &mut [Times],
    t: &Tableau,
    mask: u64,
) -> Result<(), NoMemory>
    requires symbols { AreVarsBelow (length times.old) t.now }
    requires empty { all.old ≡ [] }
    ensures rows { OnOk result (length all.new ≡ length t.now.rows) }
    ensures columns { OnOk result (AreEssential t.now mask all.new) }
{
    tell(times, t, mask);
    for row in 0..t.row_count() {
        all.push(columns_at(times, t, mask, row))?;
    }
    Ok(())
}

/// The essential columns of each row of the mask; what stands at other rows means nothing. Each
/// symbol is counted once, with memory for each.
pub fn all_essential(alloc: Global, t: &Tableau, mask: u64) -> Result<List<AttrSet>, NoMemory>
    ensures rows { IfOk result (λ columns. length columns ≡ length t.now.rows) }
    ensures columns { IfOk result (AreEssential t.now mask) }
{
    let mut times = never_met(alloc, t.symbols())?;
    let mut all = List::new(alloc);
    push_essential(&mut all, &mut times, t, mask)?;
    Ok(all)
}
