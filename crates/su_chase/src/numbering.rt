//! Symbols as items: the constants of the rows, ascending, each once, and then the variables.
ghost use Rattle.std.specs.Prelude.{◌≡◌, ◌↔◌, ℕ, ◌+◌, ◌<◌, ◌≤◌, ◌^◌, ◌++◌, IsTrue, [], length, map, flat_map, get_or, Contains, All, IfOk, OnOk};
ghost use Rattle.std.specs.List.Sorted.{IsStrictlySortedBy};
ghost use Rattle.std.specs.FinSet.{contains};
ghost use Rattle.su_base.specs.declared.values.Value.{Value as AValue};
ghost use Rattle.su_base.specs.Value.{compare_values};
ghost use Rattle.su_tableau.specs.Tableaux.{AreBelow};
ghost use Rattle.su_classes.specs.inside.Symbols.{constant_place, symbol_number};
ghost use Rattle.su_classes.specs.declared.items.Placed.{Placed as APlaced};
ghost use Rattle.su_chase.specs.inside.Rows.{constant_of, constants_in, IsPlacedRow};

use std::alloc::Global;
use su_base::{AttrSet, List, NoMemory, Value, sorted_values};
use su_classes::Placed;
use su_tableau::{Sym, above};

fn push_constant(alloc: Global, x: &Sym, constants: &mut List<Value>) -> Result<(), NoMemory>
    ensures { OnOk result (constants.new ≡ constants.old ++ constant_of x.now) }
{
    match x {
        Sym::Const(value) => {
            constants.push(value.copy(alloc)?)?;
            Ok(())
        }
        Sym::Var(_) => Ok(()),
    }
}

/// Adds copies of the row's constants.
fn push_constants(alloc: Global, row: &[Sym], constants: &mut List<Value>) -> Result<(), NoMemory>
    ensures { OnOk result (constants.new ≡ constants.old ++ flat_map constant_of row.now) }
{
    for x in row {
        push_constant(alloc, x, constants)?;
    }
    Ok(())
}

/// The constants of the rows, ascending, each once.
pub fn constants_of(alloc: Global, rows: &[List<Sym>]) -> Result<List<Value>, NoMemory>
    ensures all { IfOk result (λ vs. (c : AValue) → Contains vs c ↔ Contains (constants_in rows.now) c) }
    ensures ascending { IfOk result (IsStrictlySortedBy compare_values) }
{
    let mut constants = List::new(alloc);
    for row in rows {
        push_constants(alloc, row.as_slice(), &mut constants)?;
    }
    Ok(sorted_values(constants))
}

/// A number above the variables of the rows: the greatest one plus one, or 0.
pub fn limit_of(rows: &[List<Sym>]) -> usize
    ensures small { result ≤ 2 ^ 32 }
    ensures above { All (AreBelow result) rows.now }
{
    let mut top = 0;
    for row in rows {
        top = above(row.as_slice(), top);
    }
    top
}

/// The place of a constant, or their number where it is not there.
fn place(constants: &[Value], value: &Value) -> usize
    requires { IsStrictlySortedBy compare_values constants.now }
    ensures { result ≡ constant_place constants.now value.now }
{
    match constants.binary_search(value) {
        Ok(place) => place,
        Err(_) => constants.len(),
    }
}

/// The item of a symbol.
fn number(constants: &[Value], x: &Sym) -> usize
    requires { IsStrictlySortedBy compare_values constants.now }
    ensures { result ≡ symbol_number constants.now x.now }
{
    match x {
        Sym::Const(value) => place(constants, value),
        Sym::Var(k) => constants.len() + *k as usize,
    }
}

/// The items of a row's symbols.
fn items_of(alloc: Global, constants: &[Value], row: &[Sym]) -> Result<List<usize>, NoMemory>
    requires { IsStrictlySortedBy compare_values constants.now }
    ensures { IfOk result (λ items. items ≡ map (symbol_number constants.now) row.now) }
{
    let mut items = List::new(alloc);
    for x in row {
        items.push(number(constants, x))?;
    }
    Ok(items)
}

/// The attributes below the width.
pub fn attributes_below(width: u8) -> AttrSet
    requires { width ≤ 128 }
    ensures { (a : ℕ) → IsTrue (contains result a) ↔ (a < width) }
{
    let mut all = AttrSet::empty();
    for a in 0..width {
        all = all.insert(a);
    }
    all
}

/// The row of items of a row.
fn placed_row(alloc: Global, constants: &[Value], row: &[Sym]) -> Result<Placed, NoMemory>
    requires sorted { IsStrictlySortedBy compare_values constants.now }
    requires narrow { length row.now ≤ 128 }
    ensures { IfOk result (IsPlacedRow constants.now row.now) }
{
    let cells = items_of(alloc, constants, row)?;
    let has = attributes_below(row.len() as u8);
    Ok(Placed { has, cells })
}

/// The rows of items of these rows.
pub fn placed_rows(
    alloc: Global,
    constants: &[Value],
    rows: &[List<Sym>],
) -> Result<List<Placed>, NoMemory>
    requires sorted { IsStrictlySortedBy compare_values constants.now }
    requires narrow { All (λ row. length row ≤ 128) rows.now }
    ensures each { IfOk result (λ placed. length placed ≡ length rows.now) }
    ensures rows { IfOk result (λ placed. (i : ℕ) (d : APlaced) → i < length rows.now → IsPlacedRow constants.now (get_or rows.now i []) (get_or placed i d)) }
{
    let mut placed = List::new(alloc);
    for row in rows {
        placed.push(placed_row(alloc, constants, row.as_slice())?)?;
    }
    Ok(placed)
}
