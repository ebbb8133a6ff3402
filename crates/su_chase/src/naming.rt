//! The classes of rows of symbols, their names and their clash.
ghost use Rattle.std.specs.Prelude.{◌≡◌, ◌↔◌, ℕ, ◌+◌, ◌<◌, ◌≤◌, ◌^◌, length, get_or, Contains, All, IfOk, MatchOption};
ghost use Rattle.std.specs.List.Sorted.{IsStrictlySortedBy};
ghost use Rattle.su_base.specs.declared.values.Value.{Value as AValue};
ghost use Rattle.su_base.specs.Value.{compare_values};
ghost use Rattle.su_tableau.specs.declared.symbols.Sym.TheVariants.{Var};
ghost use Rattle.su_tableau.specs.Tableaux.{AreBelow};
ghost use Rattle.su_classes.specs.Tables.{rep};
ghost use Rattle.su_chase.specs.Chase.{IsClassName, IsConsistent, IsClash};
ghost use Rattle.su_chase.specs.Chased.{AreRows};
ghost use Rattle.su_chase.specs.inside.Rows.{constants_in, IsTableOf, IsFirstClash, TakesLesser, ClashesAt, AreNamesBelow};

use crate::numbering::{constants_of, limit_of, placed_rows};
use std::alloc::Global;
use su_base::{List, NoMemory, Value};
use su_classes::symbol_at;
use su_fd::Fd;
use su_tableau::Sym;

/// The name of each variable by its number, and the clash: the least constant that shares its class
/// with another one, and the least such other.
#[derive(Debug, Drop)]
pub struct Closed {
    pub names: List<Sym>,
    pub clash: Option<(Value, Value)>,
}

/// The table of representatives of the rows' items.
fn table_of(
    alloc: Global,
    fds: &[Fd],
    rows: &[List<Sym>],
    constants: &[Value],
    limit: usize,
) -> Result<Vec<usize>, NoMemory>
    requires rows { AreRows fds.now rows.now }
    requires all { (c : AValue) → Contains constants.now c ↔ Contains (constants_in rows.now) c }
    requires ascending { IsStrictlySortedBy compare_values constants.now }
    requires small { limit ≤ 2 ^ 32 }
    requires above { All (AreBelow limit) rows.now }
    ensures { IfOk result (λ table. IsTableOf constants.now limit fds.now rows.now table.items) }
{
    let placed = placed_rows(alloc, constants, rows)?;
    let mut table = Vec::from_elem(alloc, 0, constants.len() + limit)?;
    su_classes::close(alloc, &mut table, &[], fds, placed.as_slice())?;
    Ok(table)
}

/// The one of the two items that has the lesser representative; the one found so far, where they have
/// one.
fn lesser(table: &[usize], found: Option<usize>, i: usize) -> Option<usize>
    requires within { i < length table.now }
    requires found { MatchOption found (0 ≤ 0) (λ g. g < length table.now) }
    ensures { TakesLesser table.now found i result }
{
    match found {
        Some(g) => {
            if table[i] < table[g] {
                Some(i)
            } else {
                Some(g)
            }
        }
        None => Some(i),
    }
}

/// Of the first `count` items with a lesser representative, the first one with the least.
fn first_clash(table: &[usize], count: usize) -> Option<usize>
    requires count { count ≤ length table.now }
    requires below { (i : ℕ) → i < count → rep table.now i ≤ i }
    ensures { IsFirstClash count table.now result }
{
    let mut found = None;
    for i in 0..count {
        if table[i] < i {
            found = lesser(table, found, i);
        }
    }
    found
}

/// The two constants that clash, where there are such.
fn clash_of(
    alloc: Global,
    constants: &[Value],
    table: &[usize],
) -> Result<Option<(Value, Value)>, NoMemory>
    requires count { length constants.now ≤ length table.now }
    requires below { (i : ℕ) → i < length constants.now → rep table.now i ≤ i }
    ensures { IfOk result (ClashesAt constants.now table.now) }
{
    match first_clash(table, constants.len()) {
        Some(greater) => {
            let less = constants[table[greater]].copy(alloc)?;
            Ok(Some((less, constants[greater].copy(alloc)?)))
        }
        None => Ok(None),
    }
}

/// The names of the variables below the limit, by a table of representatives.
fn names_of(
    alloc: Global,
    constants: &[Value],
    table: &[usize],
    limit: usize,
) -> Result<List<Sym>, NoMemory>
    requires size { length table.now ≡ length constants.now + limit }
    requires small { limit ≤ 2 ^ 32 }
    requires below { (i : ℕ) → i < length table.now → rep table.now i ≤ i }
    ensures each { IfOk result (λ names. length names ≡ limit) }
    ensures names { IfOk result (AreNamesBelow limit constants.now table.now) }
{
    let mut names = List::new(alloc);
    for k in 0..limit {
        names.push(symbol_at(alloc, constants, table[constants.len() + k])?)?;
    }
    Ok(names)
}

/// As `close`, by the constants of the rows.
fn close_by(
    alloc: Global,
    fds: &[Fd],
    rows: &[List<Sym>],
    constants: &[Value],
) -> Result<Closed, NoMemory>
    requires rows { AreRows fds.now rows.now }
    requires all { (c : AValue) → Contains constants.now c ↔ Contains (constants_in rows.now) c }
    requires ascending { IsStrictlySortedBy compare_values constants.now }
    ensures all { IfOk result (λ c. All (AreBelow (length c.names)) rows.now) }
    ensures names { IfOk result (λ c. (k : ℕ) → k < length c.names → IsClassName fds.now rows.now (Var k) (get_or c.names k (Var k))) }
    ensures clash { IfOk result (λ c. MatchOption c.clash (IsConsistent fds.now rows.now) (λ p. IsClash fds.now rows.now p.0 p.1)) }
{
    let limit = limit_of(rows);
    let table = table_of(alloc, fds, rows, constants, limit)?;
    let table = table.as_slice();
    let clash = clash_of(alloc, constants, table)?;
    let names = names_of(alloc, constants, table, limit)?;
    Ok(Closed { names, clash })
}

/// The least classes of the rows' symbols that are closed under the dependencies: the name of each
/// variable up to the greatest, and the clash exactly where two constants meet. Memory goes with the
/// cells, the constants and the greatest variable.
pub fn close(alloc: Global, fds: &[Fd], rows: &[List<Sym>]) -> Result<Closed, NoMemory>
    requires rows { AreRows fds.now rows.now }
    ensures all { IfOk result (λ c. All (AreBelow (length c.names)) rows.now) }
    ensures names { IfOk result (λ c. (k : ℕ) → k < length c.names → IsClassName fds.now rows.now (Var k) (get_or c.names k (Var k))) }
    ensures clash { IfOk result (λ c. MatchOption c.clash (IsConsistent fds.now rows.now) (λ p. IsClash fds.now rows.now p.0 p.1)) }
{
    let constants = constants_of(alloc, rows)?;
    close_by(alloc, fds, rows, constants.as_slice())
}
