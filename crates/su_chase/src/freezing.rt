//! Frozen tableaux.
ghost use Rattle.std.specs.Prelude.{◌≡◌, ◌≢◌, ◌↔◌, ℕ, ◌+◌, ◌<◌, ◌≤◌, ◌++◌, List as Items, length, map, flat_map, get_or, Contains, All, IfOk, OnOk, MatchOption};
ghost use Rattle.std.specs.List.Sorted.{IsStrictlySortedBy};
ghost use Rattle.std.specs.Ordering.{nat_cmp};
ghost use Rattle.su_base.specs.declared.values.Kind.{Kind as AKind};
ghost use Rattle.su_base.specs.declared.values.Kind.TheVariants.{Int as IntKind};
ghost use Rattle.su_fd.specs.declared.dependencies.Fd.{Fd as AFd};
ghost use Rattle.su_tableau.specs.declared.symbols.Sym.TheVariants.{Var};
ghost use Rattle.su_tableau.specs.Tableaux.{Tab, Occurs};
ghost use Rattle.su_tableau.specs.Valuations.{Ext, value_of, values_of};
ghost use Rattle.su_tableau.specs.Kinds.{IsUniverse, IsTyped, sym_kind};
ghost use Rattle.su_tableau.specs.Mapping.{Maps};
ghost use Rattle.su_chase.specs.Chase.{IsClosedPartition};
ghost use Rattle.su_fd.specs.MetDependencies.{Meets};
ghost use Rattle.su_chase.specs.Frozen.{IsFrozen, AreAvoided};
ghost use Rattle.su_chase.specs.inside.Rows.{variable_of, value_in, AreKindsOf};

use crate::candidates::{free_values, sorted_copies};
use crate::chasing::rows_of;
use std::alloc::Global;
use su_base::{Kind, List, NoMemory, Row, Value};
use su_tableau::{Sym, Tableau};

/// The rows and the head of a tableau whose variables were read as new values.
#[derive(Debug, Drop)]
pub struct Frozen {
    pub universe: List<Row>,
    pub head: Row,
}

fn push_variable(x: &Sym, variables: &mut List<u32>) -> Result<(), NoMemory>
    ensures { OnOk result (variables.new ≡ variables.old ++ variable_of x.now) }
{
    match x {
        Sym::Const(_) => Ok(()),
        Sym::Var(k) => {
            variables.push(*k)?;
            Ok(())
        }
    }
}

/// Adds the row's variables.
fn push_variables(row: &[Sym], variables: &mut List<u32>) -> Result<(), NoMemory>
    ensures { OnOk result (variables.new ≡ variables.old ++ flat_map variable_of row.now) }
{
    for x in row {
        push_variable(x, variables)?;
    }
    Ok(())
}

/// The numbers, ascending, each once.
fn ascending(numbers: Vec<u32>) -> Vec<u32>
    ensures members { (k : ℕ) → Contains result.items k ↔ Contains numbers.items k }
    ensures ascending { IsStrictlySortedBy nat_cmp result.items }
{
    let mut numbers = numbers;
    numbers.sort_unstable();
    numbers.dedup();
    numbers
}

/// The variables of the rows, ascending, each once.
fn variables_of(alloc: Global, rows: &[List<Sym>]) -> Result<List<u32>, NoMemory>
    ensures all { IfOk result (λ vs. (k : ℕ) → Contains vs k ↔ Occurs rows.now k) }
    ensures ascending { IfOk result (IsStrictlySortedBy nat_cmp) }
{
    let mut variables = List::new(alloc);
    for row in rows {
        push_variables(row.as_slice(), &mut variables)?;
    }
    Ok(List::from_vec(ascending(variables.into_vec())))
}

/// A place of the row in which the variable stands.
fn place_in(row: &[Sym], k: u32) -> Option<usize>
    ensures { MatchOption result (¬ Contains row.now (Var k)) (λ c. (c < length row.now) × (get_or row.now c (Var k) ≡ Var k)) }
{
    for c in 0..row.len() {
        if let Sym::Var(j) = &row[c] {
            if *j == k {
                return Some(c);
            }
        }
    }
    None
}

/// The kind of a variable of the rows.
fn kind_of_variable(kinds: &[Kind], rows: &[List<Sym>], k: u32) -> Kind
    requires widths { All (λ row. length row ≡ length kinds.now) rows.now }
    requires occurs { Occurs rows.now k }
    ensures { (var_kind : ℕ → AKind) → All (λ row. map (sym_kind var_kind) row ≡ kinds.now) rows.now → result ≡ var_kind k }
{
    for row in rows {
        if let Some(c) = place_in(row.as_slice(), k) {
            return kinds[c];
        }
    }
    Kind::Int
}

/// The kinds of these variables.
fn kinds_of(
    alloc: Global,
    kinds: &[Kind],
    rows: &[List<Sym>],
    variables: &[u32],
) -> Result<List<Kind>, NoMemory>
    requires widths { All (λ row. length row ≡ length kinds.now) rows.now }
    requires occur { (k : ℕ) → Contains variables.now k → Occurs rows.now k }
    ensures each { IfOk result (λ found. length found ≡ length variables.now) }
    ensures kinds { IfOk result (AreKindsOf kinds.now rows.now variables.now) }
{
    let mut found = List::new(alloc);
    for k in variables {
        found.push(kind_of_variable(kinds, rows, *k))?;
    }
    Ok(found)
}

/// The value of a symbol, where the values stand in the order of the variables.
fn value_at(alloc: Global, variables: &[u32], values: &[Value], x: &Sym) -> Result<Value, NoMemory>
    requires ascending { IsStrictlySortedBy nat_cmp variables.now }
    requires each { length values.now ≡ length variables.now }
    ensures { IfOk result (λ v. v ≡ value_of (value_in variables.now values.now) x.now) }
{
    match x {
        Sym::Const(value) => value.copy(alloc),
        Sym::Var(k) => match variables.binary_search(k) {
            Ok(i) => values[i].copy(alloc),
            Err(_) => Ok(Value::Int(0)),
        },
    }
}

/// The values of these symbols.
fn row_at(
    alloc: Global,
    variables: &[u32],
    values: &[Value],
    symbols: &[Sym],
) -> Result<Row, NoMemory>
    requires ascending { IsStrictlySortedBy nat_cmp variables.now }
    requires each { length values.now ≡ length variables.now }
    ensures { IfOk result (λ row. row ≡ values_of (value_in variables.now values.now) symbols.now) }
{
    let mut row = List::new(alloc);
    for x in symbols {
        row.push(value_at(alloc, variables, values, x)?)?;
    }
    Ok(row)
}

/// The values of the rows' symbols.
fn rows_at(
    alloc: Global,
    variables: &[u32],
    values: &[Value],
    rows: &[List<Sym>],
) -> Result<List<Row>, NoMemory>
    requires ascending { IsStrictlySortedBy nat_cmp variables.now }
    requires each { length values.now ≡ length variables.now }
    ensures { IfOk result (λ universe. universe ≡ map (values_of (value_in variables.now values.now)) rows.now) }
{
    let mut universe = List::new(alloc);
    for row in rows {
        universe.push(row_at(alloc, variables, values, row.as_slice())?)?;
    }
    Ok(universe)
}

/// The rows and the head with new values for the variables: each, in ascending order, gets the number
/// or the text `v` with a number that is the first of its kind which is neither avoided nor given
/// already. The rows are in the tableau's order. Where the tableau is settled and its constants are
/// avoided, they meet the dependencies.
pub fn freeze(
    alloc: Global,
    kinds: &[Kind],
    t: &Tableau,
    avoid: &[Value],
) -> Result<Frozen, NoMemory>
    requires typed { IsTyped kinds.now t.now }
    ensures frozen { IfOk result (IsFrozen kinds.now t.now avoid.now) }
    ensures universe { IfOk result (λ f. IsUniverse kinds.now f.universe × Ext t.now f.universe f.head) }
    ensures meets { IfOk result (λ f. (fds : Items AFd) → IsClosedPartition fds t.now.rows (λ x. x) → AreAvoided avoid.now t.now → Meets fds f.universe) }
    ensures thawed { IfOk result (λ f. (s : Tab) → AreAvoided avoid.now s → AreAvoided avoid.now t.now → Ext s f.universe f.head → Maps s t.now) }
{
    t.keeps_its_rules();
    let rows = rows_of(alloc, t)?;
    let rows = rows.as_slice();
    let variables = variables_of(alloc, rows)?;
    let variables = variables.as_slice();
    let variable_kinds = kinds_of(alloc, kinds, rows, variables)?;
    let avoid = sorted_copies(alloc, avoid)?;
    let values = free_values(alloc, variable_kinds.as_slice(), avoid.as_slice())?;
    let values = values.as_slice();
    let universe = rows_at(alloc, variables, values, rows)?;
    let head = row_at(alloc, variables, values, t.head())?;
    Ok(Frozen { universe, head })
}
