//! The variables of a term's rows with their numbers.
ghost use Rattle.std.specs.Prelude.{◌≡◌, ◌<◌, ◌↔◌, ◌⊎◌, ℕ, length, Contains, IfOk, OnOk, MatchOption, List as Items};
ghost use Rattle.std.specs.List.Sorted.{IsNonDecreasing};
ghost use Rattle.su_tableau.specs.declared.symbols.Sym.{Sym as ASym};
ghost use Rattle.su_tableau.specs.declared.symbols.Sym.TheVariants.{Var};
ghost use Rattle.su_tableau.specs.Tableaux.{Occurs};
ghost use Rattle.su_check.specs.Certificate.{lines_of};
ghost use Rattle.su_check.specs.inside.Boards.{AreMarks, AreMarksIfAll, IsNumber, AreNumbers, AreRowNumbers, IsBoardIfOccurs};
ghost use Rattle.su_check.specs.inside.Cells.{IsFirstPlace};

use crate::certificates::StatedTerm;
use std::alloc::Global;
use su_base::{List, NoMemory};
use su_tableau::Sym;

/// The variables of the rows, ascending, and for each cell the number of its variable: the place
/// where it stands first. Constants and symbols of the head have none.
#[derive(Debug)]
pub struct Board {
    pub variables: List<u32>,
    pub numbers: List<List<Option<usize>>>,
}

/// Not derived, so that it is a single call wherever a board goes out of scope.
impl Drop for Board {
    fn drop(self) {
        let Board {
            variables: _,
            numbers: _,
        } = self;
    }
}

/// Adds the variables of the row.
fn push_variables(row: &[Sym], out: &mut List<u32>) -> Result<(), NoMemory>
    ensures old { OnOk result ((k : ℕ) → Contains out.old k → Contains out.new k) }
    ensures row { OnOk result ((k : ℕ) → Contains row.now (Var k) → Contains out.new k) }
    ensures only { OnOk result ((k : ℕ) → Contains out.new k → Contains out.old k ⊎ Contains row.now (Var k)) }
{
    for x in row {
        if let Sym::Var(k) = x {
            out.push(*k)?;
        }
    }
    Ok(())
}

/// The variables of the rows, ascending, each as often as it stands there.
pub fn variables_in(alloc: Global, rows: &[List<Sym>]) -> Result<List<u32>, NoMemory>
    ensures ascending { IfOk result IsNonDecreasing }
    ensures all { IfOk result (λ vs. (k : ℕ) → Contains vs k ↔ Occurs rows.now k) }
{
    let mut variables = List::new(alloc);
    for row in rows {
        push_variables(row.as_slice(), &mut variables)?;
    }
    let mut variables = variables.into_vec();
    variables.sort_unstable();
    Ok(List::from_vec(variables))
}

/// Where the variable stands first.
pub fn place_of_variable(variables: &[u32], k: u32) -> Option<usize>
    requires { IsNonDecreasing variables.now }
    ensures { MatchOption result (¬ (Contains variables.now k)) (IsFirstPlace variables.now k) }
{
    let mut low = 0;
    let mut high = variables.len();
    while low < high {
        let middle = low + (high - low) / 2;
        if variables[middle] < k {
            low = middle + 1;
        } else {
            high = middle;
        }
    }
    (low < variables.len() && variables[low] == k).then_some(low)
}

/// Which variables the head has, if the rows have all of them.
fn marks_of(alloc: Global, variables: &[u32], head: &[Sym]) -> Result<Option<List<bool>>, NoMemory>
    requires { IsNonDecreasing variables.now }
    ensures { IfOk result (AreMarksIfAll variables.now head.now) }
{
    let mut marks = vec![in alloc; false; variables.len()]?;
    for x in head {
        if let Sym::Var(k) = x {
            match place_of_variable(variables, *k) {
                Some(n) => marks[n] = true,
                None => return Ok(None),
            }
        }
    }
    Ok(Some(List::from_vec(marks)))
}

/// The number of the symbol.
fn number_at(variables: &[u32], marks: &[bool], x: &Sym) -> Option<usize>
    requires ascending { IsNonDecreasing variables.now }
    requires marks { length marks.now ≡ length variables.now }
    requires there { (k : ℕ) → x.now ≡ Var k → Contains variables.now k }
    ensures { (head : Items ASym) → AreMarks variables.now head marks.now → IsNumber head variables.now x.now result }
{
    match x {
        Sym::Const(_) => None,
        Sym::Var(k) => match place_of_variable(variables, *k) {
            Some(n) if !marks[n] => Some(n),
            _ => None,
        },
    }
}

/// The numbers of the cells of a row.
fn numbers_of(
    alloc: Global,
    variables: &[u32],
    marks: &[bool],
    row: &[Sym],
) -> Result<List<Option<usize>>, NoMemory>
    requires ascending { IsNonDecreasing variables.now }
    requires marks { length marks.now ≡ length variables.now }
    requires there { (k : ℕ) → Contains row.now (Var k) → Contains variables.now k }
    ensures { IfOk result (λ ns. (head : Items ASym) → AreMarks variables.now head marks.now → AreNumbers head variables.now row.now ns) }
{
    let mut numbers = List::new(alloc);
    for x in row {
        numbers.push(number_at(variables, marks, x))?;
    }
    Ok(numbers)
}

/// The numbers of the cells of all rows.
fn all_numbers(
    alloc: Global,
    variables: &[u32],
    marks: &[bool],
    rows: &[List<Sym>],
) -> Result<List<List<Option<usize>>>, NoMemory>
    requires ascending { IsNonDecreasing variables.now }
    requires marks { length marks.now ≡ length variables.now }
    requires there { (k : ℕ) → Occurs rows.now k → Contains variables.now k }
    ensures one_each { IfOk result (λ all. length all ≡ length rows.now) }
    ensures rows { IfOk result (AreRowNumbers variables.now marks.now rows.now) }
{
    let mut all = List::new(alloc);
    for row in rows {
        all.push(numbers_of(alloc, variables, marks, row.as_slice())?)?;
    }
    Ok(all)
}

/// The board of the term, whose variables these are, if each variable of its head stands in a row.
pub fn board_of(
    alloc: Global,
    term: &StatedTerm,
    variables: List<u32>,
) -> Result<Option<Board>, NoMemory>
    requires ascending { IsNonDecreasing variables }
    requires all { (k : ℕ) → Contains variables k ↔ Occurs term.now.rows k }
    ensures { IfOk result (IsBoardIfOccurs (lines_of term.now)) }
{
    match marks_of(alloc, variables.as_slice(), term.head.as_slice())? {
        Some(marks) => {
            let rows = term.rows.as_slice();
            let numbers = all_numbers(alloc, variables.as_slice(), marks.as_slice(), rows)?;
            Ok(Some(Board { variables, numbers }))
        }
        None => Ok(None),
    }
}
