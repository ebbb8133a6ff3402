//! The tableau.
ghost use Rattle.std.specs.Prelude.{◌≡◌, ◌<◌, ◌≤◌, ◌^◌, ℕ, [], length, get_or, IfOk, IfSome, None};
ghost use Rattle.su_tableau.specs.declared.symbols.Sym.{Sym as ASym};
ghost use Rattle.su_tableau.specs.Tableaux.{IsValid, IsSmall, AreBelow, IsSymbolCount, tab_of};

use crate::rules::are_valid;
use crate::symbols::Sym;
use std::alloc::Global;
use std::marker::Model;
use su_base::{List, NoMemory};
use su_where::Op;

/// Rows of one width, and a head: the symbols of the outputs, then two for each operator.
#[derive(Debug, Drop)]
pub struct Tableau {
    width: u8,
    rows: List<List<Sym>>,
    head: List<Sym>,
    outputs: u16,
    operators: List<Op>,
}

impl Model for Tableau {
    ghost use Rattle.su_tableau.specs.Tableaux.{Tab, tab_of};
    ghost use Rattle.su_tableau.specs.inside.Kept.{IsValidAndSmall};

    ghost Value = { Tab };

    ghost view = { λ t. record { width = t.width; rows = t.rows; head = t.head; outputs = t.outputs; operators = t.operators } };

    ghost invariant = { λ t. IsValidAndSmall (tab_of t.width t.rows t.head t.outputs t.operators) };
}

impl Tableau {
    /// The tableau of these parts. It moves them and takes no memory.
    pub fn new(
        width: u8,
        rows: List<List<Sym>>,
        head: List<Sym>,
        outputs: u16,
        operators: List<Op>,
    ) -> Tableau
        requires valid { IsValid (tab_of width rows head outputs operators) }
        requires small { IsSmall (tab_of width rows head outputs operators) }
        ensures { result ≡ tab_of width rows head outputs operators }
    {
        Tableau {
            width,
            rows,
            head,
            outputs,
            operators,
        }
    }

    /// The tableau of these parts if they are valid; else they are dropped. Each head variable is
    /// looked for in all cells, without memory.
    pub fn checked(
        width: u8,
        rows: List<List<Sym>>,
        head: List<Sym>,
        outputs: u16,
        operators: List<Op>,
    ) -> Option<Tableau>
        ensures is { IfSome result (λ t. t ≡ tab_of width rows head outputs operators) }
        ensures none { result ≡ None → IsValid (tab_of width rows head outputs operators) → IsSmall (tab_of width rows head outputs operators) → ⊥ }
    {
        if are_valid(
            width,
            rows.as_slice(),
            head.as_slice(),
            outputs,
            operators.as_slice(),
        ) {
            Some(Tableau::new(width, rows, head, outputs, operators))
        } else {
            None
        }
    }

    /// For proofs: the tableau is valid and small. It does nothing.
    pub fn keeps_its_rules(&self)
        ensures valid { IsValid self.now }
        ensures small { IsSmall self.now }
    {
        let _ = &self.rows;
    }

    /// How many cells each row has.
    pub fn width(&self) -> u8
        ensures { result ≡ self.now.width }
    {
        self.width
    }

    /// How many rows there are.
    pub fn row_count(&self) -> usize
        ensures is { result ≡ length self.now.rows }
        ensures small { result ≤ 64 }
    {
        self.rows.len()
    }

    /// The cells of a row, numbered from 0.
    pub fn row(&self, row: usize) -> &[Sym]
        requires { row < length self.now.rows }
        ensures is { result.now ≡ get_or self.now.rows row [] }
        ensures width { length result.now ≡ self.now.width }
    {
        self.rows.get(row).as_slice()
    }

    /// The symbol of a row at an attribute.
    pub fn cell(&self, row: usize, attribute: u8) -> &Sym
        requires row { row < length self.now.rows }
        requires attribute { attribute < self.now.width }
        ensures { (d : ASym) → get_or (get_or self.now.rows row []) attribute d ≡ result.now }
    {
        &self.row(row)[attribute as usize]
    }

    /// The head.
    pub fn head(&self) -> &[Sym]
        ensures { result.now ≡ self.now.head }
    {
        self.head.as_slice()
    }

    /// How many symbols of the head are outputs.
    pub fn outputs(&self) -> u16
        ensures { result ≡ self.now.outputs }
    {
        self.outputs
    }

    /// The operators, each of which compares two symbols of the head, in order.
    pub fn operators(&self) -> &[Op]
        ensures { result.now ≡ self.now.operators }
    {
        self.operators.as_slice()
    }

    /// The greatest variable number plus one, or 0. Linear in the number of cells.
    pub fn symbols(&self) -> usize
        ensures { IsSymbolCount result self.now }
    {
        let mut top = above(self.head(), 0);
        for i in 0..self.row_count() {
            top = above(self.row(i), top);
        }
        top
    }

    /// An equal tableau of its own.
    pub fn copy(&self, alloc: Global) -> Result<Tableau, NoMemory>
        ensures { IfOk result (λ t. t ≡ self.now) }
    {
        let mut rows = List::new(alloc);
        for row in self.rows.as_slice() {
            rows.push(copy_symbols(alloc, row.as_slice())?)?;
        }
        let operators = List::from_vec(Vec::from_slice(alloc, self.operators.as_slice())?);
        let head = copy_symbols(alloc, self.head())?;
        Ok(Tableau {
            width: self.width,
            rows,
            head,
            outputs: self.outputs,
            operators,
        })
    }
}

/// The least number that is above the row's variables and no less than the one given: linear in the
/// row, without memory.
pub fn above(row: &[Sym], least: usize) -> usize
    requires { least ≤ 2 ^ 32 }
    ensures no_less { least ≤ result }
    ensures small { result ≤ 2 ^ 32 }
    ensures above { AreBelow result row.now }
    ensures least { (m : ℕ) → least ≤ m → AreBelow m row.now → result ≤ m }
{
    let mut top = least;
    for x in row {
        if let Sym::Var(k) = x {
            let next = *k as usize + 1;
            if top < next {
                top = next;
            }
        }
    }
    top
}

/// Equal symbols of their own.
pub fn copy_symbols(alloc: Global, symbols: &[Sym]) -> Result<List<Sym>, NoMemory>
    ensures { IfOk result (λ s. s ≡ symbols.now) }
{
    let mut copied = List::new(alloc);
    for symbol in symbols {
        copied.push(symbol.copy(alloc)?)?;
    }
    Ok(copied)
}
