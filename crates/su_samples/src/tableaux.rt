//! Tableaux from numbers.
ghost use Rattle.std.specs.Prelude.{◌≡◌, IfOk, IfSome, None, map};
ghost use Rattle.su_tableau.specs.Tableaux.{IsValid, IsSmall};
ghost use Rattle.su_samples.specs.Tableaux.{symbol_of, tab_of_parts};

use std::alloc::Global;
use su_base::{List, NoMemory, Str, Value};
use su_tableau::{Sym, Tableau};
use su_where::Op;

/// Stands for the text Jones among the numbers of variables.
pub const JONES: u32 = 99;

/// The parts of a tableau, with numbers for symbols.
#[derive(Clone, Copy)]
pub struct Parts {
    pub width: u8,
    pub rows: &'static [&'static [u32]],
    pub head: &'static [u32],
    pub outputs: u16,
    pub operators: &'static [Op],
}

/// Who else is in a room with a course of Jones: attributes C, T, H, R, S, G.
pub const COURSES: Parts = Parts {
    width: 6,
    rows: &[
        &[0, 1, 14, 15, 16, 17],
        &[0, 19, 2, 3, 22, 23],
        &[0, 25, 26, 27, 4, 5],
        &[6, 7, 32, 33, 34, 35],
        &[6, 37, 8, 3, 40, 41],
        &[6, 43, 44, 45, JONES, 11],
    ],
    head: &[0],
    outputs: 1,
    operators: &[],
};

fn symbol(alloc: Global, number: u32) -> Result<Sym, NoMemory>
    ensures { IfOk result (λ x. x ≡ symbol_of number) }
{
    if number == JONES {
        Ok(Sym::Const(Value::Text(Str::new(alloc, "Jones")?)))
    } else {
        Ok(Sym::Var(number))
    }
}

fn symbols(alloc: Global, numbers: &[u32]) -> Result<List<Sym>, NoMemory>
    ensures { IfOk result (λ xs. xs ≡ map symbol_of numbers.now) }
{
    let mut symbols = List::new(alloc);
    for number in numbers {
        symbols.push(symbol(alloc, *number)?)?;
    }
    Ok(symbols)
}

fn rows_of(alloc: Global, rows: &[&[u32]]) -> Result<List<List<Sym>>, NoMemory>
    ensures { IfOk result (λ xss. xss ≡ map (λ row. map symbol_of row.now) rows.now) }
{
    let mut list = List::new(alloc);
    for row in rows {
        list.push(symbols(alloc, row)?)?;
    }
    Ok(list)
}

/// The tableau of the parts; none where they do not fit.
pub fn tableau(alloc: Global, parts: &Parts) -> Result<Option<Tableau>, NoMemory>
    ensures is { IfOk result (λ made. IfSome made (λ t. t ≡ tab_of_parts parts.now)) }
    ensures none { IfOk result (λ made. made ≡ None → IsValid (tab_of_parts parts.now) → IsSmall (tab_of_parts parts.now) → ⊥) }
{
    let operators = List::from_vec(parts.operators.to_vec(alloc)?);
    let head = symbols(alloc, parts.head)?;
    let rows = rows_of(alloc, parts.rows)?;
    Ok(Tableau::checked(parts.width, rows, head, parts.outputs, operators))
}
