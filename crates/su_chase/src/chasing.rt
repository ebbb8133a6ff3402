//! Chased tableaux.
ghost use Rattle.std.specs.Prelude.{◌≡◌, ◌↔◌, ℕ, ◌<◌, List as Items, length, map, All, IfOk};
ghost use Rattle.su_base.specs.declared.values.Value.{Value as AValue};
ghost use Rattle.su_tableau.specs.declared.symbols.Sym.TheVariants.{Var};
ghost use Rattle.su_tableau.specs.Tableaux.{AreBelow};
ghost use Rattle.su_tableau.specs.Valuations.{Ext};
ghost use Rattle.su_tableau.specs.Kinds.{Kinds, IsTyped};
ghost use Rattle.su_fd.specs.MetDependencies.{Meets};
ghost use Rattle.su_chase.specs.Chased.{IsFdBelow, IsChaseOf, ExtOf, IsTypedOf, IsSettledOf};
ghost use Rattle.su_chase.specs.inside.Rows.{name_by, named_tab};

use crate::naming::{Closed, close};
use std::alloc::Global;
use su_base::{List, NoMemory, Value};
use su_fd::Fd;
use su_tableau::{Sym, Tableau, copy_symbols};

/// A tableau whose rows and head have their names, or the two constants that meet in a class.
#[derive(Debug, Drop)]
pub enum Chased {
    Closed(Tableau),
    Clash { less: Value, greater: Value },
}

/// Copies of the tableau's rows.
pub fn rows_of(alloc: Global, t: &Tableau) -> Result<List<List<Sym>>, NoMemory>
    ensures { IfOk result (λ rows. rows ≡ t.now.rows) }
{
    let mut rows = List::new(alloc);
    for i in 0..t.row_count() {
        rows.push(copy_symbols(alloc, t.row(i))?)?;
    }
    Ok(rows)
}

/// The name of a symbol.
fn name_of(alloc: Global, names: &[Sym], x: &Sym) -> Result<Sym, NoMemory>
    requires { (k : ℕ) → x.now ≡ Var k → k < length names.now }
    ensures { IfOk result (λ name. name ≡ name_by names.now x.now) }
{
    match x {
        Sym::Const(value) => Ok(Sym::Const(value.copy(alloc)?)),
        Sym::Var(k) => names[*k as usize].copy(alloc),
    }
}

/// The names of these symbols.
fn named(alloc: Global, names: &[Sym], symbols: &[Sym]) -> Result<List<Sym>, NoMemory>
    requires { AreBelow (length names.now) symbols.now }
    ensures { IfOk result (λ named. named ≡ map (name_by names.now) symbols.now) }
{
    let mut row = List::new(alloc);
    for x in symbols {
        row.push(name_of(alloc, names, x)?)?;
    }
    Ok(row)
}

/// The names of the rows' symbols.
fn named_rows(alloc: Global, names: &[Sym], rows: &[List<Sym>]) -> Result<List<List<Sym>>, NoMemory>
    requires { All (AreBelow (length names.now)) rows.now }
    ensures { IfOk result (λ named. named ≡ map (map (name_by names.now)) rows.now) }
{
    let mut all = List::new(alloc);
    for row in rows {
        all.push(named(alloc, names, row.as_slice())?)?;
    }
    Ok(all)
}

/// The tableau by the names of its variables.
fn named_tableau(
    alloc: Global,
    t: &Tableau,
    rows: &[List<Sym>],
    names: &[Sym],
) -> Result<Tableau, NoMemory>
    requires rows { rows.now ≡ t.now.rows }
    requires all { All (AreBelow (length names.now)) rows.now }
    ensures { IfOk result (λ c. c ≡ named_tab (name_by names.now) t.now) }
{
    t.keeps_its_rules();
    let rows = named_rows(alloc, names, rows)?;
    let head = named(alloc, names, t.head())?;
    let operators = List::from_vec(Vec::from_slice(alloc, t.operators())?);
    Ok(Tableau::new(t.width(), rows, head, t.outputs(), operators))
}

/// The tableau with its rows and head by their names: over every universal relation that meets the
/// dependencies it answers what the tableau does. Where two constants meet, the tableau answers nothing
/// there. Chasing it again changes nothing.
pub fn chase(alloc: Global, fds: &[Fd], t: &Tableau) -> Result<Chased, NoMemory>
    requires below { All (IsFdBelow t.now.width) fds.now }
    ensures chased { IfOk result (IsChaseOf fds.now t.now) }
    ensures answers { IfOk result (λ c. (u : Items (Items AValue)) (h : Items AValue) → Meets fds.now u → (Ext t.now u h ↔ ExtOf c u h)) }
    ensures typed { IfOk result (λ c. (kinds : Kinds) → IsTyped kinds t.now → IsTypedOf kinds c) }
    ensures settled { IfOk result (IsSettledOf fds.now) }
{
    t.keeps_its_rules();
    let rows = rows_of(alloc, t)?;
    let closed = close(alloc, fds, rows.as_slice())?;
    let Closed { names, clash } = closed;
    match clash {
        Some((less, greater)) => Ok(Chased::Clash { less, greater }),
        None => {
            let chased = named_tableau(alloc, t, rows.as_slice(), names.as_slice())?;
            Ok(Chased::Closed(chased))
        }
    }
}
