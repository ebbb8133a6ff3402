//! The answers: rows of values, ascending, each once.
ghost use Rattle.std.specs.Prelude.{◌≡◌, ◌≤◌, ◌↔◌, ℕ, true, List, [], map, length, All, Contains, IfOk, IfErr};
ghost use Rattle.std.specs.List.Sorted.{IsStrictlySortedBy};
ghost use Rattle.su_base.specs.declared.values.Value.{Value as AValue};
ghost use Rattle.su_base.specs.Value.{compare_lists};
ghost use Rattle.su_exec.specs.inside.Checks.{HasTerm, IsSpotIn, vars_of};
ghost use Rattle.su_exec.specs.inside.Edges.{has};
ghost use Rattle.su_exec.specs.inside.Shown.{AreSpotsOf, IsShown, spot_values, term_vars};
ghost use Rattle.su_rel.specs.MoreThan.{AreMoreThan};
ghost use Rattle.su_exec.specs.declared.tasks.ExecFault.TheVariants.{More};

use crate::candidates::Candidates;
use crate::checks::{CodedSymbol, Spot, code_at, spot_of};
use crate::tasks::ExecFault;
use std::alloc::{AllocError, Global};
use su_base::{List, NoMemory, Row, sorted_rows};
use su_reduce::Codes;

/// Where the candidates have the term.
fn spot_in(term: CodedSymbol, vars: &[u32]) -> Spot
    requires { (k : ℕ) → has (vars_of term) k ≡ true → has vars.now k ≡ true }
    ensures spot { HasTerm vars.now [] term result }
    ensures within { IsSpotIn (length vars.now) 0 result }
{
    match spot_of(term, vars, &[]) {
        Some(spot) => spot,
        None => unreachable!(),
    }
}

/// Where the candidates have the terms.
fn spots_of(alloc: Global, outputs: &[CodedSymbol], vars: &[u32]) -> Result<Vec<Spot>, AllocError>
    requires { (k : ℕ) → has (term_vars outputs.now) k ≡ true → has vars.now k ≡ true }
    ensures { IfOk result (λ spots. AreSpotsOf vars.now outputs.now spots.items) }
{
    let mut spots = Vec::new(alloc);
    for term in outputs {
        let spot = spot_in(*term, vars);
        spots.push(spot)?;
    }
    Ok(spots)
}

/// The values at the spots.
fn row_at(alloc: Global, codes: &Codes, spots: &[Spot], row: &[u32]) -> Result<Row, NoMemory>
    requires { All (IsSpotIn (length row.now) 0) spots.now }
    ensures { IfOk result (λ values. values ≡ spot_values codes.now spots.now row.now) }
{
    let mut values = List::from_vec(Vec::with_capacity(alloc, spots.len())?);
    for spot in spots {
        let value = codes.value(code_at(*spot, row, &[])).copy(alloc)?;
        values.push(value)?;
    }
    Ok(values)
}

/// The values at the spots in each row of the candidates.
fn rows_at(
    alloc: Global,
    codes: &Codes,
    spots: &[Spot],
    last: &Candidates,
) -> Result<Vec<Row>, ExecFault>
    requires { All (IsSpotIn (length last.now.vars) 0) spots.now }
    ensures rows { IfOk result (λ rows. rows.items ≡ map (spot_values codes.now spots.now) last.now.rows) }
    ensures fault { IfErr result (λ fault. ¬ (fault ≡ More)) }
{
    let mut rows = Vec::with_capacity(alloc, last.len())?;
    for i in 0..last.len() {
        let row = row_at(alloc, codes, spots, last.rows().row(i))?;
        let Ok(()) = rows.push(row) else {
            return Err(ExecFault::NoMemory);
        };
    }
    Ok(rows)
}

/// The values that the candidates give the terms, ascending, each once, if there are at most `cap`.
pub fn answers(
    alloc: Global,
    codes: &Codes,
    last: &Candidates,
    outputs: &[CodedSymbol],
    cap: u64,
) -> Result<List<Row>, ExecFault>
    requires { (k : ℕ) → has (term_vars outputs.now) k ≡ true → has last.now.vars k ≡ true }
    ensures exact { IfOk result (λ rows. (h : List AValue) → Contains rows h ↔ IsShown codes.now last.now outputs.now h) }
    ensures ascending { IfOk result (IsStrictlySortedBy compare_lists) }
    ensures cap { IfOk result (λ rows. length rows ≤ cap) }
    ensures more { IfErr result (λ fault. fault ≡ More → AreMoreThan cap (IsShown codes.now last.now outputs.now)) }
{
    last.rows();
    let spots = spots_of(alloc, outputs, last.vars())?;
    let found = rows_at(alloc, codes, &spots, last)?;
    let rows = sorted_rows(List::from_vec(found));
    if rows.len() as u64 > cap {
        return Err(ExecFault::More);
    }
    Ok(rows)
}
