//! The outputs of all valuations.
ghost use Rattle.std.specs.Prelude.{◌≡◌, ◌≤◌, ◌+◌, length, IfOk, IfErr};
ghost use Rattle.su_reduce.specs.Codes.{Extends};
ghost use Rattle.su_exec.specs.inside.Shown.{AreChecksOf, AreSymbolTerms, HasSomeEdge, HasVars, IsCheckOf, IsMoreBy, IsShownBy, IsTermOf, term_vars};
ghost use Rattle.su_exec.specs.Tasks.{IsTask};
ghost use Rattle.su_exec.specs.Outputs.{IsOutput, AreOutputs};
ghost use Rattle.su_rel.specs.MoreThan.{AreMoreThan};
ghost use Rattle.su_exec.specs.Shares.{task_share};
ghost use Rattle.su_exec.specs.declared.tasks.ExecFault.TheVariants.{More};

use crate::answering::answers;
use crate::candidates::Candidates;
use crate::checks::{Check, CodedSymbol};
use crate::fetching::fetch_rows;
use crate::merging::{Body, Merged, add_variable, run};
use crate::tasks::{Compared, ExecFault, Task};
use std::alloc::{AllocError, Global};
use su_base::{List, Row};
use su_index::Rows;
use su_reduce::Codes;
use su_tableau::Sym;

/// The term of the symbol.
fn term_of(alloc: Global, codes: &mut Codes, symbol: &Sym) -> Result<CodedSymbol, AllocError>
    ensures term { IfOk result (IsTermOf codes.new symbol.now) }
    ensures codes { IfOk result (λ _. Extends codes.old codes.new) }
{
    match symbol {
        Sym::Const(value) => {
            let code = codes.code(alloc, value)?;
            Ok(CodedSymbol::Code(code))
        }
        Sym::Var(k) => Ok(CodedSymbol::Variable(*k)),
    }
}

/// The terms of the symbols.
fn terms_of(
    alloc: Global,
    codes: &mut Codes,
    symbols: &List<Sym>,
) -> Result<Vec<CodedSymbol>, AllocError>
    ensures terms { IfOk result (λ terms. AreSymbolTerms codes.new symbols.now terms.items) }
    ensures codes { IfOk result (λ _. Extends codes.old codes.new) }
{
    let mut terms = Vec::new(alloc);
    for symbol in symbols.as_slice() {
        let term = term_of(alloc, codes, symbol)?;
        terms.push(term)?;
    }
    Ok(terms)
}

/// The check of the comparison.
fn check_of(alloc: Global, codes: &mut Codes, compared: &Compared) -> Result<Check, AllocError>
    ensures check { IfOk result (IsCheckOf codes.new compared.now) }
    ensures codes { IfOk result (λ _. Extends codes.old codes.new) }
{
    let left = term_of(alloc, codes, &compared.left)?;
    let right = term_of(alloc, codes, &compared.right)?;
    Ok(Check {
        left,
        op: compared.op,
        right,
    })
}

/// The checks of the comparisons.
fn checks_of(alloc: Global, codes: &mut Codes, task: &Task) -> Result<Vec<Check>, AllocError>
    ensures checks { IfOk result (λ checks. AreChecksOf codes.new task.now.comparisons checks.items) }
    ensures codes { IfOk result (λ _. Extends codes.old codes.new) }
{
    let mut checks = Vec::new(alloc);
    for compared in task.comparisons.as_slice() {
        let check = check_of(alloc, codes, compared)?;
        checks.push(check)?;
    }
    Ok(checks)
}

/// The variables of the terms.
fn variables_of(alloc: Global, terms: &[CodedSymbol]) -> Result<Vec<u32>, AllocError>
    ensures { IfOk result (λ vars. vars.items ≡ term_vars terms.now) }
{
    let mut vars = Vec::new(alloc);
    for term in terms {
        add_variable(&mut vars, *term)?;
    }
    Ok(vars)
}

/// The candidates, or where there are none one of no variables.
fn some_edges(alloc: Global, edges: Vec<Candidates>) -> Result<Vec<Candidates>, AllocError>
    ensures { IfOk result (λ some. HasSomeEdge edges.items some.items) }
{
    let mut edges = edges;
    if !edges.is_empty() {
        return Ok(edges);
    }
    let unit = Candidates::unit(alloc)?;
    edges.push(unit)?;
    Ok(edges)
}

/// The answers of what a body comes to.
fn shown(
    alloc: Global,
    codes: &Codes,
    merged: Merged,
    outputs: &[CodedSymbol],
    cap: u64,
) -> Result<List<Row>, ExecFault>
    requires { HasVars outputs.now merged }
    ensures shown { IfOk result (IsShownBy codes.now outputs.now merged) }
    ensures cap { IfOk result (λ rows. length rows ≤ cap) }
    ensures more { IfErr result (λ fault. fault ≡ More → IsMoreBy codes.now outputs.now cap merged) }
{
    match merged {
        Merged::Whole(last) => answers(alloc, codes, &last, outputs, cap),
        Merged::Over => Err(ExecFault::More),
        Merged::Nothing => Ok(List::new(alloc)),
    }
}

/// What `execute` promises, with codes for the values that are met.
fn execute_by<R: Rows>(
    alloc: Global,
    task: &Task,
    rows: &mut R,
    codes: &mut Codes,
    cap: u64,
) -> Result<List<Row>, ExecFault>
    requires { IsTask (R.tables rows.old) task.now }
    ensures outputs { IfOk result (AreOutputs (R.tables rows.old) task.now) }
    ensures cap { IfOk result (λ outputs. length outputs ≤ cap) }
    ensures more { IfErr result (λ fault. fault ≡ More → AreMoreThan cap (IsOutput (R.tables rows.old) task.now)) }
    ensures tables { R.tables rows.new ≡ R.tables rows.old }
    ensures fetches { R.fetches rows.new ≤ R.fetches rows.old + task_share (R.tables rows.old) task.now }
{
    let found = fetch_rows(alloc, task, rows, codes)?;
    let fetched = match found {
        None => return Ok(List::new(alloc)),
        Some(fetched) => fetched,
    };
    let edges = some_edges(alloc, fetched)?;
    let checks = checks_of(alloc, codes, task)?;
    let outputs = terms_of(alloc, codes, &task.outputs)?;
    let needed = variables_of(alloc, &outputs)?;
    codes.keeps_its_rules();
    let body = Body { edges, checks };
    let merged = run(alloc, codes, body, &needed, Some(cap as usize))?;
    shown(alloc, codes, merged, &outputs, cap)
}

/// The outputs of all valuations under which each row agrees with a stored row of one of its sources
/// and all comparisons hold: ascending, each once, unless there are more than `cap`.
///
/// The rows that are reached by a constant, or by what is known of a variable, are fetched through an
/// index, where that is fewer than all. The time beside is that of hashing the candidates and of
/// joining them pair by pair, with only the columns that are still needed.
pub fn execute<R: Rows>(
    alloc: Global,
    task: &Task,
    rows: &mut R,
    cap: u64,
) -> Result<List<Row>, ExecFault>
    requires { IsTask (R.tables rows.old) task.now }
    ensures outputs { IfOk result (AreOutputs (R.tables rows.old) task.now) }
    ensures cap { IfOk result (λ outputs. length outputs ≤ cap) }
    ensures more { IfErr result (λ fault. fault ≡ More → AreMoreThan cap (IsOutput (R.tables rows.old) task.now)) }
    ensures tables { R.tables rows.new ≡ R.tables rows.old }
    ensures fetches { R.fetches rows.new ≤ R.fetches rows.old + task_share (R.tables rows.old) task.now }
{
    let mut codes = Codes::new(alloc);
    execute_by(alloc, task, rows, &mut codes, cap)
}
