//! What takes part in the answers of the kept terms.
ghost use Rattle.std.specs.Prelude.{◌≡◌, ◌≤◌, ◌<◌, ℕ, length, map, get_or, [], All, IfOk, MatchOption};
ghost use Rattle.std.specs.List.{AllZip, range_with_len};
ghost use Rattle.su_tableau.specs.Kinds.{IsTyped};
ghost use Rattle.su_schema.specs.Entries.{attribute_kinds};
ghost use Rattle.su_map.specs.Lists.{row_numbers};
ghost use Rattle.su_reduce.specs.Ears.{AreAcyclic, cells_of};
ghost use Rattle.su_reduce.specs.Left.{AreLeft};
ghost use Rattle.su_exec.specs.Tasks.{IsTask};
ghost use Rattle.su_min.specs.Reduction.{term_at};
ghost use Rattle.su_answer.specs.Prepared.{IsPreparedOn};
ghost use Rattle.su_answer.specs.Support.{AreSupports, IsSupport};
ghost use Rattle.su_answer.specs.inside.Alone.{AreCountable, IsEdgeOf};
ghost use Rattle.su_answer.specs.inside.Supported.{AreEdgesOf, IsKeptTask, count_left, counted_at};

use crate::alone::candidates;
use crate::executing::task_for;
use crate::preparing::Prepared;
use std::alloc::Global;
use std::marker::Brand;
use std::sync::ledger::{Blank, Ledger};
use su_base::{List, NoMemory, Row};
use su_exec::Task;
use su_index::{Table, TableRows};
use su_min::Minimal;
use su_reduce::{Counted, Edge, Support, ears, reduce};
use su_state::Database;
use su_steps::laws::terms_are_valid_and_typed;
use su_tableau::has;

/// The candidates of the task's rows, whose fetches are counted in a ledger.
fn edges_of<L: Ledger>(
    alloc: Global,
    tables: &[Table],
    task: &Task,
    blank: Blank,
) -> Result<List<Edge>, NoMemory>
    requires task { IsTask tables.now task.now }
    requires countable { All (AreCountable tables.now) task.now.rows }
    requires name { blank.name ≡ L.name }
    requires parts { blank.parts ≡ L.parts }
    requires some { 0 < blank.parts }
    ensures { IfOk result (AllZip (IsEdgeOf tables.now) task.now.rows) }
{
    let mut rows = TableRows::<L>::new(tables, blank);
    candidates(alloc, task, &mut rows)
}

/// The task of the kept rows, none of which has too many candidates to be counted.
fn kept_task(alloc: Global, db: &Database, minimal: &Minimal) -> Result<Task, NoMemory>
    requires { IsTyped (attribute_kinds db.now.schema) minimal.now.tableau }
    ensures { IfOk result (IsKeptTask db.now minimal.now) }
{
    db.keeps_its_rules();
    let task = task_for(alloc, db, minimal)?;
    Ok(task)
}

/// The candidates of the term's kept rows.
fn edges_for(alloc: Global, db: &Database, minimal: &Minimal) -> Result<List<Edge>, NoMemory>
    requires { IsTyped (attribute_kinds db.now.schema) minimal.now.tableau }
    ensures { IfOk result (AreEdgesOf db.now minimal.now) }
{
    let task = kept_task(alloc, db, minimal)?;
    let edges = edges_of::<Brand>(alloc, db.tables(), &task, Blank::new(1))?;
    Ok(edges)
}

/// What is left of the candidates of each edge, if the edges are acyclic.
fn left_of(alloc: Global, edges: &[Edge]) -> Result<Option<List<List<Row>>>, NoMemory>
    requires { length edges.now ≤ 64 }
    ensures acyclic { IfOk result (λ left. MatchOption left (¬ AreAcyclic (cells_of edges.now)) (λ _. AreAcyclic (cells_of edges.now))) }
    ensures length { IfOk result (λ left. MatchOption left (Unit {0}) (λ rows. length rows ≡ length edges.now)) }
    ensures left { IfOk result (λ left. MatchOption left (Unit {0}) (λ rows. (i : ℕ) → i < length edges.now → AreLeft edges.now i (get_or rows i []))) }
{
    let found = ears(alloc, edges)?;
    let order = match found {
        None => return Ok(None),
        Some(order) => order,
    };
    let left = reduce(alloc, edges, order.as_slice())?;
    Ok(Some(left))
}

/// The numbers of the kept rows.
fn kept_rows(alloc: Global, minimal: &Minimal) -> Result<List<u8>, NoMemory>
    ensures { IfOk result (λ numbers. numbers ≡ row_numbers minimal.now.tableau minimal.now.mask) }
{
    let t = minimal.tableau();
    let set = minimal.mask();
    t.keeps_its_rules();
    let mut numbers = List::new(alloc);
    for i in 0..t.row_count() {
        if has(set, i) {
            numbers.push(i as u8)?;
        }
    }
    Ok(numbers)
}

/// How many are left of the candidates of edge k.
fn left_at(left: &Option<List<List<Row>>>, k: usize) -> Option<u64>
    requires { MatchOption left.now (Unit {0}) (λ rows. k < length rows) }
    ensures { result ≡ count_left left.now k }
{
    match left {
        Some(rows) => Some(rows.get(k).len() as u64),
        None => None,
    }
}

/// The number of edge k's row, how many candidates it has, and how many of them are left.
fn count_of(numbers: &[u8], edges: &[Edge], left: &Option<List<List<Row>>>, k: usize) -> Counted
    requires numbers { k < length numbers.now }
    requires edges { k < length edges.now }
    requires left { MatchOption left.now (Unit {0}) (λ rows. k < length rows) }
    ensures { result ≡ counted_at numbers.now edges.now left.now k }
{
    Counted {
        row: numbers[k],
        candidates: edges[k].candidates.len() as u64,
        left: left_at(left, k),
    }
}

/// What is counted of each edge.
fn counted(
    alloc: Global,
    numbers: &[u8],
    edges: &[Edge],
    left: &Option<List<List<Row>>>,
) -> Result<List<Counted>, NoMemory>
    requires numbers { length numbers.now ≡ length edges.now }
    requires left { MatchOption left.now (Unit {0}) (λ rows. length rows ≡ length edges.now) }
    ensures { IfOk result (λ counts. counts ≡ map (counted_at numbers.now edges.now left.now) (range_with_len 0 (length edges.now))) }
{
    let mut counts = List::new(alloc);
    for k in 0..edges.len() {
        counts.push(count_of(numbers, edges, left, k))?;
    }
    Ok(counts)
}

/// What takes part in the answers of the term.
fn support_of(
    alloc: Global,
    db: &Database,
    minimal: &Minimal,
    term: u16,
) -> Result<Support, NoMemory>
    requires { IsTyped (attribute_kinds db.now.schema) minimal.now.tableau }
    ensures term { IfOk result (λ s. s.term ≡ term) }
    ensures support { IfOk result (IsSupport db.now minimal.now) }
{
    let edges = edges_for(alloc, db, minimal)?;
    let each = edges.as_slice();
    let left = left_of(alloc, each)?;
    let kept = kept_rows(alloc, minimal)?;
    let numbers = kept.as_slice();
    let rows = counted(alloc, numbers, each, &left)?;
    let acyclic = left.is_some();
    Ok(Support {
        term,
        acyclic,
        rows,
    })
}

/// What takes part in the answers of the terms with these numbers.
fn supports_of(
    alloc: Global,
    db: &Database,
    minimals: &[Minimal],
    kept: &[u16],
) -> Result<List<Support>, NoMemory>
    requires typed { All (λ m. IsTyped (attribute_kinds db.now.schema) m.tableau) minimals.now }
    requires within { All (λ k. k < length minimals.now) kept.now }
    ensures { IfOk result (AllZip (λ k s. (s.term ≡ k) × IsSupport db.now (term_at minimals.now k) s) kept.now) }
{
    let mut supports = List::new(alloc);
    for k in kept {
        let one = support_of(alloc, db, &minimals[*k as usize], *k)?;
        supports.push(one)?;
    }
    Ok(supports)
}

/// For each kept term, whether its kept rows are acyclic, how many candidates each of them has, and, of
/// an acyclic term, how many of these are left. Nothing is joined: the time is that of fetching and
/// sorting the candidates, and of the semijoins.
pub fn support(alloc: Global, db: &Database, prepared: &Prepared) -> Result<List<Support>, NoMemory>
    requires { IsPreparedOn db.now.schema prepared.now }
    ensures { IfOk result (AreSupports db.now prepared.now) }
{
    db.keeps_its_rules();
    terms_are_valid_and_typed();
    let minimals = prepared.minimals.as_slice();
    let kept = prepared.reduced.kept.as_slice();
    let supports = supports_of(alloc, db, minimals, kept)?;
    Ok(supports)
}
