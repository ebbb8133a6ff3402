ghost use Rattle.std.specs.Prelude.{◌<◌};

use std::alloc::Global;
use std::test::Fail;
use su_base::{List, NoMemory, Row, Value, copy_row};
use su_reduce::{Edge, ears, reduce};
use su_tableau::Sym;

/// A cell: a variable from 0 on; below that a constant, -7 for the value 7.
fn cell(x: i64) -> Sym {
    if x >= 0 {
        Sym::Var((x as u64 & 0xFFFF) as u32)
    } else {
        Sym::Const(Value::Int(x.wrapping_neg()))
    }
}

fn row(alloc: Global, values: &[i64]) -> Result<Row, NoMemory> {
    let mut row = List::new(alloc);
    for value in values {
        row.push(Value::Int(*value))?;
    }
    Ok(row)
}

/// The cells and the candidates of an edge.
type Plain = (&'static [i64], &'static [&'static [i64]]);

fn edge(alloc: Global, plain: &Plain) -> Result<Edge, NoMemory> {
    let mut made = Edge {
        cells: List::new(alloc),
        candidates: List::new(alloc),
    };
    for x in plain.0 {
        made.cells.push(cell(*x))?;
    }
    for values in plain.1 {
        made.candidates.push(row(alloc, values)?)?;
    }
    Ok(made)
}

/// What is left of the edges; nothing where they have no ear order.
fn reduced(alloc: Global, edges: &[Edge]) -> Result<Option<List<List<Row>>>, NoMemory> {
    if edges.len() > 64 {
        return Ok(None);
    }
    match ears(alloc, edges)? {
        Some(order) => Ok(Some(reduce(alloc, edges, order.as_slice())?)),
        None => Ok(None),
    }
}

struct Case {
    edges: &'static [Plain],
    /// Per edge the candidates that are left; nothing where there is no ear order.
    left: Option<&'static [&'static [&'static [i64]]]>,
}

const CASES: [Case; 10] = [
    // the account with a customer, and the one customer of it
    Case {
        edges: &[(&[0, -7], &[&[1, 7], &[2, 7]]), (&[0, 1], &[&[2, 5]])],
        left: Some(&[&[&[2, 7]], &[&[2, 5]]]),
    },
    // a triangle
    Case {
        edges: &[
            (&[0, 1], &[&[1, 2], &[4, 5]]),
            (&[1, 2], &[&[2, 3]]),
            (&[2, 0], &[&[3, 1]]),
        ],
        left: None,
    },
    // a ring of four beside an ear
    Case {
        edges: &[
            (&[0, 1], &[&[1, 2]]),
            (&[1, 2], &[&[2, 3]]),
            (&[2, 3], &[&[3, 4]]),
            (&[3, 0], &[&[4, 1]]),
            (&[0, 9], &[&[1, 5]]),
        ],
        left: None,
    },
    // a triangle and an edge over it
    Case {
        edges: &[
            (&[0, 1], &[&[1, 2], &[4, 5]]),
            (&[1, 2], &[&[2, 3]]),
            (&[2, 0], &[&[3, 1]]),
            (&[0, 1, 2], &[&[1, 2, 3], &[4, 5, 3]]),
        ],
        left: Some(&[&[&[1, 2]], &[&[2, 3]], &[&[3, 1]], &[&[1, 2, 3]]]),
    },
    // an edge twice: what both have is left
    Case {
        edges: &[
            (&[0, 1], &[&[1, 2], &[3, 4]]),
            (&[0, 1], &[&[3, 4], &[5, 6]]),
        ],
        left: Some(&[&[&[3, 4]], &[&[3, 4]]]),
    },
    // edges without variables
    Case {
        edges: &[(&[], &[&[], &[]]), (&[-3], &[&[4], &[3]])],
        left: Some(&[&[&[], &[]], &[&[3]]]),
    },
    // two components, one of them empty
    Case {
        edges: &[(&[0, 1], &[&[1, 2]]), (&[1, 2], &[&[2, 3]]), (&[5], &[])],
        left: Some(&[&[], &[], &[]]),
    },
    // a candidate twice, and one of another length
    Case {
        edges: &[(&[0], &[&[1], &[2], &[1], &[1, 1]]), (&[0], &[&[1]])],
        left: Some(&[&[&[1], &[1]], &[&[1]]]),
    },
    // a variable twice
    Case {
        edges: &[(&[0, 0], &[&[1, 2], &[2, 2]])],
        left: Some(&[&[&[2, 2]]]),
    },
    // no edges
    Case {
        edges: &[],
        left: Some(&[]),
    },
];

fn edges_of(alloc: Global, case: &Case) -> Result<List<Edge>, NoMemory> {
    let mut edges = List::new(alloc);
    for plain in case.edges {
        edges.push(edge(alloc, plain)?)?;
    }
    Ok(edges)
}

fn rows_of(alloc: Global, left: &[&[&[i64]]]) -> Result<List<List<Row>>, NoMemory> {
    let mut all = List::new(alloc);
    for rows in left {
        let mut list = List::new(alloc);
        for values in *rows {
            list.push(row(alloc, values)?)?;
        }
        all.push(list)?;
    }
    Ok(all)
}

#[test]
fn what_takes_part_is_left(rt: HostRuntime) -> Result<(), Fail> {
    let alloc = rt.alloc();
    for case in &CASES {
        let edges = edges_of(alloc, case)?;
        let left = reduced(alloc, edges.as_slice())?;
        match case.left {
            Some(rows) => {
                let wanted = rows_of(alloc, rows)?;
                assert!(rt; left.expect(&rt, "acyclic") == wanted);
            }
            None => assert!(rt; left.is_none()),
        }
    }
    Ok(())
}

#[test]
fn a_chain_of_62_edges_is_emptied_from_its_middle(rt: HostRuntime) -> Result<(), Fail> {
    let alloc = rt.alloc();
    let mut edges = List::new(alloc);
    for i in 0..62u32 {
        let low = if i < 31 { 0 } else { 2 };
        let mut made = edge(alloc, &(&[], &[]))?;
        made.cells.push(Sym::Var(i))?;
        made.cells.push(Sym::Var(i + 1))?;
        for x in low..low + 2 {
            for y in low..low + 2 {
                made.candidates.push(row(alloc, &[x, y])?)?;
            }
        }
        edges.push(made)?;
    }
    let left = reduced(alloc, edges.as_slice())?.expect(&rt, "acyclic");
    assert_eq!(rt; left.len(), 62);
    for rows in left.as_slice() {
        assert!(rt; rows.is_empty());
    }
    Ok(())
}

/// The value that valuation v gives variable k: digit k of v to the base 3.
fn digit(v: u64, k: u32) -> i64 {
    let mut rest = v;
    for _ in 0..k {
        rest /= 3;
    }
    (rest % 3) as i64
}

fn has_value(v: u64, x: &Sym, value: &Value) -> bool {
    match x {
        Sym::Const(constant) => constant == value,
        Sym::Var(k) => *value == Value::Int(digit(v, *k)),
    }
}

fn gives(v: u64, cells: &[Sym], row: &[Value]) -> bool {
    if row.len() != cells.len() {
        return false;
    }
    for p in 0..cells.len() {
        if !has_value(v, &cells[p], &row[p]) {
            return false;
        }
    }
    true
}

fn chooses_of(v: u64, edge: &Edge) -> bool {
    for row in edge.candidates.as_slice() {
        if gives(v, edge.cells.as_slice(), row.as_slice()) {
            return true;
        }
    }
    false
}

/// Whether valuation v gives each edge one of its candidates.
fn chooses(v: u64, edges: &[Edge]) -> bool {
    for edge in edges {
        if !chooses_of(v, edge) {
            return false;
        }
    }
    true
}

/// Whether some valuation of four variables by 0, 1 and 2 chooses and gives the edge the row.
fn takes_part(edges: &[Edge], cells: &[Sym], row: &[Value]) -> bool {
    for v in 0..81 {
        if gives(v, cells, row) && chooses(v, edges) {
            return true;
        }
    }
    false
}

/// What is left of the edge by trying all valuations.
fn tried(alloc: Global, edges: &[Edge], edge: &Edge) -> Result<List<Row>, NoMemory> {
    let mut left = List::new(alloc);
    for row in edge.candidates.as_slice() {
        if takes_part(edges, edge.cells.as_slice(), row.as_slice()) {
            left.push(copy_row(alloc, row)?)?;
        }
    }
    Ok(left)
}

/// The next of a sequence of numbers below n.
fn draw(state: &mut u64, n: u64) -> i64
    requires { 0 < n }
{
    *state = state
        .wrapping_mul(6364136223846793005)
        .wrapping_add(1442695040888963407);
    ((*state >> 33) % n) as i64
}

/// An edge of two cells, each one of four variables or at times the constant 1, with four rows.
fn drawn_edge(alloc: Global, state: &mut u64) -> Result<Edge, NoMemory> {
    let mut made = edge(alloc, &(&[], &[]))?;
    for _ in 0..2 {
        let x = draw(state, 9);
        made.cells.push(cell(if x == 8 { -1 } else { x % 4 }))?;
    }
    for _ in 0..4 {
        made.candidates
            .push(row(alloc, &[draw(state, 3), draw(state, 3)])?)?;
    }
    Ok(made)
}

#[test]
fn what_is_left_is_what_trying_all_valuations_leaves(rt: HostRuntime) -> Result<(), Fail> {
    let alloc = rt.alloc();
    let mut acyclic = 0u64;
    for seed in 0..60u64 {
        let mut state = seed;
        let mut edges = List::new(alloc);
        for _ in 0..3 {
            edges.push(drawn_edge(alloc, &mut state)?)?;
        }
        let Some(left) = reduced(alloc, edges.as_slice())? else {
            continue;
        };
        acyclic = acyclic.saturating_add(1);
        let mut wanted = List::new(alloc);
        for edge in edges.as_slice() {
            wanted.push(tried(alloc, edges.as_slice(), edge)?)?;
        }
        assert!(rt; left == wanted);
    }
    assert!(rt; acyclic > 30);
    Ok(())
}
