use std::alloc::Global;
use std::test::Fail;
use su_base::{Kind, List, NoMemory, Str, Value};
use su_check::{Checked, check};
use su_min::{Minimal, minimise};
use su_refute::{certify, refute, write};
use su_tableau::{Sym, Tableau, has};

/// The minimised tableau of the rows, in a list of its own; an empty one where they make none.
fn minimised(
    alloc: Global,
    width: u8,
    rows: List<List<Sym>>,
    head: List<Sym>,
) -> Result<List<Minimal>, NoMemory> {
    let mut minimals = List::new(alloc);
    let outputs = head.len().min(128) as u16;
    if let Some(t) = Tableau::checked(width, rows, head, outputs, List::new(alloc)) {
        minimals.push(minimise(alloc, t)?)?;
    }
    Ok(minimals)
}

fn variables(alloc: Global, numbers: &[u32]) -> Result<List<Sym>, NoMemory> {
    let mut variables = List::new(alloc);
    for number in numbers {
        variables.push(Sym::Var(*number))?;
    }
    Ok(variables)
}

/// Who else is in a room with a course, of which a student is asked for: attributes C, T, H, R, S, G.
const COURSES: &[&[u32]] = &[
    &[0, 1, 14, 15, 16, 17],
    &[0, 19, 2, 3, 22, 23],
    &[0, 25, 26, 27, 4, 5],
    &[6, 7, 32, 33, 34, 35],
    &[6, 37, 8, 3, 40, 41],
    &[6, 43, 44, 45, 9, 11],
];

/// The courses, minimised: rows 1, 4 and 5 are kept, and have trees of 1, 3 and 1 nodes.
fn courses(alloc: Global) -> Result<List<Minimal>, NoMemory> {
    let mut rows = List::new(alloc);
    for numbers in COURSES {
        rows.push(variables(alloc, numbers)?)?;
    }
    minimised(alloc, 6, rows, variables(alloc, &[0, 9])?)
}

/// Kept rows and budgets, and of how many nodes the row's tree is, none where they are too many.
const BUDGETS: &[(u8, u32, Option<u32>)] = &[
    (4, 3, Some(3)),
    (4, 2, None),
    (1, 1, Some(1)),
    (1, 0, None),
];

/// How many nodes the tree of the row has, if it is within the budget.
fn nodes(alloc: Global, minimals: &[Minimal], row: u8, budget: u32) -> Option<u32> {
    let minimal = minimals.first()?;
    if row >= 64 {
        return None;
    }
    if !has(minimal.mask(), row as usize) {
        return None;
    }
    match refute(alloc, minimal, row, budget) {
        Ok(tree) => Some(tree.nodes),
        Err(_) => None,
    }
}

#[test]
fn a_budget_is_of_nodes(rt: HostRuntime) -> Result<(), Fail> {
    let minimals = courses(rt.alloc())?;
    for (row, budget, want) in BUDGETS {
        let found = nodes(rt.alloc(), minimals.as_slice(), *row, *budget);
        assert!(rt; found == *want, "row {row}");
    }
    // the trees of all rows count together
    assert!(rt; certify(rt.alloc(), minimals.as_slice(), 4).is_err());
    assert!(rt; certify(rt.alloc(), minimals.as_slice(), 5).is_ok());
    Ok(())
}

/// A text of so many bytes.
fn long_text(alloc: Global, bytes: usize) -> Result<Str, NoMemory> {
    let mut text = String::new(alloc);
    for _ in 0..bytes {
        text.push_str("x")?;
    }
    Str::new(alloc, text.as_str())
}

/// The least number, a text with apostrophes, a long one, and a variable.
fn constants(alloc: Global) -> Result<List<Sym>, NoMemory> {
    let mut row = List::new(alloc);
    row.push(Sym::Const(Value::Int(i64::MIN)))?;
    row.push(Sym::Const(Value::Text(Str::new(alloc, "it's '")?)))?;
    row.push(Sym::Const(Value::Text(long_text(alloc, 4096)?)))?;
    row.push(Sym::Var(70_000))?;
    Ok(row)
}

/// The tableau of one row, which is of constants.
fn constant_row(alloc: Global) -> Result<List<Minimal>, NoMemory> {
    let mut rows = List::new(alloc);
    rows.push(constants(alloc)?)?;
    minimised(alloc, 4, rows, variables(alloc, &[70_000])?)
}

const KINDS: [Kind; 4] = [Kind::Int, Kind::Text, Kind::Text, Kind::Text];

/// The text of the certificate; none where there are more than so many nodes.
fn certificate(
    alloc: Global,
    minimals: &[Minimal],
    budget: u32,
) -> Result<Option<List<u8>>, NoMemory> {
    match certify(alloc, minimals, budget) {
        Ok(trees) => Ok(Some(write(alloc, &KINDS, minimals, trees.as_slice())?)),
        Err(_) => Ok(None),
    }
}

/// Whether the text is a good certificate of one term.
fn is_good(alloc: Global, text: &[u8]) -> Result<bool, NoMemory> {
    if text.len() >= 1 << 32 {
        return Ok(false);
    }
    Ok(check(alloc, text)? == Checked::Yes { terms: 1 })
}

#[test]
fn constants_are_read_as_written(rt: HostRuntime) -> Result<(), Fail> {
    let minimals = constant_row(rt.alloc())?;
    let Some(text) = certificate(rt.alloc(), minimals.as_slice(), 1)? else {
        return Err(Fail::from("more than a node"));
    };
    assert!(rt; is_good(rt.alloc(), text.as_slice())?);
    Ok(())
}
