use std::alloc::Global;
use std::test::Fail;
use su_base::{List, NoMemory};
use su_reduce::{Counted, Support};
use su_show::supports;

/// A cyclic and an acyclic term: the first with a row that has nothing left to count.
fn terms(alloc: Global) -> Result<List<Support>, NoMemory> {
    let mut rows = List::new(alloc);
    rows.push(Counted {
        row: 63,
        candidates: 18446744073709551615,
        left: None,
    })?;
    let mut terms = List::new(alloc);
    terms.push(Support {
        term: 255,
        acyclic: false,
        rows,
    })?;
    terms.push(Support {
        term: 256,
        acyclic: true,
        rows: List::new(alloc),
    })?;
    Ok(terms)
}

const LINES: &str = "\
term 255 cyclic
  row 63 candidates 18446744073709551615
term 256 acyclic
";

#[test]
fn each_kept_term_has_its_line_and_one_for_each_kept_row(rt: HostRuntime) -> Result<(), Fail> {
    let terms = terms(rt.alloc())?;
    let lines = supports(rt.alloc(), terms.as_slice())?;
    assert_eq!(rt; lines.as_slice(), LINES.as_bytes());
    Ok(())
}
