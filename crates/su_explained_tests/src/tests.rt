use std::alloc::Global;
use su_explained::{Fault, read};

const FOLDED: &str =
    "query: retrieve (A) where B = 'x < \"y\" & é'\nvariables -\nterm 0 disjunct 0 choice 0\n  row 0 - AB A=A B='x < \"y\" & é'\n  row 1 - AC A=A C=C\n  head A\n  kept 0\n  fold 0 0\n  sources 0 AB\nterms 1 kept 1\n";

/// The number of the line at fault, 0 where there is none.
fn fault_of(alloc: Global, text: &str) -> usize {
    match read(alloc, text.as_bytes()) {
        Ok(_) => 0,
        Err(Fault::Line(number)) => number,
        Err(Fault::NoMemory) => usize::MAX,
    }
}

#[test]
fn the_first_line_at_fault_is_told(rt: HostRuntime) {
    let alloc = rt.alloc();
    // each second is the line that can't stand there
    let cases = [
        (FOLDED, 0),
        ("", 0),
        ("attribute A int;\nobject A (A) from P (A);\n", 0),
        ("attribute A number;\n", 1),
        ("attribute A int;\nquery: retrieve (A)\n", 2),
        ("attribute A int;", 1),
        (
            "query: retrieve (A) where A = 'x\ny'\nvariables -\nterm 1 disjunct 0 choice 0\n",
            4,
        ),
        ("query: retrieve (A)\nvariables -\nterms 0 kept 0\n", 0),
        ("query: retrieve (A)\nvariables -\n", 3),
        ("query: retrieve (A)\nvariables -\nterms 0 kept 0\n\n", 4),
        ("rows 1\nA\n1\n", 1),
    ];
    for (text, line) in cases {
        assert_eq!(rt; fault_of(alloc, text), line, "{text}");
    }
}
