use std::alloc::Global;
use std::test::Fail;
use su_base::NoMemory;
use su_check::{Checked, Fault, check};

/// The verdict on the parts, one behind another.
fn verdict(alloc: Global, parts: &[&str]) -> Result<Checked, NoMemory> {
    let mut bytes = Vec::new(alloc);
    for part in parts {
        bytes.extend_from_slice(part.as_bytes())?;
    }
    if bytes.len() >= 4294967296 {
        return Err(NoMemory);
    }
    check(alloc, bytes.as_slice())
}

/// The verdict where the tree of this row of term 0 is at fault.
fn no_tree(row: u8) -> Checked {
    Checked::No(Fault::Tree { term: 0, row })
}

const NO_FORM: Checked = Checked::No(Fault::Form(0));

const NO_FOLD: Checked = Checked::No(Fault::Fold(0));

const SYNTAX: Checked = Checked::No(Fault::Syntax);

const YES: Checked = Checked::Yes { terms: 1 };

/// The customers of accounts: attributes BANK, ACCT, CUST, BAL, LOAN, AMT, ADDR.
const CUSTOMERS: &str =
    "certificate 7\nkinds text int text int int int text\nterm 0\nhead v2\nrows\n(v0 v1 v9 v10 v11 v12 v13)\n(v14 v1 v2 v17 v18 v19 v20)\n(v21 v1 v23 v3 v25 v26 v27)\n(v28 v29 v2 v31 v32 v33 v6)\n";

/// Who else is in a room with a course of Jones: attributes C, T, H, R, S, G.
const COURSES: &str =
    "certificate 6\nkinds text text text text text text\nterm 0\nhead v0\nrows\n(v0 v1 v14 v15 v16 v17)\n(v0 v19 v2 v3 v22 v23)\n(v0 v25 v26 v27 v4 v5)\n(v6 v7 v32 v33 v34 v35)\n(v6 v37 v8 v3 v40 v41)\n(v6 v43 v44 v45 'Jones' v11)\n";

/// A node 64 deep.
const DEEP: &str =
    "(1 1 (1 1 (1 1 (1 1 (1 1 (1 1 (1 1 (1 1 (1 1 (1 1 (1 1 (1 1 (1 1 (1 1 (1 1 (1 1 (1 1 (1 1 (1 1 (1 1 (1 1 (1 1 (1 1 (1 1 (1 1 (1 1 (1 1 (1 1 (1 1 (1 1 (1 1 (1 1 (1 1 (1 1 (1 1 (1 1 (1 1 (1 1 (1 1 (1 1 (1 1 (1 1 (1 1 (1 1 (1 1 (1 1 (1 1 (1 1 (1 1 (1 1 (1 1 (1 1 (1 1 (1 1 (1 1 (1 1 (1 1 (1 1 (1 1 (1 1 (1 1 (1 1 (1 1 (1))))))))))))))))))))))))))))))))))))))))))))))))))))))))))))))))";

#[test]
fn customers_have_a_certificate(rt: HostRuntime) -> Result<(), Fail> {
    let cases = [
        ("kept 1\nfold 1 1 1 1\ntree 1 (1)\n", YES),
        (
            "kept 1 3\nfold 1 1 1 3\ntree 1 (1)\ntree 3 (3)\n",
            no_tree(1),
        ),
        ("kept 1\nfold 1 1 1 0\ntree 1 (1)\n", NO_FOLD),
        // comments and spaces stand between symbols
        ("  kept -- here\n1 fold 1 1\t1 1 tree 1(1)", YES),
    ];
    for (rest, wanted) in cases {
        assert!(rt; verdict(rt.alloc(), &[CUSTOMERS, rest])? == wanted);
    }
    Ok(())
}

#[test]
fn three_trees_share_a_room(rt: HostRuntime) -> Result<(), Fail> {
    let kept = "kept 1 4 5\nfold 1 1 1 4 4 5\n";
    let cases = [
        ("tree 1 (1) tree 4 (1 1 (4 1 (5))) tree 5 (5)", YES),
        // a target that fits is missing
        ("tree 1 (1) tree 4 (1) tree 5 (5)", no_tree(4)),
        ("tree 1 (1) tree 4 (1 1 (4)) tree 5 (5)", no_tree(4)),
        // a target that doesn't fit, and one that is no row
        ("tree 1 (1) tree 4 (1 5 (4 1 (5))) tree 5 (5)", no_tree(4)),
        ("tree 1 (1) tree 4 (1 255 (4 1 (5))) tree 5 (5)", no_tree(4)),
        // the row that is left out as a target
        (
            "tree 1 (1) tree 4 (1 1 (4 1 (5) 4 (5))) tree 5 (5)",
            no_tree(4),
        ),
        // a branch twice, and a branch too many
        (
            "tree 1 (1) tree 4 (1 1 (4 1 (5)) 1 (4 1 (5))) tree 5 (5)",
            no_tree(4),
        ),
        (
            "tree 1 (1) tree 4 (1 1 (4 1 (5)) 5 (5)) tree 5 (5)",
            no_tree(4),
        ),
        // a row that has a target, one that isn't kept, and none
        ("tree 1 (1) tree 4 (1 1 (4 1 (1))) tree 5 (5)", no_tree(4)),
        ("tree 1 (1) tree 4 (1 1 (4 1 (2))) tree 5 (5)", no_tree(4)),
        ("tree 1 (1) tree 4 (1 1 (4 1 (6))) tree 5 (5)", no_tree(4)),
        // trees that are missing, exchanged or too many
        ("tree 1 (1) tree 4 (1 1 (4 1 (5)))", no_tree(5)),
        ("tree 1 (1) tree 5 (5) tree 4 (1 1 (4 1 (5)))", no_tree(4)),
        ("", no_tree(1)),
        (
            "tree 1 (1) tree 4 (1 1 (4 1 (5))) tree 5 (5) tree 9 (9)",
            no_tree(9),
        ),
    ];
    for (trees, wanted) in cases {
        assert!(rt; verdict(rt.alloc(), &[COURSES, kept, trees])? == wanted);
    }
    Ok(())
}

#[test]
fn a_fold_is_a_mapping_into_ascending_kept_rows(rt: HostRuntime) -> Result<(), Fail> {
    let trees = "tree 1 (1) tree 4 (1 1 (4 1 (5))) tree 5 (5)";
    let cases = [
        ("kept 1 4 5 fold 1 1 1 4 4 ", NO_FOLD),
        ("kept 1 4 5 fold 1 1 1 4 4 5 5 ", NO_FOLD),
        ("kept 1 4 5 fold 1 1 1 3 4 5 ", NO_FOLD),
        ("kept 1 4 5 fold 1 1 1 4 4 4 ", NO_FOLD),
        ("kept 1 4 5 fold 1 1 1 1 4 5 ", NO_FOLD),
        ("kept 1 1 5 fold 1 1 1 4 4 5 ", NO_FORM),
        ("kept 4 1 5 fold 1 1 1 4 4 5 ", NO_FORM),
        ("kept 1 4 6 fold 1 1 1 4 4 5 ", NO_FORM),
    ];
    for (rest, wanted) in cases {
        assert!(rt; verdict(rt.alloc(), &[COURSES, rest, trees])? == wanted);
    }
    Ok(())
}

#[test]
fn terms_are_valid_and_well_typed(rt: HostRuntime) -> Result<(), Fail> {
    let two = "certificate 2 kinds int text ";
    let cases = [
        ("term 1 head rows kept fold", NO_FORM),
        // a head variable that stands nowhere
        ("term 0 head v7 rows (v0 v1) kept 0 fold 0", NO_FORM),
        // a variable of two kinds, and values of the wrong kind
        ("term 0 head rows (v0 v0) kept 0 fold 0", NO_FORM),
        ("term 0 head rows (v0 v1) (v1 v2) kept 0 fold 0", NO_FORM),
        ("term 0 head rows ('a' v1) kept 0 fold 0", NO_FORM),
        ("term 0 head rows (v0 -5) kept 0 fold 0", NO_FORM),
        // constants and great numbers; a term of nothing
        (
            "term 0 head v4294967295 rows (-9223372036854775808 v4294967295) kept 0 fold 0 tree 0 (0)",
            YES,
        ),
        ("term 0 head 'it''s' 7 rows kept fold", YES),
        ("term 0 head rows kept fold", YES),
        ("", Checked::Yes { terms: 0 }),
        // nothing is kept beside a row; a fold moves a constant
        ("term 0 head rows (v0 v1) kept fold 0", NO_FOLD),
        (
            "term 0 head rows (7 v0) (8 v0) kept 0 fold 0 0 tree 0 (0)",
            NO_FOLD,
        ),
        // the first fault is told, and syntax before all
        (
            "term 0 head rows kept fold term 1 head rows (v0 v1) kept fold 0 term 0 head rows kept fold",
            Checked::No(Fault::Fold(1)),
        ),
        ("term 9 head rows kept fold term 1 head rows kept", SYNTAX),
    ];
    for (terms, wanted) in cases {
        assert!(rt; verdict(rt.alloc(), &[two, terms])? == wanted);
    }
    Ok(())
}

const TERM: &str = "term 0 head v0 rows (v0) kept 0 fold 0 tree 0 (0)";

/// Texts in two pieces that are no certificate.
const NO_CERTIFICATES: &[(&str, &str)] = &[
    ("", ""),
    ("-- nothing", ""),
    ("certificate 0 kinds", ""),
    ("certificate 2 kinds int", ""),
    ("certificate 1 kinds int int", ""),
    ("certificate -1 kinds int", ""),
    ("certificate 1 kinds real", ""),
    ("\u{feff}certificate 1 kinds int ", TERM),
    ("certificate 1 kinds int; ", TERM),
    (
        "certificate 1 kinds int ",
        "term 4294967296 head rows kept fold",
    ),
    ("certificate 1 kinds int ", "term 0 head v01 rows kept fold"),
    ("certificate 1 kinds int ", "term 0 head v 1 rows kept fold"),
    (
        "certificate 1 kinds int ",
        "term 0 head v4294967296 rows kept fold",
    ),
    ("certificate 1 kinds int ", "term 0 head x0 rows kept fold"),
    (
        "certificate 1 kinds int ",
        "term 0 head rows (v0 v1) kept 0 fold 0",
    ),
    (
        "certificate 1 kinds int ",
        "term 0 head rows () kept 0 fold 0",
    ),
    (
        "certificate 1 kinds int ",
        "term 0 head rows (v0 kept 0 fold 0",
    ),
    (
        "certificate 1 kinds int ",
        "term 0 head rows (v0) kept 256 fold 0",
    ),
    (
        "certificate 1 kinds int ",
        "term 0 head rows (v0) kept 0 fold 256",
    ),
    (
        "certificate 1 kinds int ",
        "term 0 head rows (v0) kept -1 fold 0",
    ),
    (
        "certificate 1 kinds int ",
        "term 0 head rows (v0) fold 0 kept 0",
    ),
    (
        "certificate 1 kinds int ",
        "term 0 head rows (v0) kept 0 fold 0 tree 256 (0)",
    ),
    (
        "certificate 1 kinds int ",
        "term 0 head rows (v0) kept 0 fold 0 tree 0 (256)",
    ),
    (
        "certificate 1 kinds int ",
        "term 0 head rows (v0) kept 0 fold 0 tree 0 (0 0)",
    ),
    (
        "certificate 1 kinds int ",
        "term 0 head rows (v0) kept 0 fold 0 tree 0 ()",
    ),
    (
        "certificate 1 kinds int ",
        "term 0 head rows (v0) kept 0 fold 0 tree (0)",
    ),
    (
        "certificate 1 kinds int ",
        "term 0 head rows kept fold more",
    ),
];

#[test]
fn other_bytes_are_no_certificate(rt: HostRuntime) -> Result<(), Fail> {
    assert!(rt; verdict(rt.alloc(), &["certificate 1 kinds int ", TERM])? == YES);
    for (front, rest) in NO_CERTIFICATES {
        assert!(rt; verdict(rt.alloc(), &[*front, *rest])? == SYNTAX);
    }
    Ok(())
}

#[test]
fn nodes_stand_64_deep_at_most(rt: HostRuntime) -> Result<(), Fail> {
    let alloc = rt.alloc();
    let front = "certificate 1 kinds int term 0 head rows (v0) kept 0 fold 0 tree 0 ";
    assert!(rt; verdict(alloc, &[front, DEEP])? == no_tree(0));
    assert!(rt; verdict(alloc, &[front, "(1 1 ", DEEP, ")"])? == SYNTAX);
    Ok(())
}
