use std::alloc::Global;
use std::test::Fail;
use su_cases::{BANK, query_of, schema_of};
use su_compare::equalities;
use su_schema::Schema;

/// Queries of banks, and whether they ask for equalities alone.
const ASKED: &[(&str, bool)] = &[
    ("retrieve (BANK)", true),
    ("retrieve (BANK) where CUST = 'Jones'", true),
    ("retrieve (ACCT) where BAL > 5", false),
    ("retrieve (ACCT) where not BAL != 5", true),
    ("retrieve (ACCT) where not BAL = 5", false),
    ("retrieve (ACCT) where BAL = 5 or ACCT != 6", false),
    (
        "retrieve (ACCT) where not (BAL != 5 and not ACCT = 6)",
        true,
    ),
];

/// Whether the query asks for equalities alone; none where it is no query.
fn asks(alloc: Global, schema: &Schema, text: &str) -> Option<bool> {
    match query_of(alloc, schema, text) {
        Some(resolved) => Some(equalities(&resolved.cond)),
        None => None,
    }
}

#[test]
fn a_negated_inequality_is_an_equality(rt: HostRuntime) -> Result<(), Fail> {
    let Some(schema) = schema_of(rt.alloc(), BANK) else {
        return Err(Fail::from("no schema"));
    };
    for (text, wanted) in ASKED {
        let found = asks(rt.alloc(), &schema, text);
        assert!(rt; found == Some(*wanted), "{text}");
    }
    Ok(())
}
