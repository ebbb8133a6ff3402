ghost use Rattle.su_query.specs.Ranges.{IsResolved};

use std::alloc::Global;
use std::test::Fail;
use su_base::List;
use su_cases::{BANK, objects_of, query_of, schema_of};
use su_query::Resolved;
use su_schema::Schema;
use su_steps::{StepFault, Term, terms};

/// How many terms there are, and how many rows they have together.
fn counted(terms: &[Term]) -> (usize, usize) {
    let mut rows: usize = 0;
    for term in terms {
        rows = rows.saturating_add(term.tableau.row_count());
    }
    (terms.len(), rows)
}

/// The terms over the maximal objects of accounts and of loans.
fn bank_terms(alloc: Global, schema: &Schema, resolved: &Resolved) -> Result<List<Term>, StepFault>
    requires { IsResolved schema.now resolved.now }
{
    let maximal = [objects_of(&[0, 1, 2, 6]), objects_of(&[3, 4, 5, 6])];
    terms(alloc, schema, &maximal, resolved)
}

/// The counts of a query's terms; none where it is refused.
fn counts(alloc: Global, schema: &Schema, text: &str) -> Option<(usize, usize)> {
    let resolved = query_of(alloc, schema, text)?;
    match bank_terms(alloc, schema, &resolved) {
        Ok(terms) => Some(counted(terms.as_slice())),
        Err(_) => None,
    }
}

/// Queries of banks, how many terms they have, and how many rows these have together: of each choice
/// of each disjunct four rows for a variable, where it isn't contradictory.
const COUNTS: &[(&str, usize, usize)] = &[
    ("retrieve (BANK) where CUST = 'Jones'", 2, 8),
    ("retrieve (CUST) where CUST = 'a' or CUST = 'b'", 4, 16),
    ("retrieve (CUST) where CUST = 'a' and CUST = 'b'", 0, 0),
    ("retrieve (CUST) where CUST = ADDR and CUST < ADDR", 0, 0),
    ("retrieve (CUST) where CUST = ADDR and CUST <= ADDR", 2, 8),
    ("retrieve (t.ADDR, ADDR) where t.CUST = CUST", 4, 32),
    (
        "retrieve (t.ACCT) where t.ACCT = ACCT and t.BAL >= BAL",
        1,
        8,
    ),
];

#[test]
fn each_choice_of_each_disjunct_gives_a_term_unless_it_is_contradictory(
    rt: HostRuntime,
) -> Result<(), Fail> {
    let Some(schema) = schema_of(rt.alloc(), BANK) else {
        return Err(Fail::from("no schema"));
    };
    for (text, count, rows) in COUNTS {
        let found = counts(rt.alloc(), &schema, text);
        assert!(rt; found == Some((*count, *rows)), "{text}");
    }
    Ok(())
}

/// Whether the fault is that of the variable q, with which ACCT and LOAN are mentioned.
fn blames_q(fault: &StepFault) -> bool {
    match fault {
        StepFault::NotCovered {
            variable,
            mentioned,
        } => {
            if !mentioned.contains(1) || !mentioned.contains(4) || mentioned.contains(2) {
                return false;
            }
            match variable {
                Some(name) => name.as_str() == "q",
                None => false,
            }
        }
        _ => false,
    }
}

/// Whether the query is refused for its variable q.
fn is_refused_for_q(alloc: Global, schema: &Schema, text: &str) -> bool {
    match query_of(alloc, schema, text) {
        Some(resolved) => match bank_terms(alloc, schema, &resolved) {
            Ok(_) => false,
            Err(fault) => blames_q(&fault),
        },
        None => false,
    }
}

#[test]
fn the_variable_that_is_not_covered_is_named(rt: HostRuntime) -> Result<(), Fail> {
    let Some(schema) = schema_of(rt.alloc(), BANK) else {
        return Err(Fail::from("no schema"));
    };
    let text = "retrieve (CUST, q.ACCT) where q.LOAN = 1";
    assert!(rt; is_refused_for_q(rt.alloc(), &schema, text));
    Ok(())
}
