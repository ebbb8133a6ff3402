//! Theorems on the terms of two queries: each is the contract of a function that does nothing.
ghost use Rattle.su_compare.specs.Laws.{TermsAreComparable, VerdictsDecide};

use su_steps::laws::{terms_are_the_expression, terms_are_valid_and_typed};

/// The terms of two queries that are accepted, ask for equalities alone and have outputs of equal
/// kinds can be compared.
pub fn terms_are_comparable()
    ensures { TermsAreComparable }
{
    terms_are_valid_and_typed();
}

/// What a verdict of the terms says is true of the queries, over every universal relation that meets the
/// dependencies: it is a yes exactly where each row of the first query is one of the second, and what a
/// no shows is a universal relation and a row where that fails.
pub fn verdicts_decide()
    ensures { VerdictsDecide }
{
    terms_are_the_expression();
    terms_are_valid_and_typed();
}
