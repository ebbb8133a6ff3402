//! Theorems on terms: each is the contract of a function that does nothing.
ghost use Rattle.su_steps.specs.Laws.{TermsAreTheExpression, RowsHaveSources, TermsAreValidAndTyped};

/// The terms of a query are its expression, over every universal relation that meets the
/// dependencies.
pub fn terms_are_the_expression()
    ensures { TermsAreTheExpression }
{}

/// Each row of a term has a source, among whichever rows: the object that it is for.
pub fn rows_have_sources()
    ensures { RowsHaveSources }
{}

/// The terms of a query are valid tableaux, well typed for the kinds of the attributes.
pub fn terms_are_valid_and_typed()
    ensures { TermsAreValidAndTyped }
{}
