//! Theorems on prepared queries and on their answers: each is the contract of a function that does nothing.
ghost use Rattle.su_answer.specs.Laws.{PreparedRowsAreLeast, PreparedTermsAreNeeded, AnswersAreTheExpression};

use su_map::laws::row_lists_are_mappings;
use su_min::laws::{kept_rows_are_least, kept_terms_are_needed, terms_are_kept_or_covered};
use su_steps::laws::{rows_have_sources, terms_are_the_expression, terms_are_valid_and_typed};
use su_tableau::laws::essential_columns_suffice;

/// The kept rows of each term of a prepared query are least.
pub fn prepared_rows_are_least()
    ensures { PreparedRowsAreLeast }
{
    terms_are_valid_and_typed();
    kept_rows_are_least();
}

/// No kept term of a prepared query can be spared.
pub fn prepared_terms_are_needed()
    ensures { PreparedTermsAreNeeded }
{
    terms_are_valid_and_typed();
    kept_terms_are_needed();
}

/// Over the projections of one universal relation that meets the dependencies, the answer of a query
/// is that of its expression (Korth, Kuper, Feigenbaum, Van Gelder and Ullman, ACM TODS 1984).
pub fn answers_are_the_expression()
    ensures { AnswersAreTheExpression }
{
    terms_are_valid_and_typed();
    terms_are_the_expression();
    rows_have_sources();
    kept_rows_are_least();
    terms_are_kept_or_covered();
    row_lists_are_mappings();
    essential_columns_suffice();
}
