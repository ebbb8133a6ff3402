//! What is promised of the queries of a run.
ghost use Rattle.sysu.specs.inside.Queries.{QueriesAreAnswered};

use su_answer::laws::{
    answers_are_the_expression, prepared_rows_are_least, prepared_terms_are_needed,
};
use su_min::laws::terms_are_kept_or_covered;
use su_session::laws::{comparisons_are_answered, queries_are_shown};

/// Each query of a script that is not refused is answered on the database before it: what is shown of its
/// terms is of their least rows and of those that are needed, and what a comparison says is true of its
/// two queries.
pub fn queries_are_answered()
    ensures { QueriesAreAnswered }
{
    queries_are_shown();
    comparisons_are_answered();
    prepared_rows_are_least();
    prepared_terms_are_needed();
    terms_are_kept_or_covered();
    answers_are_the_expression();
}
