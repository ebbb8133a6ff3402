//! Theorems on replies: each is the contract of a function that does nothing.
ghost use Rattle.su_session.specs.Laws.{QueriesAreShown, ComparisonsAreAnswered};

use su_compare::laws::{terms_are_comparable, verdicts_decide};

/// The reply to a text that is a query, unless it is refused, shows what it asks for: its rows, its
/// explanation, its certificate, its counts, or the rows of a window.
pub fn queries_are_shown()
    ensures { QueriesAreShown }
{}

/// The reply to a text that is a compare, unless it is refused, shows whether each of the two queries is
/// within the other over every universal relation that meets the dependencies.
pub fn comparisons_are_answered()
    ensures { ComparisonsAreAnswered }
{
    terms_are_comparable();
    verdicts_decide();
}
