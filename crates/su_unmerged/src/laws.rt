//! What unmerged terms answer: each law is the contract of a function that does nothing.
ghost use Rattle.su_unmerged.specs.Laws.{EqualitiesAloneMerge, UnmergedTermsAreTheExpression, TermsAnswerAsUnmerged};

use su_steps::laws::terms_are_the_expression;

/// In an unmerged term symbols are together exactly where the equalities put them together.
pub fn equalities_alone_merge()
    ensures { EqualitiesAloneMerge }
{}

/// The unmerged terms of a query are its expression, over every universal relation, whatever
/// dependencies that meets.
pub fn unmerged_terms_are_the_expression()
    ensures { UnmergedTermsAreTheExpression }
{
    terms_are_the_expression();
}

/// The terms of a query answer what its unmerged terms do, over every universal relation that meets the
/// dependencies.
pub fn terms_answer_as_unmerged()
    ensures { TermsAnswerAsUnmerged }
{
    terms_are_the_expression();
}
