//! A query is prepared in one way, and has one answer and one list of supports.
ghost use Rattle.su_once.specs.Answers.{OnePreparation, OneAnswer, OneSupport, TooLongOrAnswered};

/// A query is prepared in one way.
pub fn a_query_is_prepared_in_one_way()
    ensures { OnePreparation }
{}

/// A query has one answer.
pub fn a_query_has_one_answer()
    ensures { OneAnswer }
{}

/// A prepared query has one list of supports.
pub fn a_prepared_query_has_one_list_of_supports()
    ensures { OneSupport }
{}

/// An answer that is too long has more rows than it may have.
pub fn an_answer_that_is_too_long_has_too_many_rows()
    ensures { TooLongOrAnswered }
{}
