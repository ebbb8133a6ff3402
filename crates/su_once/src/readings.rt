//! A text is read in one way, or refused for one cause.
ghost use Rattle.su_once.specs.Readings.{OneOutcome, OneStatement, OneRefusal, RefusedOrRead, OneQueryRefusal, QueryIsRefusedOrKnown, OneColumnRefusal, ConditionIsRefusedOrKnown};

/// A file of definitions is read as one schema, or is at fault in one way.
pub fn a_file_has_one_outcome()
    ensures { OneOutcome }
{}

/// A text is one statement.
pub fn a_text_is_one_statement()
    ensures { OneStatement }
{}

/// A text is refused for one cause.
pub fn a_text_is_refused_for_one_cause()
    ensures { OneRefusal }
{}

/// A text that is refused is no statement within the limits.
pub fn a_refused_text_is_no_statement()
    ensures { RefusedOrRead }
{}

/// The names of a query are refused for one cause.
pub fn the_names_of_a_query_are_refused_for_one_cause()
    ensures { OneQueryRefusal }
{}

/// A query whose names are refused is not known.
pub fn a_refused_query_is_not_known()
    ensures { QueryIsRefusedOrKnown }
{}

/// The condition of a deletion is refused for one cause.
pub fn a_condition_is_refused_for_one_cause()
    ensures { OneColumnRefusal }
{}

/// A condition that is refused is not known.
pub fn a_refused_condition_is_not_known()
    ensures { ConditionIsRefusedOrKnown }
{}
