//! A query has one list of terms, or one refusal.
ghost use Rattle.su_once.specs.Terms.{OneNaming, OneListOfTerms, OneStepRefusal, RefusedOrAccepted};

/// A symbol has one name.
pub fn a_symbol_has_one_name()
    ensures { OneNaming }
{}

/// A query has one list of terms.
pub fn a_query_has_one_list_of_terms()
    ensures { OneListOfTerms }
{}

/// A query is refused for one cause.
pub fn a_query_is_refused_for_one_cause()
    ensures { OneStepRefusal }
{}

/// A query that is refused has no terms.
pub fn a_refused_query_has_no_terms()
    ensures { RefusedOrAccepted }
{}
