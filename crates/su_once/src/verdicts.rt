//! Two lists of terms have one verdict.
ghost use Rattle.su_once.specs.Verdicts.{OneClassName, OneClash, OneChase, OneFreezing, OneVerdict};

/// A class of symbols has one name.
pub fn a_class_has_one_name()
    ensures { OneClassName }
{}

/// Rows that are chased clash in one way.
pub fn rows_clash_in_one_way()
    ensures { OneClash }
{}

/// A tableau is chased in one way.
pub fn a_tableau_is_chased_in_one_way()
    ensures { OneChase }
{}

/// A tableau is frozen in one way.
pub fn a_tableau_is_frozen_in_one_way()
    ensures { OneFreezing }
{}

/// Two lists of terms have one verdict.
pub fn two_lists_of_terms_have_one_verdict()
    ensures { OneVerdict }
{}
