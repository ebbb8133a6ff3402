//! A tableau has one kept set and one fold, and a union one list of kept terms and one of covers.
ghost use Rattle.su_once.specs.Tableaux.{OneFirstMapping, OneKeptSet, OneFold, OneReduction};

/// Of the mappings between two sets of rows one is the first.
pub fn one_mapping_is_first()
    ensures { OneFirstMapping }
{}

/// Of a tableau there is one kept set.
pub fn a_tableau_has_one_kept_set()
    ensures { OneKeptSet }
{}

/// Into a set there is one fold.
pub fn a_set_has_one_fold()
    ensures { OneFold }
{}

/// Of a union there is one list of kept terms, and one of covers.
pub fn a_union_has_one_reduction()
    ensures { OneReduction }
{}
