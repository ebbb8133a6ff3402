//! Laws of growths and maximal objects: each is the contract of a function that does nothing.
ghost use Rattle.su_maxobj.specs.Laws.{GrowthIsUnique, MaximalObjectsAreUnique, MaximalObjectsAreFew};

/// A seed has one growth, and so it grows to one set.
pub fn a_seed_has_one_growth()
    ensures { GrowthIsUnique }
{}

/// A schema has one list of maximal objects.
pub fn a_schema_has_one_list_of_maximal_objects()
    ensures { MaximalObjectsAreUnique }
{}

/// A schema has at most 128 maximal objects.
pub fn a_schema_has_few_maximal_objects()
    ensures { MaximalObjectsAreFew }
{}
