//! Laws of places. The functions do nothing: their contracts are the laws.
ghost use Rattle.su_places.specs.Laws.{AllKinds, OnePlace};

/// A text goes wrong at one place, where the same could have stood: the same is told of it.
pub fn one_place()
    ensures { OnePlace }
{}

/// Each kind has its place in the order in which kinds are told, and no two kinds are told alike.
pub fn all_kinds()
    ensures { AllKinds }
{}
