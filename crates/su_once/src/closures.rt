//! A set of attributes has one closure and one derivation.
ghost use Rattle.su_once.specs.Closures.{OneClosure, OneDerivation};

/// Of a set there is one closure.
pub fn a_set_has_one_closure()
    ensures { OneClosure }
{}

/// Of a set there is one derivation.
pub fn a_set_has_one_derivation()
    ensures { OneDerivation }
{}
