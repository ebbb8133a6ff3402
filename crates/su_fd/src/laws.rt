//! Laws of closures: each is the contract of a function that does nothing.
ghost use Rattle.su_fd.specs.Laws.{ClosureIsExtensive, ClosureIsMonotone, ClosureIsIdempotent, ClosureIsClosed, ClosedEqualsClosure, DeterminesIsReflexive, DeterminesIsTransitive, DerivationReachesClosure};

/// A set is within its closure.
pub fn closure_is_extensive()
    ensures { ClosureIsExtensive }
{}

/// More attributes determine more.
pub fn closure_is_monotone()
    ensures { ClosureIsMonotone }
{}

/// The closure of a closure adds nothing.
pub fn closure_is_idempotent()
    ensures { ClosureIsIdempotent }
{}

/// A closure is closed.
pub fn closure_is_closed()
    ensures { ClosureIsClosed }
{}

/// A set is closed exactly where it equals its closure.
pub fn a_set_is_closed_where_it_equals_its_closure()
    ensures { ClosedEqualsClosure }
{}

/// Each set determines itself.
pub fn determines_is_reflexive()
    ensures { DeterminesIsReflexive }
{}

/// What is determined by what is determined is determined.
pub fn determines_is_transitive()
    ensures { DeterminesIsTransitive }
{}

/// The right sides that a derivation takes in make up the closure.
pub fn a_derivation_reaches_the_closure()
    ensures { DerivationReachesClosure }
{}
