//! Whether a condition asks for equalities alone.
ghost use Rattle.std.specs.Prelude.{◌≡◌};
ghost use Rattle.std.specs.List.{list_all};
ghost use Rattle.su_compare.specs.Equalities.{asks_equality, asks_equalities, has_only_equalities};

use su_where::{Cond, Op};

/// Whether each comparison under an even number of negations is `=` and each other one `!=`. Linear
/// in the condition's size, without memory.
pub fn equalities(cond: &Cond) -> bool
    ensures { result ≡ has_only_equalities cond.now }
{
    all_ask(cond, false)
}

/// Whether the operator, under an odd number of negations or not, asks for an equality.
fn asks(op: Op, negated: bool) -> bool
    ensures { result ≡ asks_equality op negated }
{
    match op {
        Op::Equal => !negated,
        Op::NotEqual => negated,
        _ => false,
    }
}

/// Whether all comparisons of the condition, or of its negation, ask for an equality.
#[cycle(equalities)]
#[tactic(auto, using(crate::proofs::OnlyEqual::layers))]
fn all_ask(cond: &Cond, negated: bool) -> bool
    ensures { result ≡ asks_equalities cond.now negated }
{
    match cond {
        Cond::Compare(literal) => asks(literal.op, negated),
        Cond::Not(part) => all_ask(part.get(), !negated),
        Cond::All(parts) => each_asks(parts.as_slice(), negated),
        Cond::Any(parts) => each_asks(parts.as_slice(), negated),
    }
}

#[cycle(equalities)]
fn each_asks(parts: &[Cond], negated: bool) -> bool
    ensures { result ≡ list_all (λ c. asks_equalities c negated) parts.now }
{
    for part in parts {
        if !all_ask(part, negated) {
            return false;
        }
    }
    true
}
