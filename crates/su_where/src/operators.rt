//! The six comparisons of two values.
ghost use Rattle.std.specs.Prelude.{◌≡◌, not};
ghost use Rattle.su_base.specs.declared.values.Value.{Value as AValue};
ghost use Rattle.su_where.specs.Operator.{compares, complement_of};

use std::cmp::Ordering;
use su_base::Value;

/// How two values are compared, by the order of values.
#[derive(Clone, Copy, PartialEq, Eq, Debug)]
pub enum Op {
    Equal,
    NotEqual,
    Less,
    LessEqual,
    Greater,
    GreaterEqual,
}

impl Op {
    /// Whether the operator holds of the two values. Values of two kinds are compared too.
    pub fn compares(self, left: &Value, right: &Value) -> bool
        ensures { result ≡ compares self left.now right.now }
    {
        match (self, left.compare(right)) {
            (Op::Equal, Ordering::Equal) => true,
            (Op::NotEqual, Ordering::Less | Ordering::Greater) => true,
            (Op::Less, Ordering::Less) => true,
            (Op::LessEqual, Ordering::Less | Ordering::Equal) => true,
            (Op::Greater, Ordering::Greater) => true,
            (Op::GreaterEqual, Ordering::Greater | Ordering::Equal) => true,
            _ => false,
        }
    }

    /// The operator that holds exactly where this one doesn't.
    pub fn complement(self) -> Op
        ensures named { result ≡ complement_of self }
        ensures opposite { (left : AValue) (right : AValue) → compares result left right ≡ not (compares self left right) }
    {
        match self {
            Op::Equal => Op::NotEqual,
            Op::NotEqual => Op::Equal,
            Op::Less => Op::GreaterEqual,
            Op::LessEqual => Op::Greater,
            Op::Greater => Op::LessEqual,
            Op::GreaterEqual => Op::Less,
        }
    }
}
