//! Conditions over names.
use crate::refs::NamedOperand;
use su_where::{Condition, Op};

/// One comparison.
#[derive(Debug)]
pub struct Comparison {
    pub left: NamedOperand,
    pub op: Op,
    pub right: NamedOperand,
}

/// Not derived, so that it is a single call wherever a comparison goes out of scope.
impl Drop for Comparison {
    fn drop(self) {
        let Comparison {
            left: _,
            op: _,
            right: _,
        } = self;
    }
}

/// Comparisons of attributes and values under not, all of and any of.
pub type NamedCond = Condition<Comparison>;
