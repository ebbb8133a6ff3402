//! What holds of every condition. The functions do nothing; their contracts are the laws.
ghost use Rattle.su_where.specs.Disjunct.{KeepsTruth};

use crate::conditions::Cond;

/// A condition is true exactly where all comparisons of some of its disjuncts hold.
pub fn disjuncts_keep_truth(cond: &Cond)
    ensures { KeepsTruth cond.now }
{}
