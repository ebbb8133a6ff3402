//! The disjunctive form of a condition: how many disjuncts there are, and which.
ghost use Rattle.std.specs.Prelude.{◌≡◌, [], ◌++◌, ◌<◌, ◌≤◌, min, map, length, sum_by, get_or, IfOk, OnOk};
ghost use Rattle.su_base.specs.declared.values.Value.{Value as AValue};
ghost use Rattle.std.specs.Prelude.{List as Items};
ghost use Rattle.su_where.specs.Truth.{truth_of};
ghost use Rattle.su_where.specs.Disjunct.{combined, form_of, disjuncts_of, some_holds};
ghost use Rattle.su_where.specs.inside.Joined.{joined};

use crate::conditions::Cond;
use crate::literals::Literal;
use std::alloc::Global;
use su_base::{List, NoMemory};

/// Comparisons that are all to hold.
pub type Disjunct = List<Literal>;

/// It stands for every count above 64.
const MANY: u32 = 65;

/// How many disjuncts the condition has, and 65 where it has more than 64. Linear in its size,
/// without memory.
pub fn disjunct_count(cond: &Cond) -> u32
    ensures { result ≡ min (length (disjuncts_of cond.now)) 65 }
{
    count(cond, false)
}

/// The disjuncts of the condition, or of its negation.
#[cycle(count)]
#[tactic(auto, using(crate::proofs::Disjunctive::layers))]
fn count(cond: &Cond, negated: bool) -> u32
    ensures { result ≡ min (length (form_of cond.now negated)) 65 }
{
    match cond {
        Cond::Compare(_) => 1,
        Cond::Not(part) => count(part.get(), !negated),
        Cond::All(parts) => {
            if negated {
                count_joined(parts.as_slice(), negated)
            } else {
                count_combined(parts.as_slice(), negated)
            }
        }
        Cond::Any(parts) => {
            if negated {
                count_combined(parts.as_slice(), negated)
            } else {
                count_joined(parts.as_slice(), negated)
            }
        }
    }
}

#[cycle(count)]
fn count_joined(parts: &[Cond], negated: bool) -> u32
    ensures { result ≡ min (length (joined (map (λ c. form_of c negated) parts.now))) 65 }
{
    let mut total = 0;
    for part in parts {
        total = MANY.min(total + count(part, negated));
    }
    total
}

#[cycle(count)]
fn count_combined(parts: &[Cond], negated: bool) -> u32
    ensures { result ≡ min (length (combined (map (λ c. form_of c negated) parts.now))) 65 }
{
    let mut total = 1;
    for part in parts {
        total = MANY.min(total * count(part, negated));
    }
    total
}

/// The disjuncts of the condition, in their order. Takes memory for what is made. For each disjunct
/// the parts are counted again at each level: at most 64 times the condition's size times its depth.
pub fn disjuncts(alloc: Global, cond: &Cond) -> Result<List<Disjunct>, NoMemory>
    requires { length (disjuncts_of cond.now) ≤ 64 }
    ensures exact { IfOk result (λ ds. ds ≡ disjuncts_of cond.now) }
    ensures truth { IfOk result (λ ds. (values : Items AValue) → truth_of cond.now values ≡ some_holds ds values) }
{
    let mut made = List::new(alloc);
    for k in 0..count(cond, false) {
        let mut disjunct = List::new(alloc);
        push_disjunct(alloc, &mut disjunct, cond, false, k)?;
        made.push(disjunct)?;
    }
    Ok(made)
}

/// Adds the comparisons of the k-th disjunct of the condition, or of its negation.
#[cycle(push)]
#[tactic(auto, using(crate::proofs::Disjunctive::layers))]
fn push_disjunct(
    alloc: Global,
    out: &mut Disjunct,
    cond: &Cond,
    negated: bool,
    k: u32,
) -> Result<(), NoMemory>
    requires place { k < length (form_of cond.now negated) }
    requires few { length (form_of cond.now negated) ≤ 64 }
    ensures { OnOk result (out.new ≡ out.old ++ get_or (form_of cond.now negated) k []) }
{
    match cond {
        Cond::Compare(literal) => {
            out.push(literal.under(alloc, negated)?)?;
            Ok(())
        }
        Cond::Not(part) => push_disjunct(alloc, out, part.get(), !negated, k),
        Cond::All(parts) => {
            if negated {
                push_joined(alloc, out, parts.as_slice(), negated, k)
            } else {
                push_combined(alloc, out, parts.as_slice(), negated, k)
            }
        }
        Cond::Any(parts) => {
            if negated {
                push_combined(alloc, out, parts.as_slice(), negated, k)
            } else {
                push_joined(alloc, out, parts.as_slice(), negated, k)
            }
        }
    }
}

#[cycle(push)]
fn push_joined(
    alloc: Global,
    out: &mut Disjunct,
    parts: &[Cond],
    negated: bool,
    k: u32,
) -> Result<(), NoMemory>
    requires place { k < length (joined (map (λ c. form_of c negated) parts.now)) }
    requires few { length (joined (map (λ c. form_of c negated) parts.now)) ≤ 64 }
    ensures { OnOk result (out.new ≡ out.old ++ get_or (joined (map (λ c. form_of c negated) parts.now)) k []) }
{
    let mut left = k;
    for part in parts {
        let own = count(part, negated);
        if left < own {
            return push_disjunct(alloc, out, part, negated, left);
        }
        left -= own;
    }
    unreachable!()
}

#[cycle(push)]
fn push_combined(
    alloc: Global,
    out: &mut Disjunct,
    parts: &[Cond],
    negated: bool,
    k: u32,
) -> Result<(), NoMemory>
    requires place { k < length (combined (map (λ c. form_of c negated) parts.now)) }
    requires few { length (combined (map (λ c. form_of c negated) parts.now)) ≤ 64 }
    ensures { OnOk result (out.new ≡ out.old ++ get_or (combined (map (λ c. form_of c negated) parts.now)) k []) }
{
    let mut total = count_combined(parts, negated);
    let mut left = k;
    for part in parts {
        total /= count(part, negated);
        push_disjunct(alloc, out, part, negated, left / total)?;
        left %= total;
    }
    Ok(())
}
