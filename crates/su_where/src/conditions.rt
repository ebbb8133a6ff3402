//! Conditions, what they say of a row, and copies of them.
ghost use Rattle.std.specs.Prelude.{◌≡◌, IfOk, length, All as Each};
ghost use Rattle.std.specs.List.{list_all, list_any};
ghost use Rattle.su_where.specs.Truth.{truth_of};
ghost use Rattle.su_where.specs.Places.{Fits};

use crate::literals::Literal;
use std::alloc::Global;
use su_base::{Boxed, List, NoMemory, Row};

/// Comparisons under not, all of and any of.
#[derive(Debug, Drop)]
pub enum Condition<C> {
    Compare(C),
    Not(Boxed<Condition<C>>),
    /// True where each part is; all of nothing is true.
    All(List<Condition<C>>),
    /// True where some part is; any of nothing is false.
    Any(List<Condition<C>>),
}

/// A condition on a list of values.
pub type Cond = Condition<Literal>;

/// Whether the condition is true of the row. Linear in its size, without memory.
#[cycle(truth)]
pub fn truth(cond: &Cond, values: &Row) -> bool
    requires places { Fits (length values.now) cond.now }
    ensures { result ≡ truth_of cond.now values.now }
{
    match cond {
        Cond::Compare(literal) => literal.holds(values),
        Cond::Not(part) => !truth(part.get(), values),
        Cond::All(parts) => all_true(parts.as_slice(), values),
        Cond::Any(parts) => any_true(parts.as_slice(), values),
    }
}

#[cycle(truth)]
fn all_true(parts: &[Cond], values: &Row) -> bool
    requires places { Each (Fits (length values.now)) parts.now }
    ensures { result ≡ list_all (λ c. truth_of c values.now) parts.now }
{
    for part in parts {
        if !truth(part, values) {
            return false;
        }
    }
    true
}

#[cycle(truth)]
fn any_true(parts: &[Cond], values: &Row) -> bool
    requires places { Each (Fits (length values.now)) parts.now }
    ensures { result ≡ list_any (λ c. truth_of c values.now) parts.now }
{
    for part in parts {
        if truth(part, values) {
            return true;
        }
    }
    false
}

/// An equal condition of its own.
#[cycle(copy)]
pub fn copy(alloc: Global, cond: &Cond) -> Result<Cond, NoMemory>
    ensures { IfOk result (λ c. c ≡ cond.now) }
{
    match cond {
        Cond::Compare(literal) => Ok(Cond::Compare(literal.copy(alloc)?)),
        Cond::Not(part) => Ok(Cond::Not(Boxed::new(alloc, copy(alloc, part.get())?)?)),
        Cond::All(parts) => Ok(Cond::All(copy_all(alloc, parts.as_slice())?)),
        Cond::Any(parts) => Ok(Cond::Any(copy_all(alloc, parts.as_slice())?)),
    }
}

#[cycle(copy)]
fn copy_all(alloc: Global, parts: &[Cond]) -> Result<List<Cond>, NoMemory>
    ensures { IfOk result (λ cs. cs ≡ parts.now) }
{
    let mut copied = List::new(alloc);
    for part in parts {
        copied.push(copy(alloc, part)?)?;
    }
    Ok(copied)
}
