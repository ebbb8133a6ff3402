//! New values: numbers, and texts of the letter `v` and a number.
ghost use Rattle.std.specs.Prelude.{◌≡◌, ◌↔◌, ℕ, ◌+◌, ◌<◌, ◌≤◌, ◌^◌, IsTrue, length, get_or, Contains, IfOk};
ghost use Rattle.std.specs.List.Sorted.{IsStrictlySortedBy};
ghost use Rattle.su_base.specs.declared.values.Kind.TheVariants.{Int as IntKind};
ghost use Rattle.su_base.specs.declared.values.Value.{Value as AValue};
ghost use Rattle.su_base.specs.Value.{compare_values};
ghost use Rattle.su_chase.specs.Frozen.{candidate};
ghost use Rattle.su_chase.specs.inside.Rows.{IsFreeAt, IsPast, count_of};

use std::alloc::Global;
use su_base::{Kind, List, NoMemory, Str, Value, sorted_values};

/// For each kind the number from which its candidates may be free.
#[derive(Clone, Copy)]
struct Next {
    int: u64,
    text: u64,
}

/// Copies of the values, ascending, each once.
pub fn sorted_copies(alloc: Global, values: &[Value]) -> Result<List<Value>, NoMemory>
    ensures members { IfOk result (λ vs. (c : AValue) → Contains vs c ↔ Contains values.now c) }
    ensures ascending { IfOk result (IsStrictlySortedBy compare_values) }
{
    let mut copies = List::new(alloc);
    for value in values {
        copies.push(value.copy(alloc)?)?;
    }
    Ok(sorted_values(copies))
}

/// The candidate of the number.
fn numbered(alloc: Global, kind: Kind, number: u64) -> Result<Value, NoMemory>
    requires { number < 2 ^ 63 }
    ensures { IfOk result (λ v. v ≡ candidate kind number) }
{
    match kind {
        Kind::Int => Ok(Value::Int(number as i64)),
        Kind::Text => {
            let digits = number.to_string(alloc)?;
            let mut text = String::from_str(alloc, "v")?;
            text.push_str(digits.as_str())?;
            Ok(Value::Text(Str::new(alloc, text.as_str())?))
        }
    }
}

/// Whether the value is one of these, which ascend.
fn is_among(values: &[Value], value: &Value) -> bool
    requires { IsStrictlySortedBy compare_values values.now }
    ensures { IsTrue result ↔ Contains values.now value.now }
{
    values.binary_search(value).is_ok()
}

/// The least number from `from` on whose candidate is not avoided. Fewer than 2^63 values fit in memory,
/// so that there is one.
fn first_free(alloc: Global, kind: Kind, from: u64, avoid: &[Value]) -> Result<u64, NoMemory>
    requires { IsStrictlySortedBy compare_values avoid.now }
    ensures small { IfOk result (λ n. n + 1 < 2 ^ 63) }
    ensures later { IfOk result (λ n. from ≤ n) }
    ensures free { IfOk result (λ n. ¬ Contains avoid.now (candidate kind n)) }
    ensures least { IfOk result (λ n. (i : ℕ) → from ≤ i → i < n → Contains avoid.now (candidate kind i)) }
{
    for number in from..i64::MAX as u64 {
        let value = numbered(alloc, kind, number)?;
        if !is_among(avoid, &value) {
            return Ok(number);
        }
    }
    Err(NoMemory)
}

/// The counter of the kind.
fn count(next: Next, kind: Kind) -> u64
    ensures { result ≡ count_of next kind }
{
    match kind {
        Kind::Int => next.int,
        Kind::Text => next.text,
    }
}

/// The counters, that of the kind past the number.
fn past(next: Next, kind: Kind, number: u64) -> Next
    requires { number + 1 < 2 ^ 63 }
    ensures { IsPast next kind number result }
{
    match kind {
        Kind::Int => Next {
            int: number + 1,
            text: next.text,
        },
        Kind::Text => Next {
            int: next.int,
            text: number + 1,
        },
    }
}

/// For each of the kinds in turn the first candidate that is neither avoided nor given already. Each
/// number is tried once for a kind.
pub fn free_values(alloc: Global, kinds: &[Kind], avoid: &[Value]) -> Result<List<Value>, NoMemory>
    requires { IsStrictlySortedBy compare_values avoid.now }
    ensures each { IfOk result (λ vs. length vs ≡ length kinds.now) }
    ensures free { IfOk result (λ vs. (p : ℕ) → p < length kinds.now → IsFreeAt avoid.now (get_or kinds.now p IntKind) vs p) }
{
    let mut next = Next { int: 0, text: 0 };
    let mut values = List::new(alloc);
    for kind in kinds {
        let number = first_free(alloc, *kind, count(next, *kind), avoid)?;
        values.push(numbered(alloc, *kind, number)?)?;
        next = past(next, *kind, number);
    }
    Ok(values)
}
