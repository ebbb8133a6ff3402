ghost use Rattle.std.specs.Prelude.{◌+◌};
ghost use Rattle.su_where.specs.Places.{Fits};

use std::alloc::Global;
use std::test::Fail;
use su_base::{Boxed, List, NoMemory, Str, Value};
use su_where::{Cond, Disjunct, Literal, Op, Operand, copy, disjunct_count, disjuncts, truth};

/// A piece of a condition: how many parts it has, which stand behind it.
#[derive(Clone, Copy)]
enum Piece {
    /// The value at the place is 7.
    Seven(u16),
    All(usize),
    Any(usize),
    Not,
}

use Piece::{All, Any, Not, Seven};

const A: Piece = Seven(0);

const B: Piece = Seven(1);

const C: Piece = Seven(2);

const D: Piece = Seven(3);

/// The value at the place is 7.
fn seven(place: u16) -> Cond
    ensures { Fits (place + 1) result }
{
    Cond::Compare(Literal {
        left: Operand::Place(place),
        op: Op::Equal,
        right: Operand::Const(Value::Int(7)),
    })
}

/// The last so many conditions, the last one first.
fn taken(alloc: Global, stack: &mut List<Cond>, count: usize) -> Result<List<Cond>, NoMemory> {
    let mut parts = List::new(alloc);
    for _ in 0..count {
        if let Some(part) = stack.pop() {
            parts.push(part)?;
        }
    }
    Ok(parts)
}

/// The complement of the last condition; of none, a true one.
fn turned(alloc: Global, stack: &mut List<Cond>) -> Result<Cond, NoMemory> {
    match stack.pop() {
        Some(part) => Ok(Cond::Not(Boxed::new(alloc, part)?)),
        None => Ok(Cond::All(List::new(alloc))),
    }
}

/// The condition that begins with the piece, whose parts are the last ones.
fn made(alloc: Global, stack: &mut List<Cond>, piece: Piece) -> Result<Cond, NoMemory> {
    match piece {
        Seven(place) => Ok(seven(place)),
        All(count) => Ok(Cond::All(taken(alloc, stack, count)?)),
        Any(count) => Ok(Cond::Any(taken(alloc, stack, count)?)),
        Not => turned(alloc, stack),
    }
}

/// Puts the pieces before the conditions, the last piece first.
fn put(alloc: Global, stack: &mut List<Cond>, pieces: &[Piece]) -> Result<(), NoMemory> {
    for piece in pieces.iter().rev() {
        let cond = made(alloc, stack, *piece)?;
        stack.push(cond)?;
    }
    Ok(())
}

/// A letter for a comparison of `seven`, and a capital for its complement.
fn letter(literal: &Literal) -> u8 {
    let letters = match literal.op {
        Op::Equal => b"abcd",
        Op::NotEqual => b"ABCD",
        _ => b"????",
    };
    match literal.left {
        Operand::Place(place) if place < 4 => letters[place as usize],
        _ => b'?',
    }
}

fn is_written(disjunct: &[Literal], letters: &[u8]) -> bool {
    for (literal, want) in disjunct.iter().zip(letters) {
        if letter(literal) != *want {
            return false;
        }
    }
    disjunct.len() == letters.len()
}

/// Whether the disjuncts are these, each by its letters.
fn are_written(disjuncts: &[Disjunct], want: &[&str]) -> bool {
    for (disjunct, letters) in disjuncts.iter().zip(want) {
        if !is_written(disjunct.as_slice(), letters.as_bytes()) {
            return false;
        }
    }
    disjuncts.len() == want.len()
}

/// Whether the condition has these disjuncts.
fn has(alloc: Global, cond: &Cond, want: &[&str]) -> Result<bool, NoMemory> {
    if disjunct_count(cond) > 64 {
        return Ok(false);
    }
    let made = disjuncts(alloc, cond)?;
    Ok(are_written(made.as_slice(), want))
}

/// Whether a copy of the condition has these disjuncts.
fn copy_has(alloc: Global, cond: &Cond, want: &[&str]) -> Result<bool, NoMemory> {
    let again = copy(alloc, cond)?;
    has(alloc, &again, want)
}

/// Whether a copy of the condition of these pieces has these disjuncts.
fn have(alloc: Global, pieces: &[Piece], want: &[&str]) -> Result<bool, NoMemory> {
    let mut stack = List::new(alloc);
    put(alloc, &mut stack, pieces)?;
    match stack.as_slice() {
        [cond] => copy_has(alloc, cond, want),
        _ => Ok(false),
    }
}

const DISJUNCTS: &[(&[Piece], &[&str])] = &[
    // the last part of an and is fastest
    (
        &[All(2), Any(2), A, B, Any(2), C, D],
        &["ac", "ad", "bc", "bd"],
    ),
    // nothing is merged
    (&[Any(3), A, All(2), B, C, A], &["a", "bc", "a"]),
    // negations go into the comparisons
    (&[Not, Any(2), A, B], &["AB"]),
    (&[Not, All(3), A, Not, B, C], &["A", "b", "C"]),
    // all of nothing is true, and any of nothing is false
    (&[All(0)], &[""]),
    (&[Any(0)], &[]),
    (&[Not, Any(0)], &[""]),
];

#[test]
fn conditions_have_their_disjuncts_in_order(rt: HostRuntime) -> Result<(), Fail> {
    for (k, (pieces, want)) in DISJUNCTS.iter().enumerate() {
        let right = have(rt.alloc(), pieces, want)?;
        assert!(rt; right, "case {k}");
    }
    Ok(())
}

/// How many disjuncts the condition of these pieces has, with so many times "a or b" behind them as parts;
/// 66 where they make no single condition.
fn counted(alloc: Global, pieces: &[Piece], times: usize) -> Result<u32, NoMemory> {
    let mut stack = List::new(alloc);
    for _ in 0..times {
        put(alloc, &mut stack, &[Any(2), A, B])?;
    }
    put(alloc, &mut stack, pieces)?;
    match stack.as_slice() {
        [cond] => Ok(disjunct_count(cond)),
        _ => Ok(66),
    }
}

const COUNTS: &[(&[Piece], usize, u32)] = &[
    (&[All(6)], 6, 64),
    (&[Any(2), A, All(6)], 6, 65),
    (&[All(7)], 7, 65),
    (&[All(200)], 200, 65),
    (&[All(2), Any(0), All(200)], 200, 0),
];

#[test]
fn counts_stop_at_65(rt: HostRuntime) -> Result<(), Fail> {
    for (k, (pieces, times, want)) in COUNTS.iter().enumerate() {
        let count = counted(rt.alloc(), pieces, *times)?;
        assert!(rt; count == *want, "case {k}");
    }
    Ok(())
}

/// Each with its answers for a less, an equal and a greater value on the left.
const ANSWERS: &[(Op, bool, bool, bool)] = &[
    (Op::Equal, false, true, false),
    (Op::NotEqual, true, false, true),
    (Op::Less, true, false, false),
    (Op::LessEqual, true, true, false),
    (Op::Greater, false, false, true),
    (Op::GreaterEqual, false, true, true),
];

/// Whether all operators answer so for these two values.
fn are_answered(less: &Value, greater: &Value) -> bool {
    for (op, before, same, after) in ANSWERS {
        if op.compares(less, greater) != *before {
            return false;
        }
        if op.compares(less, less) != *same {
            return false;
        }
        if op.compares(greater, less) != *after {
            return false;
        }
        if op.complement().compares(greater, less) == *after {
            return false;
        }
    }
    true
}

#[test]
fn operators_follow_the_order_of_values(rt: HostRuntime) -> Result<(), Fail> {
    let text = Value::Text(Str::new(rt.alloc(), "5")?);
    assert!(rt; are_answered(&Value::Int(5), &Value::Int(6)));
    assert!(rt; are_answered(&Value::Int(6), &text));
    Ok(())
}

/// Whether the first value of a row of this number is 7.
fn is_seven(alloc: Global, number: i64) -> Result<bool, NoMemory> {
    let mut row = List::new(alloc);
    row.push(Value::Int(number))?;
    Ok(truth(&seven(0), &row))
}

#[test]
fn a_condition_is_true_of_some_rows(rt: HostRuntime) -> Result<(), Fail> {
    let answers = (is_seven(rt.alloc(), 7)?, is_seven(rt.alloc(), 8)?);
    assert_eq!(rt; answers, (true, false));
    Ok(())
}
