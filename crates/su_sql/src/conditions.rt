//! Conditions of deletions as SQL.
ghost use Rattle.std.specs.Prelude.{◌≡◌, ◌++◌, map, codes, OnOk, IfOk};
ghost use Rattle.su_sql.specs.Conditions.{sides_collation, side_text, many_text, condition_text};

use crate::dialects::Dialect;
use crate::parts::push_led;
use crate::words::{collation, operator, push_name, push_value};
use std::alloc::Global;
use su_base::parts::push;
use su_base::{List, NoMemory};
use su_query::{NamedCond, NamedOperand};

/// How two sides are told to be compared by their bytes.
fn sides_collation(dialect: Dialect, left: &NamedOperand, right: &NamedOperand) -> &'static str
    ensures { result.now ≡ sides_collation dialect left.now right.now }
{
    match (left, right) {
        (NamedOperand::Const(_), NamedOperand::Const(value)) => collation(dialect, value.kind()),
        _ => "",
    }
}

fn push_side(
    alloc: Global,
    out: &mut Vec<u8>,
    dialect: Dialect,
    side: &NamedOperand,
) -> Result<(), NoMemory>
    ensures { OnOk result (out.new.items ≡ out.old.items ++ side_text dialect side.now) }
{
    match side {
        NamedOperand::Ref(reference) => push_name(out, dialect, reference.attribute.as_str()),
        NamedOperand::Const(value) => push_value(alloc, out, dialect, value),
    }
}

/// Parts in parentheses, or what they say where there is none.
fn push_many(out: &mut Vec<u8>, none: &str, word: &str, parts: &[List<u8>]) -> Result<(), NoMemory>
    ensures { OnOk result (out.new.items ≡ out.old.items ++ many_text none.now word.now parts.now) }
{
    if parts.is_empty() {
        return push(out, none);
    }
    push_led(out, "(", word, parts)?;
    push(out, ")")
}

#[cycle(condition)]
pub(crate) fn push_condition(
    alloc: Global,
    out: &mut Vec<u8>,
    dialect: Dialect,
    cond: &NamedCond,
) -> Result<(), NoMemory>
    ensures { OnOk result (out.new.items ≡ out.old.items ++ condition_text dialect cond.now) }
{
    match cond {
        NamedCond::Compare(comparison) => {
            push_side(alloc, out, dialect, &comparison.left)?;
            push(out, operator(comparison.op))?;
            push_side(alloc, out, dialect, &comparison.right)?;
            push(
                out,
                sides_collation(dialect, &comparison.left, &comparison.right),
            )
        }
        NamedCond::Not(part) => {
            push(out, "not (")?;
            push_condition(alloc, out, dialect, part.get())?;
            push(out, ")")
        }
        NamedCond::All(parts) => {
            let parts = condition_parts(alloc, dialect, parts.as_slice())?;
            push_many(out, "1 = 1", " and ", parts.as_slice())
        }
        NamedCond::Any(parts) => {
            let parts = condition_parts(alloc, dialect, parts.as_slice())?;
            push_many(out, "1 = 0", " or ", parts.as_slice())
        }
    }
}

#[cycle(condition)]
fn condition_parts(
    alloc: Global,
    dialect: Dialect,
    conds: &[NamedCond],
) -> Result<List<List<u8>>, NoMemory>
    ensures { IfOk result (λ parts. parts ≡ map (condition_text dialect) conds.now) }
{
    let mut parts = List::new(alloc);
    for cond in conds {
        let mut part = Vec::new(alloc);
        push_condition(alloc, &mut part, dialect, cond)?;
        parts.push(List::from_vec(part))?;
    }
    Ok(parts)
}
