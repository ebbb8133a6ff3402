//! The symbols of names, values, refs and lists of them, added at the end of a list.
ghost use Rattle.std.specs.Prelude.{◌≡◌, ◌<◌, [], ◌∷◌, ◌++◌, IfOk, OnOk, if◌then◌else◌};
ghost use Rattle.su_lex.specs.Names.{names_symbols};
ghost use Rattle.su_query.specs.Operands.{op_sym, value_sym};
ghost use Rattle.su_query.specs.ShownParts.{value_symbols, ref_symbols, operand_symbols, values_symbols, refs_symbols};

use crate::refs::{NamedOperand, Ref};
use std::alloc::Global;
use su_base::{List, NoMemory, Str, Value};
use su_lex::{Sign, Symbol, push_sign, push_word};
use su_where::Op;

fn op_symbol(op: Op) -> Symbol
    ensures { result ≡ op_sym op }
{
    match op {
        Op::Equal => Symbol::Sign(Sign::Equal),
        Op::NotEqual => Symbol::Sign(Sign::NotEqual),
        Op::Less => Symbol::Sign(Sign::Less),
        Op::LessEqual => Symbol::Sign(Sign::LessEqual),
        Op::Greater => Symbol::Sign(Sign::Greater),
        Op::GreaterEqual => Symbol::Sign(Sign::GreaterEqual),
    }
}

fn value_symbol(alloc: Global, value: &Value) -> Result<Symbol, NoMemory>
    ensures { IfOk result (λ x. x ≡ value_sym value.now) }
{
    match value {
        Value::Int(n) => Ok(Symbol::Int(*n)),
        Value::Text(content) => Ok(Symbol::Text(content.copy(alloc)?)),
    }
}

pub(crate) fn push_word_if(
    alloc: Global,
    out: &mut List<Symbol>,
    wanted: bool,
    word: &str,
) -> Result<(), NoMemory>
    ensures { OnOk result (out.new ≡ out.old ++ (if wanted then Symbol.Word word.now ∷ [] else [])) }
{
    if wanted {
        return push_word(alloc, out, word);
    }
    Ok(())
}

pub(crate) fn push_sign_if(out: &mut List<Symbol>, wanted: bool, sign: Sign) -> Result<(), NoMemory>
    ensures { OnOk result (out.new ≡ out.old ++ (if wanted then Symbol.Sign sign ∷ [] else [])) }
{
    out.push_if(wanted, Symbol::Sign(sign))
}

pub(crate) fn push_op(out: &mut List<Symbol>, op: Op) -> Result<(), NoMemory>
    ensures { OnOk result (out.new ≡ out.old ++ op_sym op ∷ []) }
{
    out.push(op_symbol(op))?;
    Ok(())
}

fn push_value(alloc: Global, out: &mut List<Symbol>, value: &Value) -> Result<(), NoMemory>
    ensures { OnOk result (out.new ≡ out.old ++ value_symbols value.now) }
{
    out.push(value_symbol(alloc, value)?)?;
    Ok(())
}

/// Adds a ref, its variable and a dot before it where it has one, at the end of `out`.
pub(crate) fn push_ref(
    alloc: Global,
    out: &mut List<Symbol>,
    reference: &Ref,
) -> Result<(), NoMemory>
    ensures { OnOk result (out.new ≡ out.old ++ ref_symbols reference.now) }
{
    match &reference.variable {
        Some(variable) => {
            push_word(alloc, out, variable.as_str())?;
            push_sign(out, Sign::Dot)?;
            push_word(alloc, out, reference.attribute.as_str())
        }
        None => push_word(alloc, out, reference.attribute.as_str()),
    }
}

pub(crate) fn push_operand(
    alloc: Global,
    out: &mut List<Symbol>,
    operand: &NamedOperand,
) -> Result<(), NoMemory>
    ensures { OnOk result (out.new ≡ out.old ++ operand_symbols operand.now) }
{
    match operand {
        NamedOperand::Ref(reference) => push_ref(alloc, out, reference),
        NamedOperand::Const(value) => push_value(alloc, out, value),
    }
}

/// NAME { "," NAME }
pub(crate) fn push_names(
    alloc: Global,
    out: &mut List<Symbol>,
    names: &[Str],
) -> Result<(), NoMemory>
    ensures { OnOk result (out.new ≡ out.old ++ names_symbols names.now) }
{
    for (i, name) in names.iter().enumerate() {
        push_sign_if(out, i > 0, Sign::Comma)?;
        push_word(alloc, out, name.as_str())?;
    }
    Ok(())
}

/// value { "," value }
pub(crate) fn push_values(
    alloc: Global,
    out: &mut List<Symbol>,
    values: &[Value],
) -> Result<(), NoMemory>
    ensures { OnOk result (out.new ≡ out.old ++ values_symbols values.now) }
{
    for (i, value) in values.iter().enumerate() {
        push_sign_if(out, i > 0, Sign::Comma)?;
        push_value(alloc, out, value)?;
    }
    Ok(())
}

/// ref { "," ref }
pub(crate) fn push_refs(
    alloc: Global,
    out: &mut List<Symbol>,
    references: &[Ref],
) -> Result<(), NoMemory>
    ensures { OnOk result (out.new ≡ out.old ++ refs_symbols references.now) }
{
    for (i, reference) in references.iter().enumerate() {
        push_sign_if(out, i > 0, Sign::Comma)?;
        push_ref(alloc, out, reference)?;
    }
    Ok(())
}
