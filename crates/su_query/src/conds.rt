//! Conditions, by descent: `or` over `and` over `not` over parentheses and comparisons.
ghost use Rattle.std.specs.Prelude.{◌≡◌, ◌<◌, ◌∷◌, length, Some, None, IfOk, IfSome, IsErrOf, List as Items};
ghost use Rattle.su_where.specs.declared.operators.Op.{Op as AnOp};
ghost use Rattle.su_query.specs.Grammar.{any_of, all_of};
ghost use Rattle.su_query.specs.inside.ReadConditions.{ReadsCond, ReadsConj, ReadsFactor, ReadsPrimary, ReadsComparison};
ghost use Rattle.su_query.specs.Operands.{op_sym};
ghost use Rattle.su_query.specs.inside.ReadItems.{ReadsOperand};
ghost use Rattle.su_query.specs.inside.Fronts.{begins_word};
ghost use Rattle.su_lex.specs.declared.meaning.Symbol.{Symbol as ASymbol};
ghost use Rattle.su_query.specs.declared.refs.NamedOperand.{NamedOperand as AnOperand};
ghost use Rattle.su_query.specs.Refs.{NamedCond as ACond};

use crate::conditions::{Comparison, NamedCond};
use crate::lists::{reference, value};
use crate::refs::NamedOperand;
use su_base::{Boxed, List};
use su_lex::{LexEnd, Reader, Sign, Symbol};
use su_where::Op;

fn op_of(sign: Sign) -> Option<Op>
    ensures found { IfSome result (λ o. Symbol.Sign sign ≡ op_sym o) }
    ensures none { result ≡ None → (o : AnOp) → ¬ (Symbol.Sign sign ≡ op_sym o) }
{
    match sign {
        Sign::Equal => Some(Op::Equal),
        Sign::NotEqual => Some(Op::NotEqual),
        Sign::Less => Some(Op::Less),
        Sign::LessEqual => Some(Op::LessEqual),
        Sign::Greater => Some(Op::Greater),
        Sign::GreaterEqual => Some(Op::GreaterEqual),
        _ => None,
    }
}

fn any_of(mut parts: List<NamedCond>) -> NamedCond
    ensures { result ≡ any_of parts }
{
    if parts.len() != 1 {
        return NamedCond::Any(parts);
    }
    match parts.pop() {
        Some(part) => part,
        None => NamedCond::Any(parts),
    }
}

fn all_of(mut parts: List<NamedCond>) -> NamedCond
    ensures { result ≡ all_of parts }
{
    if parts.len() != 1 {
        return NamedCond::All(parts);
    }
    match parts.pop() {
        Some(part) => part,
        None => NamedCond::All(parts),
    }
}

/// conj { "or" conj }
#[cycle(reader)]
pub(crate) fn cond(reader: &mut Reader) -> Result<NamedCond, LexEnd>
    ensures found { IfOk result (λ c. ReadsCond c reader.old reader.new) }
    ensures shorter { IfOk result (λ c. length reader.new < length reader.old) }
    ensures syntax { IsErrOf result LexEnd.Syntax → (c : ACond) (r : Items ASymbol) → ReadsCond c reader.old r → ⊥ }
{
    let mut parts = List::new(reader.alloc());
    parts.push(conj(reader)?)?;
    while reader.takes_word("or") {
        parts.push(conj(reader)?)?;
    }
    Ok(any_of(parts))
}

/// factor { "and" factor }
#[cycle(reader)]
fn conj(reader: &mut Reader) -> Result<NamedCond, LexEnd>
    ensures found { IfOk result (λ c. ReadsConj c reader.old reader.new) }
    ensures shorter { IfOk result (λ c. length reader.new < length reader.old) }
    ensures syntax { IsErrOf result LexEnd.Syntax → (c : ACond) (r : Items ASymbol) → ReadsConj c reader.old r → ⊥ }
{
    let mut parts = List::new(reader.alloc());
    parts.push(factor(reader)?)?;
    while reader.takes_word("and") {
        parts.push(factor(reader)?)?;
    }
    Ok(all_of(parts))
}

/// [ "not" ] primary
#[cycle(reader)]
fn factor(reader: &mut Reader) -> Result<NamedCond, LexEnd>
    ensures found { IfOk result (λ c. ReadsFactor c reader.old reader.new) }
    ensures shorter { IfOk result (λ c. length reader.new < length reader.old) }
    ensures syntax { IsErrOf result LexEnd.Syntax → (c : ACond) (r : Items ASymbol) → ReadsFactor c reader.old r → ⊥ }
{
    if reader.takes_word("not") {
        let inner = primary(reader)?;
        return Ok(NamedCond::Not(Boxed::new(reader.alloc(), inner)?));
    }
    primary(reader)
}

/// "(" cond ")", or a comparison
#[cycle(reader)]
fn primary(reader: &mut Reader) -> Result<NamedCond, LexEnd>
    ensures found { IfOk result (λ c. ReadsPrimary c reader.old reader.new) }
    ensures shorter { IfOk result (λ c. length reader.new < length reader.old) }
    ensures syntax { IsErrOf result LexEnd.Syntax → (c : ACond) (r : Items ASymbol) → ReadsPrimary c reader.old r → ⊥ }
{
    if reader.takes_sign(Sign::Open) {
        let inner = cond(reader)?;
        if reader.takes_sign(Sign::Close) {
            return Ok(inner);
        }
        return Err(LexEnd::Syntax);
    }
    comparison(reader)
}

/// operand op operand
fn comparison(reader: &mut Reader) -> Result<NamedCond, LexEnd>
    ensures found { IfOk result (λ c. ReadsComparison c reader.old reader.new) }
    ensures shorter { IfOk result (λ c. length reader.new < length reader.old) }
    ensures syntax { IsErrOf result LexEnd.Syntax → (c : ACond) (r : Items ASymbol) → ReadsComparison c reader.old r → ⊥ }
{
    let left = operand(reader)?;
    let op = operator(reader)?;
    let right = operand(reader)?;
    Ok(NamedCond::Compare(Comparison { left, op, right }))
}

fn operator(reader: &mut Reader) -> Result<Op, LexEnd>
    ensures found { IfOk result (λ o. reader.old ≡ op_sym o ∷ reader.new) }
    ensures syntax { IsErrOf result LexEnd.Syntax → (o : AnOp) (r : Items ASymbol) → ¬ (reader.old ≡ op_sym o ∷ r) }
{
    match reader.next() {
        Some(Symbol::Sign(sign)) => match op_of(sign) {
            Some(op) => Ok(op),
            None => Err(LexEnd::Syntax),
        },
        _ => Err(LexEnd::Syntax),
    }
}

fn is_at_word(reader: &Reader) -> bool
    ensures { result ≡ begins_word reader.now }
{
    match reader.peek() {
        Some(Symbol::Word(_)) => true,
        _ => false,
    }
}

fn operand(reader: &mut Reader) -> Result<NamedOperand, LexEnd>
    ensures found { IfOk result (λ a. ReadsOperand a reader.old reader.new) }
    ensures syntax { IsErrOf result LexEnd.Syntax → (a : AnOperand) (r : Items ASymbol) → ¬ (ReadsOperand a reader.old r) }
{
    if is_at_word(reader) {
        return Ok(NamedOperand::Ref(reference(reader)?));
    }
    Ok(NamedOperand::Const(value(reader)?))
}
