//! What the names of a statement stand for in a schema.
ghost use Rattle.std.specs.Prelude.{IfOk};
ghost use Rattle.su_query.specs.Ranges.{IsResolved};
ghost use Rattle.su_query.specs.Limits.{HasFew};
ghost use Rattle.su_query.specs.StatementTexts.{IsReady};

use std::alloc::{AllocError, Global};
use std::test::Fail;
use su_base::{AttrSet, Kind, Str, Value};
use su_query::{
    Place, QueryFault, Resolved, Statement, mentioned, read, resolve, resolve_attributes,
    resolve_columns,
};
use su_schema::Schema;
use su_where::{Cond, Op, Operand};

const SCHEMA: &str = "\
attribute A int; attribute B int; attribute C text;
relation P (X int, Y text);
";

/// The schema of a short file; none where it is refused.
fn schema_of(alloc: Global, file: &str) -> Option<Schema> {
    if file.len() > 65536 {
        return None;
    }
    match su_ddl::read(alloc, file.as_bytes()) {
        Ok(schema) => Some(schema),
        Err(_) => None,
    }
}

fn word(kind: Kind) -> &'static str {
    match kind {
        Kind::Int => "int",
        Kind::Text => "text",
    }
}

/// The refusal in words.
fn refusal(alloc: Global, fault: &QueryFault) -> Result<String, AllocError> {
    match fault {
        QueryFault::Unknown(name) => format!(in alloc; "unknown {}", name.as_str()),
        QueryFault::UnknownColumn(name) => format!(in alloc; "unknown column {}", name.as_str()),
        QueryFault::Kinds { left, right } => {
            format!(in alloc; "kinds {} {}", word(*left), word(*right))
        }
        _ => String::from_str(alloc, "else"),
    }
}

fn push_number(alloc: Global, out: &mut String, number: u16, tail: &str) -> Result<(), AllocError> {
    let digits = number.to_string(alloc)?;
    out.push_str(digits.as_str())?;
    out.push_str(tail)
}

fn push_variables(out: &mut String, variables: &[Option<Str>]) -> Result<(), AllocError> {
    for variable in variables {
        match variable {
            Some(name) => out.push_str(name.as_str())?,
            None => out.push_str("-")?,
        }
        out.push_str(" ")?;
    }
    Ok(())
}

fn push_places(alloc: Global, out: &mut String, places: &[Place]) -> Result<(), AllocError> {
    for place in places {
        push_number(alloc, out, u16::from(place.variable), ".")?;
        push_number(alloc, out, u16::from(place.attribute), " ")?;
    }
    Ok(())
}

fn push_outputs(alloc: Global, out: &mut String, outputs: &[u16]) -> Result<(), AllocError> {
    for output in outputs {
        push_number(alloc, out, *output, " ")?;
    }
    Ok(())
}

/// Which of A, B and C are in the set.
fn push_members(out: &mut String, set: AttrSet) -> Result<(), AllocError> {
    for (number, name) in [(0, "A"), (1, "B"), (2, "C")] {
        if set.contains(number) {
            out.push_str(name)?;
        }
    }
    Ok(())
}

fn sign(op: Op) -> &'static str {
    match op {
        Op::Equal => "=",
        Op::NotEqual => "!=",
        Op::Less => "<",
        Op::LessEqual => "<=",
        Op::Greater => ">",
        Op::GreaterEqual => ">=",
    }
}

/// A constant, or the number of a place in brackets.
fn push_operand(alloc: Global, out: &mut String, operand: &Operand) -> Result<(), AllocError> {
    match operand {
        Operand::Place(place) => {
            out.push_str("[")?;
            push_number(alloc, out, *place, "]")
        }
        Operand::Const(Value::Int(number)) => {
            let digits = number.to_string(alloc)?;
            out.push_str(digits.as_str())
        }
        Operand::Const(Value::Text(text)) => {
            out.push_str("'")?;
            out.push_str(text.as_str())?;
            out.push_str("'")
        }
    }
}

/// The condition with `&`, `|` and `!` for the nodes, and a space behind each comparison.
#[cycle(cond)]
fn push_cond(alloc: Global, out: &mut String, cond: &Cond) -> Result<(), AllocError> {
    match cond {
        Cond::Compare(literal) => {
            push_operand(alloc, out, &literal.left)?;
            out.push_str(sign(literal.op))?;
            push_operand(alloc, out, &literal.right)?;
            out.push_str(" ")
        }
        Cond::Not(part) => {
            out.push_str("!")?;
            push_cond(alloc, out, part.get())
        }
        Cond::All(parts) => push_parts(alloc, out, "&(", parts.as_slice()),
        Cond::Any(parts) => push_parts(alloc, out, "|(", parts.as_slice()),
    }
}

#[cycle(cond)]
fn push_parts(
    alloc: Global,
    out: &mut String,
    open: &str,
    parts: &[Cond],
) -> Result<(), AllocError> {
    out.push_str(open)?;
    for part in parts {
        push_cond(alloc, out, part)?;
    }
    out.push_str(")")
}

/// The variables, `-` for the blank one, the places, the outputs and the condition.
fn push_resolved(alloc: Global, out: &mut String, resolved: &Resolved) -> Result<(), AllocError> {
    push_variables(out, resolved.variables.as_slice())?;
    push_places(alloc, out, resolved.places.as_slice())?;
    push_outputs(alloc, out, resolved.outputs.as_slice())?;
    push_cond(alloc, out, &resolved.cond)
}

/// What a query resolves to, and what it mentions with its first variable.
fn resolution(
    alloc: Global,
    schema: &Schema,
    outcome: &Result<Resolved, QueryFault>,
) -> Result<String, AllocError>
    requires { IfOk outcome.now (λ r. IsResolved schema.now r) }
{
    schema.keeps_its_rules();
    match outcome {
        Ok(resolved) => {
            let mut out = String::new(alloc);
            push_resolved(alloc, &mut out, resolved)?;
            push_members(&mut out, mentioned(resolved, 0))?;
            Ok(out)
        }
        Err(fault) => refusal(alloc, fault),
    }
}

/// The condition of a deletion over numbers of columns.
fn condition(alloc: Global, outcome: &Result<Cond, QueryFault>) -> Result<String, AllocError> {
    match outcome {
        Ok(cond) => {
            let mut out = String::new(alloc);
            push_cond(alloc, &mut out, cond)?;
            Ok(out)
        }
        Err(fault) => refusal(alloc, fault),
    }
}

fn members(alloc: Global, outcome: &Result<AttrSet, QueryFault>) -> Result<String, AllocError> {
    match outcome {
        Ok(set) => {
            let mut out = String::new(alloc);
            push_members(&mut out, *set)?;
            Ok(out)
        }
        Err(fault) => refusal(alloc, fault),
    }
}

/// What the names of the statement stand for.
fn named(alloc: Global, schema: &Schema, statement: &Statement) -> Result<String, AllocError>
    requires few { HasFew statement.now }
    requires ready { IsReady statement.now }
{
    match statement {
        Statement::Retrieve(query) => {
            let outcome = resolve(alloc, schema, query);
            resolution(alloc, schema, &outcome)
        }
        Statement::DeleteWhere { relation: _, cond } if schema.relations() > 0 => {
            let outcome = resolve_columns(alloc, schema, 0, cond);
            condition(alloc, &outcome)
        }
        Statement::Closure { attributes } => {
            let outcome = resolve_attributes(alloc, schema, attributes.as_slice());
            members(alloc, &outcome)
        }
        _ => String::from_str(alloc, "no names"),
    }
}

/// What the names of the text stand for.
fn found(alloc: Global, schema: &Schema, text: &[u8]) -> Result<String, AllocError> {
    match read(alloc, text) {
        Ok(statement) => named(alloc, schema, &statement),
        Err(fault) => refusal(alloc, &fault),
    }
}

/// Texts, each with what its names stand for.
const FOUND: &[(&str, &str)] = &[
    (
        "retrieve (t.A, B) where C = 'x' and t.A < B",
        "t - 0.0 1.1 1.2 0 1 &([2]='x' [0]<[1] )A",
    ),
    ("retrieve (A, A, t.A)", "- t 0.0 1.0 0 0 1 &()A"),
    (
        "retrieve (A) where B = 1 or t.C = C",
        "- t 0.0 0.1 1.2 0.2 0 |([1]=1 [2]=[3] )ABC",
    ),
    (
        "retrieve (A) where not (A >= 5 and -7 != t.A)",
        "- t 0.0 1.0 0 !&([0]>=5 -7!=[1] )A",
    ),
    ("retrieve (D, E) where F = 1", "unknown D"),
    ("retrieve (A) where A = C and E = 1", "unknown E"),
    ("retrieve (A) where A = C or 'x' = 1", "kinds int text"),
    ("retrieve (A) where A = 1 and not (C = B)", "kinds text int"),
    ("delete P where Y = 'a'", "[1]='a' "),
    ("delete P where X = 1 or not (2 <= X)", "|([0]=1 !2<=[0] )"),
    ("delete P where A = 1", "unknown column A"),
    ("delete P where X = Y and Z = 1", "unknown column Z"),
    ("delete P where X = Y", "kinds int text"),
    ("closure (C, A, C)", "AC"),
    ("closure (A, E, D)", "unknown E"),
];

#[test]
fn names_stand_for_numbers_and_unknown_ones_are_refused_before_kinds(
    rt: HostRuntime,
) -> Result<(), Fail> {
    let Some(schema) = schema_of(rt.alloc(), SCHEMA) else {
        return Err(Fail::from("no schema"));
    };
    for (text, want) in FOUND {
        let found = found(rt.alloc(), &schema, text.as_bytes())?;
        assert_eq!(rt; found.as_str(), *want, "{text}");
    }
    Ok(())
}
