//! The rows and the head of a term.
ghost use Rattle.std.specs.Prelude.{◌≡◌, ◌≢◌, ℕ, ◌+◌, ◌*◌, ◌<◌, ◌≤◌, ◌^◌, ◌++◌, IsTrue, true, false, if◌then◌else◌, [], ◌∷◌, All, Contains, length, IfOk};
ghost use Rattle.std.specs.FinSet as set;
ghost use Rattle.su_where.specs.Places.{HasPlacesBelow};
ghost use Rattle.su_tableau.specs.declared.symbols.Sym.TheVariants.{Var};
ghost use Rattle.su_steps.specs.declared.building.Head.{Head as AHead};
ghost use Rattle.su_steps.specs.Objects.{width, attributes_at};
ghost use Rattle.su_steps.specs.PairSymbols.{pair, compared};
ghost use Rattle.su_steps.specs.Evaluated.{left_over, sides, EvaluatesFalse};
ghost use Rattle.su_steps.specs.CaseTableaux.{origin_row, rows_of};
ghost use Rattle.su_steps.specs.inside.Numbers.{AreClasses, name_by};
ghost use Rattle.su_steps.specs.inside.Heads.{IsSaid, with_literals, names_at, IsHeadIfAny};

use crate::classes::Classes;
use crate::objects::object_attributes;
use crate::results::Origin;
use std::alloc::Global;
use su_base::{AttrSet, List, NoMemory};
use su_query::Place;
use su_schema::Schema;
use su_tableau::Sym;
use su_where::{Literal, Op};

/// The head of a tableau and its operators.
#[derive(Drop)]
pub struct Head {
    pub symbols: List<Sym>,
    pub operators: List<Op>,
}

/// The cell of an attribute: the name of its pair, or the row's own symbol.
fn cell(
    alloc: Global,
    classes: &Classes,
    variables: u8,
    attributes: AttrSet,
    v: u8,
    a: u8,
    own: u32,
) -> Result<Sym, NoMemory>
    requires classes { AreClasses variables classes.now }
    requires variable { v < variables }
    requires attribute { a < classes.now.width }
    requires fits { own + a < 2 ^ 32 }
    ensures { IfOk result (λ s. s ≡ (if set.contains attributes a then name_by variables classes.now (Var (pair classes.now.width v a)) else Var (own + a))) }
{
    if attributes.contains(a) {
        return classes.pair_name(alloc, variables, v, a);
    }
    Ok(Sym::Var(own + a as u32))
}

/// The row of an origin, whose own symbols begin with the number `own`.
fn row(
    alloc: Global,
    schema: &Schema,
    classes: &Classes,
    variables: u8,
    origin: &Origin,
    own: u32,
) -> Result<List<Sym>, NoMemory>
    requires classes { AreClasses variables classes.now }
    requires width { classes.now.width ≡ width schema.now }
    requires variable { origin.now.variable < variables }
    requires object { origin.now.object < length schema.now.objects }
    requires fits { own + classes.now.width ≤ 2 ^ 32 }
    ensures { IfOk result (λ cells. cells ≡ origin_row schema.now (name_by variables classes.now) own origin.now) }
{
    let attributes = object_attributes(schema, origin.object);
    let mut cells = List::new(alloc);
    for a in 0..classes.width {
        cells.push(cell(
            alloc,
            classes,
            variables,
            attributes,
            origin.variable,
            a,
            own,
        )?)?;
    }
    Ok(cells)
}

/// The rows of the origins, in order.
pub fn rows(
    alloc: Global,
    schema: &Schema,
    classes: &Classes,
    variables: u8,
    origins: &[Origin],
) -> Result<List<List<Sym>>, NoMemory>
    requires classes { AreClasses variables classes.now }
    requires width { classes.now.width ≡ width schema.now }
    requires origins { All (λ o. (o.variable < variables) × (o.object < length schema.now.objects)) origins.now }
    requires few { length origins.now ≤ 64 }
    ensures { IfOk result (λ rows. rows ≡ rows_of schema.now (name_by variables classes.now) (variables * classes.now.width) origins.now) }
{
    let mut rows = List::new(alloc);
    let mut own = variables as u32 * classes.width as u32;
    for origin in origins {
        rows.push(row(alloc, schema, classes, variables, origin, own)?)?;
        own += classes.width as u32;
    }
    Ok(rows)
}

/// What a comparison says, where it is evaluated: one between two constants, or of a symbol with
/// itself.
fn evaluated(left: &Sym, op: Op, right: &Sym) -> Option<bool>
    ensures { IsSaid op left.now right.now result }
{
    match (left, right) {
        (Sym::Const(a), Sym::Const(b)) => Some(op.compares(a, b)),
        (Sym::Var(j), Sym::Var(k)) if j == k => {
            Some(matches!(op, Op::Equal | Op::LessEqual | Op::GreaterEqual))
        }
        _ => None,
    }
}

/// Adds the sides of a comparison, unless it is evaluated; false where it is evaluated and false.
fn push_compared(
    alloc: Global,
    classes: &Classes,
    variables: u8,
    places: &[Place],
    literal: &Literal,
    head: &mut Head,
) -> Result<bool, NoMemory>
    requires classes { AreClasses variables classes.now }
    requires places { HasPlacesBelow (length places.now) literal.now }
    requires pairs { All (λ p. (p.variable < variables) × (p.attribute < classes.now.width)) places.now }
    ensures is_false { IfOk result (λ b. b ≡ false → EvaluatesFalse (name_by variables classes.now) (compared classes.now.width places.now literal.now)) }
    ensures not_false { IfOk result (λ b. b ≡ true → ¬ EvaluatesFalse (name_by variables classes.now) (compared classes.now.width places.now literal.now)) }
    ensures pushed { IfOk result (λ b. b ≡ true → head.new ≡ with_literals variables classes.now places.now head.old (literal.now ∷ [])) }
{
    let left = classes.operand_name(alloc, variables, places, &literal.left)?;
    let right = classes.operand_name(alloc, variables, places, &literal.right)?;
    match evaluated(&left, literal.op, &right) {
        Some(says) => return Ok(says),
        None => {}
    }
    head.symbols.push(left)?;
    head.symbols.push(right)?;
    head.operators.push(literal.op)?;
    Ok(true)
}

/// The symbols of the outputs.
fn output_symbols(
    alloc: Global,
    classes: &Classes,
    variables: u8,
    places: &[Place],
    outputs: &[u16],
) -> Result<List<Sym>, NoMemory>
    requires classes { AreClasses variables classes.now }
    requires outputs { All (λ i. i < length places.now) outputs.now }
    requires pairs { All (λ p. (p.variable < variables) × (p.attribute < classes.now.width)) places.now }
    ensures { IfOk result (λ xs. xs ≡ names_at variables classes.now places.now outputs.now) }
{
    let mut symbols = List::new(alloc);
    for i in outputs {
        symbols.push(classes.place_name(alloc, variables, places, *i)?)?;
    }
    Ok(symbols)
}

/// The symbols of the outputs and of the comparisons that aren't evaluated; none where one is
/// evaluated and false.
pub fn build_head(
    alloc: Global,
    classes: &Classes,
    variables: u8,
    places: &[Place],
    outputs: &[u16],
    literals: &[Literal],
) -> Result<Option<Head>, NoMemory>
    requires classes { AreClasses variables classes.now }
    requires outputs { All (λ i. i < length places.now) outputs.now }
    requires places { All (HasPlacesBelow (length places.now)) literals.now }
    requires pairs { All (λ p. (p.variable < variables) × (p.attribute < classes.now.width)) places.now }
    ensures { IfOk result (IsHeadIfAny variables classes.now places.now outputs.now literals.now) }
{
    let mut head = Head {
        symbols: output_symbols(alloc, classes, variables, places, outputs)?,
        operators: List::new(alloc),
    };
    for literal in literals {
        let says = push_compared(alloc, classes, variables, places, literal, &mut head)?;
        if !says {
            return Ok(None);
        }
    }
    Ok(Some(head))
}
