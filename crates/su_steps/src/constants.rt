//! The constants of a disjunct, each once.
ghost use Rattle.std.specs.Prelude.{◌≡◌, ℕ, ◌+◌, ◌<◌, ◌≤◌, ◌^◌, [], ◌∷◌, ◌++◌, List as Items, length, true, All, OnOk, IfOk};
ghost use Rattle.su_base.specs.declared.values.Value.{Value as AValue};
ghost use Rattle.su_where.specs.declared.literals.Operand.TheVariants as operand;
ghost use Rattle.su_where.specs.Places.{HasPlacesBelow, IsBelow};
ghost use Rattle.su_steps.specs.PairSymbols.{operand_symbol, comparisons};
ghost use Rattle.su_classes.specs.inside.Symbols.{constant_place, symbol_number, has_constant, AreDistinct};
ghost use Rattle.su_steps.specs.inside.Numbers.{IsNoted, AreNoted, equals};

use std::alloc::Global;
use su_base::{List, NoMemory, Value};
use su_classes::Together;
use su_query::Place;
use su_where::{Literal, Op, Operand};

/// The place of a constant, or their number where it is not there.
pub fn place(constants: &[Value], value: &Value) -> usize
    ensures { result ≡ constant_place constants.now value.now }
{
    for (i, constant) in constants.iter().enumerate() {
        if constant.compare(value).is_eq() {
            return i;
        }
    }
    constants.len()
}

/// Adds a constant, if it is not there.
fn note(alloc: Global, constants: &mut List<Value>, value: &Value) -> Result<(), NoMemory>
    ensures distinct { AreDistinct constants.old → AreDistinct constants.new }
    ensures there { OnOk result (has_constant constants.new value.now ≡ true) }
    ensures kept { (v : AValue) → has_constant constants.old v ≡ true → has_constant constants.new v ≡ true }
{
    if place(constants.as_slice(), value) < constants.len() {
        return Ok(());
    }
    constants.push(value.copy(alloc)?)?;
    Ok(())
}

/// Adds the constant of a side, if there is one.
fn note_side(alloc: Global, constants: &mut List<Value>, operand: &Operand) -> Result<(), NoMemory>
    ensures distinct { AreDistinct constants.old → AreDistinct constants.new }
    ensures noted { OnOk result (IsNoted constants.new operand.now) }
    ensures kept { (v : AValue) → has_constant constants.old v ≡ true → has_constant constants.new v ≡ true }
{
    match operand {
        Operand::Place(_) => Ok(()),
        Operand::Const(value) => note(alloc, constants, value),
    }
}

/// Adds the constants of an equality.
fn note_sides(alloc: Global, constants: &mut List<Value>, literal: &Literal) -> Result<(), NoMemory>
    ensures distinct { AreDistinct constants.old → AreDistinct constants.new }
    ensures noted { OnOk result (AreNoted constants.new literal.now) }
    ensures kept { (v : AValue) → has_constant constants.old v ≡ true → has_constant constants.new v ≡ true }
{
    match literal.op {
        Op::Equal => {
            note_side(alloc, constants, &literal.left)?;
            note_side(alloc, constants, &literal.right)
        }
        _ => Ok(()),
    }
}

/// The constants of the disjunct's equalities, each once.
pub fn constants_of(alloc: Global, disjunct: &[Literal]) -> Result<List<Value>, NoMemory>
    ensures distinct { IfOk result AreDistinct }
    ensures noted { IfOk result (λ vs. All (AreNoted vs) disjunct.now) }
{
    let mut constants = List::new(alloc);
    for literal in disjunct {
        note_sides(alloc, &mut constants, literal)?;
    }
    Ok(constants)
}

/// The number of a side of a comparison, where there are `n` attributes.
fn number(constants: &[Value], places: &[Place], n: u8, operand: &Operand) -> usize
    requires { IsBelow (length places.now) operand.now }
    ensures { result ≡ symbol_number constants.now (operand_symbol n places.now operand.now) }
{
    match operand {
        Operand::Place(i) => {
            let place = places[*i as usize];
            constants.len() + (place.variable as usize * n as usize + place.attribute as usize)
        }
        Operand::Const(value) => place(constants, value),
    }
}

/// Adds the sides of an equality by their numbers.
fn push_equal(
    constants: &[Value],
    places: &[Place],
    n: u8,
    literal: &Literal,
    equal: &mut List<Together>,
) -> Result<(), NoMemory>
    requires { HasPlacesBelow (length places.now) literal.now }
    ensures { OnOk result (equal.new ≡ equal.old ++ equals constants.now (comparisons n places.now (literal.now ∷ []))) }
{
    match literal.op {
        Op::Equal => {
            let left = number(constants, places, n, &literal.left);
            let right = number(constants, places, n, &literal.right);
            equal.push(Together { left, right })?;
            Ok(())
        }
        _ => Ok(()),
    }
}

/// The sides of the disjunct's equalities by their numbers.
pub fn equalities(
    alloc: Global,
    constants: &[Value],
    places: &[Place],
    n: u8,
    disjunct: &[Literal],
) -> Result<List<Together>, NoMemory>
    requires { All (HasPlacesBelow (length places.now)) disjunct.now }
    ensures { IfOk result (λ equal. equal ≡ equals constants.now (comparisons n places.now disjunct.now)) }
{
    let mut equal = List::new(alloc);
    for literal in disjunct {
        push_equal(constants, places, n, literal, &mut equal)?;
    }
    Ok(equal)
}
