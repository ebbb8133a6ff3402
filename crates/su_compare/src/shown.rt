//! The rows that show that a term isn't settled.
ghost use Rattle.std.specs.Prelude.{◌≡◌, ◌↔◌, ◌⊎◌, ◌++◌, Contains, IfOk, OnOk};
ghost use Rattle.su_base.specs.declared.values.Value.{Value as AValue};
ghost use Rattle.su_tableau.specs.Kinds.{IsTyped};
ghost use Rattle.su_schema.specs.Entries.{attribute_kinds};
ghost use Rattle.su_compare.specs.Counterexamples.{InTerms, IsShown};
ghost use Rattle.su_compare.specs.inside.Settlements.{constants_in, tab_constants, terms_constants};

use std::alloc::Global;
use su_base::{Kind, List, NoMemory, Value, sorted_rows, sorted_values};
use su_chase::{Frozen, freeze};
use su_schema::Schema;
use su_steps::Term;
use su_tableau::{Sym, Tableau};

/// The kinds of the attributes.
fn kinds_of(alloc: Global, schema: &Schema) -> Result<List<Kind>, NoMemory>
    ensures { IfOk result (λ kinds. kinds ≡ attribute_kinds schema.now) }
{
    schema.keeps_its_rules();
    let mut kinds = List::new(alloc);
    for a in 0..schema.attributes() as u8 {
        kinds.push(schema.attribute_kind(a))?;
    }
    Ok(kinds)
}

/// Adds copies of the constants among the symbols.
fn push_symbols(alloc: Global, symbols: &[Sym], constants: &mut List<Value>) -> Result<(), NoMemory>
    ensures { OnOk result (constants.new ≡ constants.old ++ constants_in symbols.now) }
{
    for x in symbols {
        if let Sym::Const(value) = x {
            constants.push(value.copy(alloc)?)?;
        }
    }
    Ok(())
}

/// Adds copies of the tableau's constants.
fn push_tableau(alloc: Global, t: &Tableau, constants: &mut List<Value>) -> Result<(), NoMemory>
    ensures { OnOk result (constants.new ≡ constants.old ++ tab_constants t.now) }
{
    push_symbols(alloc, t.head(), constants)?;
    for i in 0..t.row_count() {
        push_symbols(alloc, t.row(i), constants)?;
    }
    Ok(())
}

/// Adds copies of the terms' constants.
fn push_terms(alloc: Global, terms: &[Term], constants: &mut List<Value>) -> Result<(), NoMemory>
    ensures { OnOk result (constants.new ≡ constants.old ++ terms_constants terms.now) }
{
    for term in terms {
        push_tableau(alloc, &term.tableau, constants)?;
    }
    Ok(())
}

/// The constants of all terms of both.
fn constants_of(alloc: Global, first: &[Term], second: &[Term]) -> Result<List<Value>, NoMemory>
    ensures { IfOk result (λ vs. (c : AValue) → Contains vs c ↔ (InTerms first.now c ⊎ InTerms second.now c)) }
{
    let mut constants = List::new(alloc);
    push_terms(alloc, first, &mut constants)?;
    push_terms(alloc, second, &mut constants)?;
    Ok(sorted_values(constants))
}

/// The frozen rows of a chased term, ascending, each once, and its frozen head. The constants of all
/// terms are avoided, so that no term answers the frozen head but one that maps into the chased one.
pub fn show_apart(
    alloc: Global,
    schema: &Schema,
    first: &[Term],
    second: &[Term],
    c: &Tableau,
) -> Result<Frozen, NoMemory>
    requires { IsTyped (attribute_kinds schema.now) c.now }
    ensures { IfOk result (IsShown schema.now first.now second.now c.now) }
{
    let kinds = kinds_of(alloc, schema)?;
    let avoid = constants_of(alloc, first, second)?;
    let frozen = freeze(alloc, kinds.as_slice(), c, avoid.as_slice())?;
    let Frozen { universe, head } = frozen;
    let universe = sorted_rows(universe);
    Ok(Frozen { universe, head })
}
