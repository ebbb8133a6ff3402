//! The terms of a query.
ghost use Rattle.std.specs.Prelude.{◌≡◌, ◌⊎◌, ◌<◌, ◌≤◌, ◌++◌, ◌∷◌, [], length, get_or, Option, Some, All, IfOk, IfErr, OnOk, MatchOption};
ghost use Rattle.su_where.specs.Places.{HasPlacesBelow};
ghost use Rattle.su_where.specs.Disjunct.{disjuncts_of};
ghost use Rattle.su_tableau.specs.Kinds.{IsTyped};
ghost use Rattle.su_schema.specs.Entries.{attribute_kinds};
ghost use Rattle.su_query.specs.Ranges.{IsResolved};
ghost use Rattle.su_steps.specs.declared.faults.StepFault.TheVariants.{NotCovered};
ghost use Rattle.su_steps.specs.Laws.{AreTheExpression};
ghost use Rattle.su_steps.specs.Choices.{coverings as coverings_in};
ghost use Rattle.su_steps.specs.Objects.{width};
ghost use Rattle.su_steps.specs.Cases.{IsOutOf};
ghost use Rattle.su_steps.specs.Terms.{case_of, AreTerms};
ghost use Rattle.su_steps.specs.Limits.{row_count};
ghost use Rattle.su_steps.specs.Refusals.{IsAccepted, IsStepRefusal, NamesVariable};
ghost use Rattle.su_steps.specs.inside.Ready.{IsReady, AreClosed, FitLiterals, FitOrigins, IsShown, IsChoice};
ghost use Rattle.su_steps.specs.inside.Outs.{IsTableauIfAny, AddsTerms};

use crate::building::{build_head, rows};
use crate::choosing::{choice_at, choice_count, coverings, first_empty, most_rows};
use crate::classes::Classes;
use crate::constants::{constants_of, equalities};
use crate::faults::{StepFault, StepLimit};
use crate::objects::width_of;
use crate::questions::Question;
use crate::results::{Origin, Term};
use crate::rows::{origins, placed_rows};
use std::alloc::Global;
use su_base::{List, NoMemory, ObjSet, copy_name};
use su_query::{Resolved, mentioned};
use su_schema::Schema;
use su_tableau::Tableau;
use su_where::{Literal, disjunct_count, disjuncts};

/// The classes of the disjunct's constants, not closed yet.
fn open_classes(
    alloc: Global,
    resolved: &Resolved,
    width: u8,
    literals: &[Literal],
) -> Result<Classes, NoMemory>
    requires variables { length resolved.now.variables ≤ 8 }
    requires width { width ≤ 128 }
    requires places { All (HasPlacesBelow (length resolved.now.places)) literals.now }
    ensures { IfOk result (λ c. IsReady width resolved.now literals.now c) }
{
    let constants = constants_of(alloc, literals)?;
    let equal = equalities(
        alloc,
        constants.as_slice(),
        resolved.places.as_slice(),
        width,
        literals,
    )?;
    let items = constants.len() + resolved.variables.len() * width as usize;
    let table = vec![in alloc; 0; items]?;
    Ok(Classes {
        constants,
        equal,
        table,
        width,
    })
}

/// Makes the least classes in which the sides of the disjunct's equalities are together and the
/// dependencies are kept on the rows of these origins.
fn close_on(
    alloc: Global,
    schema: &Schema,
    resolved: &Resolved,
    classes: &mut Classes,
    literals: &[Literal],
    origins: &[Origin],
) -> Result<(), NoMemory>
    requires resolved { IsResolved schema.now resolved.now }
    requires literals { FitLiterals schema.now resolved.now literals.now }
    requires origins { FitOrigins schema.now resolved.now origins.now }
    requires ready { IsReady (width schema.now) resolved.now literals.now classes.old }
    ensures { OnOk result (AreClosed schema.now resolved.now literals.now origins.now classes.new) }
{
    schema.keeps_its_rules();
    let placed = placed_rows(alloc, schema, classes.constants.as_slice(), origins)?;
    classes.close(alloc, schema.fds(), placed.as_slice())
}

/// The tableau of rows of these origins with these comparisons, unless they contradict one another.
fn tableau(
    alloc: Global,
    schema: &Schema,
    resolved: &Resolved,
    classes: &mut Classes,
    literals: &[Literal],
    origins: &[Origin],
) -> Result<Option<Tableau>, NoMemory>
    requires resolved { IsResolved schema.now resolved.now }
    requires literals { FitLiterals schema.now resolved.now literals.now }
    requires origins { FitOrigins schema.now resolved.now origins.now }
    requires covered { IsShown schema.now resolved.now origins.now }
    requires ready { IsReady (width schema.now) resolved.now literals.now classes.old }
    ensures ready { OnOk result (IsReady (width schema.now) resolved.now literals.now classes.new) }
    ensures tableau { IfOk result (IsTableauIfAny schema.now resolved.now origins.now literals.now) }
{
    schema.keeps_its_rules();
    let variables = resolved.variables.len() as u8;
    close_on(alloc, schema, resolved, classes, literals, origins)?;
    if classes.clash() {
        return Ok(None);
    }
    let places = resolved.places.as_slice();
    let outputs = resolved.outputs.as_slice();
    let head = match build_head(alloc, classes, variables, places, outputs, literals)? {
        Some(head) => head,
        None => return Ok(None),
    };
    let rows = rows(alloc, schema, classes, variables, origins)?;
    Ok(Some(Tableau::new(
        classes.width,
        rows,
        head.symbols,
        outputs.len() as u16,
        head.operators,
    )))
}

/// The term of a disjunct and a choice, unless it has none.
fn term(
    alloc: Global,
    question: &Question,
    classes: &mut Classes,
    literals: &[Literal],
    disjunct: u8,
    choice: List<u8>,
) -> Result<Option<Term>, NoMemory>
    requires resolved { IsResolved question.now.schema.now question.now.resolved.now }
    requires literals { FitLiterals question.now.schema.now question.now.resolved.now literals.now }
    requires choice { IsChoice question.now.schema.now question.now.maximal.now question.now.resolved.now choice }
    requires few { row_count question.now.schema.now question.now.maximal.now choice ≤ 64 }
    requires disjunct { get_or (disjuncts_of question.now.resolved.now.cond) disjunct [] ≡ literals.now }
    requires ready { IsReady (width question.now.schema.now) question.now.resolved.now literals.now classes.old }
    ensures ready { OnOk result (IsReady (width question.now.schema.now) question.now.resolved.now literals.now classes.new) }
    ensures term { IfOk result (IsOutOf question.now.schema.now question.now.maximal.now question.now.resolved.now (case_of disjunct choice)) }
{
    let schema = question.schema;
    let origins = origins(alloc, schema, question.maximal, choice.as_slice())?;
    match tableau(
        alloc,
        schema,
        question.resolved,
        classes,
        literals,
        origins.as_slice(),
    )? {
        Some(tableau) => Ok(Some(Term {
            disjunct,
            choice,
            origins,
            tableau,
        })),
        None => Ok(None),
    }
}

/// Adds the term, if there is one.
fn push_term(terms: &mut List<Term>, term: Option<Term>) -> Result<(), NoMemory>
    ensures { OnOk result (MatchOption term (terms.new ≡ terms.old) (λ t. terms.new ≡ terms.old ++ t ∷ [])) }
{
    match term {
        Some(term) => {
            terms.push(term)?;
            Ok(())
        }
        None => Ok(()),
    }
}

/// Adds the terms of a disjunct, choice by choice.
fn push_terms(
    alloc: Global,
    question: &Question,
    coverings: &[List<u8>],
    literals: &[Literal],
    disjunct: u8,
    terms: &mut List<Term>,
) -> Result<(), NoMemory>
    requires few { length question.now.maximal.now ≤ 128 }
    requires resolved { IsResolved question.now.schema.now question.now.resolved.now }
    requires accepted { IsAccepted question.now.schema.now question.now.maximal.now question.now.resolved.now }
    requires coverings { coverings.now ≡ coverings_in question.now.schema.now question.now.maximal.now question.now.resolved.now }
    requires literals { FitLiterals question.now.schema.now question.now.resolved.now literals.now }
    requires disjunct { get_or (disjuncts_of question.now.resolved.now.cond) disjunct [] ≡ literals.now }
    requires place { disjunct < length (disjuncts_of question.now.resolved.now.cond) }
    ensures { OnOk result (AddsTerms question.now disjunct terms.old terms.new) }
{
    let count = choice_count(coverings);
    let mut classes = open_classes(
        alloc,
        question.resolved,
        width_of(question.schema),
        literals,
    )?;
    for k in 0..count {
        let choice = choice_at(alloc, coverings, count, k)?;
        let made = term(alloc, question, &mut classes, literals, disjunct, choice)?;
        push_term(terms, made)?;
    }
    Ok(())
}

/// The terms of a query that is accepted.
fn accepted_terms(
    alloc: Global,
    schema: &Schema,
    maximal: &[ObjSet],
    resolved: &Resolved,
    coverings: &[List<u8>],
) -> Result<List<Term>, NoMemory>
    requires few { length maximal.now ≤ 128 }
    requires resolved { IsResolved schema.now resolved.now }
    requires accepted { IsAccepted schema.now maximal.now resolved.now }
    requires coverings { coverings.now ≡ coverings_in schema.now maximal.now resolved.now }
    ensures { IfOk result (AreTerms schema.now maximal.now resolved.now) }
{
    let disjuncts = disjuncts(alloc, &resolved.cond)?;
    let question = Question {
        schema,
        maximal,
        resolved,
    };
    let mut terms = List::new(alloc);
    for (i, literals) in disjuncts.as_slice().iter().enumerate() {
        push_terms(
            alloc,
            &question,
            coverings,
            literals.as_slice(),
            i as u8,
            &mut terms,
        )?;
    }
    Ok(terms)
}

/// The refusal of a variable that isn't covered.
fn not_covered(alloc: Global, resolved: &Resolved, v: u8) -> Result<StepFault, NoMemory>
    requires variable { v < length resolved.now.variables }
    requires places { All (λ p. p.attribute < 128) resolved.now.places }
    ensures { IfOk result (NamesVariable resolved.now v) }
{
    Ok(StepFault::NotCovered {
        variable: copy_name(alloc, resolved.variables.get(v as usize))?,
        mentioned: mentioned(resolved, v),
    })
}

/// The terms of a query: one for each of its disjuncts and each choice of a maximal object per
/// variable that covers what is mentioned with it, but for those that hold of no row at all. The
/// disjuncts come in their order, each with the choices in lexicographic order.
///
/// A variable that isn't covered comes first, then too many disjuncts, rows and terms. Takes memory
/// for the terms, disjunct by disjunct for a table of representatives, and choice by choice for the
/// rows' items.
pub fn terms(
    alloc: Global,
    schema: &Schema,
    maximal: &[ObjSet],
    resolved: &Resolved,
) -> Result<List<Term>, StepFault>
    requires few { length maximal.now ≤ 128 }
    requires resolved { IsResolved schema.now resolved.now }
    ensures terms { IfOk result (AreTerms schema.now maximal.now resolved.now) }
    ensures accepted { OnOk result (IsAccepted schema.now maximal.now resolved.now) }
    ensures refused { IfErr result (λ fault. (fault ≡ StepFault.NoMemory) ⊎ IsStepRefusal schema.now maximal.now resolved.now fault) }
    ensures typed { IfOk result (λ ts. All (λ t. IsTyped (attribute_kinds schema.now) t.tableau) ts) }
    ensures expression { IfOk result (AreTheExpression schema.now maximal.now resolved.now) }
{
    schema.keeps_its_rules();
    let coverings = coverings(alloc, schema, maximal, resolved)?;
    let coverings = coverings.as_slice();
    match first_empty(coverings) {
        Some(v) => return Err(not_covered(alloc, resolved, v as u8)?),
        None => {}
    }
    let disjuncts = disjunct_count(&resolved.cond) as usize;
    if disjuncts > 64 {
        return Err(StepFault::Limit(StepLimit::Disjuncts));
    }
    if most_rows(schema, maximal, coverings) > 64 {
        return Err(StepFault::Limit(StepLimit::Rows));
    }
    if disjuncts * choice_count(coverings) > 256 {
        return Err(StepFault::Limit(StepLimit::Terms));
    }
    Ok(accepted_terms(alloc, schema, maximal, resolved, coverings)?)
}
