//! Two queries compared.
ghost use Rattle.std.specs.Prelude.{◌≡◌, ◌↔◌, ◌⊎◌, ◌≤◌, ℕ, List, length, IsTrue, OnOk, IfOk, IfErr};
ghost use Rattle.su_maxobj.specs.MaximalObjects.{AreMaximalObjects};
ghost use Rattle.su_query.specs.NumberedConditions.{resolved_of};
ghost use Rattle.su_query.specs.Ranges.{IsResolved};
ghost use Rattle.su_query.specs.Limits.{AreFew};
ghost use Rattle.su_steps.specs.Refusals.{IsAccepted};
ghost use Rattle.su_compare.specs.Within.{AreOf};
ghost use Rattle.su_show.specs.RefusalLines.{IsRefusalLine};
ghost use Rattle.su_session.specs.ComparableQueries.{AskEqualities, AreOfOneForm, IsFormRefusal};
ghost use Rattle.su_session.specs.Comparisons.{IsTermsRefusal, Compares};

use crate::replies::{Reply, accepted, refused};
use std::alloc::Global;
use su_base::{List, NoMemory, ObjSet};
use su_compare::laws::terms_are_comparable;
use su_compare::{agree, equalities, show, within};
use su_maxobj::laws::a_schema_has_few_maximal_objects;
use su_query::{Query, Resolved, resolve};
use su_schema::Schema;
use su_show::Refusal;
use su_state::Database;
use su_steps::{StepFault, Term, terms};

/// Two queries over numbers, of one form.
struct Pair {
    first: Resolved,
    second: Resolved,
}

/// Not derived, so that it is a single call wherever a pair goes out of scope.
impl Drop for Pair {
    fn drop(self) {
        let Pair {
            first: _,
            second: _,
        } = self;
    }
}

/// The terms of both.
struct Terms {
    first: List<Term>,
    second: List<Term>,
}

/// Not derived, so that it is a single call wherever they go out of scope.
impl Drop for Terms {
    fn drop(self) {
        let Terms {
            first: _,
            second: _,
        } = self;
    }
}

fn ask_equalities(first: &Resolved, second: &Resolved) -> bool
    ensures { IsTrue result ↔ AskEqualities first.now second.now }
{
    equalities(&first.cond) && equalities(&second.cond)
}

/// Both over numbers, or why they are of no one form.
fn resolve_both(
    alloc: Global,
    schema: &Schema,
    first: &Query,
    second: &Query,
) -> Result<Pair, Refusal>
    requires first_few { AreFew first.now.outputs first.now.cond }
    requires second_few { AreFew second.now.outputs second.now.cond }
    ensures first { IfOk result (λ pair. (pair.first ≡ resolved_of schema.now first.now) × IsResolved schema.now pair.first) }
    ensures second { IfOk result (λ pair. (pair.second ≡ resolved_of schema.now second.now) × IsResolved schema.now pair.second) }
    ensures form { OnOk result (AreOfOneForm schema.now first.now second.now) }
    ensures refused { IfErr result (λ why. (line : List ℕ) → IsRefusalLine schema.now why line → IsFormRefusal schema.now first.now second.now why) }
{
    let first = match resolve(alloc, schema, first) {
        Ok(first) => first,
        Err(fault) => return Err(Refusal::Query(fault)),
    };
    let second = match resolve(alloc, schema, second) {
        Ok(second) => second,
        Err(fault) => return Err(Refusal::Query(fault)),
    };
    if !ask_equalities(&first, &second) {
        return Err(Refusal::OnlyEqual);
    }
    if !agree(schema, &first, &second) {
        return Err(Refusal::OutputsDiffer);
    }
    Ok(Pair { first, second })
}

/// The terms of both, or why one has none.
fn terms_of_both(
    alloc: Global,
    schema: &Schema,
    maximal: &[ObjSet],
    pair: &Pair,
) -> Result<Terms, StepFault>
    requires few { length maximal.now ≤ 128 }
    requires first { IsResolved schema.now pair.now.first }
    requires second { IsResolved schema.now pair.now.second }
    ensures first { IfOk result (λ terms. AreOf schema.now maximal.now pair.now.first terms.first × IsAccepted schema.now maximal.now pair.now.first) }
    ensures second { IfOk result (λ terms. AreOf schema.now maximal.now pair.now.second terms.second × IsAccepted schema.now maximal.now pair.now.second) }
    ensures refused { IfErr result (λ fault. (fault ≡ StepFault.NoMemory) ⊎ IsTermsRefusal schema.now maximal.now pair.now.first pair.now.second fault) }
{
    let first = terms(alloc, schema, maximal, &pair.first)?;
    let second = terms(alloc, schema, maximal, &pair.second)?;
    Ok(Terms { first, second })
}

/// Whether each of two queries is within the other, or why they are refused. Want of memory is handed on.
pub(crate) fn compare(
    alloc: Global,
    db: &Database,
    maximal: &[ObjSet],
    first: &Query,
    second: &Query,
) -> Result<Reply, NoMemory>
    requires first_few { AreFew first.now.outputs first.now.cond }
    requires second_few { AreFew second.now.outputs second.now.cond }
    requires maximal { AreMaximalObjects db.now.schema maximal.now }
    ensures { IfOk result (λ reply. Compares db.now first.now second.now reply db.now) }
{
    db.keeps_its_rules();
    a_schema_has_few_maximal_objects();
    terms_are_comparable();
    let schema = db.schema();
    let pair = match resolve_both(alloc, schema, first, second) {
        Ok(pair) => pair,
        Err(why) => return refused(alloc, db, why),
    };
    let both = match terms_of_both(alloc, schema, maximal, &pair) {
        Ok(both) => both,
        Err(fault) => return refused(alloc, db, Refusal::Steps(fault)),
    };
    let first = both.first.as_slice();
    let second = both.second.as_slice();
    let forth = within(alloc, schema, first, second)?;
    let back = within(alloc, schema, second, first)?;
    Ok(accepted(show(alloc, schema, &forth, &back)?))
}
