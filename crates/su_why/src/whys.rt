//! Why the terms of a query have no rows.
ghost use Rattle.std.specs.Prelude.{◌<◌, length, All, IfOk};
ghost use Rattle.std.specs.List.{AllZip};
ghost use Rattle.su_tableau.specs.Kinds.{IsTyped};
ghost use Rattle.su_schema.specs.Entries.{attribute_kinds};
ghost use Rattle.su_min.specs.Reduction.{term_at};
ghost use Rattle.su_answer.specs.Prepared.{IsPreparedOn};
ghost use Rattle.su_why.specs.Blame.{IsWhyEmpty, AreWhyEmpty};

use crate::blaming::{blame_for, kept_task};
use std::alloc::Global;
use su_answer::Prepared;
use su_base::{List, NoMemory};
use su_blame::Blame;
use su_min::Minimal;
use su_state::Database;
use su_steps::laws::terms_are_valid_and_typed;

/// Why the term has no answer.
fn why_term(alloc: Global, db: &Database, minimal: &Minimal) -> Result<Option<Blame>, NoMemory>
    requires { IsTyped (attribute_kinds db.now.schema) minimal.now.tableau }
    ensures { IfOk result (IsWhyEmpty db.now minimal.now) }
{
    db.keeps_its_rules();
    minimal.tableau().keeps_its_rules();
    let task = kept_task(alloc, db, minimal)?;
    let none = List::new(alloc);
    let found = blame_for(alloc, db.tables(), &task, &none)?;
    Ok(found)
}

/// Why the terms with these numbers have no answers.
fn why_terms(
    alloc: Global,
    db: &Database,
    minimals: &[Minimal],
    kept: &[u16],
) -> Result<List<Option<Blame>>, NoMemory>
    requires typed { All (λ m. IsTyped (attribute_kinds db.now.schema) m.tableau) minimals.now }
    requires within { All (λ k. k < length minimals.now) kept.now }
    ensures { IfOk result (AllZip (λ k found. IsWhyEmpty db.now (term_at minimals.now k) found) kept.now) }
{
    let mut whys = List::new(alloc);
    for k in kept {
        let one = why_term(alloc, db, &minimals[*k as usize])?;
        whys.push(one)?;
    }
    Ok(whys)
}

/// For each kept term of the query, in order, what is to blame for it that it has no answer; none where it
/// has one.
pub fn why_empty(
    alloc: Global,
    db: &Database,
    prepared: &Prepared,
) -> Result<List<Option<Blame>>, NoMemory>
    requires { IsPreparedOn db.now.schema prepared.now }
    ensures { IfOk result (AreWhyEmpty db.now prepared.now) }
{
    db.keeps_its_rules();
    terms_are_valid_and_typed();
    let minimals = prepared.minimals.as_slice();
    let kept = prepared.reduced.kept.as_slice();
    let whys = why_terms(alloc, db, minimals, kept)?;
    Ok(whys)
}
