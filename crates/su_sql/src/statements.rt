//! One statement of a script as SQL.
ghost use Rattle.std.specs.Prelude.{◌≡◌, ◌≤◌, ℕ, List, IfOk, IfErr, OnOk};
ghost use Rattle.su_maxobj.specs.MaximalObjects.{AreMaximalObjects};
ghost use Rattle.su_query.specs.NumberedConditions.{resolved_of};
ghost use Rattle.su_query.specs.Limits.{AreFew, HasFew};
ghost use Rattle.su_sql.specs.QueryReplies.{RefusesWith, RefusesFor, WritesQuery};
ghost use Rattle.su_sql.specs.Statements.{WritesReply, WritesStatement, WritesDefinition, Writes};
ghost use Rattle.su_sql.specs.Accepted.{accepted_text};
ghost use Rattle.su_sql.specs.inside.DefinedText.{IsDefinedText};
ghost use Rattle.su_show.specs.RefusalLines.{IsRefusalLine};
ghost use Rattle.su_session.specs.Retrievals.{IsRefusalOf, HasTerms};
ghost use Rattle.su_session.specs.Outcomes.{Accepts};
ghost use Rattle.su_sql.specs.Meaning.{AreSelectsOf};

use crate::changes::{create, delete, delete_where, insert, print};
use crate::comments::{comment, load};
use crate::dialects::Dialect;
use crate::making::selects;
use crate::tables::Select;
use crate::writing::query as query_sql;
use std::alloc::Global;
use std::thread::Threads;
use su_answer::prepare;
use su_base::{List, NoMemory, ObjSet};
use su_maxobj::laws::a_schema_has_few_maximal_objects;
use su_maxobj::maximal_objects;
use su_par::Gate;
use su_query::{Query, QueryFault, Statement, read, resolve};
use su_schema::Schema;
use su_session::{Reply, Session};
use su_show::{Refusal, header, refusal};
use su_state::Database;

fn accepted(bytes: List<u8>) -> Reply
    ensures { Accepts bytes result }
{
    Reply {
        refused: false,
        bytes,
    }
}

/// The line of a refusal as a comment.
fn refused_line(alloc: Global, line: &[u8]) -> Result<Reply, NoMemory>
    ensures { IfOk result (RefusesWith line.now) }
{
    Ok(Reply {
        refused: true,
        bytes: comment(alloc, line)?,
    })
}

/// A refusal as a comment. Want of memory is handed on.
fn refused(alloc: Global, schema: &Schema, why: Refusal) -> Result<Reply, NoMemory>
    ensures { IfOk result (RefusesFor schema.now why) }
{
    let line = refusal(alloc, schema, &why)?;
    refused_line(alloc, line.as_slice())
}

/// The selects of a query, or why it has none.
fn selects_of<R: Threads + Sync, G: Gate>(
    rt: &R,
    alloc: Global,
    db: &Database,
    maximal: &[ObjSet],
    query: &Query,
    gate: &G,
) -> Result<List<Select>, Refusal>
    requires few { AreFew query.now.outputs query.now.cond }
    requires maximal { AreMaximalObjects db.now.schema maximal.now }
    ensures selects { IfOk result (AreSelectsOf db.now.schema maximal.now (resolved_of db.now.schema query.now)) }
    ensures terms { OnOk result (HasTerms db.now.schema maximal.now query.now) }
    ensures refused { IfErr result (λ why. (line : List ℕ) → IsRefusalLine db.now.schema why line → IsRefusalOf db.now.schema maximal.now query.now why) }
{
    db.keeps_its_rules();
    a_schema_has_few_maximal_objects();
    let resolved = match resolve(alloc, db.schema(), query) {
        Ok(resolved) => resolved,
        Err(fault) => return Err(Refusal::Query(fault)),
    };
    let prepared = match prepare(rt, alloc, db, maximal, &resolved, 1, gate) {
        Ok(prepared) => prepared,
        Err(fault) => return Err(Refusal::Steps(fault)),
    };
    match selects(alloc, db, &prepared) {
        Ok(selects) => Ok(selects),
        Err(_) => Err(Refusal::Query(QueryFault::NoMemory)),
    }
}

/// The selects of a query as SQL, or its refusal.
fn retrieve<R: Threads + Sync, G: Gate>(
    rt: &R,
    alloc: Global,
    dialect: Dialect,
    db: &Database,
    query: &Query,
    gate: &G,
) -> Result<Reply, NoMemory>
    requires { AreFew query.now.outputs query.now.cond }
    ensures { IfOk result (WritesQuery dialect db.now query.now) }
{
    let maximal = maximal_objects(alloc, db.schema())?;
    match selects_of(rt, alloc, db, maximal.as_slice(), query, gate) {
        Ok(selects) => {
            let header = header(alloc, query)?;
            let (header, selects) = (header.as_slice(), selects.as_slice());
            let text = query_sql(alloc, dialect, db.schema(), header, selects)?;
            Ok(accepted(text))
        }
        Err(why) => {
            let reply = refused(alloc, db.schema(), why)?;
            Ok(reply)
        }
    }
}

/// What is written for an accepted statement, to which this is replied.
fn accepted_text(
    alloc: Global,
    dialect: Dialect,
    schema: &Schema,
    statement: &Statement,
    said: &[u8],
) -> Result<List<u8>, NoMemory>
    ensures { IfOk result (λ text. text ≡ accepted_text dialect schema.now statement.now said.now) }
{
    schema.keeps_its_rules();
    match statement {
        Statement::Insert { relation, row } => match schema.find_relation(relation.as_str()) {
            Some(r) => insert(alloc, dialect, schema, r, row),
            None => comment(alloc, said),
        },
        Statement::Delete { relation, row } => match schema.find_relation(relation.as_str()) {
            Some(r) => delete(alloc, dialect, schema, r, row),
            None => comment(alloc, said),
        },
        Statement::DeleteWhere { relation, cond } => {
            match schema.find_relation(relation.as_str()) {
                Some(r) => delete_where(alloc, dialect, schema, r, cond),
                None => comment(alloc, said),
            }
        }
        Statement::Print { relation } => match schema.find_relation(relation.as_str()) {
            Some(r) => print(alloc, dialect, schema, r),
            None => comment(alloc, said),
        },
        _ => comment(alloc, said),
    }
}

/// A statement that the session replies to.
fn replied<R: Threads + Sync, G: Gate>(
    rt: &R,
    alloc: Global,
    dialect: Dialect,
    session: &mut Session,
    text: &[u8],
    statement: &Statement,
    gate: &G,
) -> Result<Reply, NoMemory>
    ensures { IfOk result (λ reply. WritesReply dialect session.old text.now statement.now reply session.new) }
{
    let said = session.step(rt, text, None, 1, gate)?;
    let bytes = said.bytes.as_slice();
    if said.refused {
        return refused_line(alloc, bytes);
    }
    let schema = session.database().schema();
    Ok(accepted(accepted_text(alloc, dialect, schema, statement, bytes)?))
}

/// What is written for a statement: for a load of a known relation a comment.
fn written<R: Threads + Sync, G: Gate>(
    rt: &R,
    alloc: Global,
    dialect: Dialect,
    session: &mut Session,
    text: &[u8],
    statement: &Statement,
    gate: &G,
) -> Result<Reply, NoMemory>
    requires few { HasFew statement.now }
    ensures { IfOk result (λ reply. WritesStatement dialect session.old text.now statement.now reply session.new) }
{
    match statement {
        Statement::Retrieve(query) => {
            retrieve(rt, alloc, dialect, session.database(), query, gate)
        }
        Statement::Load { relation, file } => {
            let schema = session.database().schema();
            match schema.find_relation(relation.as_str()) {
                Some(r) => Ok(accepted(load(alloc, dialect, schema, r, file.as_str())?)),
                None => replied(rt, alloc, dialect, session, text, statement, gate),
            }
        }
        _ => replied(rt, alloc, dialect, session, text, statement, gate),
    }
}

/// What is written for an accepted definition, to which this is replied.
fn defined_text(
    alloc: Global,
    dialect: Dialect,
    before: usize,
    schema: &Schema,
    said: &[u8],
) -> Result<List<u8>, NoMemory>
    requires { before ≤ 64 }
    ensures { IfOk result (IsDefinedText dialect before schema.now said.now) }
{
    if before < schema.relations() {
        return create(alloc, dialect, schema, before as u8);
    }
    comment(alloc, said)
}

/// A definition, or a text that is no statement.
fn defined<R: Threads + Sync, G: Gate>(
    rt: &R,
    alloc: Global,
    dialect: Dialect,
    session: &mut Session,
    text: &[u8],
    gate: &G,
) -> Result<Reply, NoMemory>
    ensures { IfOk result (λ reply. WritesDefinition dialect session.old text.now reply session.new) }
{
    let schema = session.database().schema();
    schema.keeps_its_rules();
    let before = schema.relations();
    let said = session.step(rt, text, None, 1, gate)?;
    let bytes = said.bytes.as_slice();
    if said.refused {
        return refused_line(alloc, bytes);
    }
    let schema = session.database().schema();
    Ok(accepted(defined_text(alloc, dialect, before, schema, bytes)?))
}

/// One statement of a script: SQL or comments, and whether it is refused. A retrieve becomes the
/// selects of its kept terms and is not executed; a load becomes the engine's own command as a comment.
/// Any other statement is taken by the session, on the rows that it was handed itself: an accepted
/// insert, delete or `print` becomes SQL, a new relation a table, and all else its reply as a comment.
/// A dependency is checked among the rows that the session has, since no others are known here.
pub fn statement<R: Threads + Sync, G: Gate>(
    rt: &R,
    alloc: Global,
    dialect: Dialect,
    session: &mut Session,
    text: &[u8],
    gate: &G,
) -> Result<Reply, NoMemory>
    ensures { IfOk result (λ reply. Writes dialect session.old text.now reply session.new) }
{
    match read(alloc, text) {
        Ok(statement) => {
            let reply = written(rt, alloc, dialect, session, text, &statement, gate)?;
            Ok(reply)
        }
        Err(QueryFault::NoMemory) => Err(NoMemory),
        Err(_) => defined(rt, alloc, dialect, session, text, gate),
    }
}
