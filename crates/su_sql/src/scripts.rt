//! A script as SQL.
ghost use Rattle.std.specs.Prelude.{◌≡◌, ◌++◌, IfOk, OnOk};
ghost use Rattle.su_sql.specs.Changes.{create_text};
ghost use Rattle.su_sql.specs.inside.AddedStatements.{IsAdded};
ghost use Rattle.su_sql.specs.Scripts.{tables_text, WritesScript};

use crate::changes::create;
use crate::dialects::Dialect;
use crate::statements::statement;
use std::alloc::Global;
use std::thread::Threads;
use su_base::{List, NoMemory};
use su_lex::cut;
use su_par::Gate;
use su_schema::Schema;
use su_session::{Reply, Session};

fn push_table(
    alloc: Global,
    out: &mut Vec<u8>,
    dialect: Dialect,
    schema: &Schema,
    relation: u8,
) -> Result<(), NoMemory>
    ensures { OnOk result (out.new.items ≡ out.old.items ++ create_text dialect schema.now relation) }
{
    let table = create(alloc, dialect, schema, relation)?;
    out.extend_from_slice(table.as_slice())?;
    Ok(())
}

/// The tables of the schema's relations.
fn tables(alloc: Global, dialect: Dialect, schema: &Schema) -> Result<Vec<u8>, NoMemory>
    ensures { IfOk result (λ text. text.items ≡ tables_text dialect schema.now) }
{
    schema.keeps_its_rules();
    let mut out = Vec::new(alloc);
    for relation in 0..schema.relations() as u8 {
        push_table(alloc, &mut out, dialect, schema, relation)?;
    }
    Ok(out)
}

/// Adds what is written for a statement; whether it is refused.
fn push_statement<R: Threads + Sync, G: Gate>(
    rt: &R,
    alloc: Global,
    out: &mut Vec<u8>,
    dialect: Dialect,
    session: &mut Session,
    text: &[u8],
    gate: &G,
) -> Result<bool, NoMemory>
    ensures { IfOk result (IsAdded dialect session.old text.now session.new out.old.items out.new.items) }
{
    let reply = statement(rt, alloc, dialect, session, text, gate)?;
    out.extend_from_slice(reply.bytes.as_slice())?;
    Ok(reply.refused)
}

/// A table for each relation of the schema, and then what `statement` writes for each statement of the
/// script, in order; refused where some statement is. The whole text is made before it is handed out.
pub fn script<R: Threads + Sync, G: Gate>(
    rt: &R,
    alloc: Global,
    dialect: Dialect,
    schema: Schema,
    script: &[u8],
    gate: &G,
) -> Result<Reply, NoMemory>
    ensures { IfOk result (WritesScript dialect schema script.now) }
{
    let mut out = tables(alloc, dialect, &schema)?;
    let mut session = Session::open(alloc, schema)?;
    let spans = cut(alloc, script)?;
    let mut refused = false;
    for span in spans.as_slice() {
        let text = &script[span.start..span.end];
        refused |= push_statement(rt, alloc, &mut out, dialect, &mut session, text, gate)?;
    }
    Ok(Reply {
        refused,
        bytes: List::from_vec(out),
    })
}
