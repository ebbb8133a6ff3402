//! What is no statement of SQL, as comments.
ghost use Rattle.std.specs.Prelude.{◌≡◌, ◌++◌, ◌∷◌, [], OnOk, IfOk};
ghost use Rattle.su_sql.specs.Comments.{ends_line, comment_sign, comment_text, load_command, load_text};

use crate::columns::push_relation;
use crate::dialects::Dialect;
use crate::words::push_literal;
use std::alloc::Global;
use su_base::parts::push;
use su_base::{List, NoMemory};
use su_schema::Schema;

/// Engines end a comment at either byte.
fn ends_line(byte: u8) -> bool
    ensures { result ≡ ends_line byte }
{
    byte == b'\n' || byte == b'\r'
}

fn push_byte(out: &mut Vec<u8>, begins: bool, byte: u8) -> Result<(), NoMemory>
    ensures { OnOk result (out.new.items ≡ out.old.items ++ comment_sign begins ++ byte ∷ []) }
{
    if begins {
        push(out, "-- ")?;
    }
    out.extend_from_slice(&[byte])?;
    Ok(())
}

/// Each line of the text as a comment.
pub(crate) fn comment(alloc: Global, text: &[u8]) -> Result<List<u8>, NoMemory>
    ensures { IfOk result (λ comment. comment ≡ comment_text text.now) }
{
    let mut out = Vec::new(alloc);
    let mut begins = true;
    for byte in text {
        push_byte(&mut out, begins, *byte)?;
        begins = ends_line(*byte);
    }
    Ok(List::from_vec(out))
}

fn push_copy(out: &mut Vec<u8>, schema: &Schema, relation: u8, path: &str) -> Result<(), NoMemory>
    ensures { OnOk result (out.new.items ≡ out.old.items ++ load_command Dialect.Postgres schema.now relation path.now) }
{
    push(out, "\\copy ")?;
    push_relation(out, Dialect::Postgres, schema, relation)?;
    push(out, " from ")?;
    push_literal(out, Dialect::Postgres, path)?;
    push(out, " with (format csv, header)\n")
}

fn push_import(out: &mut Vec<u8>, schema: &Schema, relation: u8, path: &str) -> Result<(), NoMemory>
    ensures { OnOk result (out.new.items ≡ out.old.items ++ load_command Dialect.Sqlite schema.now relation path.now) }
{
    push(out, ".import --csv --skip 1 ")?;
    push_literal(out, Dialect::Sqlite, path)?;
    push(out, " ")?;
    push_relation(out, Dialect::Sqlite, schema, relation)?;
    push(out, "\n")
}

const VIEW: &str =
    "create or replace temporary view loaded using csv options (header 'true', path ";

fn push_view(out: &mut Vec<u8>, schema: &Schema, relation: u8, path: &str) -> Result<(), NoMemory>
    ensures { OnOk result (out.new.items ≡ out.old.items ++ load_command Dialect.Spark schema.now relation path.now) }
{
    push(out, VIEW)?;
    push_literal(out, Dialect::Spark, path)?;
    push(out, "); insert into ")?;
    push_relation(out, Dialect::Spark, schema, relation)?;
    push(out, " select * from loaded;\n")
}

fn push_load(
    out: &mut Vec<u8>,
    dialect: Dialect,
    schema: &Schema,
    relation: u8,
    path: &str,
) -> Result<(), NoMemory>
    ensures { OnOk result (out.new.items ≡ out.old.items ++ load_command dialect schema.now relation path.now) }
{
    match dialect {
        Dialect::Postgres => push_copy(out, schema, relation, path),
        Dialect::Sqlite => push_import(out, schema, relation, path),
        Dialect::Spark => push_view(out, schema, relation, path),
    }
}

/// The engine's own command that loads a file, as a comment.
pub(crate) fn load(
    alloc: Global,
    dialect: Dialect,
    schema: &Schema,
    relation: u8,
    path: &str,
) -> Result<List<u8>, NoMemory>
    ensures { IfOk result (λ text. text ≡ load_text dialect schema.now relation path.now) }
{
    let mut command = Vec::new(alloc);
    push_load(&mut command, dialect, schema, relation, path)?;
    comment(alloc, command.as_slice())
}
