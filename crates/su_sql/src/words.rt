//! Names, values, kinds and operators as SQL.
ghost use Rattle.std.specs.Prelude.{◌≡◌, ◌++◌, OnOk};
ghost use Rattle.su_sql.specs.Names.{quote_of, name_text};
ghost use Rattle.su_sql.specs.Texts.{byte_text, literal_text, value_text, kind_text, collation, operator_text};

use crate::dialects::Dialect;
use std::alloc::Global;
use su_base::parts::push;
use su_base::{Kind, NoMemory, Value};
use su_where::Op;

fn quote(dialect: Dialect) -> &'static str
    ensures { result.now ≡ quote_of dialect }
{
    match dialect {
        Dialect::Postgres | Dialect::Sqlite => "\"",
        Dialect::Spark => "`",
    }
}

pub(crate) fn push_name(out: &mut Vec<u8>, dialect: Dialect, name: &str) -> Result<(), NoMemory>
    ensures { OnOk result (out.new.items ≡ out.old.items ++ name_text dialect name.now) }
{
    push(out, quote(dialect))?;
    push(out, name)?;
    push(out, quote(dialect))
}

/// A byte of a text in quotes.
fn push_byte(out: &mut Vec<u8>, dialect: Dialect, byte: u8) -> Result<(), NoMemory>
    ensures { OnOk result (out.new.items ≡ out.old.items ++ byte_text dialect byte) }
{
    match dialect {
        Dialect::Spark => {
            if byte == b'\'' || byte == b'\\' {
                out.extend_from_slice(b"\\")?;
            }
        }
        Dialect::Postgres | Dialect::Sqlite => {
            if byte == b'\'' {
                out.extend_from_slice(b"'")?;
            }
        }
    }
    out.extend_from_slice(&[byte])?;
    Ok(())
}

pub(crate) fn push_literal(out: &mut Vec<u8>, dialect: Dialect, text: &str) -> Result<(), NoMemory>
    ensures { OnOk result (out.new.items ≡ out.old.items ++ literal_text dialect text.now) }
{
    push(out, "'")?;
    for byte in text.as_bytes() {
        push_byte(out, dialect, *byte)?;
    }
    push(out, "'")
}

pub(crate) fn push_value(
    alloc: Global,
    out: &mut Vec<u8>,
    dialect: Dialect,
    value: &Value,
) -> Result<(), NoMemory>
    ensures { OnOk result (out.new.items ≡ out.old.items ++ value_text dialect value.now) }
{
    match value {
        Value::Int(number) => {
            let digits = number.to_string(alloc)?;
            push(out, digits.as_str())
        }
        Value::Text(text) => push_literal(out, dialect, text.as_str()),
    }
}

pub(crate) fn collation(dialect: Dialect, kind: Kind) -> &'static str
    ensures { result.now ≡ collation dialect kind }
{
    match (dialect, kind) {
        (Dialect::Postgres, Kind::Text) => " collate \"C\"",
        (Dialect::Sqlite, Kind::Text) => " collate binary",
        _ => "",
    }
}

pub(crate) fn kind_name(dialect: Dialect, kind: Kind) -> &'static str
    ensures { result.now ≡ kind_text dialect kind }
{
    match (dialect, kind) {
        (_, Kind::Int) => "bigint",
        (Dialect::Postgres, Kind::Text) => "text collate \"C\"",
        (Dialect::Sqlite, Kind::Text) => "text collate binary",
        (Dialect::Spark, Kind::Text) => "string",
    }
}

pub(crate) fn operator(op: Op) -> &'static str
    ensures { result.now ≡ operator_text op }
{
    match op {
        Op::Equal => " = ",
        Op::NotEqual => " <> ",
        Op::Less => " < ",
        Op::LessEqual => " <= ",
        Op::Greater => " > ",
        Op::GreaterEqual => " >= ",
    }
}
