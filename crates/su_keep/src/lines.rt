//! The line that says why a file is not opened.
ghost use Rattle.std.specs.Prelude.{◌≡◌, ◌++◌, codes, IfOk, OnOk, string_bytes};
ghost use Rattle.su_keep.specs.Lines.{words_of, why_words, row_words, names_text};

use crate::faults::{OpenFault, RowFault};
use std::alloc::{AllocError, Global};
use su_base::{Kind, List, Str};

/// The names, with a space before each.
fn push_names(out: &mut String, names: &List<Str>) -> Result<(), AllocError>
    ensures { OnOk result (string_bytes out.new ≡ string_bytes out.old ++ names_text names.now) }
{
    for name in names.as_slice() {
        out.push_str(" ")?;
        out.push_str(name.as_str())?;
    }
    Ok(())
}

/// The row whose dependency is broken, the dependency and its object.
fn breaking(
    alloc: Global,
    left: &List<Str>,
    right: &List<Str>,
    object: &Str,
    other: u64,
) -> Result<String, AllocError>
    ensures { IfOk result (λ it. string_bytes it ≡ why_words (RowFault.Breaks left.now right.now object.now other)) }
{
    let mut out = format!(in alloc; "with row {other} breaks")?;
    push_names(&mut out, left)?;
    out.push_str(" ->")?;
    push_names(&mut out, right)?;
    out.push_str(" through ")?;
    out.push_str(object.as_str())?;
    Ok(out)
}

/// What is wrong with the row.
fn why_of(alloc: Global, why: &RowFault) -> Result<String, AllocError>
    ensures { IfOk result (λ it. string_bytes it ≡ why_words why.now) }
{
    match why {
        RowFault::Width(given) => format!(in alloc; "{given} values"),
        RowFault::Kind { column, wanted } => {
            let column = column.as_str();
            match wanted {
                Kind::Int => format!(in alloc; "no number in {column}"),
                Kind::Text => format!(in alloc; "no text in {column}"),
            }
        }
        RowFault::Breaks {
            left,
            right,
            object,
            other,
        } => breaking(alloc, left, right, object, *other),
    }
}

/// The relation and the row's number, and what is wrong with the row.
fn row_line(alloc: Global, relation: &Str, number: u64, why: &str) -> Result<String, AllocError>
    ensures { IfOk result (λ line. string_bytes line ≡ row_words relation.now number why.now) }
{
    let mut line = String::from_str(alloc, "relation ")?;
    line.push_str(relation.as_str())?;
    line.push_str(", row ")?;
    line.push_str(number.to_string(alloc)?.as_str())?;
    line.push_str(": ")?;
    line.push_str(why)?;
    Ok(line)
}

/// The words that say why, without the file's name.
pub fn line_of(alloc: Global, fault: &OpenFault) -> Result<String, AllocError>
    ensures { IfOk result (λ line. string_bytes line ≡ words_of fault.now) }
{
    match fault {
        OpenFault::NoMemory => String::from_str(alloc, "out of memory"),
        OpenFault::InUse => String::from_str(alloc, "in use by another process"),
        OpenFault::Journal => String::from_str(alloc, "has a journal: open it with sqlite3 first"),
        OpenFault::Io => String::from_str(alloc, "can't be read or made"),
        OpenFault::Full => String::from_str(alloc, "has no room"),
        OpenFault::NotADatabase => String::from_str(alloc, "not such a database, or damaged"),
        OpenFault::Version(version) => format!(in alloc; "user version {version}, not 1"),
        OpenFault::Foreign(name) => {
            let name = name.as_str();
            format!(in alloc; "{name} is not of the schema")
        }
        OpenFault::Missing(name) => {
            let name = name.as_str();
            format!(in alloc; "no table for the relation {name}")
        }
        OpenFault::NoSchema => String::from_str(alloc, "no text of a schema"),
        OpenFault::Schema(_) => String::from_str(alloc, "the text of the schema is refused"),
        OpenFault::NoRow { relation, number } => {
            row_line(
                alloc,
                relation,
                *number,
                "neither numbers nor texts of UTF-8",
            )
        }
        OpenFault::TooMany { relation } => {
            let relation = relation.as_str();
            format!(in alloc; "relation {relation}: more than 1000000 rows")
        }
        OpenFault::Refused {
            relation,
            number,
            why,
        } => row_line(alloc, relation, *number, why_of(alloc, why)?.as_str()),
    }
}
