//! The line for a schema that is refused.
ghost use Rattle.std.specs.Prelude.{◌≡◌, ◌++◌, IsSomeAnd, IfOk, OnOk, codes, decimal};
ghost use Rattle.su_show.specs.Refusals.{limit_text, cause_text, IsLineFor};

use crate::parts::push_all;
use std::alloc::Global;
use su_base::parts::{push, push_number};
use su_base::{List, NoMemory};
use su_ddl::DdlFault;
use su_schema::{SchemaFault, SchemaLimit};

fn limit(limit: SchemaLimit) -> &'static str
    ensures { result.now ≡ limit_text limit }
{
    match limit {
        SchemaLimit::Attributes => "attributes 128",
        SchemaLimit::Relations => "relations 64",
        SchemaLimit::Columns => "columns 32",
        SchemaLimit::Objects => "objects 64",
        SchemaLimit::Fds => "fds 256",
        SchemaLimit::Maximal => "maximal 64",
    }
}

/// Why a definition is refused, as a refused schema and a refused definition of a script tell it.
pub(crate) fn push_cause(out: &mut Vec<u8>, fault: &SchemaFault) -> Result<(), NoMemory>
    ensures { OnOk result (IsSomeAnd (cause_text fault.now) (λ text. out.new.items ≡ out.old.items ++ text)) }
{
    match fault {
        SchemaFault::Twice(name) => push_all(out, &["twice ", name.as_str()]),
        SchemaFault::Unknown(name) => push_all(out, &["unknown ", name.as_str()]),
        SchemaFault::KindDiffers { attribute, column } => {
            let (attribute, column) = (attribute.as_str(), column.as_str());
            push_all(out, &["kinds of ", attribute, " and ", column, " differ"])
        }
        SchemaFault::Limit(which) => push_all(out, &["limit ", limit(*which)]),
        SchemaFault::NoMemory => Err(NoMemory),
    }
}

fn push_number_of_statement(alloc: Global, out: &mut Vec<u8>, number: u32) -> Result<(), NoMemory>
    ensures { OnOk result (out.new.items ≡ out.old.items ++ codes "schema refused: statement " ++ decimal number ++ codes ": ") }
{
    push(out, "schema refused: statement ")?;
    push_number(alloc, out, u64::from(number))?;
    push(out, ": ")
}

/// The line for a refused schema file, with its line feed. A fault that is want of memory is handed on.
pub fn ddl_fault(alloc: Global, fault: &DdlFault) -> Result<List<u8>, NoMemory>
    ensures { IfOk result (λ line. IsLineFor fault.now line) }
{
    let mut out = Vec::new(alloc);
    match fault {
        DdlFault::Syntax(number) => {
            push_number_of_statement(alloc, &mut out, *number)?;
            push(&mut out, "syntax\n")?;
        }
        DdlFault::Refused(number, fault) => {
            push_number_of_statement(alloc, &mut out, *number)?;
            push_cause(&mut out, fault)?;
            push(&mut out, "\n")?;
        }
        DdlFault::NoMemory => return Err(NoMemory),
    }
    Ok(List::from_vec(out))
}
