//! Lines about pairs of attributes.
ghost use Rattle.std.specs.Prelude.{◌≡◌, ◌++◌, flat_map, OnOk};
ghost use Rattle.su_report.specs.PairLines.{uncovered_line, covered_line};

use crate::parts::attribute_name;
use std::alloc::Global;
use su_base::NoMemory;
use su_base::parts::push;
use su_lex::push_numbers;
use su_schema::Schema;

fn push_uncovered(out: &mut Vec<u8>, schema: &Schema, a: u8, b: u8) -> Result<(), NoMemory>
    ensures { OnOk result (out.new.items ≡ out.old.items ++ uncovered_line schema.now a b) }
{
    push(out, "note ")?;
    push(out, attribute_name(schema, a))?;
    push(out, " and ")?;
    push(out, attribute_name(schema, b))?;
    push(out, " are in no maximal object\n")
}

/// The attributes that no maximal object has together with the attribute.
pub(crate) fn push_all_uncovered(
    out: &mut Vec<u8>,
    schema: &Schema,
    a: u8,
    found: &[u8],
) -> Result<(), NoMemory>
    ensures { OnOk result (out.new.items ≡ out.old.items ++ flat_map (uncovered_line schema.now a) found.now) }
{
    for b in found {
        push_uncovered(out, schema, a, *b)?;
    }
    Ok(())
}

/// The maximal objects that have both attributes, where they are several.
pub(crate) fn push_covered(
    alloc: Global,
    out: &mut Vec<u8>,
    schema: &Schema,
    a: u8,
    b: u8,
    covers: &[u8],
) -> Result<(), NoMemory>
    ensures { OnOk result (out.new.items ≡ out.old.items ++ covered_line schema.now a b covers.now) }
{
    if covers.len() < 2 {
        return Ok(());
    }
    push(out, "note ")?;
    push(out, attribute_name(schema, a))?;
    push(out, " and ")?;
    push(out, attribute_name(schema, b))?;
    push(out, " are in maximal objects")?;
    push_numbers(alloc, out, covers)?;
    push(out, "\n")
}
