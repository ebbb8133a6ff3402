//! What to do about a finding, as a definition.
ghost use Rattle.std.specs.Prelude.{◌≡◌, ◌++◌, ◌∷◌, [], IfOk, OnOk, map};
ghost use Rattle.su_schema.specs.Entries.{column_names};
ghost use Rattle.su_report.specs.Advice.{unnamed as no_name, object_of as object_with, object_over as object_standing, joined as joined_with, advice};

use std::alloc::Global;
use su_base::parts::push;
use su_base::{Column, List, NoMemory, Str};
use su_ddl::push_line;
use su_schema::{Definition, Pair};

/// Stands where a name is to be chosen.
fn unnamed(alloc: Global) -> Result<Str, NoMemory>
    ensures { IfOk result (λ name. name ≡ no_name) }
{
    Str::new(alloc, "NAME")
}

/// A pair of the attribute and a column to be chosen, for each.
fn pairs_of(alloc: Global, attributes: &[Str]) -> Result<List<Pair>, NoMemory>
    ensures { IfOk result (λ pairs. pairs ≡ map (λ name. record { attribute = name; column = no_name }) attributes.now) }
{
    let mut pairs = List::new(alloc);
    for attribute in attributes {
        let attribute = attribute.copy(alloc)?;
        let column = unnamed(alloc)?;
        pairs.push(Pair { attribute, column })?;
    }
    Ok(pairs)
}

/// An object with these attributes.
pub(crate) fn object_of(alloc: Global, attributes: &[Str]) -> Result<Definition, NoMemory>
    ensures { IfOk result (λ d. d ≡ object_with attributes.now) }
{
    let name = unnamed(alloc)?;
    let relation = unnamed(alloc)?;
    let pairs = pairs_of(alloc, attributes)?;
    Ok(Definition::Object {
        name,
        relation,
        pairs,
    })
}

/// A pair of an attribute to be chosen and the column.
fn pair_from(alloc: Global, column: &str) -> Result<Pair, NoMemory>
    ensures { IfOk result (λ pair. pair ≡ record { attribute = no_name; column = column.now }) }
{
    let attribute = unnamed(alloc)?;
    let column = Str::new(alloc, column)?;
    Ok(Pair { attribute, column })
}

/// An object over the relation with all these columns.
pub(crate) fn object_over(
    alloc: Global,
    relation: &str,
    columns: &[Column],
) -> Result<Definition, NoMemory>
    ensures { IfOk result (λ d. d ≡ object_standing relation.now (column_names columns.now)) }
{
    let name = unnamed(alloc)?;
    let relation = Str::new(alloc, relation)?;
    let mut pairs = List::new(alloc);
    for column in columns {
        pairs.push(pair_from(alloc, column.name.as_str())?)?;
    }
    Ok(Definition::Object {
        name,
        relation,
        pairs,
    })
}

/// An object over the relation with one column.
pub(crate) fn object_over_one(
    alloc: Global,
    relation: &str,
    column: &str,
) -> Result<Definition, NoMemory>
    ensures { IfOk result (λ d. d ≡ object_standing relation.now (column.now ∷ [])) }
{
    let name = unnamed(alloc)?;
    let relation = Str::new(alloc, relation)?;
    let mut pairs = List::new(alloc);
    pairs.push(pair_from(alloc, column)?)?;
    Ok(Definition::Object {
        name,
        relation,
        pairs,
    })
}

/// A maximal object of the object and others.
pub(crate) fn joined(alloc: Global, object: &str) -> Result<Definition, NoMemory>
    ensures { IfOk result (λ d. d ≡ joined_with object.now) }
{
    let mut objects = List::new(alloc);
    objects.push(Str::new(alloc, object)?)?;
    objects.push(unnamed(alloc)?)?;
    Ok(Definition::Maximal { objects })
}

/// The line of the definition, behind two spaces.
pub(crate) fn push_advice(
    alloc: Global,
    out: &mut Vec<u8>,
    definition: &Definition,
) -> Result<(), NoMemory>
    ensures { OnOk result (out.new.items ≡ out.old.items ++ advice definition.now) }
{
    push(out, "  ")?;
    push_line(alloc, out, definition)
}
