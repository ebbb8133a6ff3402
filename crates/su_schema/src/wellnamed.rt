//! Whether the texts of a definition are names.
ghost use Rattle.std.specs.Prelude.{◌↔◌, IsTrue, map};
ghost use Rattle.su_schema.specs.Entries.{column_names};
ghost use Rattle.su_base.specs.Name.{AreNames};
ghost use Rattle.su_schema.specs.WellNamed.{IsWellNamed};

use crate::definitions::{Definition, Pair};
use su_base::{Column, Str, is_name};

fn are_names(names: &[Str]) -> bool
    ensures { IsTrue result ↔ AreNames names.now }
{
    !names.is_empty() && names.iter().all(|n| is_name(n.as_str()))
}

fn have_names(columns: &[Column]) -> bool
    ensures { IsTrue result ↔ AreNames (column_names columns.now) }
{
    !columns.is_empty() && columns.iter().all(|c| is_name(c.name.as_str()))
}

fn name_attributes(pairs: &[Pair]) -> bool
    ensures { IsTrue result ↔ AreNames (map (λ p. p.attribute) pairs.now) }
{
    !pairs.is_empty() && pairs.iter().all(|p| is_name(p.attribute.as_str()))
}

fn name_columns(pairs: &[Pair]) -> bool
    ensures { IsTrue result ↔ AreNames (map (λ p. p.column) pairs.now) }
{
    !pairs.is_empty() && pairs.iter().all(|p| is_name(p.column.as_str()))
}

impl Definition {
    /// Whether its texts are names and its lists are not empty, as each call that adds a
    /// definition asks. A definition that was read from a text is.
    pub fn is_well_named(&self) -> bool
        ensures { IsTrue result ↔ IsWellNamed self.now }
    {
        match self {
            Definition::Attribute { name, .. } => is_name(name.as_str()),
            Definition::Relation { name, columns } => {
                is_name(name.as_str()) && have_names(columns.as_slice())
            }
            Definition::Object {
                name,
                relation,
                pairs,
            } => {
                is_name(name.as_str())
                    && is_name(relation.as_str())
                    && name_attributes(pairs.as_slice())
                    && name_columns(pairs.as_slice())
            }
            Definition::Fd { left, right } => {
                are_names(left.as_slice()) && are_names(right.as_slice())
            }
            Definition::Maximal { objects } => are_names(objects.as_slice()),
        }
    }
}
