//! Sets of attributes: those with given names, and those that a variable is mentioned with.
ghost use Rattle.std.specs.Prelude.{◌≡◌, ◌⊎◌, ◌<◌, None, IfOk, IfErr, OnOk, All as Each};
ghost use Rattle.su_schema.specs.Entries.{attribute_names};
ghost use Rattle.su_query.specs.Scopes.{first_unknown_name};
ghost use Rattle.su_query.specs.Sets.{attributes_named, mentioned_with, IsNameRefusal};

use crate::faults::QueryFault;
use crate::resolving::Resolved;
use std::alloc::Global;
use su_base::{AttrSet, Str};
use su_schema::Schema;

/// The attributes with these names. A name may stand twice.
pub fn resolve_attributes(
    alloc: Global,
    schema: &Schema,
    names: &[Str],
) -> Result<AttrSet, QueryFault>
    ensures attributes { IfOk result (λ set. set ≡ attributes_named schema.now names.now) }
    ensures known { OnOk result (first_unknown_name (attribute_names schema.now) names.now ≡ None) }
    ensures refused { IfErr result (λ fault. (fault ≡ QueryFault.NoMemory) ⊎ IsNameRefusal schema.now names.now fault) }
{
    schema.keeps_its_rules();
    let mut set = AttrSet::empty();
    for name in names {
        let attribute = match schema.find_attribute(name.as_str()) {
            Some(a) => a,
            None => return Err(QueryFault::Unknown(name.copy(alloc)?)),
        };
        set = set.insert(attribute);
    }
    Ok(set)
}

/// The attributes that the query mentions with the variable of this number, in the outputs and
/// anywhere in the condition. None for a number past the variables.
pub fn mentioned(resolved: &Resolved, variable: u8) -> AttrSet
    requires { Each (λ p. p.attribute < 128) resolved.now.places }
    ensures { result ≡ mentioned_with resolved.now.places variable }
{
    let mut set = AttrSet::empty();
    for place in resolved.places.as_slice() {
        if place.variable == variable {
            set = set.insert(place.attribute);
        }
    }
    set
}
