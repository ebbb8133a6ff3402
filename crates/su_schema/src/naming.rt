//! Names as numbers, each checked in its turn.
ghost use Rattle.std.specs.Prelude.{◌≡◌, [], IfOk, IfErr, OnOk};
ghost use Rattle.su_schema.specs.Entries.{attribute_names, object_names, place_of};
ghost use Rattle.su_schema.specs.NameChecks.{first_failing, name_checks};
ghost use Rattle.su_schema.specs.Definitions.{numbers_of};
ghost use Rattle.su_schema.specs.inside.Refusals.{IsRefusalBy};

use crate::faults::SchemaFault;
use crate::schemas::Schema;
use su_base::{AttrSet, ObjSet, Str};

impl Schema {
    /// The number of the object with this name.
    pub(crate) fn find_object(&self, name: &str) -> Option<u8>
        ensures { result ≡ place_of (object_names self.now) name.now }
    {
        match self.objects.get_index_of(name) {
            Some(o) => Some(o as u8),
            None => None,
        }
    }

    /// The attributes with these names.
    pub(crate) fn attributes_named(&self, names: &[Str]) -> Result<AttrSet, SchemaFault>
        ensures passed { OnOk result (first_failing (name_checks (attribute_names self.now) [] names.now) ≡ None) }
        ensures numbers { IfOk result (λ set. set ≡ numbers_of (attribute_names self.now) names.now) }
        ensures refused { IfErr result (IsRefusalBy (name_checks (attribute_names self.now) [] names.now)) }
    {
        let mut set = AttrSet::empty();
        for name in names {
            let a = match self.find_attribute(name.as_str()) {
                Some(a) => a,
                None => return Err(SchemaFault::Unknown(name.copy(self.alloc)?)),
            };
            if set.contains(a) {
                return Err(SchemaFault::Twice(name.copy(self.alloc)?));
            }
            set = set.insert(a);
        }
        Ok(set)
    }

    /// The objects with these names.
    pub(crate) fn objects_named(&self, names: &[Str]) -> Result<ObjSet, SchemaFault>
        ensures passed { OnOk result (first_failing (name_checks (object_names self.now) [] names.now) ≡ None) }
        ensures numbers { IfOk result (λ set. set ≡ numbers_of (object_names self.now) names.now) }
        ensures refused { IfErr result (IsRefusalBy (name_checks (object_names self.now) [] names.now)) }
    {
        let mut set = ObjSet::empty();
        for name in names {
            let o = match self.find_object(name.as_str()) {
                Some(o) => o,
                None => return Err(SchemaFault::Unknown(name.copy(self.alloc)?)),
            };
            if set.contains(o) {
                return Err(SchemaFault::Twice(name.copy(self.alloc)?));
            }
            set = set.insert(o);
        }
        Ok(set)
    }
}
