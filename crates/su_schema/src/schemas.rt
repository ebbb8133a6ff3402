//! The schema itself.
ghost use Rattle.std.specs.Prelude.{◌≡◌, [], length};

use crate::links::Object;
use indexmap::IndexMap;
use std::alloc::Global;
use std::marker::Model;
use su_base::{Column, Kind, List, ObjSet};
use su_fd::Fd;

/// Attributes, relations, objects, dependencies and declared maximal objects.
pub struct Schema {
    pub(crate) alloc: Global,
    pub(crate) attributes: IndexMap<String, Kind>,
    pub(crate) relations: IndexMap<String, List<Column>>,
    pub(crate) objects: IndexMap<String, Object>,
    pub(crate) fds: List<Fd>,
    pub(crate) declared: List<ObjSet>,
}

/// Not derived, so that it is a single call wherever a schema goes out of scope above.
impl Drop for Schema {
    fn drop(self) {
        let Schema {
            alloc: _,
            attributes: _,
            relations: _,
            objects: _,
            fds: _,
            declared: _,
        } = self;
    }
}

impl Model for Schema {
    ghost use Rattle.su_schema.specs.SchemaValue.{SchemaValue};
    ghost use Rattle.su_schema.specs.Valid.{IsValid};

    ghost Value = { SchemaValue };

    ghost use Rattle.std.specs.Coded.{codes, coded_ℕ};
    ghost use Rattle.std.specs.Ordering.{nat_cmp};
    ghost use Rattle.std.specs.FinSet as set;
    ghost use Rattle.su_base.specs.contracts.attr_sets.AttrSet as attr_set;

    ghost coded = { Prim.hlevel (codes, attr_set.the_row.coded, set.code {R = nat_cmp} coded_ℕ) };

    ghost use Rattle.su_schema.specs.Maps.{shown};
    ghost use Rattle.su_schema.specs.inside.Kept.{KeepsItsRules};

    ghost view = { shown };

    ghost invariant = { KeepsItsRules };
}

impl Schema {
    /// A schema without definitions. It takes no memory yet.
    pub fn new(alloc: Global) -> Schema
        ensures { result ≡ record { attributes = []; relations = []; objects = []; fds = []; declared = [] } }
    {
        Schema {
            alloc,
            attributes: IndexMap::new(alloc),
            relations: IndexMap::new(alloc),
            objects: IndexMap::new(alloc),
            fds: List::new(alloc),
            declared: List::new(alloc),
        }
    }
}
