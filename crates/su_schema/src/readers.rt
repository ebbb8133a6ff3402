//! What a schema answers. No reader takes memory.
ghost use Rattle.std.specs.Prelude.{◌≡◌, ◌<◌, ◌≤◌, ◌==◌, [], position, length, map, slice_get, slice_index_or};
ghost use Rattle.std.specs.Cmp.Lexicographic.{pointwise};
ghost use Rattle.su_schema.specs.Valid.{IsValid};
ghost use Rattle.su_schema.specs.Entries.{attribute_names, attribute_kinds, relation_names, relation_columns, column_names, object_names, attributes_of, column_of, place_of};
ghost use Rattle.su_schema.specs.Known.{columns_at};

use crate::schemas::Schema;
use su_base::{AttrSet, Column, Kind, ObjSet};
use su_fd::Fd;

/// The place of the column with this name.
pub(crate) fn place_among(columns: &[Column], name: &str) -> Option<usize>
    ensures { result ≡ position (λ c. pointwise ◌==◌ name.now c.name) columns.now }
{
    columns.iter().position(|c| name == c.name.as_str())
}

impl Schema {
    /// For proofs: the schema is valid. It does nothing.
    pub fn keeps_its_rules(&self)
        ensures { IsValid self.now }
    {
        let _ = &self.attributes;
    }

    /// How many attributes there are.
    pub fn attributes(&self) -> usize
        ensures { result ≡ length self.now.attributes }
    {
        self.attributes.len()
    }

    /// The name of the attribute with this number.
    pub fn attribute_name(&self, a: u8) -> &str
        requires { a < length self.now.attributes }
        ensures { slice_get (attribute_names self.now) a ≡ Some result.now }
    {
        match self.attributes.get_index(a as usize) {
            Some((name, _)) => name.as_str(),
            None => unreachable!(),
        }
    }

    /// The kind of the attribute with this number.
    pub fn attribute_kind(&self, a: u8) -> Kind
        requires { a < length self.now.attributes }
        ensures { slice_get (attribute_kinds self.now) a ≡ Some result }
    {
        match self.attributes.get_index(a as usize) {
            Some((_, kind)) => *kind,
            None => unreachable!(),
        }
    }

    /// The number of the attribute with this name.
    pub fn find_attribute(&self, name: &str) -> Option<u8>
        ensures { result ≡ place_of (attribute_names self.now) name.now }
    {
        match self.attributes.get_index_of(name) {
            Some(a) => Some(a as u8),
            None => None,
        }
    }

    /// How many relations there are.
    pub fn relations(&self) -> usize
        ensures { result ≡ length self.now.relations }
    {
        self.relations.len()
    }

    /// The name of the relation with this number.
    pub fn relation_name(&self, r: u8) -> &str
        requires { r < length self.now.relations }
        ensures { slice_get (relation_names self.now) r ≡ Some result.now }
    {
        match self.relations.get_index(r as usize) {
            Some((name, _)) => name.as_str(),
            None => unreachable!(),
        }
    }

    /// The columns of the relation with this number, at most 32.
    pub fn columns(&self, r: u8) -> &[Column]
        requires { r < length self.now.relations }
        ensures at { slice_get (relation_columns self.now) r ≡ Some result.now }
        ensures few { length result.now ≤ 32 }
    {
        match self.relations.get_index(r as usize) {
            Some((_, columns)) => columns.as_slice(),
            None => unreachable!(),
        }
    }

    /// The columns of the relation with this number; none where there is no such relation.
    pub fn columns_at(&self, r: u8) -> &[Column]
        ensures { result.now ≡ columns_at self.now r }
    {
        if r as usize >= self.relations() {
            return &[];
        }
        self.columns(r)
    }

    /// The name of a column of the relation with this number; nothing where there is no such column.
    pub fn column_name(&self, r: u8, c: usize) -> &str
        ensures { result.now ≡ slice_index_or (column_names (columns_at self.now r)) c [] }
    {
        match self.columns_at(r).get(c) {
            Some(column) => column.name.as_str(),
            None => "",
        }
    }

    /// The number of the relation with this name.
    pub fn find_relation(&self, name: &str) -> Option<u8>
        ensures { result ≡ place_of (relation_names self.now) name.now }
    {
        match self.relations.get_index_of(name) {
            Some(r) => Some(r as u8),
            None => None,
        }
    }

    /// The number of the column with this name in the relation with this number.
    pub fn find_column(&self, r: u8, name: &str) -> Option<u8>
        requires { r < length self.now.relations }
        ensures { slice_get (map (λ columns. place_of (column_names columns) name.now) (relation_columns self.now)) r ≡ Some result }
    {
        match place_among(self.columns(r), name) {
            Some(c) => Some(c as u8),
            None => None,
        }
    }

    /// How many objects there are.
    pub fn objects(&self) -> usize
        ensures { result ≡ length self.now.objects }
    {
        self.objects.len()
    }

    /// The name of the object with this number.
    pub fn object_name(&self, o: u8) -> &str
        requires { o < length self.now.objects }
        ensures { slice_get (object_names self.now) o ≡ Some result.now }
    {
        match self.objects.get_index(o as usize) {
            Some((name, _)) => name.as_str(),
            None => unreachable!(),
        }
    }

    /// The attributes of the object with this number.
    pub fn object_attributes(&self, o: u8) -> AttrSet
        requires { o < length self.now.objects }
        ensures { slice_get (map attributes_of self.now.objects) o ≡ Some result }
    {
        match self.objects.get_index(o as usize) {
            Some((_, object)) => object.attributes,
            None => unreachable!(),
        }
    }

    /// The relation of the object with this number.
    pub fn object_relation(&self, o: u8) -> u8
        requires { o < length self.now.objects }
        ensures { slice_get (map (λ object. object.relation) self.now.objects) o ≡ Some result }
    {
        match self.objects.get_index(o as usize) {
            Some((_, object)) => object.relation,
            None => unreachable!(),
        }
    }

    /// The column from which the object with this number takes an attribute; none where the
    /// attribute is not the object's.
    pub fn object_column(&self, o: u8, a: u8) -> Option<u8>
        requires { o < length self.now.objects }
        ensures { slice_get (map (λ object. column_of object a) self.now.objects) o ≡ Some result }
    {
        match self.objects.get_index(o as usize) {
            Some((_, object)) => object.column(a),
            None => unreachable!(),
        }
    }

    /// The dependencies.
    pub fn fds(&self) -> &[Fd]
        ensures { result.now ≡ self.now.fds }
    {
        self.fds.as_slice()
    }

    /// The declared maximal objects.
    pub fn declared(&self) -> &[ObjSet]
        ensures { result.now ≡ self.now.declared }
    {
        self.declared.as_slice()
    }
}
