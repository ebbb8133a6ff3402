//! The pairs of an object as links, each checked in its turn.
ghost use Rattle.std.specs.Prelude.{◌≡◌, ◌<◌, ◌==◌, [], ◌∷◌, map, length, IfOk, IfErr, OnOk};
ghost use Rattle.std.specs.List.{list_any};
ghost use Rattle.su_base.specs.Value.{same_kind};
ghost use Rattle.su_schema.specs.NameChecks.{first_failing};
ghost use Rattle.su_schema.specs.Checks.{known_checks, pair_checks, one_kind};
ghost use Rattle.su_schema.specs.Known.{columns_at};
ghost use Rattle.su_schema.specs.inside.Kept.{object_on};
ghost use Rattle.su_schema.specs.Definitions.{link_of, links_of};
ghost use Rattle.su_schema.specs.inside.Refusals.{IsRefusalBy};

use crate::definitions::Pair;
use crate::faults::SchemaFault;
use crate::links::{Link, Object, attributes_of, in_order};
use crate::schemas::Schema;
use su_base::{Kind, List};

/// Whether one of the links has the attribute.
fn has_attribute(links: &[Link], attribute: u8) -> bool
    ensures { result ≡ list_any (λ l. l.attribute == attribute) links.now }
{
    links.iter().any(|l| l.attribute == attribute)
}

/// Whether one of the links has the column.
fn has_column(links: &[Link], column: u8) -> bool
    ensures { result ≡ list_any (λ l. l.column == column) links.now }
{
    links.iter().any(|l| l.column == column)
}

/// Whether the kinds are one.
fn is_one_kind(a: Kind, b: Kind) -> bool
    ensures { result ≡ same_kind a b }
{
    a == b
}

impl Schema {
    /// The link that a pair names, whose attribute and column must be known.
    fn link(&self, relation: u8, pair: &Pair) -> Result<Link, SchemaFault>
        requires { relation < length self.now.relations }
        ensures passed { OnOk result (first_failing (known_checks self.now (columns_at self.now relation) pair.now) ≡ None) }
        ensures numbers { IfOk result (λ link. link ≡ link_of self.now (columns_at self.now relation) pair.now) }
        ensures refused { IfErr result (IsRefusalBy (known_checks self.now (columns_at self.now relation) pair.now)) }
    {
        let attribute = match self.find_attribute(pair.attribute.as_str()) {
            Some(a) => a,
            None => return Err(SchemaFault::Unknown(pair.attribute.copy(self.alloc)?)),
        };
        let column = match self.find_column(relation, pair.column.as_str()) {
            Some(c) => c,
            None => return Err(SchemaFault::Unknown(pair.column.copy(self.alloc)?)),
        };
        Ok(Link { attribute, column })
    }

    /// Refuses a pair whose attribute and column are of different kinds.
    fn check_kinds(&self, relation: u8, pair: &Pair, link: Link) -> Result<(), SchemaFault>
        requires relation { relation < length self.now.relations }
        requires known { first_failing (known_checks self.now (columns_at self.now relation) pair.now) ≡ None }
        requires link { link ≡ link_of self.now (columns_at self.now relation) pair.now }
        ensures passed { OnOk result (first_failing (one_kind self.now (columns_at self.now relation) pair.now ∷ []) ≡ None) }
        ensures refused { IfErr result (IsRefusalBy (one_kind self.now (columns_at self.now relation) pair.now ∷ [])) }
    {
        let column = &self.columns(relation)[link.column as usize];
        if is_one_kind(self.attribute_kind(link.attribute), column.kind) {
            return Ok(());
        }
        Err(SchemaFault::KindDiffers {
            attribute: pair.attribute.copy(self.alloc)?,
            column: pair.column.copy(self.alloc)?,
        })
    }

    /// The links that the pairs name, in their order.
    pub(crate) fn links(&self, relation: u8, pairs: &[Pair]) -> Result<List<Link>, SchemaFault>
        requires { relation < length self.now.relations }
        ensures passed { OnOk result (first_failing (pair_checks self.now (columns_at self.now relation) [] pairs.now) ≡ None) }
        ensures numbers { IfOk result (λ links. links ≡ map (link_of self.now (columns_at self.now relation)) pairs.now) }
        ensures refused { IfErr result (IsRefusalBy (pair_checks self.now (columns_at self.now relation) [] pairs.now)) }
    {
        let mut links = List::new(self.alloc);
        for pair in pairs {
            let link = self.link(relation, pair)?;
            if has_attribute(links.as_slice(), link.attribute) {
                return Err(SchemaFault::Twice(pair.attribute.copy(self.alloc)?));
            }
            if has_column(links.as_slice(), link.column) {
                return Err(SchemaFault::Twice(pair.column.copy(self.alloc)?));
            }
            self.check_kinds(relation, pair, link)?;
            links.push(link)?;
        }
        Ok(links)
    }

    /// The object that the pairs make on a relation.
    pub(crate) fn joined(&self, relation: u8, pairs: &[Pair]) -> Result<Object, SchemaFault>
        requires { relation < length self.now.relations }
        ensures passed { OnOk result (first_failing (pair_checks self.now (columns_at self.now relation) [] pairs.now) ≡ None) }
        ensures object { IfOk result (λ object. object ≡ object_on relation (links_of self.now (columns_at self.now relation) pairs.now)) }
        ensures refused { IfErr result (IsRefusalBy (pair_checks self.now (columns_at self.now relation) [] pairs.now)) }
    {
        let named = self.links(relation, pairs)?;
        let links = in_order(self.alloc, self.attributes.len() as u8, named.as_slice())?;
        Ok(Object {
            relation,
            attributes: attributes_of(links.as_slice()),
            links,
        })
    }
}
