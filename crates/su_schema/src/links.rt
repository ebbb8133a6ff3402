//! An object as the schema keeps it.
ghost use Rattle.std.specs.Prelude.{◌≡◌, ◌<◌, ◌==◌, All, map, option_map, option_copied, find, IfOk};
ghost use Rattle.std.specs.FinSet.{from_list};
ghost use Rattle.su_schema.specs.Definitions.{ascending};

use std::alloc::Global;
use su_base::{AttrSet, List, NoMemory};

/// An attribute of an object and the column that it is taken from, by number.
#[derive(Clone, Copy)]
pub struct Link {
    pub attribute: u8,
    pub column: u8,
}

/// An object without its name: its relation, its attributes, and their columns in ascending order
/// of the attributes.
#[derive(Drop)]
pub struct Object {
    pub relation: u8,
    pub attributes: AttrSet,
    pub links: List<Link>,
}

impl Object {
    /// The column of an attribute, if it is the object's.
    pub fn column(&self, attribute: u8) -> Option<u8>
        ensures { result ≡ option_map (λ l. l.column) (find (λ l. l.attribute == attribute) self.now.links) }
    {
        match link_of(self.links.as_slice(), attribute) {
            Some(link) => Some(link.column),
            None => None,
        }
    }
}

/// The first link of an attribute.
fn link_of(links: &[Link], attribute: u8) -> Option<&Link>
    ensures { option_copied result ≡ find (λ l. l.attribute == attribute) links.now }
{
    links.iter().find(|l| l.attribute == attribute)
}

/// The links in ascending order of their attributes, which are below `attributes`.
pub fn in_order(alloc: Global, attributes: u8, links: &[Link]) -> Result<List<Link>, NoMemory>
    ensures { IfOk result (λ ordered. ordered ≡ ascending attributes links.now) }
{
    let mut ordered = List::new(alloc);
    for attribute in 0..attributes {
        if let Some(link) = link_of(links, attribute) {
            ordered.push(*link)?;
        }
    }
    Ok(ordered)
}

/// The attributes of the links.
pub fn attributes_of(links: &[Link]) -> AttrSet
    requires { All (λ l. l.attribute < 128) links.now }
    ensures { result ≡ from_list (map (λ l. l.attribute) links.now) }
{
    let mut attributes = AttrSet::empty();
    for link in links {
        attributes = attributes.insert(link.attribute);
    }
    attributes
}
