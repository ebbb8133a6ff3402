//! Places: a variable and an attribute, by their numbers.
ghost use Rattle.std.specs.Prelude.{◌≡◌, ◌⊎◌, ◌<◌, ◌≤◌, [], ◌∷◌, ◌++◌, Some, None, All, length, position, unwrap_or, map, if◌then◌else◌, slice_index_or, IfOk, IfErr, OnOk};
ghost use Rattle.std.specs.List.{list_any};
ghost use Rattle.su_schema.specs.Entries.{attribute_kinds};
ghost use Rattle.su_query.specs.Mentions.{same_variable};
ghost use Rattle.su_query.specs.Places.{same_place, places_of};
ghost use Rattle.su_query.specs.Scopes.{names_in, first_unknown};
ghost use Rattle.su_query.specs.Ranges.{place_kinds};
ghost use Rattle.su_query.specs.inside.PlaceNumbers.{attribute_numbers};
ghost use Rattle.su_query.specs.inside.Unknowns.{IsRefRefusal};

use crate::faults::QueryFault;
use crate::lookups::look_up;
use crate::mentions::is_same;
use crate::refs::Ref;
use crate::scopes::Scope;
use std::alloc::Global;
use su_base::{Kind, List, NoMemory, Str};
use su_schema::Schema;

/// An attribute of a tuple variable, both by number: the variable in the order of first mention,
/// the attribute in the order of the schema.
#[derive(Clone, Copy, PartialEq, Eq, Debug)]
pub struct Place {
    pub variable: u8,
    pub attribute: u8,
}

fn find_variable(variables: &[Option<Str>], variable: &Option<Str>) -> Option<usize>
    ensures { result ≡ position (same_variable variable.now) variables.now }
{
    variables.iter().position(|v| is_same(variable, v))
}

fn variable_number(variables: &[Option<Str>], variable: &Option<Str>) -> u8
    requires { length variables.now ≤ 8 }
    ensures { result ≡ unwrap_or (position (same_variable variable.now) variables.now) 0 }
{
    match find_variable(variables, variable) {
        Some(i) => i as u8,
        None => 0,
    }
}

fn same(p: &Place, q: &Place) -> bool
    ensures { result ≡ same_place p.now q.now }
{
    p.variable == q.variable && p.attribute == q.attribute
}

/// Which of the places it is.
fn find_place(places: &[Place], place: &Place) -> Option<usize>
    ensures { result ≡ position (same_place place.now) places.now }
{
    places.iter().position(|p| same(place, p))
}

/// The number of the place, which is added where it is new.
fn note(seen: &mut List<Place>, place: Place) -> Result<usize, NoMemory>
    ensures seen { OnOk result (seen.new ≡ (if list_any (same_place place) seen.old then seen.old else seen.old ++ place ∷ [])) }
    ensures number { IfOk result (λ number. position (same_place place) seen.new ≡ Some number) }
{
    match find_place(seen.as_slice(), &place) {
        Some(number) => Ok(number),
        None => {
            let number = seen.len();
            seen.push(place)?;
            Ok(number)
        }
    }
}

/// The places that refs mention, each once, and the number of each ref's place.
#[derive(Drop)]
pub(crate) struct Placed {
    pub(crate) places: List<Place>,
    pub(crate) numbers: List<u16>,
}

/// The places of the refs, or the first name that is no attribute. Each name is looked up once.
pub(crate) fn place_all(
    alloc: Global,
    schema: &Schema,
    variables: &[Option<Str>],
    references: &[&Ref],
) -> Result<Placed, QueryFault>
    requires variables { length variables.now ≤ 8 }
    requires few { length references.now ≤ 640 }
    ensures places { IfOk result (λ placed. placed.places ≡ places_of schema.now variables.now [] (map (λ r. r.now) references.now)) }
    ensures numbers { IfOk result (λ placed. placed.numbers ≡ attribute_numbers schema.now variables.now placed.places (map (λ r. r.now) references.now)) }
    ensures known { OnOk result (first_unknown (names_in schema.now Scope.Attributes) (map (λ r. r.now) references.now) ≡ None) }
    ensures refused { IfErr result (IsRefRefusal schema.now Scope.Attributes (map (λ r. r.now) references.now)) }
{
    let mut places = List::new(alloc);
    let mut numbers = List::new(alloc);
    for reference in references {
        let attribute = match look_up(alloc, schema, Scope::Attributes, *reference) {
            Ok(attribute) => attribute,
            Err(fault) => return Err(fault),
        };
        let variable = variable_number(variables, &reference.variable);
        let number = note(
            &mut places,
            Place {
                variable,
                attribute,
            },
        )?;
        numbers.push(number as u16)?;
    }
    Ok(Placed { places, numbers })
}

/// The kind of the place's attribute.
fn kind_at(schema: &Schema, place: &Place) -> Kind
    requires { place.now.attribute < length schema.now.attributes }
    ensures { result ≡ slice_index_or (attribute_kinds schema.now) place.now.attribute Kind.Int }
{
    schema.attribute_kind(place.attribute)
}

/// The kinds of the places' attributes.
pub(crate) fn kinds_of(
    alloc: Global,
    schema: &Schema,
    places: &[Place],
) -> Result<List<Kind>, NoMemory>
    requires { All (λ p. p.attribute < length schema.now.attributes) places.now }
    ensures { IfOk result (λ kinds. kinds ≡ place_kinds schema.now places.now) }
{
    let mut kinds = List::new(alloc);
    for place in places {
        kinds.push(kind_at(schema, place))?;
    }
    Ok(kinds)
}
