//! The rows of a choice, and their items.
ghost use Rattle.std.specs.Prelude.{◌≡◌, ◌<◌, ◌≤◌, ◌++◌, length, map, All, IfOk, OnOk};
ghost use Rattle.su_steps.specs.Objects.{objects_of};
ghost use Rattle.su_steps.specs.Choices.{origin, origins_of};
ghost use Rattle.su_steps.specs.inside.Numbers.{placed_of};

use crate::objects::{object_attributes, width_of};
use crate::results::Origin;
use std::alloc::Global;
use su_base::{List, NoMemory, ObjSet, Value};
use su_classes::Placed;
use su_schema::Schema;

/// Adds the origins of the variable's rows.
fn push_origins(
    schema: &Schema,
    set: ObjSet,
    variable: u8,
    origins: &mut List<Origin>,
) -> Result<(), NoMemory>
    ensures { OnOk result (origins.new ≡ origins.old ++ map (origin variable) (objects_of schema.now set)) }
{
    schema.keeps_its_rules();
    for o in 0..schema.objects() as u8 {
        let origin = Origin {
            variable,
            object: o,
        };
        origins.push_if(set.contains(o), origin)?;
    }
    Ok(())
}

/// The origins of the rows of a choice.
pub fn origins(
    alloc: Global,
    schema: &Schema,
    maximal: &[ObjSet],
    choice: &[u8],
) -> Result<List<Origin>, NoMemory>
    requires few { length choice.now ≤ 8 }
    requires numbers { All (λ m. m < length maximal.now) choice.now }
    ensures { IfOk result (λ os. os ≡ origins_of schema.now maximal.now choice.now) }
{
    let mut origins = List::new(alloc);
    for (v, m) in choice.iter().enumerate() {
        push_origins(schema, maximal[*m as usize], v as u8, &mut origins)?;
    }
    Ok(origins)
}

/// The row of items of an origin: those of its variable's pairs, at the attributes of its object.
fn placed_row(
    alloc: Global,
    schema: &Schema,
    constants: &[Value],
    origin: &Origin,
) -> Result<Placed, NoMemory>
    requires { origin.now.object < length schema.now.objects }
    ensures { IfOk result (λ r. r ≡ placed_of schema.now constants.now origin.now) }
{
    let width = width_of(schema);
    let first = constants.len() + origin.variable as usize * width as usize;
    let mut cells = List::new(alloc);
    for a in 0..width {
        cells.push(first + a as usize)?;
    }
    let has = object_attributes(schema, origin.object);
    Ok(Placed { has, cells })
}

/// The rows of items of these origins.
pub fn placed_rows(
    alloc: Global,
    schema: &Schema,
    constants: &[Value],
    origins: &[Origin],
) -> Result<List<Placed>, NoMemory>
    requires { All (λ o. o.object < length schema.now.objects) origins.now }
    ensures { IfOk result (λ rows. rows ≡ map (placed_of schema.now constants.now) origins.now) }
{
    let mut rows = List::new(alloc);
    for origin in origins {
        rows.push(placed_row(alloc, schema, constants, origin)?)?;
    }
    Ok(rows)
}
