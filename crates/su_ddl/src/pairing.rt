//! The pairs of an object, from its two lists.
ghost use Rattle.std.specs.Prelude.{◌≡◌, length, map, IfOk};

use std::alloc::Global;
use su_base::{List, NoMemory, Str};
use su_schema::Pair;

/// The i-th attribute is taken from the i-th column.
pub fn pairs(alloc: Global, attributes: &[Str], columns: &[Str]) -> Result<List<Pair>, NoMemory>
    requires { length attributes.now ≡ length columns.now }
    ensures attributes { IfOk result (λ ps. map (λ p. p.attribute) ps ≡ attributes.now) }
    ensures columns { IfOk result (λ ps. map (λ p. p.column) ps ≡ columns.now) }
{
    let mut pairs = List::new(alloc);
    for i in 0..attributes.len() {
        let attribute = attributes[i].copy(alloc)?;
        let column = columns[i].copy(alloc)?;
        pairs.push(Pair { attribute, column })?;
    }
    Ok(pairs)
}
