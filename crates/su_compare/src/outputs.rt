//! Whether the outputs of two queries are of equal kinds.
ghost use Rattle.std.specs.Prelude.{◌≡◌, ◌↔◌, ◌<◌, IsTrue, length, get_or};
ghost use Rattle.su_base.specs.declared.values.Kind.{Kind as AKind};
ghost use Rattle.su_query.specs.Ranges.{IsResolved};
ghost use Rattle.su_compare.specs.Outputs.{output_kinds};

use su_base::Kind;
use su_query::Resolved;
use su_schema::Schema;

/// The kind of the output with this number.
fn output_kind(schema: &Schema, query: &Resolved, i: usize) -> Kind
    requires resolved { IsResolved schema.now query.now }
    requires output { i < length query.now.outputs }
    ensures { (d : AKind) → get_or (output_kinds schema.now query.now) i d ≡ result }
{
    let output = *query.outputs.get(i);
    let place = query.places.get(output as usize);
    schema.attribute_kind(place.attribute)
}

fn is_same(a: Kind, b: Kind) -> bool
    ensures { IsTrue result ↔ (a ≡ b) }
{
    a == b
}

/// Whether the two queries have equally many outputs, of equal kinds in their order. Without memory.
pub fn agree(schema: &Schema, first: &Resolved, second: &Resolved) -> bool
    requires first { IsResolved schema.now first.now }
    requires second { IsResolved schema.now second.now }
    ensures { IsTrue result ↔ (output_kinds schema.now first.now ≡ output_kinds schema.now second.now) }
{
    if first.outputs.len() != second.outputs.len() {
        return false;
    }
    for i in 0..first.outputs.len() {
        let kind = output_kind(schema, first, i);
        if !is_same(kind, output_kind(schema, second, i)) {
            return false;
        }
    }
    true
}
