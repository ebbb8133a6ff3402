use std::test::Fail;
use su_base::{List, ObjSet};
use su_cases::{objects_of, schema_of};
use su_maxobj::{adjoinable, grown, maximal_objects};
use su_schema::Schema;

/// A circle of three objects, and a branch.
const CIRCLE: &str = "\
attribute A int; attribute B int; attribute C int; attribute D int;
relation R (A int, B int);
object BD (B, D) from R (A, B); object AB (A, B) from R (A, B);
object BC (B, C) from R (A, B); object CA (C, A) from R (A, B);
";

/// Whether the sets are these, in this order.
fn are_these(sets: &List<ObjSet>, wanted: &[ObjSet]) -> bool {
    sets.len() == wanted.len()
        && sets
            .as_slice()
            .iter()
            .zip(wanted)
            .all(|(a, b)| a.within(*b) && b.within(*a))
}

#[test]
fn a_branch_of_a_circle_joins_its_two_neighbours(rt: HostRuntime) -> Result<(), Fail> {
    let Some(schema) = schema_of(rt.alloc(), CIRCLE) else {
        return Err(Fail::from("no schema"));
    };
    let sets = maximal_objects(rt.alloc(), &schema)?;
    let wanted = [objects_of(&[0, 1]), objects_of(&[0, 2]), objects_of(&[3])];
    assert!(rt; are_these(&sets, &wanted));
    Ok(())
}

fn stays_alone(schema: &Schema) -> bool {
    let last = ObjSet::empty().insert(3);
    schema.objects() == 4 && !adjoinable(schema, last, 1) && grown(schema, 3).within(last)
}

#[test]
fn in_a_circle_no_object_joins_another(rt: HostRuntime) -> Result<(), Fail> {
    let Some(schema) = schema_of(rt.alloc(), CIRCLE) else {
        return Err(Fail::from("no schema"));
    };
    assert!(rt; stays_alone(&schema));
    Ok(())
}
