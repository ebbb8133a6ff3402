ghost use Rattle.std.specs.Prelude.{ℕ, ◌<◌, ◌≤◌, IsTrue};
ghost use Rattle.std.specs.FinSet.{contains};

use std::alloc::Global;
use std::test::Fail;
use su_advise::{
    breaking, core_of, covers_of, droppable, kept_nowhere, keys, least_breakers, lone_objects,
    lying_in, meeting_in, object_sets, redundant, spare_attributes, uncovered_with,
    unpaired_columns, unread_relations, unused_attributes,
};
use su_base::{AttrSet, List, NoMemory, ObjSet};
use su_cases::{objects_of, schema_of};
use su_maxobj::maximal_objects;
use su_samples::{Sides, fds_of, is_below, set_of};
use su_schema::Schema;

/// An attribute and a relation too many, a column that nothing reads, and a dependency that lies in no object.
const LOOSE: &str = "\
attribute A int; attribute B int; attribute C int; attribute D int; attribute E int;
relation R (X int, Y int, Z int); relation S (X int); relation T (X int, Y int);
object AB (A, B) from R (Z, X); object CD (C, D) from T (X, Y); object DC (C) from T (Y);
fd A -> B; fd A -> C; fd A, B -> C;
";

/// The numbers as the ones of a number: each once, and ascending.
fn bits(numbers: &[u8]) -> u64 {
    let mut sum: u64 = 0;
    for n in numbers {
        if *n < 64 && sum >> *n == 0 {
            sum |= 1u64 << *n;
        } else {
            return u64::MAX;
        }
    }
    sum
}

/// The same of wider numbers.
fn wide_bits(numbers: &[u16]) -> u64 {
    let mut sum: u64 = 0;
    for n in numbers {
        if *n < 64 && sum >> *n == 0 {
            sum |= 1u64 << *n;
        } else {
            return u64::MAX;
        }
    }
    sum
}

fn unused_of(alloc: Global, schema: &Schema, objects: &[AttrSet]) -> Result<[u64; 3], NoMemory> {
    schema.keeps_its_rules();
    Ok([
        bits(unused_attributes(alloc, schema.attributes() as u8, objects)?.as_slice()),
        bits(unread_relations(alloc, schema)?.as_slice()),
        wide_bits(kept_nowhere(alloc, schema.fds(), objects)?.as_slice()),
    ])
}

fn notes_of(alloc: Global, schema: &Schema, objects: &[AttrSet]) -> Result<[u64; 3], NoMemory> {
    schema.keeps_its_rules();
    let maximal = maximal_objects(alloc, schema)?;
    let fds = schema.fds();
    Ok([
        bits(lone_objects(alloc, schema.objects() as u8, maximal.as_slice())?.as_slice()),
        wide_bits(redundant(alloc, fds)?.as_slice()),
        wide_bits(droppable(alloc, fds, objects)?.as_slice()),
    ])
}

#[test]
fn loose_ends_are_found(rt: HostRuntime) -> Result<(), Fail> {
    let Some(schema) = schema_of(rt.alloc(), LOOSE) else {
        return Err(Fail::from("no schema"));
    };
    let objects = object_sets(rt.alloc(), &schema)?;
    assert_eq!(rt;
        unused_of(rt.alloc(), &schema, objects.as_slice())?,
        [16, 2, 6]
    );
    assert_eq!(rt;
        notes_of(rt.alloc(), &schema, objects.as_slice())?,
        [1, 6, 6]
    );
    Ok(())
}

#[test]
fn a_column_without_a_pair_is_found(rt: HostRuntime) -> Result<(), Fail> {
    let Some(schema) = schema_of(rt.alloc(), LOOSE) else {
        return Err(Fail::from("no schema"));
    };
    let mut found = [0; 3];
    for r in 0..3u8 {
        if (r as usize) < schema.relations() {
            found[r as usize] = bits(unpaired_columns(rt.alloc(), &schema, r)?.as_slice());
        }
    }
    assert_eq!(rt; found, [2, 0, 0]);
    Ok(())
}

/// The sets that are keys of the object: as bits of a number whose places are the sets read as numbers.
fn key_bits(alloc: Global, sides: &[Sides], object: &[u8], own: bool) -> Result<u64, NoMemory> {
    let all = fds_of(alloc, sides)?;
    let fds = if own {
        lying_in(alloc, all.as_slice(), set_of(object))?
    } else {
        all
    };
    let object = set_of(object);
    if !is_below(object, 128) {
        return Ok(0);
    }
    let Some(list) = keys(alloc, fds.as_slice(), object)? else {
        return Ok(0);
    };
    let mut sum: u64 = 0;
    for key in list.as_slice() {
        let mut place = 0u64;
        for a in 0..6u8 {
            if key.contains(a) {
                place |= 1u64 << a;
            }
        }
        sum ^= 1u64 << (place & 63);
    }
    Ok(sum)
}

/// Dependencies, an object, and its keys by all and by those that lie in it.
const KEYS: &[(&[Sides], &[u8], u64, u64)] = &[
    (&[], &[0, 1], 1 << 3, 1 << 3),
    (&[(&[0], &[1, 2])], &[0, 1, 2], 1 << 1, 1 << 1),
    // street and city determine the code, and the code the city
    (
        &[(&[0, 1], &[2]), (&[2], &[1])],
        &[0, 1, 2],
        1 << 3 | 1 << 5,
        1 << 3 | 1 << 5,
    ),
    // a circle
    (
        &[(&[0], &[1]), (&[1], &[2]), (&[2], &[3]), (&[3], &[0])],
        &[0, 1, 2, 3],
        1 << 1 | 1 << 2 | 1 << 4 | 1 << 8,
        1 << 1 | 1 << 2 | 1 << 4 | 1 << 8,
    ),
    // by an attribute that isn't the object's
    (&[(&[0], &[2]), (&[2], &[1])], &[0, 1], 1 << 1, 1 << 3),
    // nothing is needed where a constant determines all
    (
        &[(&[0], &[1]), (&[1], &[0])],
        &[0, 1],
        1 << 1 | 1 << 2,
        1 << 1 | 1 << 2,
    ),
];

#[test]
fn keys_are_the_least_sets(rt: HostRuntime) -> Result<(), Fail> {
    for (sides, object, by_all, by_own) in KEYS {
        let found = (
            key_bits(rt.alloc(), sides, object, false)?,
            key_bits(rt.alloc(), sides, object, true)?,
        );
        assert_eq!(rt; found, (*by_all, *by_own));
    }
    Ok(())
}

/// Dependencies, an object, and those of them that break its form.
const BROKEN: &[(&[Sides], &[u8], u64)] = &[
    (&[(&[0, 1], &[2]), (&[2], &[1])], &[0, 1, 2], 2),
    (&[(&[0], &[1, 2])], &[0, 1, 2], 0),
    (&[(&[0], &[1]), (&[1], &[1]), (&[3], &[1])], &[0, 1, 2], 1),
    // that its left side is a key by an attribute outside doesn't count
    (&[(&[0], &[1]), (&[0], &[3]), (&[3], &[2])], &[0, 1, 2], 1),
];

#[test]
fn broken_forms_are_found(rt: HostRuntime) -> Result<(), Fail> {
    for (sides, object, expected) in BROKEN {
        let fds = fds_of(rt.alloc(), sides)?;
        let found = breaking(rt.alloc(), fds.as_slice(), set_of(object))?;
        assert_eq!(rt; wide_bits(found.as_slice()), *expected);
    }
    Ok(())
}

/// Dependencies, and the spare attributes of the first one's left side.
const SPARE: &[(&[Sides], u64)] = &[
    (&[(&[0, 1], &[2]), (&[0], &[1])], 2),
    (&[(&[0, 1], &[2])], 0),
    (&[(&[0, 1], &[1])], 1),
    (&[(&[0, 1], &[2]), (&[0], &[2]), (&[1], &[2])], 3),
];

#[test]
fn spare_attributes_are_found(rt: HostRuntime) -> Result<(), Fail> {
    for (sides, expected) in SPARE {
        let fds = fds_of(rt.alloc(), sides)?;
        let found = match fds.as_slice() {
            [] => List::new(rt.alloc()),
            [first, ..] => spare_attributes(rt.alloc(), fds.as_slice(), first)?,
        };
        assert_eq!(rt; bits(found.as_slice()), *expected);
    }
    Ok(())
}

/// The attributes of the objects 0, 1, .., and the core of them all.
const CORES: &[(&[&[u8]], &[u8])] = &[
    (&[&[0, 1]], &[0]),
    (&[&[0, 1], &[1, 2], &[2, 3]], &[0]),
    (&[&[0, 1], &[2, 3]], &[0]),
    (&[&[0, 1], &[1, 2], &[2, 0]], &[0, 1, 2]),
    // a tail goes
    (&[&[0, 1], &[2, 3], &[1, 2], &[2, 0]], &[0, 2, 3]),
    // with one that has all three the triangle is acyclic
    (&[&[0, 1], &[1, 2], &[2, 0], &[0, 1, 2]], &[0]),
    // students, courses and teachers have departments
    (
        &[&[0, 1], &[1, 2], &[0, 3], &[1, 3], &[2, 3]],
        &[0, 1, 2, 3, 4],
    ),
];

fn numbers_of(members: &[&[u8]], sets: &mut [AttrSet; 8]) {
    for i in 0..members.len() {
        if i < 8 {
            sets[i] = set_of(members[i]);
        }
    }
}

/// The first objects.
fn first(count: u8) -> ObjSet
    requires { count ≤ 64 }
    ensures { (k : ℕ) → IsTrue (contains result k) → k < count }
{
    let mut all = ObjSet::empty();
    for o in 0..count {
        all = all.insert(o);
    }
    all
}

#[test]
fn cores_are_left(rt: HostRuntime) -> Result<(), Fail> {
    for (members, expected) in CORES {
        let mut sets = [AttrSet::empty(); 8];
        numbers_of(members, &mut sets);
        let count = members.len().min(8);
        let left = core_of(&sets[..count], first(count as u8));
        let wanted = objects_of(expected);
        assert!(rt; left.within(wanted) && wanted.within(left));
    }
    Ok(())
}

#[test]
fn objects_meet_in_an_attribute(rt: HostRuntime) -> Result<(), Fail> {
    let sets = [set_of(&[0, 1]), set_of(&[1, 2]), set_of(&[2, 1])];
    let found = meeting_in(rt.alloc(), &sets, first(2), 1)?;
    assert_eq!(rt; bits(found.as_slice()), 3);
    Ok(())
}

#[test]
fn pairs_are_covered(rt: HostRuntime) -> Result<(), Fail> {
    let covers = [set_of(&[0, 1, 2]), set_of(&[1, 2, 3]), set_of(&[4])];
    let twice = covers_of(rt.alloc(), &covers, 1, 2)?;
    let once = covers_of(rt.alloc(), &covers, 0, 2)?;
    let apart = uncovered_with(rt.alloc(), set_of(&[0, 1, 2, 3, 4]), &covers, 0)?;
    assert_eq!(rt;
        [
            bits(twice.as_slice()),
            bits(once.as_slice()),
            bits(apart.as_slice())
        ],
        [3, 1, 24]
    );
    Ok(())
}

#[test]
fn a_cycle_is_broken(rt: HostRuntime) -> Result<(), Fail> {
    // students, courses, teachers and departments: without courses, without departments, without students and teachers
    let sets = [
        set_of(&[0, 1]),
        set_of(&[1, 2]),
        set_of(&[0, 3]),
        set_of(&[1, 3]),
        set_of(&[2, 3]),
    ];
    let among = set_of(&[0, 1, 2, 3]);
    if !is_below(among, 128) {
        return Err(Fail::from("too great"));
    }
    let Some(found) = least_breakers(rt.alloc(), &sets, objects_of(&[0, 1, 2, 3, 4]), among)? else {
        return Err(Fail::from("too many"));
    };
    let wanted = [set_of(&[1]), set_of(&[0, 2]), set_of(&[3])];
    assert_eq!(rt; found.len(), wanted.len());
    assert!(rt;
        found
            .as_slice()
            .iter()
            .zip(&wanted)
            .all(|(a, b)| a.within(*b) && b.within(*a))
    );
    Ok(())
}
