ghost use Rattle.std.specs.Prelude.{◌↔◌, Contains, IsTrue};
ghost use Rattle.su_blame_tests.specs.inside.Groups.{AreIn, HasGroup};

use std::alloc::Global;
use std::test::Fail;
use su_base::{List, NoMemory};
use su_blame::{Blame, Trial, blame_of};

/// Whether the number is one of these.
fn is_among(set: &[usize], i: usize) -> bool
    ensures { IsTrue result ↔ Contains set.now i }
{
    set.contains(&i)
}

/// Whether the numbers of the group are all in the set.
fn are_in(group: &[usize], set: &[usize]) -> bool
    ensures { IsTrue result ↔ AreIn group.now set.now }
{
    for k in 0..group.len() {
        if !is_among(set, group[k]) {
            return false;
        }
    }
    true
}

/// A trial that fails where the numbers of one of its groups are all there.
#[derive(Drop)]
struct Groups {
    size: usize,
    groups: List<List<usize>>,
}

impl Trial for Groups {
    ghost size = { λ trial. trial.size };

    ghost Fails = { λ trial set. HasGroup trial.groups set };

    fn size(&self) -> usize {
        self.size
    }

    fn fails(&self, _alloc: Global, set: &[usize]) -> Result<bool, NoMemory> {
        for k in 0..self.groups.len() {
            if are_in(self.groups.get(k).as_slice(), set) {
                return Ok(true);
            }
        }
        Ok(false)
    }

    ghost grows = { λ x s t rs rt more f. (f.0, f.1, λ i c. more i (f.2 i c)) };
}

/// The groups that fail, and of so many numbers the set that is to blame, and whether it is told to be least.
const CASES: [(usize, &[&[usize]], Option<(&[usize], bool)>); 12] = [
    (0, &[], None),
    (3, &[], None),
    (3, &[&[]], Some((&[], true))),
    (3, &[&[2]], Some((&[2], true))),
    (3, &[&[0, 1], &[2]], Some((&[2], true))),
    (3, &[&[1, 2], &[0, 2]], Some((&[0, 2], true))),
    (4, &[&[1, 2], &[0, 3]], Some((&[0, 3], true))),
    (5, &[&[0, 1, 2, 3], &[1, 2, 4]], Some((&[1, 2, 4], true))),
    (
        12,
        &[&[0, 1, 2, 3, 4, 5, 6, 7, 8, 9, 10, 11]],
        Some((&[0, 1, 2, 3, 4, 5, 6, 7, 8, 9, 10, 11], true)),
    ),
    (13, &[&[0, 1, 2, 3]], Some((&[0, 1, 2, 3], false))),
    (64, &[&[61, 63], &[60, 62, 63]], Some((&[61, 63], true))),
    (
        64,
        &[&[61, 62, 63], &[1, 2, 3, 4]],
        Some((&[1, 2, 3, 4], false)),
    ),
];

/// What is to blame, and whether it is told to be least.
fn is_told(found: &Option<Blame>, wanted: &Option<(&[usize], bool)>) -> bool {
    match (found, wanted) {
        (None, None) => true,
        (Some(Blame::Least(set)), Some((wanted, true))) => set.as_slice() == *wanted,
        (Some(Blame::Narrow(set)), Some((wanted, false))) => set.as_slice() == *wanted,
        _ => false,
    }
}

/// The groups as lists.
fn groups_of(alloc: Global, groups: &[&[usize]]) -> Result<List<List<usize>>, NoMemory> {
    let mut lists = List::new(alloc);
    for group in groups {
        lists.push(List::from_vec(Vec::from_slice(alloc, group)?))?;
    }
    Ok(lists)
}

/// Whether this is found of so many numbers and these groups.
fn is_found(
    alloc: Global,
    size: usize,
    groups: &[&[usize]],
    wanted: &Option<(&[usize], bool)>,
) -> bool {
    match groups_of(alloc, groups) {
        Ok(groups) => match blame_of(alloc, &Groups { size, groups }) {
            Ok(found) => is_told(&found, wanted),
            Err(_) => false,
        },
        Err(_) => false,
    }
}

#[test]
fn the_first_least_set_is_blamed(rt: HostRuntime) -> Result<(), Fail> {
    for (size, groups, wanted) in CASES {
        assert!(rt;
            is_found(rt.alloc(), size, groups, &wanted),
            "{size} numbers"
        );
    }
    Ok(())
}
