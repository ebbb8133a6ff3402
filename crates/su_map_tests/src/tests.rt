ghost use Rattle.std.specs.Prelude.{◌≡◌, ◌<◌};

use std::alloc::Global;
use std::marker::Brand;
use std::sync::ledger::{Blank, Ledger};
use std::test::Fail;
use su_base::{NoMemory, Steps};
use su_map::{Mapping, Room, certify, exists, first};
use su_samples::{COURSES, tableau};
use su_tableau::{Tableau, full};

/// The first mapping from all rows into these, where there is one.
fn first_counted<L: Ledger>(
    alloc: Global,
    t: &Tableau,
    to_mask: u64,
    blank: Blank,
) -> Result<Option<Mapping>, NoMemory>
    requires name { blank.name ≡ L.name }
    requires parts { blank.parts ≡ L.parts }
    requires some { 0 < blank.parts }
{
    let mut room = Room::new(alloc, t.row_count(), t.symbols())?;
    let mut steps = Steps::<L>::new(blank);
    let all = full(t.row_count());
    if !first(&mut room, t, all, t, to_mask, &mut steps) {
        return Ok(None);
    }
    Ok(Some(certify(alloc, &room, t, all, t, to_mask)?))
}

fn first_into(alloc: Global, t: &Tableau, to_mask: u64) -> Result<Option<Mapping>, NoMemory> {
    first_counted::<Brand>(alloc, t, to_mask, Blank::new(1))
}

/// Whether there is any mapping from all rows into these.
fn any_counted<L: Ledger>(
    alloc: Global,
    t: &Tableau,
    to_mask: u64,
    blank: Blank,
) -> Result<bool, NoMemory>
    requires name { blank.name ≡ L.name }
    requires parts { blank.parts ≡ L.parts }
    requires some { 0 < blank.parts }
{
    let mut room = Room::new(alloc, t.row_count(), t.symbols())?;
    let mut steps = Steps::<L>::new(blank);
    Ok(exists(&mut room, t, full(t.row_count()), t, to_mask, &mut steps))
}

fn any_into(alloc: Global, t: &Tableau, to_mask: u64) -> Result<bool, NoMemory> {
    any_counted::<Brand>(alloc, t, to_mask, Blank::new(1))
}

#[test]
fn six_rows_fold_into_three(rt: HostRuntime) -> Result<(), Fail> {
    let t = tableau(rt.alloc(), &COURSES)?.expect(&rt, "valid parts");
    let fold = first_into(rt.alloc(), &t, 0b110010)?.expect(&rt, "a mapping");
    assert_eq!(rt; fold.list(), [1, 1, 1, 4, 4, 5].as_slice());
    Ok(())
}

#[test]
fn the_first_list_into_all_rows_is_not_the_identity(rt: HostRuntime) -> Result<(), Fail> {
    let t = tableau(rt.alloc(), &COURSES)?.expect(&rt, "valid parts");
    let fold = first_into(rt.alloc(), &t, 0b111111)?.expect(&rt, "a mapping");
    assert_eq!(rt; fold.list(), [0, 1, 0, 3, 4, 5].as_slice());
    Ok(())
}

#[test]
fn the_row_of_jones_goes_to_no_other(rt: HostRuntime) -> Result<(), Fail> {
    let t = tableau(rt.alloc(), &COURSES)?.expect(&rt, "valid parts");
    assert!(rt; first_into(rt.alloc(), &t, 0b010010)?.is_none());
    Ok(())
}

#[test]
fn any_mapping_is_found_where_there_is_one(rt: HostRuntime) -> Result<(), Fail> {
    let t = tableau(rt.alloc(), &COURSES)?.expect(&rt, "valid parts");
    assert!(rt; any_into(rt.alloc(), &t, 0b110010)?);
    assert!(rt; !any_into(rt.alloc(), &t, 0b010010)?);
    Ok(())
}
