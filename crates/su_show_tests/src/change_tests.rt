use std::alloc::Global;
use std::test::Fail;
use su_base::{List, NoMemory};
use su_show::Room;

/// A change of the database.
#[derive(Clone, Copy)]
enum Change {
    Inserted(u64),
    Deleted(u64),
    Loaded(u64, u64),
    Defined,
}

/// What is told of a change.
fn told(alloc: Global, change: Change) -> Result<List<u8>, NoMemory> {
    let room = Room::new(alloc)?;
    match change {
        Change::Inserted(count) => Ok(room.inserted(count)),
        Change::Deleted(count) => Ok(room.deleted(count)),
        Change::Loaded(new, all) => Ok(room.loaded(new, all)),
        Change::Defined => Ok(room.defined()),
    }
}

const CHANGES: &[(Change, &str)] = &[
    (Change::Inserted(1), "inserted 1\n"),
    (Change::Deleted(0), "deleted 0\n"),
    (
        Change::Loaded(18446744073709551615, 18446744073709551615),
        "loaded 18446744073709551615 of 18446744073709551615\n",
    ),
    (Change::Defined, "defined\n"),
];

#[test]
fn a_change_is_told_in_a_line(rt: HostRuntime) -> Result<(), Fail> {
    for (change, want) in CHANGES {
        assert_eq!(rt; told(rt.alloc(), *change)?.as_slice(), want.as_bytes());
    }
    Ok(())
}
