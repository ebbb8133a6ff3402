use sqlite_disk::{Crash, Disk, Files, Fuse, Memory};
use std::alloc::{AllocError, Global};
use std::process::Abort;
use std::test::Fail;
use su_base::{List, NoMemory, Row, copy_row, sorted_rows};
use su_cases::{row_of, rows_of, schema_of, told};
use su_changes::Change;
use su_keep::{Keeper, open_over};
use su_state::Database;

/// The definitions that a database begins with: two relations whose names differ in capitals alone.
const FIRST: &str = "\
attribute A int; attribute B text;
relation R (A int, B text);
relation r (a int, A int);
object AB (A, B) from R (A, B);
fd A -> B;
";

#[derive(Clone, Copy)]
enum Step {
    Put(u8, &'static str),
    Take(u8, &'static str),
    Define(&'static str),
}

/// Ten changes; a word that is no number is a text.
const SCRIPT: [Step; 10] = [
    Step::Put(0, "1 one"),
    Step::Put(0, "3 three;2 two;-5 é"),
    Step::Put(1, "1 1;1 2"),
    Step::Take(0, "3 three"),
    Step::Define("relation sqlite_x (a text)"),
    Step::Put(2, "x;y;z"),
    Step::Take(1, "1 1;1 2"),
    Step::Put(0, "9223372036854775807 most;-9223372036854775808 least"),
    Step::Define("relation X (A int)"),
    Step::Put(3, "0"),
];

fn put_all(
    alloc: Global,
    db: &mut Database,
    relation: u8,
    rows: &List<Row>,
    is_in: bool,
) -> Option<()> {
    for row in rows.as_slice() {
        if relation as usize >= db.schema().relations() {
            return None;
        }
        if is_in {
            db.insert(relation, copy_row(alloc, row).ok()?).ok()?;
        } else {
            db.delete(relation, row).ok()?;
        }
    }
    Some(())
}

/// Makes the change in memory, and says what the file has to be told.
fn carry(alloc: Global, db: &mut Database, step: &Step) -> Option<List<Change>> {
    let mut changes = List::new(alloc);
    match step {
        Step::Put(relation, lines) => {
            let rows = rows_of(alloc, lines).ok()?;
            put_all(alloc, db, *relation, &rows, true)?;
            changes
                .push(Change {
                    relation: *relation,
                    rows,
                    is_in: true,
                })
                .ok()?;
        }
        Step::Take(relation, lines) => {
            let rows = rows_of(alloc, lines).ok()?;
            put_all(alloc, db, *relation, &rows, false)?;
            changes
                .push(Change {
                    relation: *relation,
                    rows,
                    is_in: false,
                })
                .ok()?;
        }
        Step::Define(text) => {
            let definition = su_ddl::definition(alloc, text.as_bytes()).ok()?;
            if !definition.is_well_named() {
                return None;
            }
            db.define(&definition).ok()?;
        }
    }
    Some(changes)
}

/// The schema's text, and the rows of each relation in their order.
fn whole(alloc: Global, db: &Database) -> Option<String> {
    let mut out = String::from_utf8(su_ddl::show(alloc, db.schema()).ok()?.into_vec()).ok()?;
    for table in db.tables() {
        let mut rows = List::new(alloc);
        for row in table.as_slice() {
            rows.push(copy_row(alloc, row).ok()?).ok()?;
        }
        out.push_str(told(alloc, sorted_rows(rows).as_slice()).ok()?.as_str())
            .ok()?;
        out.push_str("\n").ok()?;
    }
    Some(out)
}

fn first(alloc: Global) -> Option<Database> {
    Database::new(alloc, schema_of(alloc, FIRST)?).ok()
}

/// Begins the file and makes the changes, up to the first that is not kept: how many groups were kept.
fn carry_out<D: Disk + Drop>(
    alloc: Global,
    keeper: &mut Keeper<sqlite_store::FileStore<D>>,
) -> Option<usize> {
    let mut db = first(alloc)?;
    if keeper.keep(&db, List::new(alloc)).is_err() {
        return Some(0);
    }
    for at in 0..SCRIPT.len() {
        let changes = carry(alloc, &mut db, &SCRIPT[at])?;
        if keeper.keep(&db, changes).is_err() {
            return Some(at + 1);
        }
    }
    Some(SCRIPT.len() + 1)
}

/// The database after each group, as a text; the first is the file in which nothing has been kept.
fn states(alloc: Global) -> Option<Vec<String>> {
    let mut all = Vec::new(alloc);
    all.push(String::from_str(alloc, "new").ok()?).ok()?;
    let mut db = first(alloc)?;
    all.push(whole(alloc, &db)?).ok()?;
    for one in &SCRIPT {
        carry(alloc, &mut db, one)?;
        all.push(whole(alloc, &db)?).ok()?;
    }
    Some(all)
}

fn fused(alloc: Global, calls: u64) -> Files<Fuse<Memory>> {
    Files {
        log: Fuse::new(Memory::new(alloc), calls),
        db: Fuse::new(Memory::new(alloc), calls),
    }
}

/// What the files hold after a crash.
fn after_crash(alloc: Global, mut files: Files<Fuse<Memory>>) -> Option<String> {
    files.log.crash();
    files.db.crash();
    let Ok((_keeper, found)) = open_over(alloc, files, 8) else {
        return None;
    };
    match found {
        Some(db) => whole(alloc, &db),
        None => String::from_str(alloc, "new").ok(),
    }
}

/// With the disk failing after so many calls of each file: how many groups were kept, and what a
/// crash then leaves. The file is copied whole behind the last group; an open that fails hands back
/// what is left.
fn crashed(alloc: Global, calls: u64) -> Option<(usize, String)> {
    let files = fused(alloc, calls);
    if !files.may_be_used() {
        return None;
    }
    match open_over(alloc, files, 7) {
        Ok((mut keeper, _found)) => {
            let kept = carry_out(alloc, &mut keeper)?;
            let _ = keeper.checkpoint();
            Some((kept, after_crash(alloc, keeper.into_files())?))
        }
        Err(refusal) => Some((0, after_crash(alloc, refusal.left.into_files())?)),
    }
}

/// Whether the text is the state after these groups, or after one more.
fn is_before_or_after(states: &[String], kept: usize, left: &str) -> bool {
    let before = match states.get(kept) {
        Some(state) => state.as_str() == left,
        None => false,
    };
    let after = match states.get(kept.wrapping_add(1)) {
        Some(state) => state.as_str() == left,
        None => false,
    };
    before || after
}

/// After how many calls of each file the disk fails: within the making of the file, within each group,
/// and never.
const CALLS: [u64; 14] = [0, 2, 5, 9, 14, 20, 27, 35, 44, 54, 65, 80, 100, 1000000];

/// A crash after so many calls leaves the state of the groups that were kept, or one more.
#[test]
fn a_crash_leaves_the_state_before_or_after(rt: HostRuntime) -> Result<(), Fail> {
    let alloc = rt.alloc();
    let states = states(alloc).ok_or("the states")?;
    let mut reached = 0;
    for calls in &CALLS {
        let (kept, left) = crashed(alloc, *calls).ok_or("a crash")?;
        assert!(&rt;
            is_before_or_after(states.as_slice(), kept, left.as_str()),
            "{calls} {kept} {left}"
        );
        reached = kept;
    }
    assert_eq!(&rt; reached, 11);
    Ok(())
}

/// What the file alone holds once it was copied whole: that an empty log stands beside it.
fn copied(alloc: Global) -> Option<String> {
    let files = fused(alloc, u64::MAX);
    if !files.may_be_used() {
        return None;
    }
    let Ok((mut keeper, _found)) = open_over(alloc, files, 7) else {
        return None;
    };
    carry_out(alloc, &mut keeper)?;
    keeper.checkpoint().ok()?;
    let Files { log: _, db } = keeper.into_files();
    let log = Fuse::new(Memory::new(alloc), u64::MAX);
    after_crash(alloc, Files { log, db })
}

/// A file that was copied whole stands alone.
#[test]
fn a_file_that_is_copied_whole_stands_alone(rt: HostRuntime) -> Result<(), Fail> {
    let alloc = rt.alloc();
    let states = states(alloc).ok_or("the states")?;
    let left = copied(alloc).ok_or("a copy")?;
    assert!(&rt;
        is_before_or_after(states.as_slice(), SCRIPT.len() + 1, left.as_str()),
        "{left}"
    );
    Ok(())
}
