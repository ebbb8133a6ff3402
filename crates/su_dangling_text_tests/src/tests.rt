use std::alloc::Global;
use std::test::Fail;
use su_base::NoMemory;
use su_cases::{objects_of, stored};
use su_dangling_text::{Scope, dangling_text};

/// Students take courses; students and courses have departments, which are one attribute. The last object
/// is no part of the cycle.
const UNIVERSITY: &str = "\
attribute STUDENT text; attribute COURSE text; attribute DEPT text; attribute ROOM int;
relation TAKES (S text, C text); object TAKES (STUDENT, COURSE) from TAKES (S, C);
relation SD (S text, D text); object STUDENT_DEPT (STUDENT, DEPT) from SD (S, D);
relation CD (C text, D text); object COURSE_DEPT (COURSE, DEPT) from CD (C, D);
relation CR (C text, R int); object ROOMS (COURSE, ROOM) from CR (C, R);
";

const ROWS: &[(&str, &str)] = &[
    ("TAKES", "ann db"),
    ("TAKES", "ann logic"),
    ("TAKES", "bob db"),
    ("SD", "ann cs"),
    ("SD", "bob math"),
    ("CD", "db cs"),
    ("CD", "logic math"),
    ("CR", "db 7"),
];

const TEXT: &str = "\
note maximal object 0: 1 of 3 rows of TAKES are in the join of all its objects, 2 are not
  ('ann', 'logic')
  ('bob', 'db')
note maximal object 0: 1 of 2 rows of STUDENT_DEPT are in the join of all its objects, 1 are not
  ('bob', 'math')
note maximal object 0: 1 of 2 rows of COURSE_DEPT are in the join of all its objects, 1 are not
  ('logic', 'math')
note maximal object 0: 1 of 1 rows of ROOMS are in the join of all its objects, 0 are not
note core of maximal object 0: 1 of 3 rows of TAKES are in the join of all its objects, 2 are not
  ('ann', 'logic')
  ('bob', 'db')
note core of maximal object 0: 1 of 2 rows of STUDENT_DEPT are in the join of all its objects, 1 are not
  ('bob', 'math')
note core of maximal object 0: 1 of 2 rows of COURSE_DEPT are in the join of all its objects, 1 are not
  ('logic', 'math')
";

fn scope(core: bool, objects: &[u8]) -> Scope {
    Scope {
        maximal: 0,
        core,
        objects: objects_of(objects),
    }
}

fn is_told(alloc: Global) -> Result<bool, NoMemory> {
    let Some(db) = stored(alloc, UNIVERSITY, ROWS)? else {
        return Ok(false);
    };
    let scopes = [scope(false, &[0, 1, 2, 3]), scope(true, &[0, 1, 2])];
    let text = dangling_text(alloc, &db, &scopes)?;
    Ok(text.as_slice() == TEXT.as_bytes())
}

#[test]
fn what_dangles_is_told(rt: HostRuntime) -> Result<(), Fail> {
    assert!(rt; is_told(rt.alloc())?);
    Ok(())
}
