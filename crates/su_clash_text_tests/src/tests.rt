use std::alloc::Global;
use std::test::Fail;
use su_base::NoMemory;
use su_cases::stored;
use su_clash::find_clash;
use su_clash_text::clash_text;

/// Students take courses, and each student and each course has one department.
const UNIVERSITY: &str = "\
attribute STUDENT text; attribute COURSE text; attribute DEPT text;
relation TAKES (S text, C text); object TAKES (STUDENT, COURSE) from TAKES (S, C);
relation SD (S text, D text); object STUDENT_DEPT (STUDENT, DEPT) from SD (S, D);
relation CD (C text, D text); object COURSE_DEPT (COURSE, DEPT) from CD (C, D);
fd STUDENT -> DEPT; fd COURSE -> DEPT;
";

const ROWS: &[(&str, &str)] = &[
    ("TAKES", "bob logic"),
    ("TAKES", "ann db"),
    ("SD", "ann math"),
    ("CD", "db cs"),
];

const TEXT: &str = "\
fault no universal relation has these rows: 'math' and 'cs' would be equal
  ('ann', 'db') of TAKES and ('ann', 'math') of STUDENT_DEPT agree on STUDENT, so on DEPT
  ('ann', 'db') of TAKES and ('db', 'cs') of COURSE_DEPT agree on COURSE, so on DEPT
  maybe not the shortest
";

fn is_told(alloc: Global) -> Result<bool, NoMemory> {
    let Some(db) = stored(alloc, UNIVERSITY, ROWS)? else {
        return Ok(false);
    };
    let Ok(Some(found)) = find_clash(alloc, &db) else {
        return Ok(false);
    };
    let text = clash_text(alloc, &db, &found)?;
    Ok(text.as_slice() == TEXT.as_bytes())
}

#[test]
fn a_clash_is_told_step_by_step(rt: HostRuntime) -> Result<(), Fail> {
    assert!(rt; is_told(rt.alloc())?);
    Ok(())
}
