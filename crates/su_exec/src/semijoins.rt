//! Which rows of codes have a partner among others, by the semijoin of su_reduce.
ghost use Rattle.std.specs.Prelude.{◌≡◌, ◌<◌, ℕ, false, IfOk, IsTrue, length, get_or};
ghost use Rattle.su_reduce.specs.Sheets.{AreBelow};
ghost use Rattle.su_exec.specs.inside.Semijoins.{ArePartnered};

use std::alloc::{AllocError, Global};
use su_reduce::{Sheet, Side, partner_marks};

/// So many marks, all set.
fn all_marked(alloc: Global, count: usize) -> Result<Vec<bool>, AllocError>
    ensures length { IfOk result (λ marks. length marks.items ≡ count) }
    ensures all { IfOk result (λ marks. (i : ℕ) → i < count → IsTrue (get_or marks.items i false)) }
{
    let marks = vec![in alloc; true; count]?;
    Ok(marks)
}

/// Which rows on the left have a partner: a row on the right with their key.
pub fn with_partners(
    alloc: Global,
    left: &Sheet,
    left_key: &[usize],
    right: &Sheet,
    right_key: &[usize],
) -> Result<Vec<bool>, AllocError>
    requires left { AreBelow left_key.now left.now.width }
    requires right { AreBelow right_key.now right.now.width }
    requires keys { length left_key.now ≡ length right_key.now }
    ensures length { IfOk result (λ marks. length marks.items ≡ length left.now.rows) }
    ensures exact { IfOk result (λ marks. ArePartnered left.now.rows left_key.now right.now.rows right_key.now marks.items) }
{
    let all_left = all_marked(alloc, left.len())?;
    let all_right = all_marked(alloc, right.len())?;
    let left_side = Side {
        rows: left,
        marks: &all_left,
        key: left_key,
    };
    let right_side = Side {
        rows: right,
        marks: &all_right,
        key: right_key,
    };
    let marks = partner_marks(alloc, &left_side, &right_side)?;
    Ok(marks)
}
