//! Rows under a header.
ghost use Rattle.std.specs.Prelude.{◌≡◌, ◌<◌, length, All, IfOk};
ghost use Rattle.su_show.specs.Replies.{rows_text};

use std::alloc::Global;
use su_base::parts::{push, push_number};
use su_base::{List, NoMemory, Row, Str};
use su_csv::write_behind;

/// The number of the rows, then the CSV text of the header and the rows. Each row has the header's
/// length. The line and the CSV text are written into one buffer.
pub fn rows(alloc: Global, header: &[Str], rows: &[Row]) -> Result<List<u8>, NoMemory>
    ensures { IfOk result (λ text. text ≡ rows_text header.now rows.now) }
{
    let mut out = Vec::new(alloc);
    push(&mut out, "rows ")?;
    push_number(alloc, &mut out, rows.len() as u64)?;
    push(&mut out, "\n")?;
    write_behind(alloc, List::from_vec(out), header, rows)
}
