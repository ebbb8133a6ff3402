//! What a command changes.
ghost use Rattle.su_effects.specs.inside.Statements.{IsChange};

use su_base::{List, Row};
use su_changes::Change;

/// What an accepted command changes.
#[derive(Drop)]
pub enum Effect {
    /// No row, and the schema stays.
    Nothing,
    /// The schema, by a definition; the rows stay.
    Defines,
    /// Rows, and the schema stays.
    Changes(Change),
}

/// These rows are put into the relation, or taken out of it; nothing without a row.
pub(crate) fn change(relation: u8, rows: List<Row>, is_in: bool) -> Effect
    ensures { IsChange relation rows is_in result }
{
    if rows.is_empty() {
        return Effect::Nothing;
    }
    Effect::Changes(Change {
        relation,
        rows,
        is_in,
    })
}
