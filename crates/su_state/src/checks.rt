//! Whether a row fits its relation's columns.
ghost use Rattle.std.specs.Prelude.{◌≡◌, ◌≤◌, ◌↔◌, length, IsTrue, OnOk, IfErr};
ghost use Rattle.su_base.specs.Value.{kind_of};
ghost use Rattle.su_state.specs.DatabaseValue.{HasColumnKinds};
ghost use Rattle.su_state.specs.UnfitRows.{IsUnfit};

use crate::faults::StateFault;
use su_base::{Column, Kind, Row, Value};

/// Whether the value has the kind.
fn has_kind(value: &Value, kind: Kind) -> bool
    ensures { IsTrue result ↔ (kind_of value.now ≡ kind) }
{
    value.kind() == kind
}

/// Refuses a row of another width, then one with a value of another kind.
pub fn check_row(relation: u8, columns: &[Column], row: &Row) -> Result<(), StateFault>
    requires { length columns.now ≤ 32 }
    ensures ok { OnOk result (HasColumnKinds columns.now row.now) }
    ensures refused { IfErr result (IsUnfit relation columns.now row.now) }
{
    if row.len() != columns.len() {
        return Err(StateFault::Width {
            relation,
            given: row.len() as u64,
        });
    }
    for column in 0..columns.len() {
        if !has_kind(row.get(column), columns[column].kind) {
            return Err(StateFault::Kind {
                relation,
                column: column as u8,
            });
        }
    }
    Ok(())
}
