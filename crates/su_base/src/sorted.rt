//! Values and rows in their order, each once.
ghost use Rattle.std.specs.Prelude.{◌≡◌, ◌↔◌, List as Items};
ghost use Rattle.std.specs.List.{Contains};
ghost use Rattle.std.specs.List.Sorted.{IsStrictlySortedBy};
ghost use Rattle.su_base.specs.declared.values.Value.{Value as AValue};
ghost use Rattle.su_base.specs.Value.{compare_values, compare_lists};

use crate::lists::List;
use crate::values::{Row, Value};

/// The values in ascending order, each once. It takes no memory.
pub fn sorted_values(values: List<Value>) -> List<Value>
    ensures members { (v : AValue) → Contains result v ↔ Contains values v }
    ensures ascending { IsStrictlySortedBy compare_values result }
{
    let mut all = values.into_vec();
    all.sort_unstable();
    all.dedup();
    List::from_vec(all)
}

/// The rows in ascending order, each once. It takes no memory.
pub fn sorted_rows(rows: List<Row>) -> List<Row>
    ensures members { (row : Items AValue) → Contains result row ↔ Contains rows row }
    ensures ascending { IsStrictlySortedBy compare_lists result }
{
    let mut all = rows.into_vec();
    all.sort_unstable();
    all.dedup();
    List::from_vec(all)
}
