ghost use Rattle.std.specs.Prelude.{◌≡◌, true, None};
ghost use Rattle.std.specs.Cmp.Lexicographic.{slice_cmp};
ghost use Rattle.std.specs.Map.{lookup};
ghost use Rattle.std.specs.BTreeMap.{is_at};

use dbn_value::{Cell, Row};
use std::collections::BTreeMap;

/// Whether the row stands behind all that are there, by one comparison. Rows with a fresh id do, which are the most that come.
pub(crate) fn is_behind<C: Cell, V>(rows: &BTreeMap<Row<C>, V>, row: &Row<C>) -> bool
    ensures { result ≡ true → lookup (is_at (slice_cmp C.cmp row.now)) rows.now.entries ≡ None }
{
    match rows.last_key_value() {
        Some((last, _value)) => {
            return row.cmp(last).is_gt();
        }
        None => {
            return true;
        }
    }
}
