//! The condition of a copy.

ghost use Rattle.std.specs.Prelude.{◌≡◌, ◌≤◌, length};
ghost use Rattle.circ_core.specs.Condition.{is_missing, is_withdrawn, condition_rows};

use crate::changes::{Changes, RowChange};
use terms::{Condition, CopyRow};

pub(crate) fn is_withdrawn(copy: &Option<CopyRow>) -> bool
    ensures { result ≡ is_withdrawn copy.now }
{
    match copy {
        Some(row) => row.condition == Condition::Withdrawn,
        None => false,
    }
}

pub(crate) fn is_missing(copy: &Option<CopyRow>) -> bool
    ensures { result ≡ is_missing copy.now }
{
    match copy {
        Some(row) => row.condition == Condition::Missing,
        None => false,
    }
}

/// Puts the copy in its new condition.
pub(crate) fn copy_changes<'a>(copy: &Option<CopyRow>, condition: Condition) -> Changes<'a>
    ensures rows { result ≡ condition_rows copy.now condition }
    ensures few { length result ≤ 1 }
{
    match copy {
        Some(row) => {
            let mut changed = *row;
            changed.condition = condition;
            Changes::one(RowChange::PutCopy(changed))
        }
        None => Changes::none(),
    }
}
