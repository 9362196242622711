//! Ending holds.

ghost use Rattle.std.specs.Prelude.{◌≡◌};
ghost use Rattle.circ_core.specs.Holds.{finished};

use crate::routing::limit_day;
use terms::{HoldRow, HoldState};

/// Puts a hold in a final state.
pub(crate) fn finish(hold: HoldRow, state: HoldState) -> HoldRow
    ensures { result ≡ finished hold state }
{
    let mut row = hold;
    row.state = state;
    row.copy = None;
    row.limit_day = None;
    row
}
