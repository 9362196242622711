//! Claims on copies.

ghost use Rattle.std.specs.Prelude.{Some};
ghost use Rattle.circ_audit.specs.Rows.{lent_copy, shelved_copy, travelling_copy, absent_copy};
ghost use Rattle.circ_audit.specs.Sound.{IsClaimedOnce};

use crate::counters::{Names, SpanCounters};
use crate::rows::{is_present, is_ready};
use crate::spans::{Law, SpanLook};
use terms::{CopyId, CopyRow, HoldRow, LoanRow, Tables, TransitRow};

/// An open loan claims its copy.
impl Names<CopyId> for LoanRow {
    ghost named = { lent_copy };

    fn named(&self) -> Option<u32> {
        if self.ended.is_none() {
            Some(self.copy.number())
        } else {
            None
        }
    }
}

/// A ready hold claims the copy that its row names.
impl Names<CopyId> for HoldRow {
    ghost named = { shelved_copy };

    fn named(&self) -> Option<u32> {
        if is_ready(self.state) {
            self.copy.map(CopyId::number)
        } else {
            None
        }
    }
}

/// A transit claims its copy.
impl Names<CopyId> for TransitRow {
    ghost named = { travelling_copy };

    fn named(&self) -> Option<u32> {
        Some(self.copy.number())
    }
}

/// A condition other than present claims its copy.
impl Names<CopyId> for CopyRow {
    ghost named = { absent_copy };

    fn named(&self) -> Option<u32> {
        if is_present(self.condition) {
            None
        } else {
            Some(self.copy.number())
        }
    }
}

/// Each copy has at most one claim.
pub struct ClaimedOnce;

impl Law for ClaimedOnce {
    ghost keeps = { IsClaimedOnce };

    fn look(tables: &Tables, span: u16, after: Option<u32>) -> SpanLook {
        let mut counters = SpanCounters::new(span);
        counters.tally::<CopyId, LoanRow>(tables.loans.as_slice());
        counters.tally::<CopyId, HoldRow>(tables.holds.as_slice());
        counters.tally::<CopyId, TransitRow>(tables.transits.as_slice());
        counters.tally::<CopyId, CopyRow>(tables.copies.as_slice());
        counters.look(after)
    }
}
