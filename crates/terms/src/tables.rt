//! The rows of each table, as read.

ghost use Rattle.std.specs.Prelude.{◌≡◌, ◌↔◌, [], IfOk, IfErr, IsTrue};
ghost use Rattle.terms.specs.Orders.{IsOrdered};

use crate::fault::Fault;
use crate::order::Ordered;
use crate::row::{
    BarcodeRow, BranchRow, ClosedDayRow, CopyRow, HoldRow, KeptRow, KindRow, LineRow, LoanRow,
    MetaRow, NoteRow, PatronRow, RuleRow, TitleRow, TransitRow,
};
use std::alloc::Global;
use std::marker::Model;

/// The rows of one table, ordered by key.
#[derive(Drop)]
pub struct Rows<T: Ordered> {
    rows: Vec<T>,
}

impl<T: Ordered> Model for Rows<T> {
    ghost use Rattle.std.specs.Prelude.{List};
    ghost use Rattle.terms.specs.Orders.{IsOrdered};

    ghost Value = { List T };

    ghost view = { λ a. a.rows.items };

    ghost invariant = { λ a. IsOrdered T.comes_before a.rows.items };
}

/// Returns whether each row comes before all later ones. Compares only neighbours.
fn are_ordered<T: Ordered>(rows: &[T]) -> bool
    ensures { IsTrue result ↔ IsOrdered T.comes_before rows.now }
{
    for at in 1..rows.len() {
        if !rows[at - 1].comes_before(&rows[at]) {
            return false;
        }
    }
    true
}

impl<T: Ordered> Rows<T> {
    /// Makes the rows of a table. 93 if they aren't in ascending key order, as in a damaged table.
    pub fn new(rows: Vec<T>) -> Result<Rows<T>, Fault>
        ensures ok { IfOk result
            (λ taken. (taken ≡ rows.items) × IsOrdered T.comes_before rows.items) }
        ensures err { IfErr result
            (λ fault. (fault ≡ Fault.Stored) × ¬ IsOrdered T.comes_before rows.items) }
    {
        if are_ordered(rows.as_slice()) {
            Ok(Rows { rows })
        } else {
            Err(Fault::Stored)
        }
    }

    /// Makes an empty table.
    pub fn empty(alloc: Global) -> Rows<T>
        ensures { result ≡ [] }
    {
        Rows {
            rows: Vec::new(alloc),
        }
    }

    /// Returns the rows.
    pub fn as_slice(&self) -> &[T]
        ensures rows { result.now ≡ self.now }
        ensures ordered { IsOrdered T.comes_before result.now }
    {
        self.rows.as_slice()
    }
}

/// Rows of each of the fifteen tables: all of them, or those asked for, as the reading call says.
#[derive(Drop)]
pub struct Tables {
    pub meta: MetaRow,
    pub branches: Rows<BranchRow>,
    pub closed_days: Rows<ClosedDayRow>,
    pub kinds: Rows<KindRow>,
    pub rules: Rows<RuleRow>,
    pub patrons: Rows<PatronRow>,
    pub titles: Rows<TitleRow>,
    pub copies: Rows<CopyRow>,
    pub loans: Rows<LoanRow>,
    pub holds: Rows<HoldRow>,
    pub transits: Rows<TransitRow>,
    pub lines: Rows<LineRow>,
    pub kept: Rows<KeptRow>,
    pub barcodes: Rows<BarcodeRow>,
    pub notes: Rows<NoteRow>,
}
