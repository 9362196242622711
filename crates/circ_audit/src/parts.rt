//! The parts of an audit, in its order.

ghost use Rattle.std.specs.Prelude.{◌≡◌, ◌+◌, ◌≤◌, MatchOption};
ghost use Rattle.circ_audit.specs.Findings.{PartLaw, place_of_part};
ghost use Rattle.circ_audit.specs.Spans.{FailsAfter};
ghost use Rattle.circ_audit.specs.declared.parts.Part.{Part};

use crate::balance::Balanced;
use crate::bindings::first_unbound;
use crate::claims::ClaimedOnce;
use crate::numbers::{Series, first_in};
use crate::references::{Table, first_of};
use crate::spans::first_broken;
use terms::Tables;

/// A law, for one table if it speaks of several: its numbers are searched in order.
#[derive(Clone, Copy, Debug, PartialEq, Eq)]
pub enum Part {
    Claims,
    Bindings,
    Balances,
    References(Table),
    Numbers(Series),
}

impl Part {
    /// Returns the next part in the order of the audit.
    pub(crate) fn next(self) -> Option<Part>
        ensures { MatchOption result ((part : Part) → place_of_part part ≤ place_of_part self)
            (λ next. place_of_part next ≡ place_of_part self + 1) }
    {
        match self {
            Part::Claims => Some(Part::Bindings),
            Part::Bindings => Some(Part::Balances),
            Part::Balances => Some(Part::References(Table::ClosedDays)),
            Part::References(table) => match table.next() {
                Some(next) => Some(Part::References(next)),
                None => Some(Part::Numbers(Series::Loans)),
            },
            Part::Numbers(series) => match series.next() {
                Some(next) => Some(Part::Numbers(next)),
                None => None,
            },
        }
    }
}

/// Returns the least number after the other for which the law of the part fails.
pub fn first_wrong(tables: &Tables, part: Part, after: Option<u32>) -> Option<u32>
    ensures { FailsAfter after (PartLaw tables.now part) result }
{
    match part {
        Part::Claims => first_broken::<ClaimedOnce>(tables, after),
        Part::Bindings => first_unbound(tables, after),
        Part::Balances => first_broken::<Balanced>(tables, after),
        Part::References(table) => first_of(tables, table, after),
        Part::Numbers(series) => first_in(tables, series, after),
    }
}
