//! Patrons' balances.

ghost use Rattle.std.specs.Prelude.{◌≡◌, ◌-◌, ◌^◌, ◌==◌, slice_index};
ghost use Rattle.std.specs.Prelude.{if◌then◌else◌};
ghost use Rattle.circ_audit.specs.Rows.{charge, credit};
ghost use Rattle.circ_audit.specs.Spans.{place_of, Sums, AreWithin, Adds, AddsRows};
ghost use Rattle.circ_audit.specs.Spans.{broken_after, next_after, is_passed, is_right};
ghost use Rattle.circ_audit.specs.Spans.{LooksAtRows};
ghost use Rattle.circ_audit.specs.Sound.{IsBalanced};

use crate::rows::is_charge;
use crate::spans::{Law, SPAN, SpanLook, is_after, lesser, span_of};
use terms::{LineRow, PatronRow, Tables};

/// The totals of a span's numbers, in cents.
#[derive(Drop)]
pub struct Totals {
    span: u16,
    sums: [u128; 65_536],
}

impl Totals {
    /// Makes a span with nothing added.
    fn new(span: u16) -> Totals
        ensures span { result.span ≡ span }
        ensures sums { Sums result (λ n. 0) }
        ensures within { AreWithin 0 result }
    {
        let sums = [0; 65_536];
        Totals { span, sums }
    }

    /// Adds an amount to a number's total, if it is in the span.
    fn add(&mut self, number: u32, amount: u64)
        requires { AreWithin (2 ^ 128 - 2 ^ 64) self.old }
        ensures { Adds (λ n. if number == n then amount else 0) self.old self.new }
    {
        if span_of(number) == self.span {
            self.sums[(number % SPAN) as usize] += u128::from(amount);
        }
    }

    /// Returns the total of a number.
    fn of(&self, number: u32) -> u128
        ensures { result ≡ slice_index self.now.sums (place_of number) }
    {
        self.sums[(number % SPAN) as usize]
    }
}

/// Adds a line to its patron's charges or credits.
fn add_line(line: &LineRow, charges: &mut Totals, credits: &mut Totals)
    requires charges { AreWithin (2 ^ 128 - 2 ^ 64) charges.old }
    requires credits { AreWithin (2 ^ 128 - 2 ^ 64) credits.old }
    ensures charges { Adds (charge line.now) charges.old charges.new }
    ensures credits { Adds (credit line.now) credits.old credits.new }
{
    let patron = line.patron.number();
    let amount = line.amount.number();
    if is_charge(line.sort) {
        charges.add(patron, amount);
    } else {
        credits.add(patron, amount);
    }
}

/// Adds the lines to empty totals.
fn add_lines(lines: &[LineRow], charges: &mut Totals, credits: &mut Totals)
    requires charges { AreWithin 0 charges.old }
    requires credits { AreWithin 0 credits.old }
    ensures charges { AddsRows charge lines.now charges.old charges.new }
    ensures credits { AddsRows credit lines.now credits.old credits.new }
{
    for line in lines {
        add_line(line, charges, credits);
    }
}

/// Returns whether a patron of the span owes the charges less the credits.
fn is_right(row: &PatronRow, charges: &Totals, credits: &Totals) -> bool
    ensures { result ≡ is_right row.now charges.now credits.now }
{
    let patron = row.patron.number();
    let charged = charges.of(patron);
    let credited = credits.of(patron);
    credited <= charged && charged - credited == u128::from(row.owed.number())
}

/// Checks a patron's row: is it in the span, and right unless it doesn't come after the other, or
/// in a later span?
fn look_at(
    row: &PatronRow,
    charges: &Totals,
    credits: &Totals,
    after: Option<u32>,
    look: &mut SpanLook,
)
    ensures broken { look.new.broken ≡ broken_after charges.now.span
        (is_passed after row.now.patron (is_right row.now charges.now credits.now))
        row.now.patron look.old.broken }
    ensures next { look.new.next ≡ next_after charges.now.span row.now.patron look.old.next }
{
    let patron = row.patron.number();
    let span = span_of(patron);
    if span == charges.span {
        if !is_right(row, charges, credits) && is_after(patron, after) {
            look.broken = lesser(look.broken, patron);
        }
    } else if span > charges.span {
        look.next = lesser(look.next, patron);
    }
}

/// Checks the patrons of the span after the other against their charges and credits.
fn look_at_patrons(
    rows: &[PatronRow],
    charges: &Totals,
    credits: &Totals,
    after: Option<u32>,
) -> SpanLook
    ensures { LooksAtRows after rows.now charges.now credits.now result }
{
    let mut look = SpanLook {
        broken: None,
        next: None,
    };
    for row in rows {
        look_at(row, charges, credits, after, &mut look);
    }
    look
}

/// Each patron owes the charges less the credits.
pub struct Balanced;

impl Law for Balanced {
    ghost keeps = { IsBalanced };

    fn look(tables: &Tables, span: u16, after: Option<u32>) -> SpanLook {
        let mut charges = Totals::new(span);
        let mut credits = Totals::new(span);
        add_lines(tables.lines.as_slice(), &mut charges, &mut credits);
        look_at_patrons(tables.patrons.as_slice(), &charges, &credits, after)
    }
}
