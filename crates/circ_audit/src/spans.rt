//! Checking numbers span by span, so that no memory is taken.

ghost use Rattle.std.specs.Prelude.{◌≡◌, Some};
ghost use Rattle.circ_audit.specs.Spans.{span_of, first_span, lesser_of, is_after};
ghost use Rattle.circ_audit.specs.Spans.{HoldsAfter, FailsAfter, LooksAt};

use terms::Tables;

/// The number of numbers in a span.
pub const SPAN: u32 = 65_536;

/// The finding in a span: its least number that breaks the law, and the least number to check in
/// later spans.
#[derive(Clone, Copy)]
pub struct SpanLook {
    pub broken: Option<u32>,
    pub next: Option<u32>,
}

/// A law of each number.
pub trait Law {
    ghost use Rattle.std.specs.Prelude.{ℕ};
    ghost use Rattle.terms.specs.declared.tables.Tables.{Tables};

    ghost keeps: { Tables → ℕ → Type 0 };

    /// Checks the numbers of a span that come after the other.
    fn look(tables: &Tables, span: u16, after: Option<u32>) -> SpanLook
        ensures { LooksAt (HoldsAfter after (keeps tables.now)) span result };
}

/// Returns the span of a number.
pub fn span_of(number: u32) -> u16
    ensures { result ≡ span_of number }
{
    (number / SPAN) as u16
}

/// Returns whether a number comes after the other, if there is one.
pub fn is_after(number: u32, other: Option<u32>) -> bool
    ensures { result ≡ is_after other number }
{
    match other {
        Some(other) => other < number,
        None => true,
    }
}

/// Returns the span to begin with for the numbers after the other.
fn first_span(after: Option<u32>) -> u16
    ensures { result ≡ first_span after }
{
    match after {
        Some(number) => span_of(number),
        None => 0,
    }
}

/// Returns the lesser of an optional number and a number.
pub fn lesser(first: Option<u32>, number: u32) -> Option<u32>
    ensures { result ≡ Some (lesser_of first number) }
{
    match first {
        Some(other) if other <= number => Some(other),
        _ => Some(number),
    }
}

/// Returns the least number after the other that breaks the law. Takes one look per span from there
/// on that has anything to check.
pub fn first_broken<L: Law>(tables: &Tables, after: Option<u32>) -> Option<u32>
    ensures { FailsAfter after (L.keeps tables.now) result }
{
    let mut span = first_span(after);
    loop {
        let look = L::look(tables, span, after);
        if look.broken.is_some() {
            return look.broken;
        }
        match look.next {
            Some(next) => span = span_of(next),
            None => return None,
        }
    }
}
