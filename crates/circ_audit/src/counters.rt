//! Counters for a span's numbers.

ghost use Rattle.std.specs.Prelude.{◌≡◌, ◌+◌, ◌*◌, ◌<◌, ◌≤◌, ℕ, count_by, if◌then◌else◌};
ghost use Rattle.circ_audit.specs.Rows.{names};
ghost use Rattle.circ_audit.specs.Spans.{ShowsCounts, CountsMore, HoldsAfter, LooksAt, FailsOn};

use crate::spans::{SPAN, SpanLook, is_after, lesser, span_of};

/// Rows that may name a number.
pub trait Names<N> {
    ghost use Rattle.std.specs.Prelude.{ℕ, Option};

    ghost named: { Self → Option ℕ };

    /// Returns the number that the row names.
    fn named(&self) -> Option<u32>
        ensures { result ≡ named self.now };
}

/// Counters for a span's numbers, which stop at two, and the least number counted in later spans.
#[derive(Drop)]
pub struct SpanCounters {
    span: u16,
    counters: [u8; 65_536],
    next: Option<u32>,
}

impl SpanCounters {
    /// Makes a span with nothing counted.
    pub fn new(span: u16) -> SpanCounters
        ensures span { result.span ≡ span }
        ensures shows { ShowsCounts result (λ n. 0) }
    {
        let counters = [0; 65_536];
        SpanCounters {
            span,
            counters,
            next: None,
        }
    }

    /// Counts the named number, if any.
    fn count(&mut self, named: Option<u32>)
        ensures { CountsMore (λ n. if names named n then 1 else 0) self.old self.new }
    {
        let Some(number) = named else {
            return;
        };
        let span = span_of(number);
        if span == self.span {
            let place = (number % SPAN) as usize;
            if self.counters[place] < 2 {
                self.counters[place] += 1;
            }
        } else if span > self.span {
            self.next = lesser(self.next, number);
        }
    }

    /// Counts the numbers that the rows name.
    pub fn tally<N, R: Names<N>>(&mut self, rows: &[R])
        ensures { CountsMore (λ n. count_by (λ r. names (R.named r) n) rows.now) self.old self.new }
    {
        for row in rows {
            self.count(row.named());
        }
    }

    /// Returns the number at a place of the span.
    fn number_at(&self, place: usize) -> u32
        requires { place < 65536 }
        ensures { result ≡ self.now.span * 65536 + place }
    {
        u32::from(self.span) * SPAN + place as u32
    }

    /// Returns the span's least number after the other that was counted twice.
    fn twice(&self, after: Option<u32>) -> Option<u32>
        ensures { (times : ℕ → ℕ) → ShowsCounts self.now times
            → FailsOn (HoldsAfter after (λ n. times n ≤ 1)) self.now.span result }
    {
        for (place, counter) in self.counters.iter().enumerate() {
            if *counter > 1 && is_after(self.number_at(place), after) {
                return Some(self.number_at(place));
            }
        }
        None
    }

    /// Checks whether a number of the span that comes after the other was counted twice.
    pub fn look(&self, after: Option<u32>) -> SpanLook
        ensures { (times : ℕ → ℕ) → ShowsCounts self.now times
            → LooksAt (HoldsAfter after (λ n. times n ≤ 1)) self.now.span result }
    {
        SpanLook {
            broken: self.twice(after),
            next: self.next,
        }
    }
}
