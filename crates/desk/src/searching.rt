//! Searches the desk can make: rows found from a number on, at most a hundred, among a bounded
//! number of rows, and an end that says where to go on.

ghost use Rattle.std.specs.Prelude.{◌≡◌, ◌++◌, [], map, IfOk, string_bytes};
ghost use Rattle.model.specs.History.{History};
ghost use Rattle.model.specs.Asking.{searched, last_of, above};
ghost use Rattle.model.specs.AskingLaws.{AreRising};
ghost use Rattle.desk.specs.Answering.{Learns};
ghost use Rattle.desk.specs.Searching.{is_full, IsTaken, SearchGoesOn, HasSearched, IsNextBatch};
ghost use Rattle.desk.specs.Searching.{HasListed, IsShownIf, stop_words};

use finding::is_found;
use sqlite::Alter;
use std::alloc::Global;
use store::{BATCH_ROWS, Store};
use terms::{Fault, MOST_LOOKED_AT, MOST_ROWS, Memory};

/// A table that can be searched by a text of its rows.
pub(crate) trait Searched {
    ghost use Rattle.std.specs.Prelude.{◌≡◌, ℕ, List, IfOk, string_bytes};
    ghost use Rattle.model.specs.History.{History};
    ghost use Rattle.model.specs.Asking.{Search};
    ghost use Rattle.desk.specs.Answering.{Learns};
    ghost use Rattle.desk.specs.Searching.{HasListed, IsFoundBy, IsShownAs};

    /// A row of the table.
    type Row: Drop;

    /// The search for a query after a history.
    ghost search: { History → List ℕ → Search };

    ghost number_of: { Self.Row → ℕ };

    ghost IsRow: { Self.Row → History → Type 0 };

    /// Returns a row's number.
    fn number(row: &Self::Row) -> u32
        ensures { result ≡ number_of row.now };

    /// Returns the text by which a row is found.
    fn text(row: &Self::Row) -> &str
        ensures { (H : History) → IsRow row.now H
            → IsFoundBy (search H) (number_of row.now) result.now };

    /// Makes the line of a row.
    fn line(alloc: Global, row: &Self::Row) -> Result<String, Memory>
        ensures { IfOk result (λ line. (H : History) → IsRow row.now H
            → IsShownAs (search H) (number_of row.now) (string_bytes line)) };

    /// Reads a batch of rows above a number, in order. Faults 90, 91, 93.
    fn batch<S: Alter>(
        store: &mut Store<S>,
        alloc: Global,
        after: u32,
    ) -> Result<Vec<Self::Row>, Fault>
        ensures { Learns (λ H rows. (query : List ℕ)
            → HasListed number_of (λ r. IsRow r H) (search H query).all after rows.items)
            S.Store store.old store.new result };
}

/// What a search shows, as far as it went.
#[derive(Drop)]
pub(crate) struct Findings {
    /// The rows found, a newline after each.
    text: String,
    /// Their number.
    rows: u32,
    /// The number of rows looked at.
    looked_at: u32,
    /// The number of the last one.
    last: u32,
    /// Whether there are more.
    more: bool,
}

impl Findings {
    /// Returns whether the search stops.
    fn is_full(&self) -> bool
        ensures { result ≡ is_full self.now }
    {
        self.rows >= MOST_ROWS || self.looked_at >= MOST_LOOKED_AT
    }

    /// Returns the rows with their end.
    fn with_end(self, alloc: Global) -> Result<String, Memory>
        ensures { IfOk result
            (λ text. string_bytes text ≡ string_bytes self.text ++ stop_words self) }
    {
        let Findings {
            mut text,
            last,
            more,
            ..
        } = self;
        if more {
            let end = format!(in alloc; "after {last}")?;
            text.push_str(&end)?;
        } else {
            text.push_str("end")?;
        }
        Ok(text)
    }
}

/// Adds the line of a row to a text, if the query finds it. Returns whether it does.
fn show_if_found<T: Searched>(
    alloc: Global,
    query: &str,
    row: &T::Row,
    text: &mut String,
) -> Result<bool, Memory>
    ensures { IfOk result (λ found. (H : History) → T.IsRow row.now H
        → IsShownIf (T.search H query.now) (T.number_of row.now) found (string_bytes text.old)
        (string_bytes text.new)) }
{
    if !is_found(query, T::text(row)) {
        return Ok(false);
    }
    let line = T::line(alloc, row)?;
    text.push_str(&line)?;
    text.push('\n')?;
    Ok(true)
}

/// Looks at a row, or after the last one notes that there are more.
fn look_at<T: Searched>(
    alloc: Global,
    query: &str,
    row: &T::Row,
    seen: &mut Findings,
) -> Result<(), Memory>
    ensures { IfOk result (λ _. (H : History) → T.IsRow row.now H
        → IsTaken (T.search H query.now) (T.number_of row.now) seen.old seen.new) }
{
    if seen.is_full() {
        seen.more = true;
        return Ok(());
    }
    let found = show_if_found::<T>(alloc, query, row, &mut seen.text)?;
    seen.rows += u32::from(found);
    seen.looked_at += 1;
    seen.last = T::number(row);
    Ok(())
}

/// Looks at the rows of a batch in order.
fn look_at_all<T: Searched>(
    alloc: Global,
    query: &str,
    rows: &[T::Row],
    seen: &mut Findings,
) -> Result<(), Memory>
    ensures { IfOk result (λ _. (H : History) (at : _)
        → HasListed T.number_of (λ r. T.IsRow r H) (T.search H query.now).all at rows.now
        → SearchGoesOn (T.search H query.now) at (last_of at (map T.number_of rows.now))
        seen.old seen.new) }
{
    'rows: for row in rows {
        look_at::<T>(alloc, query, row, seen)?;
    }
    Ok(())
}

/// Returns the last row's number in a batch, if more is to be read after it.
fn next_from<T: Searched>(batch: &[T::Row], seen: &Findings) -> Option<u32>
    ensures { IsNextBatch T.number_of batch.now seen.now result }
{
    if seen.more || batch.len() < BATCH_ROWS {
        return None;
    }
    match batch.last() {
        Some(row) => Some(T::number(row)),
        None => None,
    }
}

/// Looks at the rows above this number, batch by batch, until the search stops. Faults 90, 91, 93.
fn search<T: Searched, S: Alter>(
    store: &mut Store<S>,
    alloc: Global,
    query: &str,
    after: u32,
) -> Result<Findings, Fault>
    ensures { Learns (λ H seen. HasSearched (T.search H query.now) [] after
        (above after (T.search H query.now).all.numbers) seen)
        S.Store store.old store.new result }
{
    let mut seen = Findings {
        text: String::new(alloc),
        rows: 0,
        looked_at: 0,
        last: after,
        more: false,
    };
    let mut at = after;
    'batches: for _batch in 0..u64::MAX {
        let batch = T::batch(store, alloc, at)?;
        look_at_all::<T>(alloc, query, batch.as_slice(), &mut seen)?;
        match next_from::<T>(batch.as_slice(), &seen) {
            Some(last) => at = last,
            None => return Ok(seen),
        }
    }
    Ok(seen)
}

/// Returns what a search shows from a number on. Faults 90, 91, 93.
pub(crate) fn search_text<T: Searched, S: Alter>(
    store: &mut Store<S>,
    alloc: Global,
    query: &str,
    after: u32,
) -> Result<String, Fault>
    ensures { Learns (λ H text. AreRising (T.search H query.now).all.numbers
        → (T.search H query.now).all.head ≡ []
        → string_bytes text ≡ searched (T.search H query.now) after)
        S.Store store.old store.new result }
{
    let seen = search::<T, S>(store, alloc, query, after)?;
    Ok(seen.with_end(alloc)?)
}
