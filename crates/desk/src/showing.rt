//! What patrons are shown: who is enrolled, and each one's page.

ghost use Rattle.std.specs.Prelude.{◌≡◌, map, IfOk};
ghost use Rattle.desk.specs.Answering.{Learns};
ghost use Rattle.desk.specs.Showing.{own_page as own_page_of, AreEnrolled};

use crate::patron_page::show_row;
use sqlite::Alter;
use std::alloc::Global;
use store::Store;
use terms::{CardKey, Fault, Memory, PatronId, PatronRow, Reply};

/// What a patron is shown: the card key that opens the page, and the reply to `page`.
#[derive(Drop)]
pub struct OwnPage {
    pub card_key: CardKey,
    pub reply: Reply,
}

/// Returns the patrons' numbers in these rows.
fn numbers(alloc: Global, rows: &[PatronRow]) -> Result<Vec<PatronId>, Memory>
    ensures { IfOk result (λ numbers. numbers.items ≡ map (λ r. r.patron) rows.now) }
{
    let mut numbers = Vec::new(alloc);
    'rows: for row in rows {
        numbers.push(row.patron)?;
    }
    Ok(numbers)
}

/// Lists the enrolled patrons by number. Faults 90, 91, 93.
pub(crate) fn patrons<S: Alter>(store: &mut Store<S>, alloc: Global) -> Result<Vec<PatronId>, Fault>
    ensures { Learns (λ H patrons. AreEnrolled H patrons.items)
        S.Store store.old store.new result }
{
    let rows = store.patrons(alloc)?;
    Ok(numbers(alloc, rows.as_slice())?)
}

/// Returns a patron's page with the card key that opens it, if the patron exists. Faults 90, 91,
/// 93.
pub(crate) fn own_page<S: Alter>(
    store: &mut Store<S>,
    alloc: Global,
    patron: PatronId,
) -> Result<Option<OwnPage>, Fault>
    ensures { Learns (λ H page. page ≡ own_page_of H patron) S.Store store.old store.new result }
{
    match store.patron(alloc, patron)? {
        Some(row) => {
            let reply = show_row(store, alloc, &row, patron)?;
            let PatronRow { card_key, .. } = row;
            Ok(Some(OwnPage { card_key, reply }))
        }
        None => Ok(None),
    }
}
