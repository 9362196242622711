//! The patrons whose pages show a title.

ghost use Rattle.std.specs.Prelude.{◌≡◌, ◌++◌, IfOk, map};
ghost use Rattle.desk.specs.Answering.{Learns};
ghost use Rattle.desk.specs.Touching.{Adds, AreExactly, HasLoanOf, HasLoanAmong};
ghost use Rattle.desk.specs.Touching.{IsReader, IsReaderFor, borrower_of};

use crate::touching::Touched;
use sqlite::Alter;
use std::alloc::Global;
use store::Store;
use terms::{Command, CopyId, CopyRow, Fault, HoldRow, LoanRow, Memory, TitleId};

/// Adds the patron of a loan, if there is one.
fn add_patron(loan: &Option<LoanRow>, readers: &mut Touched) -> Result<(), Memory>
    ensures { IfOk result (λ _. readers.new ≡ readers.old ++ borrower_of loan.now) }
{
    match loan {
        Some(row) => readers.push(row.patron),
        None => Ok(()),
    }
}

/// Adds the patron to whom a copy is lent, if it is. Faults 90, 91, 93.
fn add_borrower<S: Alter>(
    store: &mut Store<S>,
    copy: CopyId,
    readers: &mut Touched,
) -> Result<(), Fault>
    ensures { Learns (λ H _. Adds (HasLoanOf H copy) readers.old readers.new)
        S.Store store.old store.new result }
{
    let loan = store.open_loan(copy)?;
    add_patron(&loan, readers)?;
    Ok(())
}

/// Adds the patrons to whom these copies are lent. Faults 90, 91, 93.
fn add_borrowers<S: Alter>(
    store: &mut Store<S>,
    copies: &[CopyRow],
    readers: &mut Touched,
) -> Result<(), Fault>
    ensures { Learns (λ H _. Adds (HasLoanAmong H copies.now) readers.old readers.new)
        S.Store store.old store.new result }
{
    'copies: for copy in copies {
        add_borrower(store, copy.copy, readers)?;
    }
    Ok(())
}

/// Adds the patrons of these holds.
fn add_holders(holds: &[HoldRow], readers: &mut Touched) -> Result<(), Memory>
    ensures { IfOk result (λ _. readers.new ≡ readers.old ++ map (λ r. r.patron) holds.now) }
{
    'holds: for hold in holds {
        readers.push(hold.patron)?;
    }
    Ok(())
}

/// Returns the patrons with an open loan of a copy of the title, and those with an active hold on
/// it, and nobody else. Faults 90, 91, 93.
fn title_readers<S: Alter>(
    store: &mut Store<S>,
    alloc: Global,
    title: TitleId,
) -> Result<Touched, Fault>
    ensures { Learns (λ H readers. AreExactly (IsReader H title) readers)
        S.Store store.old store.new result }
{
    let mut readers = Touched::none(alloc);
    let copies = store.title_copies(alloc, title)?;
    add_borrowers(store, &copies, &mut readers)?;
    let holds = store.title_holds(alloc, title)?;
    add_holders(&holds, &mut readers)?;
    Ok(readers)
}

/// Returns the patrons whose pages show what the command changes beside the rows that it puts: the
/// readers of a title whose text it changes. Faults 90, 91, 93.
pub(crate) fn readers_of<S: Alter>(
    store: &mut Store<S>,
    alloc: Global,
    command: &Command,
) -> Result<Touched, Fault>
    ensures { Learns (λ H readers. AreExactly (IsReaderFor H command.now) readers)
        S.Store store.old store.new result }
{
    match command {
        Command::AmendTitle { title, .. } => title_readers(store, alloc, *title),
        _ => Ok(Touched::none(alloc)),
    }
}
