//! Where copies are, for the desk's questions: one copy, those of a title, those on their way to a
//! branch.

ghost use Rattle.std.specs.Prelude.{◌≡◌, IfOk, string_bytes, codes, decimal, ◌∷◌, []};
ghost use Rattle.model.specs.Pages.{spaced};
ghost use Rattle.std.specs.Prelude.{Some, IfSome, is_some, option_map, true};
ghost use Rattle.circ_core.specs.Views.{IsCopyView};
ghost use Rattle.model.specs.Asking.{patron_words, patron_at as patron_at_place};
ghost use Rattle.model.specs.Asking.{place_line as place_line_of};
ghost use Rattle.model.specs.Picture.{picture};
ghost use Rattle.model.specs.Places.{place as place_in_history, patron_of_hold as patron_of};
ghost use Rattle.desk.specs.Answering.{LearnsIf};
ghost use Rattle.desk.specs.Placing.{unclaimed, place_in, words_of, copy_words, travel_words};
ghost use Rattle.desk.specs.Placing.{IsAt, after_space, two_lines};

use crate::patron_page::{add_line, title_row};
use circ_core::View;
use sqlite::Alter;
use std::alloc::Global;
use store::Store;
use terms::{
    BranchId, Condition, CopyId, CopyRow, Day, Fault, HoldId, LoanId, Memory, PatronId, PatronRow,
    TitleRow, TransitRow,
};

/// Where a copy is, and for whom.
#[derive(Clone, Copy, Debug, PartialEq, Eq)]
pub(crate) enum CopyPlace {
    Shelf {
        branch: BranchId,
    },
    HoldShelf {
        hold: HoldId,
        branch: BranchId,
        until: Day,
        patron: PatronId,
    },
    Transit {
        goal: BranchId,
        hold: Option<HoldId>,
    },
    Loan {
        loan: LoanId,
        due: Day,
        patron: PatronId,
    },
    Missing,
    Withdrawn,
}

/// Returns the place of a copy that nothing claims.
fn unclaimed(copy: &CopyRow) -> CopyPlace
    ensures { result ≡ unclaimed copy.now.condition copy.now.home }
{
    match copy.condition {
        Condition::Present => CopyPlace::Shelf { branch: copy.home },
        Condition::Missing => CopyPlace::Missing,
        Condition::Withdrawn => CopyPlace::Withdrawn,
    }
}

/// Returns a copy's place from the rows that claim it; none if the hold on whose shelf it stands
/// has no limit.
pub(crate) fn place_of(rows: &View, copy: &CopyRow) -> Option<CopyPlace>
    ensures { result ≡ place_in rows.now copy.now }
{
    if let Some(loan) = &rows.loan {
        return Some(CopyPlace::Loan {
            loan: loan.loan,
            due: loan.due,
            patron: loan.patron,
        });
    }
    if let Some(hold) = &rows.hold {
        return match hold.limit_day {
            Some(until) => Some(CopyPlace::HoldShelf {
                hold: hold.hold,
                branch: hold.branch,
                until,
                patron: hold.patron,
            }),
            None => None,
        };
    }
    match &rows.transit {
        Some(transit) => Some(CopyPlace::Transit {
            goal: transit.goal,
            hold: transit.hold,
        }),
        None => Some(unclaimed(copy)),
    }
}

/// Makes the words for a place.
#[tactic(auto, unfolding(crate::specs::Placing::words_of))]
pub(crate) fn place_text(alloc: Global, place: &CopyPlace) -> Result<String, Memory>
    ensures { IfOk result (λ text. string_bytes text ≡ spaced (words_of place.now)) }
{
    match place {
        CopyPlace::Shelf { branch } => format!(in alloc; "shelf {branch}"),
        CopyPlace::HoldShelf {
            hold,
            branch,
            until,
            ..
        } => format!(in alloc; "ready {hold} at {branch} until {until}"),
        CopyPlace::Transit {
            goal,
            hold: Some(hold),
        } => format!(in alloc; "transit {goal} for {hold}"),
        CopyPlace::Transit { goal, hold: None } => format!(in alloc; "transit {goal}"),
        CopyPlace::Loan { loan, due, .. } => format!(in alloc; "loan {loan} due {due}"),
        CopyPlace::Missing => format!(in alloc; "missing"),
        CopyPlace::Withdrawn => format!(in alloc; "withdrawn"),
    }
}

/// Makes the line of a copy.
#[tactic(auto, unfolding(crate::specs::Placing::copy_words))]
pub(crate) fn copy_line(alloc: Global, row: &CopyRow, title: &TitleRow) -> Result<String, Memory>
    ensures { IfOk result (λ text. string_bytes text ≡ copy_words row.now title.now) }
{
    let CopyRow {
        copy,
        home,
        kind,
        price,
        ..
    } = row;
    let TitleRow { title, text } = title;
    format!(in alloc; "copy {copy} home {home} kind {kind} price {price} title {title} {text}")
}

/// Makes the row of a copy of a title, with its place.
pub(crate) fn copy_row(alloc: Global, copy: CopyId, place: &CopyPlace) -> Result<String, Memory>
    ensures { IfOk result (λ text. string_bytes text
        ≡ spaced (codes "copy" ∷ decimal copy ∷ words_of place.now)) }
{
    let words = place_text(alloc, place)?;
    format!(in alloc; "copy {copy} {words}")
}

/// Makes the row of a copy on its way.
#[tactic(auto, unfolding(crate::specs::Placing::travel_words))]
pub(crate) fn travel_row(
    alloc: Global,
    row: &TransitRow,
    title: &TitleRow,
) -> Result<String, Memory>
    ensures { IfOk result (λ text. string_bytes text ≡ travel_words row.now title.now) }
{
    let copy = row.copy;
    let TitleRow { title, text } = title;
    match row.hold {
        Some(hold) => format!(in alloc; "copy {copy} for {hold} title {title} {text}"),
        None => format!(in alloc; "copy {copy} title {title} {text}"),
    }
}

/// Reads a hold's patron, if there is a number. Fault 91; 93, also if the hold is missing.
fn patron_of_hold<S: Alter>(
    store: &mut Store<S>,
    hold: Option<HoldId>,
) -> Result<Option<PatronId>, Fault>
    ensures { LearnsIf (λ H. IfSome hold (λ h. is_some ((picture H).holds h) ≡ true))
        (λ H patron. patron ≡ option_map (patron_of H) hold)
        S.Store store.old store.new result }
{
    let Some(number) = hold else {
        return Ok(None);
    };
    match store.hold(number)? {
        Some(row) => Ok(Some(row.patron)),
        None => Err(Fault::Stored),
    }
}

/// Reads the patron that a copy's place is for, by its loan or hold. Fault 91; 93, also if the hold
/// it travels for is missing.
fn patron_at<S: Alter>(
    store: &mut Store<S>,
    copy: CopyId,
    place: &CopyPlace,
) -> Result<Option<PatronId>, Fault>
    ensures { LearnsIf (λ H. IsAt H copy place.now)
        (λ H patron. patron ≡ patron_at_place H (place_in_history H copy))
        S.Store store.old store.new result }
{
    match place {
        CopyPlace::HoldShelf { patron, .. } => Ok(Some(*patron)),
        CopyPlace::Loan { patron, .. } => Ok(Some(*patron)),
        CopyPlace::Transit { hold, .. } => patron_of_hold(store, *hold),
        _ => Ok(None),
    }
}

/// Makes the words for a patron's number and name, after a space.
#[tactic(auto, unfolding(crate::specs::Placing::after_space))]
fn after_place(alloc: Global, patron: PatronId, row: &PatronRow) -> Result<String, Memory>
    ensures { IfOk result (λ text. string_bytes text
        ≡ after_space (codes "patron" ∷ decimal patron ∷ row.now.name ∷ [])) }
{
    let name = &row.name;
    format!(in alloc; " patron {patron} {name}")
}

/// Makes the words for the patron that a copy's place is for, after a space; nothing if for nobody.
/// Faults 90, 91; 93, also if the patron is missing.
fn patron_text<S: Alter>(
    store: &mut Store<S>,
    alloc: Global,
    copy: CopyId,
    place: &CopyPlace,
) -> Result<String, Fault>
    ensures { LearnsIf (λ H. IsAt H copy place.now)
        (λ H text. string_bytes text
        ≡ after_space (patron_words H (patron_at_place H (place_in_history H copy))))
        S.Store store.old store.new result }
{
    let Some(patron) = patron_at(store, copy, place)? else {
        return Ok(String::new(alloc));
    };
    match store.patron(alloc, patron)? {
        Some(row) => Ok(after_place(alloc, patron, &row)?),
        None => Err(Fault::Stored),
    }
}

/// Makes the words for a place and its patron. Faults 90, 91, 93.
fn place_line<S: Alter>(
    store: &mut Store<S>,
    alloc: Global,
    copy: CopyId,
    place: &CopyPlace,
) -> Result<String, Fault>
    ensures { LearnsIf (λ H. IsAt H copy place.now)
        (λ H text. string_bytes text ≡ place_line_of H (place_in_history H copy))
        S.Store store.old store.new result }
{
    let mut text = place_text(alloc, place)?;
    let patron = patron_text(store, alloc, copy, place)?;
    text.push_str(&patron)?;
    Ok(text)
}

/// Shows a copy and where it is, in two lines. Faults 90, 91; 93, also if a row that another names
/// is missing.
pub(crate) fn copy_text<S: Alter>(
    store: &mut Store<S>,
    alloc: Global,
    row: &CopyRow,
    rows: &View,
) -> Result<String, Fault>
    ensures { LearnsIf
        (λ H. ((picture H).copies row.now.copy ≡ Some row.now)
        × IsCopyView (picture H) row.now.copy rows.now)
        (λ H text. string_bytes text ≡ two_lines H row.now.copy)
        S.Store store.old store.new result }
{
    let Some(place) = place_of(rows, row) else {
        return Err(Fault::Stored);
    };
    let title = title_row(store, alloc, row.title)?;
    let mut text = copy_line(alloc, row, &title)?;
    let line = place_line(store, alloc, row.copy, &place)?;
    add_line(&mut text, &line)?;
    Ok(text)
}
