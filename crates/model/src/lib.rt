//! What each command of the desk means: definitions over lists of accepted events, and laws of all
//! legal lists.
//!
//! A law is the contract of a function that does nothing: call it to use the law.
#![tactic(auto)]

ghost use Rattle.model.specs.Laws.{StaysLegal, Places, Bindings, Balance, HoldRows, FinalStates};
ghost use Rattle.model.specs.Laws.{FirstInLineIsServed, RepeatsActOnce, OwnRows, KeptRowsAgree};
ghost use Rattle.model.specs.AskingLaws.{ListsShowOnce, ListsRise, FirstIsServed};
ghost use Rattle.model.specs.AskingLaws.{PulledCopiesServe, DebtsAreShown};
ghost use Rattle.model.specs.AskingLaws.{SearchesShowOnce, SearchesShowFound, SearchesGoOn};
ghost use Rattle.model.specs.AskingLaws.{PatronsAreFound, TitlesAreFound};
ghost use Rattle.model.specs.AskingLaws.{AccountsAreShown, ShelvesAreUnclaimed};
ghost use Rattle.model.specs.TurnLaws.{Turns, Limits, FewAtAllTimes, OneEach, PlacesKept};
ghost use Rattle.model.specs.RowLaws.{RowsAreShown};
ghost use Rattle.model.specs.ChargeLaws.{Charges};
ghost use Rattle.model.specs.LabelLaws.{Labels};
ghost use Rattle.model.specs.CounterLaws.{Notes, Counters};
ghost use Rattle.model.specs.Renaming.{Anonymity, SwapsRename};
ghost use Rattle.model.specs.Calendars.{CalendarsAgree};
ghost use Rattle.model.specs.CheckOrder.{RefusedInOrder};
ghost use Rattle.model.specs.Corrections.{Amended, Void};
ghost use Rattle.model.specs.Forms.{FormsStay, FormsAreWhole, RowsInLimits, FewClosedDays};
ghost use Rattle.model.specs.Invariant.{Invariants};
ghost use Rattle.model.specs.References.{References};
ghost use Rattle.model.specs.Schemas.{is_of_schema_1, is_of_schema_2, is_of_schema_3};
ghost use Rattle.model.specs.Schemas.{sight1, sight2, sight3};
ghost use Rattle.model.specs.Schemas.{OldListsStand, FinesWithoutGrace};
ghost use Rattle.model.specs.Schemas.{OldTablesAreLed, Schema1IsWithinSchema2};
ghost use Rattle.model.specs.Schemas.{Schema2IsWithinSchema3};
ghost use Rattle.model.specs.Repeats.{RepeatsLeaveNothing, RepeatsGetTheKeptReply, RowsActOnce};
ghost use Rattle.model.specs.DueDays.{WholeWeeksStay, DueDays, DueDaysExist, ShelfLimits};
ghost use Rattle.model.specs.DueDays.{LimitsExist};

/// Handling requests of any callers keeps a history legal.
pub fn legal_law()
    ensures { StaysLegal }
{}

/// The tables make at most one claim on a copy, matching the place where its last movement left it.
pub fn places_law()
    ensures { Places }
{}

/// A hold is ready if and only if one copy stands on its hold shelf. A copy travelling for a hold
/// goes to its pick-up branch, the hold waits, and no other copy travels for it.
pub fn bindings_law()
    ensures { Bindings }
{}

/// For every patron, fines, prices and charges equal payments and waivers plus the debt.
pub fn balance_law()
    ensures { Balance }
{}

/// The holds with a row, and so with one state, are exactly those numbered 1 up to the count
/// placed.
pub fn hold_rows_law()
    ensures { HoldRows }
{}

/// A filled, cancelled or expired hold stays so, whatever follows.
pub fn final_states_law()
    ensures { FinalStates }
{}

/// A hold that an accepted command takes out of its queue, other than by cancelling it, was first
/// in that queue.
pub fn line_law()
    ensures { FirstInLineIsServed }
{}

/// A request that repeats an accepted one, with the same owner, key and text, adds nothing and gets
/// the first reply, whatever came between.
pub fn repeats_law()
    ensures { RepeatsActOnce }
{}

/// Removing the repeats of accepted requests from a list leaves the same history.
pub fn repeats_leave_nothing_law()
    ensures { RepeatsLeaveNothing }
{}

/// A request that repeats an accepted one, and that its caller may send, gets the kept reply and
/// changes nothing.
pub fn kept_reply_law()
    ensures { RepeatsGetTheKeptReply }
{}

/// Importing the beginning of a copies file and then all of it leaves the same history as importing
/// it once.
pub fn copies_file_law()
    ensures { RowsActOnce }
{}

/// Requests whose week commands have seven weekdays leave a history whose week commands do.
pub fn whole_weeks_law()
    ensures { WholeWeeksStay }
{}

/// Every loan's due day was the least open day of the lending branch from the end of its period,
/// when last set. This requires that each week command of the history has seven weekdays, as all
/// that can be sent do.
pub fn due_days_law()
    ensures { DueDays }
{}

/// An accepted check-out has a due day within the calendar, on the same condition.
pub fn due_days_exist_law()
    ensures { DueDaysExist }
{}

/// Every ready hold has a shelf limit. It was the least open day of the pick-up branch from the end
/// of the pick-up period when the hold became ready, on the same condition.
pub fn shelf_limits_law()
    ensures { ShelfLimits }
{}

/// A hold that becomes ready has a shelf limit within the calendar, on the same condition.
pub fn shelf_limits_exist_law()
    ensures { LimitsExist }
{}

/// A patron's page is the same after two histories that agree on the patron's own row, open loans
/// and active holds, and on the copies and titles of these.
pub fn own_rows_law()
    ensures { OwnRows }
{}

/// An accepted command leaves a patron's own row, open loans, active holds, and their copies and
/// titles unchanged, unless it puts the patron's row, that of one of the patron's loans or holds, or
/// that of the title of an open loan or active hold of the patron.
pub fn kept_rows_law()
    ensures { KeptRowsAgree }
{}

/// `card-key` and the commands that amend a row leave every place, hold, line, due day and debt as
/// it was; `rehome` all of these but the place of its copy.
pub fn corrections_law()
    ensures { Amended }
{}

/// From an accepted `card-key` to the next one of the same patron, every request that shows another
/// card key of the patron, a page too, is refused as not allowed.
pub fn void_keys_law()
    ensures { Void }
{}

/// The open days, the least open day and the days late defined here are those of the crate
/// `calendar`.
pub fn calendars_law()
    ensures { CalendarsAgree }
{}

/// All invariants of legal histories, in one record.
pub fn invariant_law()
    ensures { Invariants }
{}

/// Requests with well-formed commands and keys leave a history whose commands and keys are
/// well-formed. All commands and keys that the program makes are.
pub fn forms_law()
    ensures { FormsStay }
{}

/// Every well-formed week command has seven weekdays.
pub fn forms_are_whole_law()
    ensures { FormsAreWhole }
{}

/// Every column of every row left by a legal history is within its limits, including days, texts
/// and sums, and kept requests can be read back, if commands and keys are well-formed.
pub fn rows_in_limits_law()
    ensures { RowsInLimits }
{}

/// Every row left by a legal history names only existing rows: the branch, kind, title, copy,
/// patron, loan or hold of each such column.
pub fn references_law()
    ensures { References }
{}

/// After a legal history no branch has more single closed days than allowed.
pub fn few_closed_days_law()
    ensures { FewClosedDays }
{}

/// A list of requests that was legal under schema 1, whose commands had no first days and whose
/// queue ignored them, or under schema 2, whose rules had no grace days and whose fines ignored
/// them, or under schema 3, which had no barcodes, no charges and no counters, is legal today: every
/// copy is in the same place, every hold in the same state, the accounts have the same lines, and
/// every command gets the same answer. The fine without grace days is that of schemas 1 and 2.
pub fn old_lists_law()
    ensures schema_1 { OldListsStand is_of_schema_1 sight1 }
    ensures schema_2 { OldListsStand is_of_schema_2 sight2 }
    ensures schema_3 { OldListsStand is_of_schema_3 sight3 }
    ensures fines { FinesWithoutGrace }
{}

/// Migration turns the tables of a schema 1 library after a history into those of schema 2 after
/// the same history, every hold keeping its state, copy and limit; those of schema 2 into those of
/// schema 3, every rule and loan keeping its terms; and those of schema 3 into those of the newest
/// schema, which has no barcodes and no notes yet. They keep to the same limits. Each list of schema
/// 1 is one of schema 2, and each of schema 2 one of schema 3.
pub fn old_tables_law()
    ensures led { OldTablesAreLed }
    ensures within_2 { Schema1IsWithinSchema2 }
    ensures within_3 { Schema2IsWithinSchema3 }
{}

/// A list asked for repeatedly, each time from the last number shown, shows every number that it
/// had throughout exactly once. The numbers of each list rise.
pub fn lists_show_once_law()
    ensures once { ListsShowOnce }
    ensures rise { ListsRise }
{}

/// A search asked repeatedly, each time from where it stopped, shows every row that was there and
/// found throughout exactly once. If nothing changes meanwhile, it shows exactly the rows found. It
/// goes on as long as rows are left.
pub fn searches_show_once_law()
    ensures once { SearchesShowOnce }
    ensures found { SearchesShowFound }
    ensures on { SearchesGoOn }
{}

/// A patron is shown by the searches for a text exactly if it finds the name, and a title exactly
/// if it finds its text.
pub fn found_law()
    ensures patrons { PatronsAreFound }
    ensures titles { TitlesAreFound }
{}

/// The first hold in a title's queue gets the next copy that routing has to give, and a copy to
/// take from a branch's shelves for a hold goes to that hold when checked in there.
pub fn turns_law()
    ensures first { FirstIsServed }
    ensures pulled { PulledCopiesServe }
{}

/// A patron is listed as owing if and only if fines, prices and charges exceed payments and waivers.
pub fn debts_law()
    ensures { DebtsAreShown }
{}

/// The account lines shown for a patron are those of the account, in order.
pub fn accounts_law()
    ensures { AccountsAreShown }
{}

/// An acquired copy is reported on its home shelf if and only if the tables make no claim on it.
pub fn shelves_law()
    ensures { ShelvesAreUnclaimed }
{}

/// A copy is lent off the shelf to the first in the title's queue, or to anyone if nobody waits, and
/// off a hold shelf for the hold it was kept for. A loan is renewed only if nobody waits. A hold is
/// filled only by lending its patron a copy of its title.
pub fn lent_in_turn_law()
    ensures { Turns }
{}

/// The checks of each command stand in the order of the table of refusals. Where several fail, the
/// refusal is that of the first; where none fails, there is none.
pub fn check_order_law()
    ensures { RefusedInOrder }
{}

/// A check-out is accepted only while the patron has fewer open loans than the kind allows then, and
/// owes no more than it allows; a renewal only while the borrower owes no more; a hold only while
/// the patron has fewer active holds than allowed. So nobody has more open loans or active holds than
/// were allowed when the last of them was made.
pub fn limits_law()
    ensures each { Limits }
    ensures always { FewAtAllTimes }
{}

/// No patron has two active holds of one title, or an active hold of a title that the patron has on
/// loan.
pub fn one_each_law()
    ensures { OneEach }
{}

/// Each list that can be asked for has exactly the numbers of those rows of the tables that pass its
/// test, a page those of the patron's open loans and active holds, and the till's sums are those of
/// the day's rows, a branch's those of the rows whose notes name it. Of branches, kinds of patrons, rules, missing copies and loans the columns are
/// told.
pub fn rows_shown_law()
    ensures { RowsAreShown }
{}

/// A fine or price is for a loan that has ended, to its borrower and dated its end; a loan has at
/// most one of each. Its fine is that of its end, and its price that of a copy missing.
pub fn charges_law()
    ensures { Charges }
{}

/// No two things have the same barcode. A copy or a patron has the one that the last command gave it,
/// unless that was dropped since, and `find-barcode` finds the one that has it.
pub fn labels_law()
    ensures { Labels }
{}

/// Every charge has a note, and every note is that of a charge, with what it is for, or of a payment,
/// without.
pub fn notes_law()
    ensures { Notes }
{}

/// On every day the payments in the tills of all branches and those without a note are the payments
/// of the till, and the charges in the tills of all branches are its charges.
pub fn counters_law()
    ensures { Counters }
{}

/// While a hold stands in its title's queue, another comes before it only by coming back: a copy that
/// was to serve it is missing, or its first day comes.
pub fn places_kept_law()
    ensures { PlacesKept }
{}

/// A patron's replies and page don't tell who other patrons are: with other numbers for them, in the
/// history and in all requests that follow, they stay the same. So they do if two others have each
/// other's numbers.
pub fn anonymity_law()
    ensures learns_nothing { Anonymity }
    ensures swaps { SwapsRename }
{}
