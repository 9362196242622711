//! The vocabulary of the desk: numbers, texts, rows, commands and replies, each with its form.
#![tactic(auto)]

mod borrowed_rows;
mod command;
mod fault;
mod form;
pub mod laws;
mod limits;
mod money;
mod number;
mod order;
mod question;
mod question_words;
mod reading;
mod refusal;
mod reply;
mod row;
mod tables;
mod text;
mod week;
mod words;
mod writing;

pub use borrowed_rows::{BarcodePut, BranchPut, KeptPut, NotePut, PatronPut, TitlePut};
pub use calendar::{Day, Memory};
pub use command::{Caller, Command, Owner, Request, request_text};
pub use fault::{Fault, ServiceFault};
pub use form::{PartForm, PartKind, command_forms, parts_for};
pub use limits::{
    HIGHEST_CAP, HIGHEST_CHARGE, HIGHEST_DEBT, HIGHEST_PRICE, HIGHEST_RATE, LARGEST_SUM,
    LAST_LARGE_NUMBER, LAST_NEXT_NUMBER, LAST_NUMBER, LAST_SMALL_NUMBER, LAST_TODAY,
    LONGEST_CARD_KEY, LONGEST_CLERK_NAME, LONGEST_PERIOD, LONGEST_PICKUP, MOST_ALLOWED, MOST_GRACE,
    MOST_LOOKED_AT, MOST_RENEWALS, MOST_ROWS, SCHEMA,
};
pub use money::fine;
pub use number::{
    BranchId, Cents, CopyId, CopyKind, Count, DayNumber, Days, HoldId, LineId, LoanId, Number,
    PatronId, PatronKind, TitleId,
};
pub use order::{Ordered, owner_number};
pub use question::Question;
pub use reading::{read_number, read_reply};
pub use refusal::Refusal;
pub use reply::{Reply, Routed, reply_text};
pub use row::{
    BarcodeRow, BranchRow, ClosedDayRow, Condition, CopyRow, HoldRow, HoldRow1, HoldState, KeptRow,
    KindRow, LineRow, LoanRow, LoanRow1, MetaRow, NoteRow, PatronRow, RuleRow, RuleRow1, Sort,
    Thing, TitleRow, TransitRow,
};
pub use tables::{Rows, Tables};
pub use text::{Barcode, CardKey, ClerkName, Key, Name, Text};
pub use week::Mask;
pub use words::{WordFault, read_command};
pub use writing::{WriteFault, write_bytes, write_pieces};
