//! Why a request is refused.

ghost use Rattle.std.specs.Prelude.{◌≡◌, ◌≤◌};
ghost use Rattle.terms.specs.Texts.{refusal_number};

use std::fmt;

/// Why a request is refused. A refusal changes nothing.
#[derive(Clone, Copy, Debug, PartialEq, Eq)]
pub enum Refusal {
    /// 10: there is no such branch.
    UnknownBranch,
    /// 11: there is no such patron.
    UnknownPatron,
    /// 12: there is no such title.
    UnknownTitle,
    /// 13: there is no such copy.
    UnknownCopy,
    /// 14: there is no such loan, or it is another patron's.
    UnknownLoan,
    /// 15: there is no such hold, or it is another patron's.
    UnknownHold,
    /// 16: there is no circulation rule for the two kinds.
    NoRule,
    /// 17: there is no such patron kind.
    UnknownKind,
    /// 18: nothing has this barcode.
    UnknownBarcode,
    /// 20: it exists with other content.
    OtherContent,
    /// 21: a value is out of its limits.
    OutOfLimits,
    /// 22: all seven weekdays would be closed.
    AllWeekdaysClosed,
    /// 23: the day is not after today, or out of range.
    BadDay,
    /// 24: the day is already closed singly.
    AlreadyClosed,
    /// 25: the day is not closed singly.
    NotClosed,
    /// 26: another copy or patron has this barcode.
    BarcodeTaken,
    /// 30: the copy is at another branch.
    Elsewhere,
    /// 31: the copy is on loan.
    OnLoan,
    /// 32: the copy is in transit.
    InTransit,
    /// 33: the copy is on the hold shelf.
    OnHoldShelf,
    /// 34: the copy is missing.
    CopyMissing,
    /// 35: the copy is withdrawn.
    CopyWithdrawn,
    /// 36: another patron's hold waits for the title.
    HoldWaits,
    /// 37: the patron has too many loans.
    TooManyLoans,
    /// 38: the patron owes too much.
    OwesTooMuch,
    /// 39: no open day is left in the calendar.
    PastCalendar,
    /// 40: the loan has ended.
    LoanEnded,
    /// 41: the loan is overdue.
    Overdue,
    /// 42: no renewals are left.
    NoRenewalsLeft,
    /// 50: the patron already holds this title.
    AlreadyHolds,
    /// 51: the patron has too many holds.
    TooManyHolds,
    /// 52: the patron has the title on loan.
    HasOnLoan,
    /// 53: the hold is in the wrong state.
    WrongHoldState,
    /// 54: the shelf limit has not passed.
    LimitNotPassed,
    /// 60: the amount is zero, or above what is owed.
    BadAmount,
    /// 70: the numbers of loans, holds or lines are used up.
    NumbersUsedUp,
    /// 80: the key was used for another request.
    KeyUsed,
    /// 81: a wrong card key, or a command not allowed to this caller.
    NotAllowed,
}

impl Refusal {
    /// Returns the refusal's number in replies.
    pub fn number(self) -> u32
        ensures value { result ≡ refusal_number self }
        ensures small { result ≤ 81 }
    {
        match self {
            Refusal::UnknownBranch => 10,
            Refusal::UnknownPatron => 11,
            Refusal::UnknownTitle => 12,
            Refusal::UnknownCopy => 13,
            Refusal::UnknownLoan => 14,
            Refusal::UnknownHold => 15,
            Refusal::NoRule => 16,
            Refusal::UnknownKind => 17,
            Refusal::UnknownBarcode => 18,
            Refusal::OtherContent => 20,
            Refusal::OutOfLimits => 21,
            Refusal::AllWeekdaysClosed => 22,
            Refusal::BadDay => 23,
            Refusal::AlreadyClosed => 24,
            Refusal::NotClosed => 25,
            Refusal::BarcodeTaken => 26,
            Refusal::Elsewhere => 30,
            Refusal::OnLoan => 31,
            Refusal::InTransit => 32,
            Refusal::OnHoldShelf => 33,
            Refusal::CopyMissing => 34,
            Refusal::CopyWithdrawn => 35,
            Refusal::HoldWaits => 36,
            Refusal::TooManyLoans => 37,
            Refusal::OwesTooMuch => 38,
            Refusal::PastCalendar => 39,
            Refusal::LoanEnded => 40,
            Refusal::Overdue => 41,
            Refusal::NoRenewalsLeft => 42,
            Refusal::AlreadyHolds => 50,
            Refusal::TooManyHolds => 51,
            Refusal::HasOnLoan => 52,
            Refusal::WrongHoldState => 53,
            Refusal::LimitNotPassed => 54,
            Refusal::BadAmount => 60,
            Refusal::NumbersUsedUp => 70,
            Refusal::KeyUsed => 80,
            Refusal::NotAllowed => 81,
        }
    }
}

impl fmt::Display for Refusal {
    ghost use Rattle.std.specs.Prelude.{Some};
    ghost use Rattle.std.specs.Fmt.{decimal};
    ghost use Rattle.terms.specs.Texts.{refusal_number};

    ghost output = { λ refusal. Some (decimal (refusal_number refusal)) };

    fn fmt<W: fmt::Write>(&self, f: &mut fmt::Formatter<W>) -> fmt::Result {
        let number = self.number();
        write!(f, "{number}")
    }
}
