//! What refusal and fault numbers mean, and lines without a number.

/// A number and its meaning, for a person.
#[derive(Clone, Copy)]
struct Explanation {
    number: u32,
    text: &'static str,
}

const MEANINGS: [Explanation; 42] = [
    Explanation {
        number: 10,
        text: "unknown branch",
    },
    Explanation {
        number: 11,
        text: "unknown patron",
    },
    Explanation {
        number: 12,
        text: "unknown title",
    },
    Explanation {
        number: 13,
        text: "unknown copy",
    },
    Explanation {
        number: 14,
        text: "unknown loan",
    },
    Explanation {
        number: 15,
        text: "unknown hold",
    },
    Explanation {
        number: 16,
        text: "no circulation rule for the kind of the patron and that of the copy",
    },
    Explanation {
        number: 17,
        text: "unknown kind of patron",
    },
    Explanation {
        number: 18,
        text: "nothing has this barcode",
    },
    Explanation {
        number: 20,
        text: "already exists with different details",
    },
    Explanation {
        number: 21,
        text: "a number is out of its limits, or the branch has 400 single closed days",
    },
    Explanation {
        number: 22,
        text: "all seven weekdays would be closed",
    },
    Explanation {
        number: 23,
        text: "the day is not after today, or is out of range",
    },
    Explanation {
        number: 24,
        text: "the day is already a single closed day",
    },
    Explanation {
        number: 25,
        text: "the day is not a single closed day",
    },
    Explanation {
        number: 26,
        text: "another copy or patron has this barcode",
    },
    Explanation {
        number: 30,
        text: "the copy is at another branch",
    },
    Explanation {
        number: 31,
        text: "the copy is on loan",
    },
    Explanation {
        number: 32,
        text: "the copy is in transit",
    },
    Explanation {
        number: 33,
        text: "the copy is on the hold shelf",
    },
    Explanation {
        number: 34,
        text: "the copy is missing",
    },
    Explanation {
        number: 35,
        text: "the copy is withdrawn",
    },
    Explanation {
        number: 36,
        text: "another patron is waiting for the title",
    },
    Explanation {
        number: 37,
        text: "the patron has reached the loan limit",
    },
    Explanation {
        number: 38,
        text: "the patron owes more than the limit allows",
    },
    Explanation {
        number: 39,
        text: "no open day is left in the calendar",
    },
    Explanation {
        number: 40,
        text: "the loan has ended",
    },
    Explanation {
        number: 41,
        text: "the loan is overdue",
    },
    Explanation {
        number: 42,
        text: "no renewals are left",
    },
    Explanation {
        number: 50,
        text: "the patron already has a hold on the title",
    },
    Explanation {
        number: 51,
        text: "the patron has reached the hold limit",
    },
    Explanation {
        number: 52,
        text: "the patron has the title on loan",
    },
    Explanation {
        number: 53,
        text: "the hold is not in the state that the command needs",
    },
    Explanation {
        number: 54,
        text: "the shelf limit of the hold has not passed",
    },
    Explanation {
        number: 60,
        text: "the amount is zero or more than is owed",
    },
    Explanation {
        number: 70,
        text: "no loan, hold or line numbers are left",
    },
    Explanation {
        number: 80,
        text: "the key was already used for another request",
    },
    Explanation {
        number: 81,
        text: "wrong key, or not allowed for this caller",
    },
    Explanation {
        number: 90,
        text: "out of memory",
    },
    Explanation {
        number: 91,
        text: "the database failed: another process has the file open, it can't be written, or \
               the disk is full",
    },
    Explanation {
        number: 92,
        text: "the desk is closed",
    },
    Explanation {
        number: 93,
        text: "no library: the file is absent, empty, of another kind or schema, or has a damaged \
               row",
    },
];

// What the findings of an audit mean.
pub(crate) const CLAIMS: &str =
    "two or more claims are made on the copy with this number, which can only be in one place: \
     restore a backup";

pub(crate) const BINDING: &str =
    "the hold with this number is not bound to its copy as its state requires: restore a backup";

pub(crate) const BALANCE: &str =
    "the patron with this number doesn't owe the charges less payments and waivers: restore a \
     backup";

pub(crate) const BARCODES: &str =
    "the patron or copy with this number is missing, or has the barcode of another: restore a \
     backup";

pub(crate) const REFERENCE: &str =
    "a row of this table with this number names a row that is missing: restore a backup";

pub(crate) const NUMBERS: &str =
    "the row of this table with this number is missing, or there though the number was not \
     given: restore a backup";

pub(crate) const OLD_ROW: &str =
    "this table has a row with this number, though only libraries of older schemas have rows \
     there: restore a backup, or take its rows out with sqlite3";

/// The start of a line without a refusal or fault number, and its meaning.
#[derive(Clone, Copy)]
struct Phrase {
    line: &'static str,
    text: &'static str,
}

const SAYINGS: [Phrase; 13] = [
    Phrase {
        line: "fault reading",
        text: "the copies file is missing or can't be read",
    },
    Phrase {
        line: "fault network",
        text: "nobody listens on the port, no answer came, or the port is taken",
    },
    Phrase {
        line: "fault keys",
        text: "the file of keys can't be read, or a line of it isn't NAME ROLE KEY",
    },
    Phrase {
        line: "fault threads",
        text: "a thread could not be created, so fewer connections were answered",
    },
    Phrase {
        line: "unsound claims ",
        text: CLAIMS,
    },
    Phrase {
        line: "unsound binding ",
        text: BINDING,
    },
    Phrase {
        line: "unsound balance ",
        text: BALANCE,
    },
    Phrase {
        line: "unsound reference barcodes ",
        text: BARCODES,
    },
    Phrase {
        line: "unsound reference ",
        text: REFERENCE,
    },
    Phrase {
        line: "unsound numbers rules ",
        text: OLD_ROW,
    },
    Phrase {
        line: "unsound numbers loans ",
        text: OLD_ROW,
    },
    Phrase {
        line: "unsound numbers holds ",
        text: OLD_ROW,
    },
    Phrase {
        line: "unsound numbers ",
        text: NUMBERS,
    },
];

/// Explains a refusal or fault number; none for other numbers.
pub fn meaning(number: u32) -> Option<&'static str> {
    for it in &MEANINGS {
        if it.number == number {
            return Some(it.text);
        }
    }
    None
}

/// Explains a line without a refusal or fault number; none for other lines.
pub(crate) fn saying(line: &[u8]) -> Option<&'static str> {
    for it in &SAYINGS {
        if line.starts_with(it.line.as_bytes()) {
            return Some(it.text);
        }
    }
    None
}
