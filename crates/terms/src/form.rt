//! The table of commands: names, and parts with their kinds.

ghost use Rattle.std.specs.Prelude.{◌≡◌, map, option_map};
ghost use Rattle.terms.specs.Commands.{commands, column, line, parts_in};

/// The kind of a command's word.
#[derive(Clone, Copy, Debug, PartialEq, Eq)]
pub enum PartKind {
    /// A number below 2^32.
    Number,
    /// An amount in cents, below 2^32.
    Amount,
    /// A day, as `2026-03-02`.
    Day,
    /// The closed weekdays, as `ooooooc`.
    Mask,
    /// A card key.
    CardKey,
    /// A barcode.
    Barcode,
    /// A name, or the text of a title.
    Name,
}

/// A part of a command: its name and the kind of its word.
#[derive(Clone, Copy)]
pub struct PartForm {
    pub name: &'static str,
    pub kind: PartKind,
}

/// A command's name, and its parts in order.
#[derive(Clone, Copy)]
pub struct CommandForm {
    pub name: &'static str,
    pub parts: &'static [PartForm],
}

const DAY: PartForm = PartForm {
    name: "day",
    kind: PartKind::Day,
};

const BRANCH: PartForm = PartForm {
    name: "branch",
    kind: PartKind::Number,
};

const PICKUP: PartForm = PartForm {
    name: "pickup",
    kind: PartKind::Number,
};

const NAME: PartForm = PartForm {
    name: "name",
    kind: PartKind::Name,
};

const MASK: PartForm = PartForm {
    name: "mask",
    kind: PartKind::Mask,
};

const KIND: PartForm = PartForm {
    name: "kind",
    kind: PartKind::Number,
};

const LOANS: PartForm = PartForm {
    name: "loans",
    kind: PartKind::Number,
};

const HOLDS: PartForm = PartForm {
    name: "holds",
    kind: PartKind::Number,
};

const DEBT: PartForm = PartForm {
    name: "debt",
    kind: PartKind::Amount,
};

const COPY_KIND: PartForm = PartForm {
    name: "copy-kind",
    kind: PartKind::Number,
};

const PERIOD: PartForm = PartForm {
    name: "period",
    kind: PartKind::Number,
};

const RENEWALS: PartForm = PartForm {
    name: "renewals",
    kind: PartKind::Number,
};

const RATE: PartForm = PartForm {
    name: "rate",
    kind: PartKind::Amount,
};

const CAP: PartForm = PartForm {
    name: "cap",
    kind: PartKind::Amount,
};

const DAYS: PartForm = PartForm {
    name: "days",
    kind: PartKind::Number,
};

const PATRON: PartForm = PartForm {
    name: "patron",
    kind: PartKind::Number,
};

const CARD_KEY: PartForm = PartForm {
    name: "card-key",
    kind: PartKind::CardKey,
};

const BARCODE: PartForm = PartForm {
    name: "barcode",
    kind: PartKind::Barcode,
};

const COPY: PartForm = PartForm {
    name: "copy",
    kind: PartKind::Number,
};

const TITLE: PartForm = PartForm {
    name: "title",
    kind: PartKind::Number,
};

const HOME: PartForm = PartForm {
    name: "home",
    kind: PartKind::Number,
};

const PRICE: PartForm = PartForm {
    name: "price",
    kind: PartKind::Amount,
};

const TEXT: PartForm = PartForm {
    name: "text",
    kind: PartKind::Name,
};

const LOAN: PartForm = PartForm {
    name: "loan",
    kind: PartKind::Number,
};

const HOLD: PartForm = PartForm {
    name: "hold",
    kind: PartKind::Number,
};

const AMOUNT: PartForm = PartForm {
    name: "amount",
    kind: PartKind::Amount,
};

const AFTER: PartForm = PartForm {
    name: "after",
    kind: PartKind::Number,
};

/// The commands.
const COMMANDS: &[CommandForm] = &[
    CommandForm {
        name: "begin-day",
        parts: &[DAY],
    },
    CommandForm {
        name: "branch",
        parts: &[BRANCH, PICKUP, NAME],
    },
    CommandForm {
        name: "week",
        parts: &[BRANCH, MASK],
    },
    CommandForm {
        name: "close-day",
        parts: &[BRANCH, DAY],
    },
    CommandForm {
        name: "open-day",
        parts: &[BRANCH, DAY],
    },
    CommandForm {
        name: "kind",
        parts: &[KIND, LOANS, HOLDS, DEBT],
    },
    CommandForm {
        name: "rule",
        parts: &[KIND, COPY_KIND, PERIOD, RENEWALS, RATE, CAP],
    },
    CommandForm {
        name: "grace",
        parts: &[KIND, COPY_KIND, DAYS],
    },
    CommandForm {
        name: "patron",
        parts: &[PATRON, KIND, CARD_KEY, NAME],
    },
    CommandForm {
        name: "acquire",
        parts: &[COPY, TITLE, KIND, HOME, PRICE, TEXT],
    },
    CommandForm {
        name: "card-key",
        parts: &[PATRON, CARD_KEY],
    },
    CommandForm {
        name: "amend-patron",
        parts: &[PATRON, KIND, NAME],
    },
    CommandForm {
        name: "amend-branch",
        parts: &[BRANCH, PICKUP, NAME],
    },
    CommandForm {
        name: "amend-title",
        parts: &[TITLE, TEXT],
    },
    CommandForm {
        name: "amend-copy",
        parts: &[COPY, KIND, PRICE],
    },
    CommandForm {
        name: "rehome",
        parts: &[COPY, BRANCH],
    },
    CommandForm {
        name: "copy-barcode",
        parts: &[COPY, BARCODE],
    },
    CommandForm {
        name: "patron-barcode",
        parts: &[PATRON, BARCODE],
    },
    CommandForm {
        name: "drop-barcode",
        parts: &[BARCODE],
    },
    CommandForm {
        name: "check-out",
        parts: &[PATRON, COPY, BRANCH],
    },
    CommandForm {
        name: "check-in",
        parts: &[COPY, BRANCH],
    },
    CommandForm {
        name: "renew",
        parts: &[LOAN],
    },
    CommandForm {
        name: "place-hold",
        parts: &[PATRON, TITLE, BRANCH],
    },
    CommandForm {
        name: "place-hold-from",
        parts: &[PATRON, TITLE, BRANCH, DAY],
    },
    CommandForm {
        name: "cancel-hold",
        parts: &[HOLD],
    },
    CommandForm {
        name: "unshelve",
        parts: &[HOLD],
    },
    CommandForm {
        name: "unshelve-cancelled",
        parts: &[HOLD],
    },
    CommandForm {
        name: "missing",
        parts: &[COPY],
    },
    CommandForm {
        name: "withdraw",
        parts: &[COPY],
    },
    CommandForm {
        name: "pay",
        parts: &[PATRON, AMOUNT],
    },
    CommandForm {
        name: "waive",
        parts: &[PATRON, AMOUNT],
    },
    CommandForm {
        name: "charge",
        parts: &[PATRON, AMOUNT, BRANCH, TEXT],
    },
    CommandForm {
        name: "pay-at",
        parts: &[PATRON, AMOUNT, BRANCH],
    },
    CommandForm {
        name: "page",
        parts: &[PATRON],
    },
    CommandForm {
        name: "copy",
        parts: &[COPY],
    },
    CommandForm {
        name: "copies",
        parts: &[TITLE, AFTER],
    },
    CommandForm {
        name: "queue",
        parts: &[TITLE, AFTER],
    },
    CommandForm {
        name: "account",
        parts: &[PATRON, AFTER],
    },
    CommandForm {
        name: "debts",
        parts: &[AFTER],
    },
    CommandForm {
        name: "overdue",
        parts: &[BRANCH, AFTER],
    },
    CommandForm {
        name: "shelf",
        parts: &[BRANCH, AFTER],
    },
    CommandForm {
        name: "pulls",
        parts: &[BRANCH, AFTER],
    },
    CommandForm {
        name: "transits",
        parts: &[BRANCH, AFTER],
    },
    CommandForm {
        name: "till",
        parts: &[DAY],
    },
    CommandForm {
        name: "today",
        parts: &[],
    },
    CommandForm {
        name: "borrower",
        parts: &[PATRON],
    },
    CommandForm {
        name: "find-patrons",
        parts: &[AFTER, TEXT],
    },
    CommandForm {
        name: "find-titles",
        parts: &[AFTER, TEXT],
    },
    CommandForm {
        name: "branches",
        parts: &[AFTER],
    },
    CommandForm {
        name: "closed-days",
        parts: &[BRANCH, AFTER],
    },
    CommandForm {
        name: "kinds",
        parts: &[AFTER],
    },
    CommandForm {
        name: "rules",
        parts: &[KIND, AFTER],
    },
    CommandForm {
        name: "missing-copies",
        parts: &[AFTER],
    },
    CommandForm {
        name: "loans",
        parts: &[COPY, AFTER],
    },
    CommandForm {
        name: "find-barcode",
        parts: &[BARCODE],
    },
    CommandForm {
        name: "till-at",
        parts: &[BRANCH, DAY],
    },
];

/// Returns the commands, each with its parts.
pub fn command_forms() -> &'static [CommandForm]
    ensures { map line result.now ≡ commands }
{
    COMMANDS
}

/// Finds the command with this name.
fn form_named(forms: &[CommandForm], name: &str) -> Option<&'static [PartForm]>
    ensures { option_map (λ parts. map column parts.now) result ≡ parts_in
        (map line forms.now) name.now }
{
    for form in forms {
        if form.name == name {
            return Some(form.parts);
        }
    }
    None
}

/// Returns the parts of the command with this name, in order.
pub fn parts_for(name: &str) -> Option<&'static [PartForm]>
    ensures { option_map (λ parts. map column parts.now) result ≡ parts_in commands name.now }
{
    form_named(command_forms(), name)
}
