//! The desk's replies.

ghost use Rattle.std.specs.Prelude.{◌≡◌, IfOk};
ghost use Rattle.terms.specs.Texts.{reply_text};

use crate::number::{BranchId, Cents, HoldId, LoanId};
use crate::refusal::Refusal;
use crate::text::Text;
use calendar::{Day, Memory};
use std::alloc::Global;
use std::fmt;

/// Where a returned copy goes.
#[derive(Clone, Copy, Debug, PartialEq, Eq)]
pub enum Routed {
    /// To the shelf of its home branch.
    Shelf {
        branch: BranchId,
    },
    /// To the hold shelf for a hold that is now ready, until its shelf limit.
    HoldShelf {
        hold: HoldId,
        branch: BranchId,
        until: Day,
    },
    /// In transit to a branch, for a hold or for none.
    Transit {
        goal: BranchId,
        hold: Option<HoldId>,
    },
}

/// The reply to a request.
#[derive(Drop)]
pub enum Reply {
    /// Done; nothing more to tell.
    Done,
    /// A loan and its due day.
    Lent { loan: LoanId, due: Day },
    /// A copy came in: the fine, and where it goes.
    CheckedIn { fine: Cents, routed: Routed },
    /// A hold was placed.
    Held { hold: HoldId },
    /// A copy left the hold shelf: where it goes.
    Moved { routed: Routed },
    /// A copy on loan is missing: the fine and the price.
    Lost { fine: Cents, price: Cents },
    /// What is owed now.
    Owed { owed: Cents },
    /// A patron's page.
    Shown { page: Text },
    /// Refused; nothing is changed.
    Refused(Refusal),
}

impl fmt::Display for Routed {
    ghost use Rattle.std.specs.Prelude.{Some};
    ghost use Rattle.std.specs.List.{join_with_byte};
    ghost use Rattle.terms.specs.Texts.{routed_words};

    ghost output = { λ routed. Some (join_with_byte 32 (routed_words routed)) };

    #[tactic(auto, unfolding(crate::specs::Texts::routed_words))]
    fn fmt<W: fmt::Write>(&self, f: &mut fmt::Formatter<W>) -> fmt::Result {
        match self {
            Routed::Shelf { branch } => write!(f, "shelf {branch}"),
            Routed::HoldShelf {
                hold,
                branch,
                until,
            } => write!(f, "ready {hold} at {branch} until {until}"),
            Routed::Transit {
                goal,
                hold: Some(hold),
            } => write!(f, "transit {goal} for {hold}"),
            Routed::Transit { goal, hold: None } => write!(f, "transit {goal}"),
        }
    }
}

impl fmt::Display for Reply {
    ghost use Rattle.std.specs.Prelude.{Some};
    ghost use Rattle.terms.specs.Texts.{reply_text};

    ghost output = { λ reply. Some (reply_text reply) };

    #[tactic(auto, unfolding(crate::specs::Texts::reply_text, crate::specs::Texts::reply_words))]
    fn fmt<W: fmt::Write>(&self, f: &mut fmt::Formatter<W>) -> fmt::Result {
        match self {
            Reply::Done => write!(f, "ok"),
            Reply::Lent { loan, due } => write!(f, "loan {loan} due {due}"),
            Reply::CheckedIn { fine, routed } => write!(f, "fine {fine} {routed}"),
            Reply::Held { hold } => write!(f, "hold {hold}"),
            Reply::Moved { routed } => write!(f, "{routed}"),
            Reply::Lost { fine, price } => write!(f, "fine {fine} price {price}"),
            Reply::Owed { owed } => write!(f, "owed {owed}"),
            Reply::Shown { page } => write!(f, "{page}"),
            Reply::Refused(refusal) => write!(f, "refused {refusal}"),
        }
    }
}

/// Makes the reply text of a reply. Each kept reply has one spelling.
pub fn reply_text(alloc: Global, reply: &Reply) -> Result<Text, Memory>
    ensures { IfOk result (λ text. text ≡ reply_text reply.now) }
{
    let text = format!(in alloc; "{reply}")?;
    Ok(Text::new(text))
}
