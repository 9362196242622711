//! `grace`: sets a circulation rule's grace days.

ghost use Rattle.std.specs.Prelude.{◌≡◌};
ghost use Rattle.terms.specs.declared.reply.Reply.TheVariants.{Done};
ghost use Rattle.circ_core.specs.Decided.{Decided};
ghost use Rattle.circ_core.specs.Grace.{grace_checks, grace_rows};

use crate::changes::{Changes, Decision, RowChange, done};
use crate::checks::first_refusal;
use crate::limits::is_small;
use terms::{CopyKind, Days, MOST_GRACE, PatronKind, Refusal, RuleRow};

/// Gives the rule its grace days; no change without a rule.
fn grace_changes<'a>(rule: &Option<RuleRow>, days: Days) -> Changes<'a>
    ensures { result ≡ grace_rows rule.now days }
{
    match rule {
        Some(row) => {
            let mut graced = *row;
            graced.grace = days;
            Changes::one(RowChange::PutRule(graced))
        }
        None => Changes::none(),
    }
}

/// `grace`: refusals 21, 16.
pub(crate) fn set_grace<'a>(
    rule: &Option<RuleRow>,
    kind: PatronKind,
    copy_kind: CopyKind,
    days: Days,
) -> Result<Decision<'a>, Refusal>
    ensures { Decided (grace_checks rule.now kind copy_kind days) Done
        (grace_rows rule.now days) result }
{
    let fits = is_small(kind.number())
        && is_small(copy_kind.number())
        && days.number() <= MOST_GRACE;
    if let Some(refusal) = first_refusal(&[
        (Refusal::OutOfLimits, !fits),
        (Refusal::NoRule, rule.is_none()),
    ]) {
        return Err(refusal);
    }
    Ok(done(grace_changes(rule, days)))
}
