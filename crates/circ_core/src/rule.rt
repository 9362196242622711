//! `rule`: sets a circulation rule.

ghost use Rattle.std.specs.Prelude.{[], ◌∷◌};
ghost use Rattle.terms.specs.declared.reply.Reply.TheVariants.{Done};
ghost use Rattle.circ_core.specs.declared.changes.RowChange.TheVariants.{PutRule};
ghost use Rattle.circ_core.specs.Decided.{Decided};
ghost use Rattle.circ_core.specs.Rule.{rule_checks};

use crate::changes::{Changes, Decision, RowChange, done};
use crate::checks::first_refusal;
use crate::limits::is_small;
use terms::{HIGHEST_CAP, HIGHEST_RATE, KindRow, LONGEST_PERIOD, MOST_RENEWALS, Refusal, RuleRow};

/// `rule`: refusals 21, 17.
pub(crate) fn set_rule<'a>(kind: &Option<KindRow>, rule: &RuleRow) -> Result<Decision<'a>, Refusal>
    ensures { Decided
        (rule_checks kind.now rule.now.kind rule.now.copy_kind rule.now.period
        rule.now.renewals rule.now.rate rule.now.cap) Done
        (PutRule rule.now ∷ []) result }
{
    let kinds_fit = is_small(rule.kind.number()) && is_small(rule.copy_kind.number());
    let period_fits = 1 <= rule.period.number() && rule.period.number() <= LONGEST_PERIOD;
    let terms_fit = rule.renewals.number() <= MOST_RENEWALS
        && rule.rate.number() <= HIGHEST_RATE
        && rule.cap.number() <= HIGHEST_CAP;
    let fits = kinds_fit && period_fits && terms_fit;
    if let Some(refusal) = first_refusal(&[
        (Refusal::OutOfLimits, !fits),
        (Refusal::UnknownKind, kind.is_none()),
    ]) {
        return Err(refusal);
    }
    Ok(done(Changes::one(RowChange::PutRule(*rule))))
}
