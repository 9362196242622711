//! Reading numbers and replies back from their texts.

ghost use Rattle.std.specs.Prelude.{◌≡◌, ◌≢◌, ◌<◌, ◌^◌, ◌++◌, ◌∷◌, IfSome, IfNone, IsSome};
ghost use Rattle.std.specs.Prelude.{IsSomeAnd, Some, None, List, ℕ};
ghost use Rattle.std.specs.Fmt.{decimal};
ghost use Rattle.calendar.specs.Days.{IsDayNumber, day_text};
ghost use Rattle.terms.specs.Texts.{reply_text};
ghost use Rattle.terms.specs.Laws.{IsNumber, IsAmount, IsRouted, IsKept};
ghost use Rattle.terms.specs.declared.reply.Routed.{Routed};
ghost use Rattle.terms.specs.declared.reply.Reply.{Reply};
ghost use Rattle.terms.specs.declared.reply.Routed.TheVariants as routed;
ghost use Rattle.terms.specs.declared.reply.Reply.TheVariants as reply;

use crate::limits::LARGEST_SUM;
use crate::number::{BranchId, Cents, HoldId, LoanId};
use crate::reply::{Reply, Routed};
use calendar::Day;

/// Reads a decimal number below 2^64, with no sign and no leading zero.
fn read_large(text: &str) -> Option<u64>
    ensures some { IfSome result (λ n. text.now ≡ decimal n) }
    ensures none { IfNone result ((n : ℕ) → n < 2 ^ 64 → text.now ≢ decimal n) }
{
    let bytes = text.as_bytes();
    if bytes.is_empty() {
        return None;
    }
    let first = bytes[0];
    if first == b'+' {
        return None;
    }
    if first == b'0' && bytes.len() > 1 {
        return None;
    }
    match text.parse::<u64>() {
        Ok(number) => Some(number),
        Err(_) => None,
    }
}

/// Reads a decimal number with no leading zero, at most 4,294,967,295.
pub fn read_number(text: &str) -> Option<u32>
    ensures some { IfSome result (λ n. text.now ≡ decimal n) }
    ensures none { IfNone result ((n : ℕ) → n < 2 ^ 32 → text.now ≢ decimal n) }
    ensures whole { (n : ℕ) → n < 2 ^ 32 → text.now ≡ decimal n → result ≡ Some n }
{
    let number = read_large(text)?;
    if number <= 4_294_967_295 {
        Some(number as u32)
    } else {
        None
    }
}

/// Reads an amount in cents.
fn read_amount(text: &str) -> Option<u64>
    ensures sound { IfSome result (λ n. IsAmount n × (text.now ≡ decimal n)) }
    ensures whole { (n : ℕ) → IsAmount n → text.now ≡ decimal n → result ≡ Some n }
{
    let number = read_large(text)?;
    if number <= LARGEST_SUM {
        Some(number)
    } else {
        None
    }
}

/// Returns what follows a word and a space.
fn after_word<'a>(text: &'a str, word: &str) -> Option<&'a str>
    ensures sound { IfSome result (λ rest. text.now ≡ word.now ++ (32 ∷ rest.now)) }
    ensures whole { (rest : List ℕ) → text.now ≡ word.now ++ (32 ∷ rest)
        → IsSomeAnd result (λ r. r.now ≡ rest) }
{
    let rest = text.strip_prefix(word)?;
    rest.strip_prefix(' ')
}

/// Reads `N REST`.
fn number_and_rest(text: &str) -> Option<(u32, &str)>
    ensures sound { IfSome result (λ p. IsNumber p.0 × (text.now ≡ decimal p.0 ++ (32 ∷ p.1.now))) }
    ensures whole { (n : ℕ) (rest : List ℕ) → IsNumber n → text.now ≡ decimal n ++ (32 ∷ rest)
        → IsSomeAnd result (λ p. (p.0 ≡ n) × (p.1.now ≡ rest)) }
{
    let (number, rest) = text.split_once(' ')?;
    let number = read_number(number)?;
    Some((number, rest))
}

/// Reads `AMOUNT REST`.
fn amount_and_rest(text: &str) -> Option<(u64, &str)>
    ensures sound { IfSome result (λ p. IsAmount p.0 × (text.now ≡ decimal p.0 ++ (32 ∷ p.1.now))) }
    ensures whole { (n : ℕ) (rest : List ℕ) → IsAmount n → text.now ≡ decimal n ++ (32 ∷ rest)
        → IsSomeAnd result (λ p. (p.0 ≡ n) × (p.1.now ≡ rest)) }
{
    let (amount, rest) = text.split_once(' ')?;
    let amount = read_amount(amount)?;
    Some((amount, rest))
}

/// Reads `WORD N`.
fn number_after(text: &str, word: &str) -> Option<u32>
    ensures sound { IfSome result (λ n. IsNumber n × (text.now ≡ word.now ++ (32 ∷ decimal n))) }
    ensures whole { (n : ℕ) → IsNumber n → text.now ≡ word.now ++ (32 ∷ decimal n)
        → result ≡ Some n }
{
    let rest = after_word(text, word)?;
    read_number(rest)
}

/// Reads `WORD AMOUNT`.
fn amount_after(text: &str, word: &str) -> Option<u64>
    ensures sound { IfSome result (λ n. IsAmount n × (text.now ≡ word.now ++ (32 ∷ decimal n))) }
    ensures whole { (n : ℕ) → IsAmount n → text.now ≡ word.now ++ (32 ∷ decimal n)
        → result ≡ Some n }
{
    let rest = after_word(text, word)?;
    read_amount(rest)
}

/// Reads `WORD DAY`.
fn day_after(text: &str, word: &str) -> Option<Day>
    ensures sound { IfSome result (λ n. IsDayNumber n
        × (text.now ≡ word.now ++ (32 ∷ day_text n))) }
    ensures whole { (n : ℕ) → IsDayNumber n → text.now ≡ word.now ++ (32 ∷ day_text n)
        → result ≡ Some n }
{
    let rest = after_word(text, word)?;
    Day::read(rest)
}

/// Reads `WORD N REST`.
fn number_after_and_rest<'a>(text: &'a str, word: &str) -> Option<(u32, &'a str)>
    ensures sound { IfSome result (λ p. IsNumber p.0
        × (text.now ≡ word.now ++ (32 ∷ (decimal p.0 ++ (32 ∷ p.1.now))))) }
    ensures whole { (n : ℕ) (rest : List ℕ) → IsNumber n
        → text.now ≡ word.now ++ (32 ∷ (decimal n ++ (32 ∷ rest)))
        → IsSomeAnd result (λ p. (p.0 ≡ n) × (p.1.now ≡ rest)) }
{
    let after = after_word(text, word)?;
    number_and_rest(after)
}

/// Reads `WORD AMOUNT REST`.
fn amount_after_and_rest<'a>(text: &'a str, word: &str) -> Option<(u64, &'a str)>
    ensures sound { IfSome result (λ p. IsAmount p.0
        × (text.now ≡ word.now ++ (32 ∷ (decimal p.0 ++ (32 ∷ p.1.now))))) }
    ensures whole { (n : ℕ) (rest : List ℕ) → IsAmount n
        → text.now ≡ word.now ++ (32 ∷ (decimal n ++ (32 ∷ rest)))
        → IsSomeAnd result (λ p. (p.0 ≡ n) × (p.1.now ≡ rest)) }
{
    let after = after_word(text, word)?;
    amount_and_rest(after)
}

/// Reads `shelf B`.
fn read_shelf(text: &str) -> Option<Routed>
    ensures sound { IfSome result (λ r. IsRouted r × (text.now ≡ reply_text (reply.Moved r))) }
    ensures whole { (branch : ℕ) → IsNumber branch
        → text.now ≡ reply_text (reply.Moved (routed.Shelf branch)) → IsSome result }
{
    let branch = number_after(text, "shelf")?;
    Some(Routed::Shelf {
        branch: BranchId::new(branch),
    })
}

/// Reads `ready H at B until DAY`.
fn read_hold_shelf(text: &str) -> Option<Routed>
    ensures sound { IfSome result (λ r. IsRouted r × (text.now ≡ reply_text (reply.Moved r))) }
    ensures whole { (hold branch until : ℕ) → IsNumber hold → IsNumber branch → IsDayNumber until
        → text.now ≡ reply_text (reply.Moved (routed.HoldShelf hold branch until)) → IsSome result }
{
    let (hold, rest) = number_after_and_rest(text, "ready")?;
    let (branch, last) = number_after_and_rest(rest, "at")?;
    let until = day_after(last, "until")?;
    Some(Routed::HoldShelf {
        hold: HoldId::new(hold),
        branch: BranchId::new(branch),
        until,
    })
}

/// Reads `transit B for H`.
fn read_transit_for(text: &str) -> Option<Routed>
    ensures sound { IfSome result (λ r. IsRouted r × (text.now ≡ reply_text (reply.Moved r))) }
    ensures whole { (goal hold : ℕ) → IsNumber goal → IsNumber hold
        → text.now ≡ reply_text (reply.Moved (routed.Transit goal (Some hold))) → IsSome result }
{
    let (goal, rest) = number_after_and_rest(text, "transit")?;
    let hold = number_after(rest, "for")?;
    Some(Routed::Transit {
        goal: BranchId::new(goal),
        hold: Some(HoldId::new(hold)),
    })
}

/// Reads `transit B`.
fn read_transit(text: &str) -> Option<Routed>
    ensures sound { IfSome result (λ r. IsRouted r × (text.now ≡ reply_text (reply.Moved r))) }
    ensures whole { (goal : ℕ) → IsNumber goal
        → text.now ≡ reply_text (reply.Moved (routed.Transit goal None)) → IsSome result }
{
    let goal = number_after(text, "transit")?;
    Some(Routed::Transit {
        goal: BranchId::new(goal),
        hold: None,
    })
}

/// Reads where a copy goes.
fn read_routed(text: &str) -> Option<Routed>
    ensures sound { IfSome result (λ r. IsRouted r × (text.now ≡ reply_text (reply.Moved r))) }
    ensures whole { (r : Routed) → IsRouted r → text.now ≡ reply_text (reply.Moved r)
        → IsSome result }
{
    if let Some(routed) = read_shelf(text) {
        return Some(routed);
    }
    if let Some(routed) = read_hold_shelf(text) {
        return Some(routed);
    }
    if let Some(routed) = read_transit_for(text) {
        return Some(routed);
    }
    read_transit(text)
}

/// Reads `loan L due DAY`.
fn read_lent(text: &str) -> Option<Reply>
    ensures sound { IfSome result (λ r. IsKept r × (text.now ≡ reply_text r)) }
    ensures whole { (loan due : ℕ) → IsNumber loan → IsDayNumber due
        → text.now ≡ reply_text (reply.Lent loan due) → IsSome result }
{
    let (loan, rest) = number_after_and_rest(text, "loan")?;
    let due = day_after(rest, "due")?;
    Some(Reply::Lent {
        loan: LoanId::new(loan),
        due,
    })
}

/// Reads `fine F price Q`.
fn read_lost(text: &str) -> Option<Reply>
    ensures sound { IfSome result (λ r. IsKept r × (text.now ≡ reply_text r)) }
    ensures whole { (fine price : ℕ) → IsAmount fine → IsAmount price
        → text.now ≡ reply_text (reply.Lost fine price) → IsSome result }
{
    let (fine, rest) = amount_after_and_rest(text, "fine")?;
    let price = amount_after(rest, "price")?;
    Some(Reply::Lost {
        fine: Cents::new(fine),
        price: Cents::new(price),
    })
}

/// Reads `fine F` and where the copy goes.
fn read_checked_in(text: &str) -> Option<Reply>
    ensures sound { IfSome result (λ r. IsKept r × (text.now ≡ reply_text r)) }
    ensures whole { (fine : ℕ) (r : Routed) → IsAmount fine → IsRouted r
        → text.now ≡ reply_text (reply.CheckedIn fine r) → IsSome result }
{
    let (fine, rest) = amount_after_and_rest(text, "fine")?;
    let routed = read_routed(rest)?;
    Some(Reply::CheckedIn {
        fine: Cents::new(fine),
        routed,
    })
}

/// Reads `hold H`.
fn read_held(text: &str) -> Option<Reply>
    ensures sound { IfSome result (λ r. IsKept r × (text.now ≡ reply_text r)) }
    ensures whole { (hold : ℕ) → IsNumber hold → text.now ≡ reply_text (reply.Held hold)
        → IsSome result }
{
    let hold = number_after(text, "hold")?;
    Some(Reply::Held {
        hold: HoldId::new(hold),
    })
}

/// Reads `owed AMOUNT`.
fn read_owed(text: &str) -> Option<Reply>
    ensures sound { IfSome result (λ r. IsKept r × (text.now ≡ reply_text r)) }
    ensures whole { (owed : ℕ) → IsAmount owed → text.now ≡ reply_text (reply.Owed owed)
        → IsSome result }
{
    let owed = amount_after(text, "owed")?;
    Some(Reply::Owed {
        owed: Cents::new(owed),
    })
}

/// Reads where a copy from the hold shelf goes.
fn read_moved(text: &str) -> Option<Reply>
    ensures sound { IfSome result (λ r. IsKept r × (text.now ≡ reply_text r)) }
    ensures whole { (r : Routed) → IsRouted r → text.now ≡ reply_text (reply.Moved r)
        → IsSome result }
{
    let routed = read_routed(text)?;
    Some(Reply::Moved { routed })
}

/// Reads a reply in one of its forms.
fn find_reply(text: &str) -> Option<Reply>
    ensures sound { IfSome result (λ r. IsKept r × (text.now ≡ reply_text r)) }
    ensures whole { (r : Reply) → IsKept r → text.now ≡ reply_text r → IsSome result }
{
    if text == "ok" {
        return Some(Reply::Done);
    }
    if let Some(lent) = read_lent(text) {
        return Some(lent);
    }
    if let Some(lost) = read_lost(text) {
        return Some(lost);
    }
    if let Some(checked_in) = read_checked_in(text) {
        return Some(checked_in);
    }
    if let Some(held) = read_held(text) {
        return Some(held);
    }
    if let Some(owed) = read_owed(text) {
        return Some(owed);
    }
    read_moved(text)
}

/// Reads a reply that is kept: neither a page nor a refusal.
pub fn read_reply(text: &str) -> Option<Reply>
    ensures sound { IfSome result (λ r. IsKept r × (reply_text r ≡ text.now)) }
    ensures whole { (r : Reply) → IsKept r → text.now ≡ reply_text r → result ≡ Some r }
    ensures none { IfNone result ((r : Reply) → IsKept r → reply_text r ≢ text.now) }
{
    find_reply(text)
}
