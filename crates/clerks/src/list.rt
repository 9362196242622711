//! The clerks of a desk.

ghost use Rattle.std.specs.Prelude.{◌≡◌, ◌∷◌, [], IfOk, MatchOption, Some, None, bytes_eq};
ghost use Rattle.clerks.specs.Clerks.{clerk_of, sole_clerk};

use crate::clerk::Clerk;
use crate::comparing::are_same;
use std::alloc::Global;
use std::marker::Model;
use terms::{CardKey, Memory};

/// The most clerks of a desk.
pub const MOST_CLERKS: usize = 99;

/// The clerks whose keys open a desk.
#[derive(Drop)]
pub struct Clerks {
    each: Vec<Clerk>,
}

impl Model for Clerks {
    ghost use Rattle.std.specs.Prelude.{List};
    ghost use Rattle.clerks.specs.declared.clerk.Clerk.{Clerk};

    ghost Value = { List Clerk };

    ghost view = { λ a. a.each.items };
}

/// Compares a clerk's key with one that is shown.
#[tactic(auto, unfolding(terms::specs::Forms::is_card_key))]
fn has_key(clerk: &Clerk, shown: &CardKey) -> bool
    ensures { result ≡ bytes_eq shown.now clerk.now.key }
{
    are_same(shown.as_str().as_bytes(), clerk.key.as_str().as_bytes())
}

impl Clerks {
    /// Makes a list of clerks.
    pub fn new(each: Vec<Clerk>) -> Clerks
        ensures { result ≡ each.items }
    {
        Clerks { each }
    }

    /// Makes the list of one clerk without a name, who may send everything.
    pub fn sole(alloc: Global, key: CardKey) -> Result<Clerks, Memory>
        ensures { IfOk result (λ clerks. clerks ≡ sole_clerk key ∷ []) }
    {
        let mut each = Vec::new(alloc);
        each.push(Clerk::sole(key))?;
        Ok(Clerks { each })
    }

    /// Returns the clerks in their order.
    pub fn as_slice(&self) -> &[Clerk]
        ensures { result.now ≡ self.now }
    {
        self.each.as_slice()
    }

    /// Finds the first clerk with this key. Compares it with the keys of all of them, whichever it is.
    pub fn find(&self, shown: &CardKey) -> Option<&Clerk>
        ensures { MatchOption result (clerk_of shown.now self.now ≡ None)
            (λ clerk. clerk_of shown.now self.now ≡ Some clerk.now) }
    {
        let mut found = None;
        'clerks: for clerk in self.each.as_slice() {
            if has_key(clerk, shown) && found.is_none() {
                found = Some(clerk);
            }
        }
        found
    }
}
