//! A clerk.

ghost use Rattle.std.specs.Prelude.{◌≡◌, IfOk, true, false};
ghost use Rattle.clerks.specs.Clerks.{may_send, key_given_by, sole_clerk};

use std::alloc::Global;
use terms::{CardKey, ClerkName, Command, Key, Memory, Question};

/// What a clerk may send.
#[derive(Clone, Copy, Debug, PartialEq, Eq)]
pub enum Role {
    /// Every command and question.
    Desk,
    /// What a self-service machine needs: `check-out`, `check-in`, `renew`, `page`, `copy`,
    /// `borrower`, `find-barcode` and `today`.
    Lending,
}

impl Role {
    /// Returns whether a clerk of this role may send the command.
    pub fn may_send(self, command: &Command) -> bool
        ensures { result ≡ may_send self command.now }
    {
        match self {
            Role::Desk => true,
            Role::Lending => match command {
                Command::CheckOut { .. }
                | Command::CheckIn { .. }
                | Command::Renew { .. }
                | Command::Page { .. } => true,
                Command::Ask(question) => match question {
                    Question::Copy { .. }
                    | Question::Borrower { .. }
                    | Question::FindBarcode { .. }
                    | Question::Today => true,
                    _ => false,
                },
                _ => false,
            },
        }
    }
}

/// A clerk, who opens the desk with a key.
#[derive(Drop)]
pub struct Clerk {
    /// None for a desk with one key for everybody.
    pub name: Option<ClerkName>,
    pub role: Role,
    pub key: CardKey,
}

impl Clerk {
    /// Makes the clerk without a name who may send everything.
    pub fn sole(key: CardKey) -> Clerk
        ensures { result ≡ sole_clerk key }
    {
        Clerk {
            name: None,
            role: Role::Desk,
            key,
        }
    }

    /// Returns the key under which a request of this clerk is kept: the clerk's name, a slash and the
    /// key that was given, or that key alone if the clerk has no name. None if a clerk with a name
    /// gives a key that isn't one from outside.
    pub fn request_key(&self, alloc: Global, given: Key) -> Result<Option<Key>, Memory>
        ensures { IfOk result (λ o. o ≡ key_given_by self.now.name given) }
    {
        match &self.name {
            Some(name) => Key::of_clerk(alloc, name, &given),
            None => Ok(Some(given)),
        }
    }
}
