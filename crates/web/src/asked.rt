//! What a web request asks for.

ghost use Rattle.std.specs.Prelude.{◌≡◌, Some, IfOk};
ghost use Rattle.web.specs.Asked.{asked_by_clerk, asked_of};

use crate::request::WebRequest;
use clerks::{Clerk, Clerks};
use std::alloc::Global;
use terms::laws::clerk_keys_differ;
use terms::{Caller, CardKey, Command, Key, Memory, PatronId, Request};

/// What a web request asks for, given the key the caller shows.
#[derive(Drop)]
pub enum Asked {
    /// Nothing: the caller shows no well-formed key, or on the desk's route no clerk's key, or the
    /// clerk may not send this. It is refused as not allowed.
    Nothing,
    /// A patron's page, by card key.
    Page(PatronId, CardKey),
    /// A request of the desk or of a patron.
    Request(Request),
}

/// Returns what a clerk asks for.
fn asked_by(alloc: Global, clerk: &Clerk, given: Key, command: Command) -> Result<Asked, Memory>
    ensures { IfOk result (λ asked. asked ≡ asked_by_clerk (Some clerk.now) given command) }
{
    if !clerk.role.may_send(&command) {
        return Ok(Asked::Nothing);
    }
    match clerk.request_key(alloc, given)? {
        Some(key) => Ok(Asked::Request(Request {
            caller: Caller::Desk,
            key,
            command,
        })),
        None => Ok(Asked::Nothing),
    }
}

impl WebRequest {
    /// Returns what the request asks for, if these are the clerks. The request of a clerk with a name
    /// is kept under a key that tells the name, so clerks don't meet in their keys.
    pub fn asked(self, alloc: Global, clerks: &Clerks) -> Result<Asked, Memory>
        ensures { IfOk result (λ asked. asked ≡ asked_of clerks.now self) }
    {
        clerk_keys_differ();
        let WebRequest {
            patron,
            shown,
            key,
            command,
        } = self;
        let Some(shown) = shown else {
            return Ok(Asked::Nothing);
        };
        match (patron, key) {
            (Some(patron), None) => Ok(Asked::Page(patron, shown)),
            (Some(patron), Some(key)) => Ok(Asked::Request(Request {
                caller: Caller::Patron(patron, shown),
                key,
                command,
            })),
            (None, Some(given)) => match clerks.find(&shown) {
                Some(clerk) => asked_by(alloc, clerk, given, command),
                None => Ok(Asked::Nothing),
            },
            (None, None) => Ok(Asked::Nothing),
        }
    }
}
