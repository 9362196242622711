//! From the body of a request to a command.

ghost use Rattle.std.specs.Prelude.{◌≡◌, [], IfOk, IfSome, IfNone};
ghost use Rattle.terms.specs.declared.command.Command.{Command as Said};
ghost use Rattle.web.specs.Asking.{Asks, AsksHold, AsksDesk};

use crate::json::{read_hold, read_texts};
use crate::routes::Route;
use front::{WordFault, read_words};
use std::alloc::{AllocError, Global};
use terms::{Command, Memory, PatronId};

/// Reads the hold that a body asks for.
fn hold_command(alloc: Global, patron: PatronId, body: &[u8]) -> Result<Option<Command>, Memory>
    ensures asked { IfOk result (λ o. IfSome o (AsksHold patron body.now)) }
    ensures none { IfOk result (λ o. IfNone o
        ((said : Said) → AsksHold patron body.now said → ⊥)) }
{
    match read_hold(alloc, body)? {
        Some(asked) => Ok(Some(Command::PlaceHold {
            patron,
            title: asked.title,
            branch: asked.branch,
            first_day: asked.first_day,
        })),
        None => Ok(None),
    }
}

/// Reads the desk's command from a body.
fn desk_command(alloc: Global, body: &[u8]) -> Result<Option<Command>, Memory>
    ensures asked { IfOk result (λ o. IfSome o (AsksDesk body.now)) }
    ensures none { IfOk result (λ o. IfNone o ((said : Said) → AsksDesk body.now said → ⊥)) }
{
    let Some(texts) = read_texts(alloc, body)? else {
        return Ok(None);
    };
    match read_words(alloc, &texts) {
        Ok(command) => Ok(Some(command)),
        Err(WordFault::NotUnderstood) => Ok(None),
        Err(WordFault::Memory) => Err(AllocError),
    }
}

/// Returns the command if the body is empty.
fn bare_command(command: Command, body: &[u8]) -> Option<Command>
    ensures some { IfSome result (λ said. (body.now ≡ []) × (said ≡ command)) }
    ensures none { IfNone result (body.now ≡ [] → ⊥) }
{
    if body.is_empty() { Some(command) } else { None }
}

/// Reads the command that a body asks for on a route.
pub(crate) fn read_command(
    alloc: Global,
    route: &Route,
    body: &[u8],
) -> Result<Option<Command>, Memory>
    ensures asked { IfOk result (λ o. IfSome o (Asks route.now body.now)) }
    ensures none { IfOk result (λ o. IfNone o
        ((said : Said) → Asks route.now body.now said → ⊥)) }
{
    match route {
        Route::Page { patron } => Ok(bare_command(Command::Page { patron: *patron }, body)),
        Route::PlaceHold { patron } => hold_command(alloc, *patron, body),
        Route::CancelHold { hold, .. } => Ok(bare_command(
            Command::CancelHold { hold: *hold },
            body,
        )),
        Route::Renew { loan, .. } => Ok(bare_command(Command::Renew { loan: *loan }, body)),
        Route::Desk => desk_command(alloc, body),
    }
}
