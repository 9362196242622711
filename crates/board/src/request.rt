//! A request that the desk and a worker share.

ghost use Rattle.std.specs.Prelude.{◌≡◌, ◌≢◌, IsTrue, IsFalse, IfOk};
ghost use Rattle.terms.specs.Texts.{request_text as request_text_of};

use std::alloc::Global;
use std::marker::Model;
use std::sync::Arc;
use terms::laws::{command_has_forms, request_texts_differ};
use terms::{Caller, Memory, Request, Text, request_text};

/// A request with the text of its command.
#[derive(Drop)]
struct RequestText {
    request: Request,
    text: Text,
    ghost told: { text ≡ request_text_of request.command },
}

/// A request that can be shared and compared with another.
#[derive(Drop)]
pub struct SharedRequest {
    told: Arc<RequestText, Global>,
}

impl Model for SharedRequest {
    ghost use Rattle.std.specs.Arc.{arc_value};
    ghost use Rattle.terms.specs.declared.command.Request.{Request};

    ghost Value = { Request };

    ghost view = { λ r. (arc_value r.told).request };
}

/// Compares two callers by number and card key.
fn is_same_caller(one: &Caller, other: &Caller) -> bool
    ensures yes { IsTrue result → one.now ≡ other.now }
    ensures no { IsFalse result → one.now ≢ other.now }
{
    match (one, other) {
        (Caller::Desk, Caller::Desk) => true,
        (Caller::Patron(patron, key), Caller::Patron(other_patron, other_key)) => {
            patron.number() == other_patron.number() && key.is_same(other_key)
        }
        _ => false,
    }
}

/// Compares two requests by caller, key and text.
fn is_same_told(one: &RequestText, other: &RequestText) -> bool
    ensures yes { IsTrue result → one.now.request ≡ other.now.request }
    ensures no { IsFalse result → one.now.request ≢ other.now.request }
{
    request_texts_differ();
    command_has_forms(&one.request.command);
    command_has_forms(&other.request.command);
    if !one.text.is_same(&other.text) {
        return false;
    }
    if one.request.key.as_str() != other.request.key.as_str() {
        return false;
    }
    is_same_caller(&one.request.caller, &other.request.caller)
}

impl SharedRequest {
    /// Makes a request that can be shared.
    pub fn new(alloc: Global, request: Request) -> Result<SharedRequest, Memory>
        ensures { IfOk result (λ shared. shared ≡ request) }
    {
        let text = request_text(alloc, &request.command)?;
        let told = Arc::new(alloc, RequestText { request, text })?;
        Ok(SharedRequest { told })
    }

    /// Shares the request once more. Takes no memory, but the count of holders can be full.
    pub fn try_clone(&self) -> Result<SharedRequest, Memory>
        ensures { IfOk result (λ shared. shared ≡ self.now) }
    {
        let told = Arc::try_clone(&self.told)?;
        Ok(SharedRequest { told })
    }

    /// Returns the request.
    pub fn get(&self) -> &Request
        ensures { result.now ≡ self.now }
    {
        let told: &RequestText = &self.told;
        &told.request
    }

    /// Returns whether the other is the same request: same caller, key and command.
    pub fn is_same(&self, other: &SharedRequest) -> bool
        ensures yes { IsTrue result → self.now ≡ other.now }
        ensures no { IsFalse result → self.now ≢ other.now }
    {
        is_same_told(&self.told, &other.told)
    }
}
