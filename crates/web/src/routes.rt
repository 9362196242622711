//! The routes: their targets and methods.

ghost use Rattle.std.specs.Prelude.{◌≡◌, ◌++◌, ◌∷◌, ℕ, List, Some, bytes_eq};
ghost use Rattle.std.specs.Prelude.{IfOk, IfSome, IfNone, IsSomeAnd};
ghost use Rattle.std.specs.Fmt.{decimal};
ghost use Rattle.terms.specs.Laws.{IsNumber};
ghost use Rattle.web.specs.Requests.{is_post, method_of, patron_of, key_field};
ghost use Rattle.web.specs.Routes.{IsRoute, target_of, pattern_for, ChoosesRoutes, chosen};
ghost use Rattle.web.specs.declared.routes.Route.{Route as Said};
ghost use Rattle.web.specs.declared.routes.Route.TheVariants as route;

use http::Method;
use matchit::{InsertError, Router};
use std::alloc::{AllocError, Global};
use std::marker::Model;
use terms::{HoldId, LoanId, Memory, PatronId, read_number};

/// A target, with its numbers.
#[derive(Clone, Copy, Debug, PartialEq, Eq)]
pub(crate) enum Route {
    /// `/patrons/{id}`: shows a patron's page.
    Page { patron: PatronId },
    /// `/patrons/{id}/holds`: places a hold.
    PlaceHold { patron: PatronId },
    /// `/patrons/{id}/holds/{hold}/cancel`: cancels a hold.
    CancelHold { patron: PatronId, hold: HoldId },
    /// `/patrons/{id}/loans/{loan}/renew`: renews a loan.
    Renew { patron: PatronId, loan: LoanId },
    /// `/desk`: any command of the desk.
    Desk,
}

/// A route's pattern, without its numbers.
#[derive(Clone, Copy, Debug, PartialEq, Eq)]
pub(crate) enum Pattern {
    /// A patron's page.
    Page,
    /// Placing a hold.
    PlaceHold,
    /// Cancelling a hold.
    CancelHold,
    /// Renewing a loan.
    Renew,
    /// The desk.
    Desk,
}

impl Route {
    /// Returns whether the route changes something and so takes POST.
    pub(crate) fn is_post(&self) -> bool
        ensures { result ≡ is_post self.now }
    {
        match self {
            Route::Page { .. } => false,
            _ => true,
        }
    }

    /// Returns the route's method.
    pub(crate) fn method(&self) -> Method
        ensures { result ≡ method_of self.now }
    {
        if self.is_post() {
            Method::POST
        } else {
            Method::GET
        }
    }

    /// Returns whether this is the route's method.
    pub(crate) fn has_method(&self, method: &[u8]) -> bool
        ensures { result ≡ bytes_eq method.now (method_of self.now) }
    {
        method == self.method().as_str().as_bytes()
    }

    /// Returns the route's patron; none for the desk.
    pub(crate) fn patron(&self) -> Option<PatronId>
        ensures { result ≡ patron_of self.now }
    {
        match self {
            Route::Page { patron } => Some(*patron),
            Route::PlaceHold { patron } => Some(*patron),
            Route::CancelHold { patron, .. } => Some(*patron),
            Route::Renew { patron, .. } => Some(*patron),
            Route::Desk => None,
        }
    }

    /// Returns the name of the field with the caller's key.
    pub(crate) fn key_field(&self) -> &'static str
        ensures { result.now ≡ key_field self.now }
    {
        match self {
            Route::Desk => "Desk-Key",
            _ => "Card-Key",
        }
    }
}

/// Reads the number after a prefix, up to the end.
fn last_number(text: &str, word: &str) -> Option<u32>
    ensures sound { IfSome result (λ n. IsNumber n × (text.now ≡ word.now ++ decimal n)) }
    ensures whole { (n : ℕ) → IsNumber n → text.now ≡ word.now ++ decimal n → result ≡ Some n }
{
    let rest = text.strip_prefix(word)?;
    read_number(rest)
}

/// Reads the number between a prefix and a slash; returns it and what follows the slash.
fn number_and_rest<'a>(text: &'a str, word: &str) -> Option<(u32, &'a str)>
    ensures sound { IfSome result
        (λ p. IsNumber p.0 × (text.now ≡ word.now ++ (decimal p.0 ++ (47 ∷ p.1.now)))) }
    ensures whole { (n : ℕ) (rest : List ℕ) → IsNumber n
        → text.now ≡ word.now ++ (decimal n ++ (47 ∷ rest))
        → IsSomeAnd result (λ p. (p.0 ≡ n) × (p.1.now ≡ rest)) }
{
    let after = text.strip_prefix(word)?;
    let (number, rest) = after.split_once('/')?;
    let number = read_number(number)?;
    Some((number, rest))
}

/// Reads a target `/patrons/{id}`.
fn read_page(target: &str) -> Option<Route>
    ensures sound { IfSome result (λ r. IsRoute r × (target.now ≡ target_of r)) }
    ensures whole { (patron : ℕ) → IsNumber patron → target.now ≡ target_of (route.Page patron)
        → result ≡ Some (route.Page patron) }
{
    let patron = last_number(target, "/patrons/")?;
    Some(Route::Page {
        patron: PatronId::new(patron),
    })
}

/// Reads a target `/patrons/{id}/holds`.
fn read_place_hold(target: &str) -> Option<Route>
    ensures sound { IfSome result (λ r. IsRoute r × (target.now ≡ target_of r)) }
    ensures whole { (patron : ℕ) → IsNumber patron
        → target.now ≡ target_of (route.PlaceHold patron)
        → result ≡ Some (route.PlaceHold patron) }
{
    let (patron, rest) = number_and_rest(target, "/patrons/")?;
    if rest != "holds" {
        return None;
    }
    Some(Route::PlaceHold {
        patron: PatronId::new(patron),
    })
}

/// Reads a target `/patrons/{id}/holds/{hold}/cancel`.
fn read_cancel_hold(target: &str) -> Option<Route>
    ensures sound { IfSome result (λ r. IsRoute r × (target.now ≡ target_of r)) }
    ensures whole { (patron hold : ℕ) → IsNumber patron → IsNumber hold
        → target.now ≡ target_of (route.CancelHold patron hold)
        → result ≡ Some (route.CancelHold patron hold) }
{
    let (patron, rest) = number_and_rest(target, "/patrons/")?;
    let (hold, last) = number_and_rest(rest, "holds/")?;
    if last != "cancel" {
        return None;
    }
    Some(Route::CancelHold {
        patron: PatronId::new(patron),
        hold: HoldId::new(hold),
    })
}

/// Reads a target `/patrons/{id}/loans/{loan}/renew`.
fn read_renew(target: &str) -> Option<Route>
    ensures sound { IfSome result (λ r. IsRoute r × (target.now ≡ target_of r)) }
    ensures whole { (patron loan : ℕ) → IsNumber patron → IsNumber loan
        → target.now ≡ target_of (route.Renew patron loan)
        → result ≡ Some (route.Renew patron loan) }
{
    let (patron, rest) = number_and_rest(target, "/patrons/")?;
    let (loan, last) = number_and_rest(rest, "loans/")?;
    if last != "renew" {
        return None;
    }
    Some(Route::Renew {
        patron: PatronId::new(patron),
        loan: LoanId::new(loan),
    })
}

/// Reads a target `/desk`.
fn read_desk(target: &str) -> Option<Route>
    ensures sound { IfSome result (λ r. IsRoute r × (target.now ≡ target_of r)) }
    ensures whole { target.now ≡ target_of route.Desk → result ≡ Some route.Desk }
{
    if target == "/desk" {
        Some(Route::Desk)
    } else {
        None
    }
}

/// Makes the router of the five patterns.
fn route_table(alloc: Global) -> Result<Router<Pattern>, InsertError>
    ensures { IfOk result ChoosesRoutes }
{
    let mut router = Router::new(alloc);
    router.insert("/patrons/{id}", Pattern::Page)?;
    router.insert("/patrons/{id}/holds", Pattern::PlaceHold)?;
    router.insert("/patrons/{id}/holds/{hold}/cancel", Pattern::CancelHold)?;
    router.insert("/patrons/{id}/loans/{loan}/renew", Pattern::Renew)?;
    router.insert("/desk", Pattern::Desk)?;
    Ok(router)
}

/// Finds the pattern that a target fits.
fn pattern_of(router: &Router<Pattern>, target: &str) -> Option<Pattern>
    ensures { result ≡ chosen router.now target.now }
{
    match router.at(target) {
        Ok(found) => Some(*found.value),
        Err(_) => None,
    }
}

/// Reads a target by the pattern that the router chose.
fn read_target(pattern: Pattern, target: &str) -> Option<Route>
    ensures sound { IfSome result (λ r. IsRoute r × (target.now ≡ target_of r)) }
    ensures whole { (r : Said) → IsRoute r → pattern ≡ pattern_for r → target.now ≡ target_of r
        → result ≡ Some r }
{
    match pattern {
        Pattern::Page => read_page(target),
        Pattern::PlaceHold => read_place_hold(target),
        Pattern::CancelHold => read_cancel_hold(target),
        Pattern::Renew => read_renew(target),
        Pattern::Desk => read_desk(target),
    }
}

/// The routes, by pattern. Make them once for many requests.
#[derive(Drop)]
pub struct Routes {
    router: Router<Pattern>,
}

impl Model for Routes {
    ghost use Rattle.matchit.specs.Router.{RouteOf};
    ghost use Rattle.matchit.specs.Rows.{RowsOf};
    ghost use Rattle.web.specs.Routes.{ChoosesRoutes};
    ghost use Rattle.web.specs.declared.routes.Pattern.{Pattern};

    ghost Value = { RowsOf (RouteOf Pattern) };

    ghost view = { λ r. r.router };

    ghost invariant = { λ r. ChoosesRoutes r.router };
}

impl Routes {
    /// Makes the routes of the desk and of patrons' pages, holds and loans. Fault 90.
    pub fn new(alloc: Global) -> Result<Routes, Memory> {
        match route_table(alloc) {
            Ok(router) => Ok(Routes { router }),
            Err(_) => Err(AllocError),
        }
    }

    /// Finds the route with this target. A route has one target.
    pub(crate) fn route_of(&self, target: &str) -> Option<Route>
        ensures some { IfSome result (λ r. IsRoute r × (target.now ≡ target_of r)) }
        ensures none { IfNone result ((r : Said) → IsRoute r → target.now ≡ target_of r → ⊥) }
    {
        match pattern_of(&self.router, target) {
            Some(pattern) => read_target(pattern, target),
            None => None,
        }
    }
}
