//! Web requests, and the checks they pass, in order.

ghost use Rattle.std.specs.Prelude.{◌≡◌, ◌++◌, IsUtf8, IfOk, IfErr, IfSome, IfNone, MatchBool, length, take, drop, map};
ghost use Rattle.std.specs.Prelude.{Ok, Err, Some, None, MatchOption, bytes_eq};
ghost use Rattle.httparse.specs.Spans.{IsRequestWithin, span_bytes, header_bytes};
ghost use Rattle.web.specs.Checks.{UnlessFaulted, ChecksTarget, ChecksLength, ChecksHead};
ghost use Rattle.web.specs.Faults.{IsNotRead};
ghost use Rattle.web.specs.Routes.{IsRoute, target_of};
ghost use Rattle.web.specs.Taking.{Takes, EndsReading, WantsAfter, TakesRequest};
ghost use Rattle.web.specs.declared.routes.Route.{Route as Said};
ghost use Rattle.web.specs.declared.fault.WebFault.TheVariants.{Status};
ghost use Rattle.web.specs.declared.fault.WebStatus.TheVariants.{BadRequest, MethodNotAllowed};
ghost use Rattle.web.specs.Requests.{shown_key, request_key, stands_twice, repeats_key};
ghost use Rattle.web.specs.Requests.{is_post, method_of};
ghost use Rattle.web.specs.declared.limits.TheConstants.{HEAD_BYTES, HEAD_FIELDS};

use crate::body::read_body;
use crate::command::read_command;
use crate::fault::{WebFault, WebStatus};
use crate::fields::{Fields, Found, body_length};
use crate::head::read_head;
use crate::keys::{card_key, outside_key};
use crate::limits::{HEAD_BYTES, HEAD_FIELDS};
use crate::routes::{Route, Routes};
use crate::source::Source;
use httparse::spans::{EMPTY_HEADER_SPAN, HeaderSpan, RequestSpans};
use std::alloc::Global;
use std::str;
use terms::{CardKey, Command, Key, Memory, PatronId};

/// A web request. Whether its key is the right one is checked elsewhere.
#[derive(Drop)]
pub struct WebRequest {
    /// The route's patron; none on the desk's route.
    pub patron: Option<PatronId>,
    /// The card key shown, or on the desk's route a clerk's key; none if the field is absent or
    /// malformed.
    pub shown: Option<CardKey>,
    /// The request key; none for a patron's page, whatever key it shows.
    pub key: Option<Key>,
    /// The command.
    pub command: Command,
}

/// Returns the key that the caller shows, if well-formed.
fn shown_of(alloc: Global, route: &Route, fields: &Fields<'_>) -> Result<Option<CardKey>, Memory>
    ensures { IfOk result (λ shown. shown ≡ shown_key route.now fields.now) }
{
    match fields.values(route.key_field().as_bytes()) {
        Found::One(value) => card_key(alloc, value),
        _ => Ok(None),
    }
}

/// Returns the request key, if well-formed.
fn key_of(alloc: Global, fields: &Fields<'_>) -> Result<Option<Key>, Memory>
    ensures { IfOk result (λ key. key ≡ request_key fields.now) }
{
    match fields.values(b"Request-Key") {
        Found::One(value) => outside_key(alloc, value),
        _ => Ok(None),
    }
}

/// Returns whether a field with this name occurs more than once.
fn is_twice(fields: &Fields<'_>, name: &[u8]) -> bool
    ensures { result ≡ stands_twice name.now fields.now }
{
    match fields.values(name) {
        Found::Several => true,
        _ => false,
    }
}

/// Returns whether one of the three keys occurs more than once.
fn is_key_repeated(fields: &Fields<'_>) -> bool
    ensures { result ≡ repeats_key fields.now }
{
    is_twice(fields, b"Card-Key")
        || is_twice(fields, b"Desk-Key")
        || is_twice(fields, b"Request-Key")
}

/// Checks that the method is the route's.
fn check_method(route: &Route, method: &[u8]) -> Result<(), WebFault>
    ensures { MatchBool (bytes_eq method.now (method_of route.now)) (result ≡ Ok tt)
        (result ≡ Err (Status (MethodNotAllowed (method_of route.now)))) }
{
    if route.has_method(method) {
        Ok(())
    } else {
        Err(WebFault::Status(WebStatus::MethodNotAllowed(route.method())))
    }
}

/// Checks that no key occurs twice.
fn check_repeats(fields: &Fields<'_>) -> Result<(), WebFault>
    ensures { MatchBool (repeats_key fields.now) (result ≡ Err (Status BadRequest))
        (result ≡ Ok tt) }
{
    if is_key_repeated(fields) {
        Err(WebFault::Status(WebStatus::BadRequest))
    } else {
        Ok(())
    }
}

/// Returns the request key, which every POST needs.
fn key_for(alloc: Global, route: &Route, fields: &Fields<'_>) -> Result<Option<Key>, WebFault>
    ensures key { UnlessFaulted result (MatchBool (is_post route.now)
        (MatchOption (request_key fields.now) (result ≡ Err (Status BadRequest))
        (λ key. result ≡ Ok (Some key)))
        (result ≡ Ok None)) }
    ensures unread { IfErr result IsNotRead }
{
    if !route.is_post() {
        return Ok(None);
    }
    match key_of(alloc, fields)? {
        Some(key) => Ok(Some(key)),
        None => Err(WebFault::Status(WebStatus::BadRequest)),
    }
}

/// Finds the route with this target.
fn find_route(routes: &Routes, target: &[u8]) -> Option<Route>
    requires { IsUtf8 target.now }
    ensures some { IfSome result (λ r. IsRoute r × (target.now ≡ target_of r)) }
    ensures none { IfNone result ((r : Said) → IsRoute r → target.now ≡ target_of r → ⊥) }
{
    match str::from_utf8(target) {
        Ok(target) => routes.route_of(target),
        Err(_) => None,
    }
}

/// Runs the checks of a parsed request, in order.
fn check_parts(
    alloc: Global,
    routes: &Routes,
    method: &[u8],
    target: &[u8],
    fields: &Fields<'_>,
    body: &[u8],
) -> Result<WebRequest, WebFault>
    requires { IsUtf8 target.now }
    ensures checks { UnlessFaulted result
        (ChecksTarget method.now target.now fields.now body.now result) }
    ensures unread { IfErr result IsNotRead }
{
    let Some(route) = find_route(routes, target) else {
        return Err(WebFault::Status(WebStatus::NotFound));
    };
    check_method(&route, method)?;
    check_repeats(fields)?;
    let shown = shown_of(alloc, &route, fields)?;
    let key = key_for(alloc, &route, fields)?;
    match read_command(alloc, &route, body)? {
        Some(command) => Ok(WebRequest {
            patron: route.patron(),
            shown,
            key,
            command,
        }),
        None => Err(WebFault::Status(WebStatus::BadRequest)),
    }
}

/// Runs the checks after the head's, given its spans.
fn check_head<R: Source>(
    alloc: Global,
    routes: &Routes,
    reader: &mut R,
    bytes: &[u8],
    headers: &[HeaderSpan],
    spans: RequestSpans,
) -> Result<WebRequest, WebFault>
    requires within { IsRequestWithin bytes.now headers.now spans }
    requires text { IsUtf8 (span_bytes bytes.now spans.path) }
    ensures checks { IfSome (R.Read.remaining reader.old) (λ left. UnlessFaulted result
        (ChecksLength (span_bytes bytes.now spans.method) (span_bytes bytes.now spans.path)
        (map (header_bytes bytes.now) (take spans.headers headers.now))
        (drop spans.len bytes.now ++ left) result)) }
    ensures takes { let fields = map (header_bytes bytes.now) (take spans.headers headers.now) in
        let wants = WantsAfter fields (drop spans.len bytes.now) in
        Takes R.reads R.Read.remaining wants
        (λ got mid new. EndsReading R.reads R.Read.remaining wants got mid new result)
        reader.old reader.new }
{
    let fields = Fields::new(bytes, &headers[..spans.headers]);
    let size = body_length(&fields)?;
    let Some(body) = read_body(alloc, reader, &bytes[spans.len..], size)? else {
        return Err(WebFault::Status(WebStatus::BadRequest));
    };
    check_parts(
        alloc,
        routes,
        spans.method.of(bytes),
        spans.path.of(bytes),
        &fields,
        &body,
    )
}

/// Makes room for `size` bytes. The size is an argument, so that no proof writes out so long a
/// list.
pub(crate) fn room_for_bytes(alloc: Global, size: usize) -> Result<Vec<u8>, Memory>
    ensures { IfOk result (λ room. length room.items ≡ size) }
{
    vec![in alloc; 0; size]
}

/// Makes room for `size` fields.
pub(crate) fn room_for_fields(alloc: Global, size: usize) -> Result<Vec<HeaderSpan>, Memory>
    ensures { IfOk result (λ room. length room.items ≡ size) }
{
    vec![in alloc; EMPTY_HEADER_SPAN; size]
}

/// Reads a request, with buffers for its head.
fn read_with<R: Source>(
    alloc: Global,
    routes: &Routes,
    reader: &mut R,
    buf: &mut [u8],
    headers: &mut [HeaderSpan],
) -> Result<WebRequest, WebFault>
    requires size { length buf.old ≡ HEAD_BYTES }
    requires room { length headers.old ≡ HEAD_FIELDS }
    ensures checks { IfSome (R.Read.remaining reader.old)
        (λ bytes. UnlessFaulted result (ChecksHead bytes result)) }
    ensures takes { TakesRequest R.reads R.Read.remaining reader.old reader.new result }
{
    let Some((spans, filled)) = read_head(reader, buf, headers)? else {
        return Err(WebFault::Status(WebStatus::BadRequest));
    };
    check_head(alloc, routes, reader, &buf[..filled], headers, spans)
}

/// Reads one request: its head, within 8,192 bytes and 32 fields, and its body. A failed check
/// refuses it with the status of the first that fails, however the reader splits the bytes. Reads
/// no more than it needs, and nothing after a failed read, which it tells as such. Fault 90 if no
/// memory is left, or none was left for the routes.
pub fn read_request<R: Source>(
    alloc: Global,
    routes: Option<&Routes>,
    reader: &mut R,
) -> Result<WebRequest, WebFault>
    ensures checks { IfSome (R.Read.remaining reader.old)
        (λ bytes. UnlessFaulted result (ChecksHead bytes result)) }
    ensures takes { TakesRequest R.reads R.Read.remaining reader.old reader.new result }
{
    let Some(routes) = routes else {
        return Err(WebFault::Memory);
    };
    let mut buf = room_for_bytes(alloc, HEAD_BYTES)?;
    let mut headers = room_for_fields(alloc, HEAD_FIELDS)?;
    read_with(alloc, routes, reader, &mut buf, &mut headers)
}
