//! Requests and answers as bytes.

use crate::calls::serve;
use clerks::Clerks;
use hall::{Opening, Worker};
use std::alloc::Global;
use std::io::Read;
use std::sync::Wait;
use terms::CardKey;
use test_bytes::Narrow;

/// The bytes of an answer with this status and body. None if memory ran out.
pub fn answer(alloc: Global, text: &str) -> Option<String> {
    let at = text.find('{')?;
    let (status, body) = (text[..at].trim_end(), &text[at..]);
    let size = body.len();
    format!(in alloc;
        "HTTP/1.1 {status}\r\nContent-Type: application/json\r\nContent-Length: {size}\r\nConnection: close\r\n\r\n{body}"
    ).ok()
}

/// Serves one connection, with the desk's key; the writer takes this many bytes. What it took, and
/// whether a whole answer went out.
pub fn served<J: Opening, R: Wait, I: Read + Drop>(
    rt: &R,
    alloc: Global,
    worker: &mut Worker<J>,
    mut reader: I,
    room: usize,
) -> Option<(Vec<u8>, bool)> {
    let clerks = Clerks::sole(alloc, CardKey::new(alloc, "deskkey00001").ok()??).ok()?;
    let mut writer = Narrow::new(alloc, room);
    let is_whole = serve(rt, alloc, worker, &clerks, &mut reader, &mut writer);
    Some((writer.into_taken(), is_whole))
}

/// Whether a request gets its answer, whole.
pub fn gets<J: Opening, R: Wait>(
    rt: &R,
    alloc: Global,
    worker: &mut Worker<J>,
    request: &str,
    text: &str,
) -> Option<bool> {
    let (taken, is_whole) = served(rt, alloc, worker, request.as_bytes(), 100_000)?;
    let wanted = answer(alloc, text)?;
    Some(is_whole && taken.as_slice() == wanted.as_bytes())
}

/// The text that a request gets, if whole.
pub fn told<J: Opening, R: Wait>(
    rt: &R,
    alloc: Global,
    worker: &mut Worker<J>,
    request: &str,
) -> Option<String> {
    let (taken, is_whole) = served(rt, alloc, worker, request.as_bytes(), 100_000)?;
    if !is_whole {
        return None;
    }
    String::from_str(alloc, std::str::from_utf8(taken.as_slice()).ok()?).ok()
}
