//! Requests as connections bring them, and answers as connections take them, whole and in pieces.

use crate::examples::{
    ANSWERED, BAD_REQUEST, CONFLICT, CUT, FORBIDDEN, HELD, LENT, NO_HEAD, NOT_FOUND, ONLY_POST,
    QUOTED, READ, REFUSED, REFUSED_HEADS, SENT, SHOWN, TOO_LARGE, UNAVAILABLE, UNREAD,
};
use http::Method;
use std::alloc::Global;
use std::test::Fail;
use terms::{
    CardKey, Day, Fault, HoldId, Key, LoanId, Refusal, Reply, ServiceFault, Text, request_text,
};
use test_bytes::{Drip, Narrow};
use web::{
    Answer, AnswerFault, Routes, WebFault, WebRequest, WebStatus, read_answer, read_request,
    requests_read_once, write_answer, write_send,
};

/// Which side of a connection reads.
#[derive(Clone, Copy)]
enum Side {
    Server,
    Client,
}

/// A request in words: its patron, the key shown, its own key, and what it asks for.
fn said(alloc: Global, request: &WebRequest) -> Result<String, Fail> {
    let command = request_text(alloc, &request.command)?;
    let patron = match &request.patron {
        Some(patron) => patron.number(),
        None => 0,
    };
    let shown = match &request.shown {
        Some(key) => key.as_str(),
        None => "-",
    };
    let key = match &request.key {
        Some(key) => key.as_str(),
        None => "-",
    };
    Ok(format!(in alloc; "{patron} {shown} {key}: {command}")?)
}

/// The bytes of an answer.
fn written(alloc: Global, answer: &Answer) -> Result<String, Fail> {
    let mut bytes = Vec::new(alloc);
    if write_answer(&mut bytes, answer).is_err() {
        return Err("an answer is not written".into());
    }
    String::from_utf8(bytes).map_err(|_| "an answer is no text".into())
}

/// How a request is read: its words, or the answer if it fails a check.
fn request_told(alloc: Global, reader: &mut Drip<'_>) -> Result<String, Fail> {
    let routes = Routes::new(alloc)?;
    match read_request(alloc, Some(&routes), reader) {
        Ok(request) => said(alloc, &request),
        Err(WebFault::Status(status)) => written(alloc, &Answer::Failed(status)),
        Err(WebFault::Read) => Ok(String::from_str(alloc, "failed")?),
        Err(WebFault::Memory) => Err("no memory".into()),
    }
}

/// How an answer is read: its status and its body.
fn answer_told(alloc: Global, reader: &mut Drip<'_>) -> Result<String, Fail> {
    match read_answer(alloc, reader) {
        Ok(answer) => {
            let status = answer.status;
            let body = answer.body.as_str();
            Ok(format!(in alloc; "{status} {body}")?)
        }
        Err(AnswerFault::Malformed) => Ok(String::from_str(alloc, "malformed")?),
        Err(AnswerFault::Read) => Ok(String::from_str(alloc, "failed")?),
        Err(AnswerFault::Memory) => Err("no memory".into()),
    }
}

/// Whether the bytes, in pieces of these sizes, are read as this.
fn is_read(
    alloc: Global,
    side: Side,
    bytes: &[u8],
    pieces: (usize, usize, bool),
    want: &str,
) -> Result<bool, Fail> {
    let (first, others, fails) = pieces;
    let mut reader = Drip {
        bytes,
        first,
        others,
        fails,
    };
    let told = match side {
        Side::Server => request_told(alloc, &mut reader)?,
        Side::Client => answer_told(alloc, &mut reader)?,
    };
    Ok(told.as_str() == want)
}

/// Whether the bytes are read as this: whole, in pieces of one size, and in two pieces.
fn is_read_anyhow(alloc: Global, side: Side, bytes: &[u8], want: &str) -> Result<bool, Fail> {
    for size in [1, 2, 7, 100_000] {
        if !is_read(alloc, side, bytes, (size, size, false), want)? {
            return Ok(false);
        }
    }
    for first in 1..bytes.len() {
        if !is_read(alloc, side, bytes, (first, 100_000, false), want)? {
            return Ok(false);
        }
    }
    Ok(true)
}

/// Whether a failing read is reported, at each byte, and none is made after the last byte.
fn is_read_exactly(alloc: Global, side: Side, bytes: &[u8], want: &str) -> Result<bool, Fail> {
    for end in 0..bytes.len() {
        if !is_read(alloc, side, &bytes[..end], (7, 100_000, true), "failed")? {
            return Ok(false);
        }
    }
    for size in [1, 2, 7, 100_000] {
        if !is_read(alloc, side, bytes, (size, size, true), want)? {
            return Ok(false);
        }
    }
    Ok(true)
}

#[test]
fn requests_are_read(rt: HostRuntime) -> Result<(), Fail> {
    let alloc = rt.alloc();
    requests_read_once();
    for (text, want) in READ {
        let bytes = text.as_bytes();
        assert!(rt; is_read_anyhow(alloc, Side::Server, bytes, want)?, "{want}");
        assert!(rt;
            is_read_exactly(alloc, Side::Server, bytes, want)?,
            "{want}, no more"
        );
    }
    Ok(())
}

/// How many beginnings of the bytes, from the empty one on, give a failed read if the reader fails
/// after them. The others must get the answer, or there is no such number.
fn failed_reads(alloc: Global, bytes: &[u8], want: &str) -> Result<Option<usize>, Fail> {
    let mut count = 0usize;
    for end in 0..bytes.len() + 1 {
        let (front, pieces) = (&bytes[..end], (7, 100_000, true));
        if count == end && is_read(alloc, Side::Server, front, pieces, "failed")? {
            count = count.wrapping_add(1);
        } else if !is_read(alloc, Side::Server, front, pieces, want)? {
            return Ok(None);
        }
    }
    Ok(Some(count))
}

/// What ends too soon is refused only at its end: a read that fails there is reported.
#[test]
fn what_is_cut_is_refused(rt: HostRuntime) -> Result<(), Fail> {
    let alloc = rt.alloc();
    for text in CUT {
        let bytes = text.as_bytes();
        assert!(rt;
            is_read_anyhow(alloc, Side::Server, bytes, BAD_REQUEST)?,
            "{text}"
        );
        let failed = failed_reads(alloc, bytes, BAD_REQUEST)?;
        assert!(rt; failed == Some(bytes.len() + 1), "{text}");
    }
    Ok(())
}

/// A head is refused once it is whole, or once nothing that follows can complete it.
#[test]
fn heads_are_refused(rt: HostRuntime) -> Result<(), Fail> {
    let alloc = rt.alloc();
    for (text, least) in NO_HEAD {
        let bytes = text.as_bytes();
        assert!(rt;
            is_read_anyhow(alloc, Side::Server, bytes, BAD_REQUEST)?,
            "{text}"
        );
        let failed = failed_reads(alloc, bytes, BAD_REQUEST)?.ok_or("an answer")?;
        assert!(rt; least <= failed && failed <= bytes.len(), "{text} {failed}");
    }
    for (text, answer) in REFUSED_HEADS {
        let bytes = text.as_bytes();
        assert!(rt;
            is_read_anyhow(alloc, Side::Server, bytes, answer)?,
            "{text}"
        );
        let end = text.find("\r\n\r\n").ok_or("an end")?;
        let failed = failed_reads(alloc, bytes, answer)?;
        assert!(rt; failed == Some(end.wrapping_add(4)), "{text}");
    }
    Ok(())
}

/// Each other check refuses once the body is whole.
#[test]
fn checks_refuse_in_their_order(rt: HostRuntime) -> Result<(), Fail> {
    let alloc = rt.alloc();
    for (text, answer) in REFUSED {
        let bytes = text.as_bytes();
        assert!(rt;
            is_read_anyhow(alloc, Side::Server, bytes, answer)?,
            "{text}"
        );
        let failed = failed_reads(alloc, bytes, answer)?;
        assert!(rt; failed == Some(bytes.len()), "{text}");
    }
    let latin = b"POST /patrons/2/holds HTTP/1.1\r\nCard-Key: cardkey00002\r\nRequest-Key: h1\r\n\
        Content-Length: 37\r\n\r\n{\"branch\":\"\xe9\",\"branch\":1,\"title\":100}";
    assert!(rt; is_read_anyhow(alloc, Side::Server, latin, BAD_REQUEST)?);
    assert!(rt; failed_reads(alloc, latin, BAD_REQUEST)? == Some(latin.len()));
    Ok(())
}

/// A page request with this many fields, the last with a value of this length.
fn page_with(alloc: Global, fields: usize, length: usize) -> Result<String, Fail> {
    let mut text = String::from_str(
        alloc,
        "GET /patrons/1 HTTP/1.1\r\nCard-Key: cardkey00001\r\n",
    )?;
    for _ in 2..fields {
        text.push_str("A: \r\n")?;
    }
    text.push_str("A: ")?;
    for _ in 0..length {
        text.push('a')?;
    }
    text.push_str("\r\n\r\n")?;
    Ok(text)
}

#[test]
fn heads_have_limits(rt: HostRuntime) -> Result<(), Fail> {
    let alloc = rt.alloc();
    let page = "1 cardkey00001 -: page 1";
    // a failing read is reported up to the byte at which a head that is too long, or has too many
    // fields, can't become good
    for (fields, length, size, want, least) in [
        (2, 8136, 8192, page, 8192),
        (2, 8137, 8193, BAD_REQUEST, 8192),
        (32, 0, 206, page, 206),
        (33, 0, 211, BAD_REQUEST, 205),
    ] {
        let text = page_with(alloc, fields, length)?;
        let bytes = text.as_bytes();
        assert_eq!(rt; bytes.len(), size);
        assert!(rt; is_read_anyhow(alloc, Side::Server, bytes, want)?, "{size}");
        let failed = failed_reads(alloc, bytes, want)?.ok_or("an answer")?;
        assert!(rt; least <= failed && failed <= size, "{size} {failed}");
    }
    Ok(())
}

/// Answers, each with its bytes.
fn answers(alloc: Global) -> Result<[(Answer, &'static str); 11], Fail> {
    let Some(due) = Day::new(20521) else {
        return Err("no day".into());
    };
    let lent = Reply::Lent {
        loan: LoanId::new(1),
        due,
    };
    let held = Reply::Held {
        hold: HoldId::new(1),
    };
    let page = Text::new(String::from_str(alloc, "patron 1 owed 0 name Ann Bell")?);
    let quoted = Text::new(String::from_str(alloc, "patron 2 owed 0 name \"Bo\" Carr\nx")?);
    Ok([
        (Answer::reply(alloc, &lent)?, LENT),
        (Answer::reply(alloc, &held)?, HELD),
        (Answer::reply(alloc, &Reply::Shown { page })?, SHOWN),
        (
            Answer::reply(alloc, &Reply::Shown { page: quoted })?,
            QUOTED,
        ),
        (
            Answer::reply(alloc, &Reply::Refused(Refusal::NotAllowed))?,
            FORBIDDEN,
        ),
        (Answer::Refused(Refusal::UnknownBranch), CONFLICT),
        (
            Answer::Faulted(ServiceFault::Met(Fault::Database)),
            UNAVAILABLE,
        ),
        (
            Answer::Failed(WebStatus::MethodNotAllowed(Method::POST)),
            ONLY_POST,
        ),
        (Answer::Failed(WebStatus::BadRequest), BAD_REQUEST),
        (Answer::Failed(WebStatus::NotFound), NOT_FOUND),
        (Answer::Failed(WebStatus::PayloadTooLarge), TOO_LARGE),
    ])
}

/// Whether a writer with too little room for an answer takes what fits.
fn is_cut(alloc: Global, answer: &Answer, want: &str) -> Result<bool, Fail> {
    let bytes = want.as_bytes();
    for room in 0..bytes.len() {
        let mut writer = Narrow::new(alloc, room);
        if write_answer(&mut writer, answer).is_ok() || writer.taken() != &bytes[..room] {
            return Ok(false);
        }
    }
    Ok(true)
}

#[test]
fn answers_are_written(rt: HostRuntime) -> Result<(), Fail> {
    let alloc = rt.alloc();
    for (answer, want) in &answers(alloc)? {
        let text = written(alloc, answer)?;
        assert_eq!(rt; text.as_str(), *want);
        assert!(rt; is_cut(alloc, answer, want)?, "{want}");
    }
    Ok(())
}

#[test]
fn requests_are_sent(rt: HostRuntime) -> Result<(), Fail> {
    let alloc = rt.alloc();
    let (Some(desk_key), Some(key)) = (CardKey::new(alloc, "deskkey00001")?, Key::new(alloc, "d1")?)
    else {
        return Err("a key has not its form".into());
    };
    let mut words = Vec::new(alloc);
    for word in ["check-out", "1", "10", "1"] {
        words.push(String::from_str(alloc, word)?)?;
    }
    for room in 0..SENT.len() + 1 {
        let mut writer = Narrow::new(alloc, room);
        let sent = write_send(alloc, &mut writer, &desk_key, &key, &words);
        assert_eq!(rt; sent.is_ok(), room == SENT.len());
        assert!(rt; writer.taken() == &SENT.as_bytes()[..room], "{room}");
    }
    let want = "0 deskkey00001 d1: check-out 1 10 1";
    assert!(rt; is_read_anyhow(alloc, Side::Server, SENT.as_bytes(), want)?);
    Ok(())
}

#[test]
fn answers_are_read(rt: HostRuntime) -> Result<(), Fail> {
    let alloc = rt.alloc();
    for (text, want) in ANSWERED {
        let bytes = text.as_bytes();
        assert!(rt; is_read_anyhow(alloc, Side::Client, bytes, want)?, "{want}");
        assert!(rt;
            is_read_exactly(alloc, Side::Client, bytes, want)?,
            "{want}, no more"
        );
    }
    for text in UNREAD {
        assert!(rt;
            is_read_anyhow(alloc, Side::Client, text.as_bytes(), "malformed")?,
            "{text}"
        );
    }
    let latin = b"HTTP/1.1 200 OK\r\nContent-Length: 1\r\n\r\n\xe9";
    assert!(rt; is_read_anyhow(alloc, Side::Client, latin, "malformed")?);
    Ok(())
}
