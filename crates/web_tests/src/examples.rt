//! Requests and answers as bytes on a connection, for the tests.

/// The answer to a malformed request.
pub const BAD_REQUEST: &str =
    "HTTP/1.1 400 Bad Request\r\nContent-Type: application/json\r\nContent-Length: 14\r\n\
    Connection: close\r\n\r\n{\"status\":400}";

/// The answer to a target that is no route.
pub const NOT_FOUND: &str =
    "HTTP/1.1 404 Not Found\r\nContent-Type: application/json\r\nContent-Length: 14\r\n\
    Connection: close\r\n\r\n{\"status\":404}";

/// The answer to any method but GET.
pub const ONLY_GET: &str =
    "HTTP/1.1 405 Method Not Allowed\r\nAllow: GET\r\nContent-Type: application/json\r\n\
    Content-Length: 14\r\nConnection: close\r\n\r\n{\"status\":405}";

/// The answer to any method but POST.
pub const ONLY_POST: &str =
    "HTTP/1.1 405 Method Not Allowed\r\nAllow: POST\r\nContent-Type: application/json\r\n\
    Content-Length: 14\r\nConnection: close\r\n\r\n{\"status\":405}";

/// The answer to a body that is too long.
pub const TOO_LARGE: &str =
    "HTTP/1.1 413 Payload Too Large\r\nContent-Type: application/json\r\nContent-Length: 14\r\n\
    Connection: close\r\n\r\n{\"status\":413}";

/// The answer for a loan.
pub const LENT: &str = "HTTP/1.1 200 OK\r\nContent-Type: application/json\r\nContent-Length: 33\r\n\
    Connection: close\r\n\r\n{\"reply\":\"loan 1 due 2026-03-09\"}";

/// The answer for a hold.
pub const HELD: &str = "HTTP/1.1 200 OK\r\nContent-Type: application/json\r\nContent-Length: 18\r\n\
    Connection: close\r\n\r\n{\"reply\":\"hold 1\"}";

/// The answer with a page.
pub const SHOWN: &str =
    "HTTP/1.1 200 OK\r\nContent-Type: application/json\r\nContent-Length: 41\r\n\
    Connection: close\r\n\r\n{\"reply\":\"patron 1 owed 0 name Ann Bell\"}";

/// The answer with a page of two lines with quotation marks.
pub const QUOTED: &str =
    "HTTP/1.1 200 OK\r\nContent-Type: application/json\r\nContent-Length: 47\r\n\
    Connection: close\r\n\r\n{\"reply\":\"patron 2 owed 0 name \\\"Bo\\\" Carr\\nx\"}";

/// The answer to a wrong key.
pub const FORBIDDEN: &str =
    "HTTP/1.1 403 Forbidden\r\nContent-Type: application/json\r\nContent-Length: 14\r\n\
    Connection: close\r\n\r\n{\"refusal\":81}";

/// The answer to a request with an unknown branch.
pub const CONFLICT: &str =
    "HTTP/1.1 409 Conflict\r\nContent-Type: application/json\r\nContent-Length: 14\r\n\
    Connection: close\r\n\r\n{\"refusal\":10}";

/// The answer to a request that the database refused.
pub const UNAVAILABLE: &str =
    "HTTP/1.1 503 Service Unavailable\r\nContent-Type: application/json\r\n\
    Content-Length: 12\r\nConnection: close\r\n\r\n{\"fault\":91}";

/// Requests, each with its patron, the key shown, its own key, and what it asks for.
pub const READ: [(&str, &str); 8] = [
    (
        "GET /patrons/1 HTTP/1.1\r\nCard-Key: cardkey00001\r\n\r\n",
        "1 cardkey00001 -: page 1",
    ),
    (
        "GET /patrons/8 HTTP/1.1\r\nHost: 127.0.0.1\r\nCARD-KEY:cardkey00001\r\n\
        Request-Key: a b\r\nContent-Length: 0\r\n\r\n",
        "8 cardkey00001 -: page 8",
    ),
    (
        "POST /desk HTTP/1.1\r\nDesk-Key: deskkey00001\r\nRequest-Key: d1\r\n\
        Content-Length: 26\r\n\r\n[\"check-out\",\"1\",\"10\",\"1\"]",
        "0 deskkey00001 d1: check-out 1 10 1",
    ),
    (
        "POST /desk HTTP/1.1\r\nCard-Key: cardkey00001\r\nDesk-Key: deskkey00001\r\n\
        Request-Key: d1\r\nContent-Length: 31\r\n\r\n[ \"branch\", \"1\", \"5\", \"Main\" ]\n",
        "0 deskkey00001 d1: branch 1 5 Main",
    ),
    (
        "POST /patrons/2/holds HTTP/1.1\r\ncard-key: cardkey00002\r\nREQUEST-KEY: h1\r\n\
        Content-Length: 24\r\n\r\n{\"branch\":1,\"title\":100}",
        "2 cardkey00002 h1: place-hold 2 100 1",
    ),
    (
        "POST /patrons/2/holds HTTP/1.1\r\nCard-Key: cardkey00002\r\nRequest-Key: h1\r\n\
        Content-Length: 46\r\n\r\n{\"title\":100,\"branch\":\"x\",\"branch\":4294967295}",
        "2 cardkey00002 h1: place-hold 2 100 4294967295",
    ),
    (
        "POST /patrons/2/holds/4294967295/cancel HTTP/1.0\nCard-Key: short\nRequest-Key: h2\n\n",
        "2 - h2: cancel-hold 4294967295",
    ),
    (
        "POST /patrons/2/loans/0/renew HTTP/1.1\r\nRequest-Key: h3\r\n\
        Content-Length: 0000000000\r\n\r\n",
        "2 - h3: renew 0",
    ),
];

/// What ends too soon: all are answered as malformed, once nothing more comes.
pub const CUT: [&str; 5] = [
    "",
    "GET /patrons/1 HT",
    "GET /nowhere HTTP/1.1\r\nContent-Length: 65536\r\n\r\n",
    "POST /desk HTTP/1.1\r\nDesk-Key: deskkey00001\r\nRequest-Key: d1\r\n\
        Content-Length: 26\r\n\r\n[\"check-out\",\"1\",\"10\",\"1\"",
    "GET /nowhere HTTP/1.1\r\nContent-Length: 2\r\n\r\n1",
];

/// Heads that no more bytes can mend, each with the number of bytes until that is known.
pub const NO_HEAD: [(&str, usize); 2] = [
    ("GET /patrons/1 HTTP/2.0\r\n\r\n", 21),
    (
        "GET /patrons/1 HTTP/1.1\r\nCard Key: cardkey00001\r\n\r\n",
        30,
    ),
];

/// Heads whose fields are refused before any byte of a body is read, each with its answer.
pub const REFUSED_HEADS: [(&str, &str); 7] = [
    (
        "GET /nowhere HTTP/1.1\r\nTransfer-Encoding: chunked\r\n\r\n",
        BAD_REQUEST,
    ),
    (
        "GET /patrons/1 HTTP/1.1\r\nCard-Key: cardkey00001\r\nContent-Length: 0\r\n\
        Content-Length: 0\r\n\r\n",
        BAD_REQUEST,
    ),
    (
        "GET /patrons/1 HTTP/1.1\r\nCard-Key: cardkey00001\r\nContent-Length: +5\r\n\r\n12345",
        BAD_REQUEST,
    ),
    (
        "GET /patrons/1 HTTP/1.1\r\nCard-Key: cardkey00001\r\nContent-Length: 12345678901\r\n\r\n",
        BAD_REQUEST,
    ),
    (
        "GET /nowhere HTTP/1.1\r\nContent-Length: 65537\r\n\r\n",
        TOO_LARGE,
    ),
    (
        "GET /patrons/1 HTTP/1.1\r\nCard-Key: cardkey00001\r\nContent-Length: 65537\r\n\r\n",
        TOO_LARGE,
    ),
    (
        "DELETE /desk HTTP/1.1\r\nContent-Length: 4294967296\r\n\r\n",
        TOO_LARGE,
    ),
];

/// What fails another check, each with its answer.
pub const REFUSED: [(&str, &str); 32] = [
    ("DELETE /patrons/x HTTP/1.1\r\n\r\n", NOT_FOUND),
    (
        "GET /patrons/01 HTTP/1.1\r\nCard-Key: cardkey00001\r\n\r\n",
        NOT_FOUND,
    ),
    (
        "GET /patrons/2?x=1 HTTP/1.1\r\nCard-Key: cardkey00001\r\n\r\n",
        NOT_FOUND,
    ),
    (
        "GET /patrons/4294967296 HTTP/1.1\r\nCard-Key: cardkey00001\r\n\r\n",
        NOT_FOUND,
    ),
    (
        "GET /patrons/+1 HTTP/1.1\r\nCard-Key: cardkey00001\r\n\r\n",
        NOT_FOUND,
    ),
    (
        "GET /patrons/1/ HTTP/1.1\r\nCard-Key: cardkey00001\r\n\r\n",
        NOT_FOUND,
    ),
    (
        "POST /patrons/1/holds/2 HTTP/1.1\r\nCard-Key: cardkey00001\r\n\r\n",
        NOT_FOUND,
    ),
    (
        "POST /patrons/1/loans/2/renews HTTP/1.1\r\nCard-Key: cardkey00001\r\n\r\n",
        NOT_FOUND,
    ),
    ("DELETE /patrons/1 HTTP/1.1\r\n\r\n", ONLY_GET),
    (
        "get /patrons/1 HTTP/1.1\r\nCard-Key: cardkey00001\r\n\r\n",
        ONLY_GET,
    ),
    (
        "GET /desk HTTP/1.1\r\nDesk-Key: deskkey00001\r\nRequest-Key: d1\r\n\
        Desk-Key: deskkey00001\r\nRequest-Key: d1\r\n\r\n",
        ONLY_POST,
    ),
    (
        "DELETE /patrons/1/holds/2/cancel HTTP/1.1\r\n\r\n",
        ONLY_POST,
    ),
    (
        "GET /patrons/1 HTTP/1.1\r\ncard-key: cardkey00001\r\nCard-Key: cardkey00001\r\n\r\n",
        BAD_REQUEST,
    ),
    (
        "GET /patrons/1 HTTP/1.1\r\nCard-Key: cardkey00001\r\nDesk-Key: a\r\nDESK-KEY: b\r\n\r\n",
        BAD_REQUEST,
    ),
    (
        "POST /patrons/2/holds HTTP/1.1\r\nCard-Key: cardkey00001\r\nContent-Length: 24\r\n\r\n\
        {\"branch\":1,\"title\":100}",
        BAD_REQUEST,
    ),
    (
        "POST /patrons/2/loans/0/renew HTTP/1.1\r\nRequest-Key: a b\r\n\r\n",
        BAD_REQUEST,
    ),
    (
        "POST /patrons/2/loans/0/renew HTTP/1.1\r\n\
        Request-Key: kkkkkkkkkkkkkkkkkkkkkkkkkkkkkkkkkkkkkkkkk\r\n\r\n",
        BAD_REQUEST,
    ),
    (
        "GET /patrons/1 HTTP/1.1\r\nCard-Key: cardkey00001\r\nContent-Length: 2\r\n\r\n{}",
        BAD_REQUEST,
    ),
    (
        "POST /patrons/2/loans/0/renew HTTP/1.1\r\nCard-Key: cardkey00002\r\nRequest-Key: h1\r\n\
        Content-Length: 1\r\n\r\n ",
        BAD_REQUEST,
    ),
    (
        "POST /patrons/2/holds HTTP/1.1\r\nCard-Key: cardkey00002\r\nRequest-Key: h1\r\n\
        Content-Length: 34\r\n\r\n{\"branch\":1,\"copy\":10,\"title\":100}",
        BAD_REQUEST,
    ),
    (
        "POST /patrons/2/holds HTTP/1.1\r\nCard-Key: cardkey00002\r\nRequest-Key: h1\r\n\
        Content-Length: 26\r\n\r\n{\"branch\":\"1\",\"title\":100}",
        BAD_REQUEST,
    ),
    (
        "POST /patrons/2/holds HTTP/1.1\r\nCard-Key: cardkey00002\r\nRequest-Key: h1\r\n\
        Content-Length: 25\r\n\r\n{\"branch\":-1,\"title\":100}",
        BAD_REQUEST,
    ),
    (
        "POST /patrons/2/holds HTTP/1.1\r\nCard-Key: cardkey00002\r\nRequest-Key: h1\r\n\
        Content-Length: 33\r\n\r\n{\"branch\":4294967296,\"title\":100}",
        BAD_REQUEST,
    ),
    (
        "POST /patrons/2/holds HTTP/1.1\r\nCard-Key: cardkey00002\r\nRequest-Key: h1\r\n\
        Content-Length: 26\r\n\r\n{\"branch\":1.0,\"title\":100}",
        BAD_REQUEST,
    ),
    (
        "POST /patrons/2/holds HTTP/1.1\r\nCard-Key: cardkey00002\r\nRequest-Key: h1\r\n\
        Content-Length: 12\r\n\r\n{\"branch\":1}",
        BAD_REQUEST,
    ),
    (
        "POST /patrons/2/holds HTTP/1.1\r\nCard-Key: cardkey00002\r\nRequest-Key: h1\r\n\
        Content-Length: 7\r\n\r\n[1,100]",
        BAD_REQUEST,
    ),
    (
        "POST /desk HTTP/1.1\r\nDesk-Key: deskkey00001\r\nRequest-Key: d1\r\n\
        Content-Length: 2\r\n\r\n[]",
        BAD_REQUEST,
    ),
    (
        "POST /desk HTTP/1.1\r\nDesk-Key: deskkey00001\r\nRequest-Key: d1\r\n\
        Content-Length: 53\r\n\r\n\
        [\"1\",\"1\",\"1\",\"1\",\"1\",\"1\",\"1\",\"1\",\"1\",\"1\",\"1\",\"1\",\"1\"]",
        BAD_REQUEST,
    ),
    (
        "POST /desk HTTP/1.1\r\nDesk-Key: deskkey00001\r\nRequest-Key: d1\r\n\
        Content-Length: 8\r\n\r\n[\"page\"]",
        BAD_REQUEST,
    ),
    (
        "POST /desk HTTP/1.1\r\nDesk-Key: deskkey00001\r\nRequest-Key: d1\r\n\
        Content-Length: 10\r\n\r\n[\"page\",1]",
        BAD_REQUEST,
    ),
    (
        "POST /desk HTTP/1.1\r\nDesk-Key: deskkey00001\r\nRequest-Key: d1\r\n\
        Content-Length: 13\r\n\r\n[\"page\",\"01\"]",
        BAD_REQUEST,
    ),
    (
        "POST /desk HTTP/1.1\r\nDesk-Key: deskkey00001\r\nRequest-Key: d1\r\n\
        Content-Length: 11\r\n\r\n[\"page\",\"1\"",
        BAD_REQUEST,
    ),
];

/// Answers, each with what the client reads of it.
pub const ANSWERED: [(&str, &str); 4] = [
    (
        "HTTP/1.1 200 OK\r\nContent-Type: application/json\r\nContent-Length: 33\r\n\
        Connection: close\r\n\r\n{\"reply\":\"loan 1 due 2026-03-09\"}",
        "200 {\"reply\":\"loan 1 due 2026-03-09\"}",
    ),
    (
        "HTTP/1.1 403 Forbidden\r\nContent-Type: application/json\r\nContent-Length: 14\r\n\
        Connection: close\r\n\r\n{\"refusal\":81}",
        "403 {\"refusal\":81}",
    ),
    (
        "HTTP/1.1 405 Method Not Allowed\r\nAllow: GET\r\nContent-Type: application/json\r\n\
        Content-Length: 14\r\nConnection: close\r\n\r\n{\"status\":405}",
        "405 {\"status\":405}",
    ),
    (
        "HTTP/1.1 503 Service Unavailable\r\ncontent-length:12\r\n\r\n{\"fault\":92}",
        "503 {\"fault\":92}",
    ),
];

/// What isn't an answer.
pub const UNREAD: [&str; 8] = [
    "",
    "HTTP/1.1 200 OK\r\nContent-Le",
    "POST /desk HTTP/1.1\r\nContent-Length: 0\r\n\r\n",
    "HTTP/1.1 200 OK\r\nContent-Type: application/json\r\nContent-Length: 14\r\n\
    Connection: close\r\n\r\n{\"reply\":\"ok\"",
    "HTTP/1.1 200 OK\r\n\r\nok",
    "HTTP/1.1 200 OK\r\nContent-Length: 2\r\nContent-Length: 2\r\n\r\nok",
    "HTTP/1.1 200 OK\r\nContent-Length: 2\r\nTransfer-Encoding: chunked\r\n\r\nok",
    "HTTP/1.1 200 OK\r\nContent-Length: 65537\r\n\r\n",
];

/// A check-out, as the client sends it.
pub const SENT: &str =
    "POST /desk HTTP/1.1\r\nHost: 127.0.0.1\r\nDesk-Key: deskkey00001\r\nRequest-Key: d1\r\n\
    Content-Type: application/json\r\nContent-Length: 26\r\nConnection: close\r\n\r\n\
    [\"check-out\",\"1\",\"10\",\"1\"]";
