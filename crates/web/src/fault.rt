//! Why a web request can't be read.

ghost use Rattle.std.specs.Prelude.{◌≡◌};
ghost use Rattle.web.specs.Answers.{status_number};
ghost use Rattle.web.specs.declared.fault.WebFault.TheVariants.{Memory as NoMemory};
ghost use Rattle.web.specs.declared.fault.WebFault.TheVariants.{Read as NotRead};
ghost use Rattle.web.specs.declared.fault.WebFault.TheVariants.{Status as Refused};

use http::{Method, StatusCode};
use std::alloc::AllocError;
use std::io;

/// The status of a request refused before the desk sees it.
#[derive(Debug, Drop, PartialEq, Eq)]
pub enum WebStatus {
    /// 400: the head, the fields, a key or the body is malformed, or the input ended too soon.
    BadRequest,
    /// 404: no route has this target.
    NotFound,
    /// 405: the route has this method, the request another.
    MethodNotAllowed(Method),
    /// 413: the body would exceed the limit.
    PayloadTooLarge,
}

impl WebStatus {
    /// Returns the status number.
    pub fn code(&self) -> StatusCode
        ensures { result ≡ status_number self.now }
    {
        match self {
            WebStatus::BadRequest => StatusCode::BAD_REQUEST,
            WebStatus::NotFound => StatusCode::NOT_FOUND,
            WebStatus::MethodNotAllowed(_) => StatusCode::METHOD_NOT_ALLOWED,
            WebStatus::PayloadTooLarge => StatusCode::PAYLOAD_TOO_LARGE,
        }
    }
}

/// Why a web request can't be read.
#[derive(Debug, Drop, PartialEq, Eq)]
pub enum WebFault {
    /// A check failed: the status of the first that did.
    Status(WebStatus),
    /// A read failed.
    Read,
    /// No memory was left.
    Memory,
}

impl From<AllocError> for WebFault {
    ghost from_gives = { λ _ fault. fault ≡ NoMemory };

    fn from(_error: AllocError) -> WebFault {
        WebFault::Memory
    }
}

impl From<io::Error> for WebFault {
    ghost from_gives = { λ _ fault. fault ≡ NotRead };

    fn from(_error: io::Error) -> WebFault {
        WebFault::Read
    }
}

impl From<WebStatus> for WebFault {
    ghost from_gives = { λ status fault. fault ≡ Refused status };

    fn from(status: WebStatus) -> WebFault {
        WebFault::Status(status)
    }
}
