//! Web requests and their answers: from bytes to a request, from an answer to bytes, and the
//! client's side of both.
#![tactic(auto)]

mod answer;
mod asked;
mod body;
mod command;
mod fault;
mod fields;
mod head;
mod json;
mod keys;
mod laws;
mod limits;
mod receiving;
mod request;
mod routes;
mod sending;
mod source;
mod written;

pub use answer::{Answer, write_answer};
pub use asked::Asked;
pub use fault::{WebFault, WebStatus};
pub use laws::requests_read_once;
pub use receiving::{AnswerFault, ReceivedAnswer, read_answer};
pub use request::{WebRequest, read_request};
pub use routes::Routes;
pub use sending::{SendFault, write_send};
pub use source::Source;
pub use written::Json;
