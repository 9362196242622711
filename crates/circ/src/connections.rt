//! Connections, and the loop in which a worker serves them.

ghost use Rattle.std.specs.Prelude.{◌≡◌, None, IfSome};
ghost use Rattle.circ.specs.Connections.{ServesNext, Works};

use clerks::Clerks;
use hall::{Left, Opening, Routes, Worker};
use std::alloc::Global;
use std::io::{Read, Write};
use std::sync::Wait;

/// A sequence of connections, from a listener or a list.
pub trait Connections {
    ghost use Rattle.std.specs.Prelude.{Bool};

    /// The bytes from the client.
    type Reader: Read + Send;
    /// The bytes to the client.
    type Writer: Write + Send;

    /// Says that a connection with this reader and writer came, between the first state and the
    /// last.
    ghost comes: { Self → Self.Reader → Self.Writer → Self → Type 0 };

    /// Says that a connection ended, its writer holding this, answered or not, between the first
    /// state and the last.
    ghost goes: { Self → Self.Writer → Bool → Self → Type 0 };

    /// No connection could be had of these.
    ghost misses: { Self → Type 0 };

    /// Waits for a connection. None if none could be had.
    fn accept(&mut self, alloc: Global) -> Option<(Self::Reader, Self::Writer)>
        ensures came { IfSome result (λ c. comes self.old c.0 c.1 self.new) }
        ensures none { result ≡ None → misses self.old × (self.new ≡ self.old) };

    /// Ends a connection, answered or not.
    fn end(&mut self, reader: Self::Reader, writer: Self::Writer, is_answered: bool)
        ensures { goes self.old writer is_answered self.new };
}

/// Waits for a connection and serves it; skips one that fails. Makes the routes for the first one,
/// and tries again for the next if memory ran out.
fn serve_next<J: Opening, C: Connections, R: Wait>(
    rt: &R,
    alloc: Global,
    connections: &mut C,
    routes: &mut Option<Routes>,
    clerks: &Clerks,
    worker: &mut Worker<J>,
)
    ensures { ServesNext C.comes C.goes C.misses C.Reader.Read.remaining
        C.Writer.Write.contents clerks.now connections.old connections.new worker.old worker.new }
{
    let Some((mut reader, mut writer)) = connections.accept(alloc) else {
        return;
    };
    if routes.is_none() {
        *routes = Routes::new(alloc).ok();
    }
    let told = worker.serve(rt, alloc, routes.as_ref(), clerks, &mut reader, &mut writer);
    connections.end(reader, writer, told.is_ok());
}

/// Serves `each` connections, then leaves. A failed one counts.
///
/// `specs/Connections` states what becomes of each connection and of the worker's submissions: a
/// connection receives only what `Worker::serve` writes, and only what it asks for is submitted for
/// it.
pub fn work<J: Opening, C: Connections, R: Wait>(
    rt: &R,
    alloc: Global,
    connections: &mut C,
    clerks: &Clerks,
    worker: Worker<J>,
    each: u32,
) -> Left<J>
    ensures { Works C.comes C.goes C.misses C.Reader.Read.remaining C.Writer.Write.contents
        clerks.now each connections.old connections.new worker
        (record {
          post = result.post;
          seen = result.sight;
          closing = result.closing;
          looks = 0;
        }) }
{
    let mut worker = worker;
    let mut routes = None;
    'connections: for _served in 0..each {
        serve_next(rt, alloc, connections, &mut routes, clerks, &mut worker);
    }
    worker.leave(rt)
}
