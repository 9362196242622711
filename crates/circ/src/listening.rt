//! Connections to a port.

ghost use Rattle.std.specs.Prelude.{◌≡◌, IfOk, length};

use crate::connections::Connections;
use std::alloc::Global;
use std::io;
use std::io::{BufWriter, Read, Write};
use std::net::{Shutdown, TcpListener, TcpStream};
use std::sync::Arc;
use std::time::Duration;
use terms::Memory;

/// How long a read or a write may block, in seconds, before the connection fails.
const LONGEST_WAIT: u64 = 30;

/// How long an answered client may take to close its end, in seconds.
const LONGEST_CLOSE: u64 = 1;

/// How often its remaining input is read and discarded.
const MOST_DROPPED: u32 = 32;

/// A writer over another: one write if all fits into 8 KiB, or in pieces if there is no memory for a
/// buffer.
enum Buffering<T: Write + Drop> {
    Buffered(BufWriter<T>),
    InPieces(T),
}

impl<T: Write + Drop> Buffering<T> {
    /// Drops it without writing what is still buffered.
    fn let_go(self) {
        match self {
            Buffering::Buffered(writer) => {
                let _ = writer.into_parts();
            }
            Buffering::InPieces(_) => {}
        }
    }
}

impl<T: Write + Drop> Write for Buffering<T> {
    ghost use Rattle.circ.specs.Outgoing.{buffering_contents};

    ghost contents = { buffering_contents T.contents };

    fn write(&mut self, buf: &[u8]) -> io::Result<usize> {
        match self {
            Buffering::Buffered(writer) => writer.write(buf),
            Buffering::InPieces(writer) => writer.write(buf),
        }
    }

    fn flush(&mut self) -> io::Result<()> {
        match self {
            Buffering::Buffered(writer) => writer.flush(),
            Buffering::InPieces(writer) => writer.flush(),
        }
    }
}

/// The writer of an answer.
pub struct Outgoing {
    writer: Buffering<TcpStream>,
}

impl Outgoing {
    /// Makes the writer of a connection. None if the stream can't be cloned.
    fn of(alloc: Global, stream: &TcpStream) -> Option<Outgoing> {
        let writer = match BufWriter::new(alloc, stream.try_clone().ok()?) {
            Ok(writer) => Buffering::Buffered(writer),
            Err(_) => Buffering::InPieces(stream.try_clone().ok()?),
        };
        Some(Outgoing { writer })
    }

    /// Drops it without writing what is still buffered.
    fn let_go(self) {
        let Outgoing { writer } = self;
        writer.let_go();
    }
}

impl Write for Outgoing {
    ghost contents = { λ o. ⟦<Buffering<TcpStream> as Write>⟧.contents o.writer };

    fn write(&mut self, buf: &[u8]) -> io::Result<usize> {
        self.writer.write(buf)
    }

    fn flush(&mut self) -> io::Result<()> {
        self.writer.flush()
    }
}

/// Ends an answered connection. Cutting it would lose the answer for a client still sending, so its
/// input is read and discarded for a while.
fn drain(stream: &mut TcpStream) {
    let wait = Some(Duration::from_secs(LONGEST_CLOSE));
    if stream.shutdown(Shutdown::Write).is_err() || stream.set_read_timeout(wait).is_err() {
        return;
    }
    let mut bytes = [0; 512];
    for _ in 0..MOST_DROPPED {
        match stream.read(&mut bytes) {
            Ok(0) | Err(_) => return,
            Ok(_) => {}
        }
    }
}

/// The connections to a listener, for one of the workers that share it. Nothing is proved of a
/// socket's bytes.
#[derive(Drop)]
pub struct Port {
    listener: Arc<TcpListener, Global>,
}

/// Shares a listener among so many workers.
pub(crate) fn ports(alloc: Global, listener: TcpListener, count: usize) -> Result<Vec<Port>, Memory>
    ensures { IfOk result (λ ports. length ports.items ≡ count) }
{
    let listener = Arc::new(alloc, listener)?;
    let mut all = Vec::new(alloc);
    'ports: for _made in 0..count {
        all.push(Port {
            listener: Arc::try_clone(&listener)?,
        })?;
    }
    Ok(all)
}

impl Connections for Port {
    type Reader = TcpStream;

    type Writer = Outgoing;

    ghost comes = { λ _ _ _ _. Unit {0} };

    ghost goes = { λ _ _ _ _. Unit {0} };

    ghost misses = { λ _. Unit {0} };

    fn accept(&mut self, alloc: Global) -> Option<(TcpStream, Outgoing)> {
        let (stream, _) = self.listener.accept().ok()?;
        let wait = Some(Duration::from_secs(LONGEST_WAIT));
        if stream.set_read_timeout(wait).is_err() || stream.set_write_timeout(wait).is_err() {
            return None;
        }
        let writer = Outgoing::of(alloc, &stream)?;
        Some((stream, writer))
    }

    fn end(&mut self, mut reader: TcpStream, mut writer: Outgoing, is_answered: bool) {
        let is_sent = is_answered && writer.flush().is_ok();
        writer.let_go();
        if is_sent {
            drain(&mut reader);
        }
    }
}
