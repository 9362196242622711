//! What a run reaches outside of itself.

ghost use Rattle.std.specs.Prelude.{IfOk, IfErr, IfSome, IfNone};
ghost use Rattle.front.specs.Understood.{texts_of};

use crate::absent::Absent;
use circ::{Connections, Exit, Findings, Outgoing, Port, Watch, WriteFault};
use clerks::Clerks;
use front::{CopyCheck, KeysFault};
use std::alloc::Global;
use std::io::{Read, Write};
use std::net::{TcpListener, TcpStream};
use terms::{CardKey, Fault, Key};

/// Where a run finds its library, its copies file and its file of keys, and which ports it reaches. Of what is found
/// no more is known than where it was asked for.
pub trait Surroundings {
    ghost use Rattle.circ_runs.specs.Outside.{Outside};

    /// The tables of a library.
    type Tables;

    /// A copies file.
    type Copies: Read + Drop;

    /// What is told that a serving desk has closed.
    type Watcher: Watch + Drop;

    /// Says what was found, and where.
    ghost outside: { Outside Self.Copies Self.Tables };

    /// Returns the allocator.
    fn alloc(&self) -> Global;

    /// Tells a person that work on the library begins which may take long.
    fn note(&self, path: &str, begun: &str);

    /// Tells a person what is wrong with the bad rows of a copies file.
    fn note_bad_rows(&self, found: &CopyCheck);

    /// Tells a person what the findings of an audit mean, if it came to its end.
    fn note_findings(&self, found: &Option<Findings>);

    /// Returns what is told that a serving desk has closed.
    fn watcher(&self) -> Self::Watcher;

    /// Opens the library at the path. Faults 91, 93.
    fn open(&self, path: &str, absent: Absent) -> Result<Self::Tables, Fault>
        ensures opened { IfOk result (outside.opens path.now absent) }
        ensures refused { IfErr result (outside.refuses path.now absent) };

    /// Closes a library.
    fn close(&self, tables: Self::Tables);

    /// Opens the copies file at the path, if it can be.
    fn open_copies(&self, path: &str) -> Option<Self::Copies>
        ensures opened { IfSome result (outside.copies path.now) }
        ensures none { IfNone result (outside.no_copies path.now) };

    /// Reads the clerks' keys in the file at the path.
    fn read_clerks(&self, path: &str) -> Result<Clerks, KeysFault>
        ensures { outside.clerks path.now result };

    /// Listens on this machine's port only, if it can be had.
    fn bind(&self, port: u16) -> Option<TcpListener>
        ensures bound { IfSome result (outside.listens port) }
        ensures none { IfNone result (outside.deaf port) };

    /// Sends one request of the desk to the port, and writes its line.
    fn send<W: Write>(
        &self,
        port: u16,
        desk_key: &CardKey,
        key: &Key,
        words: &[String],
        writer: &mut W,
    ) -> Result<Exit, WriteFault>
        ensures { outside.sends port desk_key.now key.now (texts_of words.now)
            (W.contents writer.old) (W.contents writer.new) result };
}

/// Names what `circ::serve` says of serving the web.
pub trait Serving {
    ghost use Rattle.std.specs.Prelude.{ℕ};
    ghost use Rattle.store.specs.Library.{Ghosts};
    ghost use Rattle.circ.specs.declared.serving.Web.{Web};
    ghost use Rattle.circ_runs.specs.Running.{Doing};

    /// So many workers serve the web.
    ghost serves: { (S : Type 0) → Ghosts S → Web → ℕ → Doing S };
}

impl Serving for Port {
    ghost use Rattle.circ.specs.Serving.{ServesListener};

    ghost serves = { λ S g web workers. ServesListener ⟦<Port as Connections>⟧.comes
        ⟦<Port as Connections>⟧.goes ⟦<Port as Connections>⟧.misses
        ⟦<TcpStream as Read>⟧.remaining ⟦<Outgoing as Write>⟧.contents web.clerks web.each
        web.port workers g };
}
