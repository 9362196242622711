//! The patrons whose pages a command may change.

ghost use Rattle.std.specs.Prelude.{◌≡◌, [], ◌∷◌, ◌++◌, ◌<◌, length, IfOk, IsOk};
ghost use Rattle.desk.specs.Touching.{patron_put as patron_put_of, patrons_put};

use circ_core::{Changes, RowChange};
use smallvec::SmallVec;
use std::alloc::Global;
use std::marker::Model;
use terms::{Memory, PatronId};

/// The patrons whose pages a handled request may have changed: by the patron's row, loans and
/// holds, or by the title of one of these. A patron can occur more than once. Six take no memory:
/// as many as there are changes of one command.
#[derive(Drop)]
pub struct Touched {
    patrons: SmallVec<PatronId, 6>,
}

impl Model for Touched {
    ghost use Rattle.std.specs.Prelude.{List, ℕ, ◌≤◌};

    ghost Value = { List ℕ };

    ghost view = { λ t. t.patrons.items };

    ghost invariant = { λ t. 6 ≤ t.patrons.capacity };
}

impl Touched {
    /// Makes an empty list.
    pub fn none(alloc: Global) -> Touched
        ensures { result ≡ [] }
    {
        Touched {
            patrons: SmallVec::new(alloc),
        }
    }

    /// Returns the patrons.
    pub fn as_slice(&self) -> &[PatronId]
        ensures { result.now ≡ self.now }
    {
        self.patrons.as_slice()
    }

    /// Adds a patron. The first six need no memory.
    pub(crate) fn push(&mut self, patron: PatronId) -> Result<(), Memory>
        ensures added { IfOk result (λ _. self.new ≡ self.old ++ patron ∷ []) }
        ensures room { length self.old < 6 → IsOk result }
    {
        self.patrons.push(patron)?;
        Ok(())
    }
}

/// Returns the patron whose own row a change puts.
fn patron_put(change: &RowChange<'_>) -> Option<PatronId>
    ensures { result ≡ patron_put_of change.now }
{
    match change {
        RowChange::PutPatron(row) => Some(row.patron),
        RowChange::PutLoan(row) => Some(row.patron),
        RowChange::PutHold(row) => Some(row.patron),
        _ => None,
    }
}

/// Returns these readers, and the patrons whose own rows the changes put. Needs no memory where
/// there are no readers.
pub(crate) fn touched_by(changes: &Changes<'_>, readers: Touched) -> Result<Touched, Memory>
    ensures touched { IfOk result (λ touched. touched ≡ readers ++ patrons_put changes.now) }
    ensures room { readers ≡ [] → IsOk result }
{
    let mut touched = readers;
    'places: for place in 0..Changes::PLACES {
        match changes.get(place) {
            Some(change) => {
                if let Some(patron) = patron_put(change) {
                    touched.push(patron)?;
                }
            }
            None => return Ok(touched),
        }
    }
    Ok(touched)
}
