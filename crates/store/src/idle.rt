//! Connections with no transaction under way.

ghost use Rattle.std.specs.Prelude.{◌≡◌, false, IsTrue};
ghost use Rattle.sqlite.specs.Held.{state};

use sqlite::{Alter, Connection};

/// Without a transaction under way, what an open database holds was committed.
pub(crate) fn committed_is_held<S: Alter>(conn: &Connection<S>)
    requires { conn.now.in_transaction ≡ false }
    ensures { IsTrue (state S.Store conn.now).is_open
        → (state S.Store conn.now).now ≡ (state S.Store conn.now).committed }
{
    let is_idle = conn.is_autocommit();
    prove!(is_idle);
}
