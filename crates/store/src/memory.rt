//! A store in memory.

ghost use Rattle.std.specs.Prelude.{◌≡◌, ◌⊎◌, IfOk, IfErr};
ghost use Rattle.store.specs.Commit.{empty_library};
ghost use Rattle.store.specs.Library.{state, over_memory, IsClean, IsOpen};
ghost use Rattle.store.specs.Stops.{KeepsPicture};

use crate::store::Store;
use sqlite::{Connection, MemStore};
use std::alloc::Global;
use terms::Fault;

impl Store<MemStore> {
    /// Makes a new library in memory: all tables empty, except the first row of `meta`. Faults 90,
    /// 91.
    pub fn in_memory(alloc: Global) -> Result<Store<MemStore>, Fault>
        ensures made { IfOk result (λ it. KeepsPicture (state over_memory it) empty_library) }
        ensures open { IfOk result (λ it. IsClean over_memory it × IsOpen over_memory it) }
        ensures fault { IfErr result (λ fault. (fault ≡ Fault.Memory) ⊎ (fault ≡ Fault.Database)) }
    {
        let conn = Connection::open_in_memory(alloc)?;
        let store = Store::create(conn)?;
        Ok(store)
    }
}
