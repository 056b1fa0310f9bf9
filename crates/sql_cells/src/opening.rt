//! SQL over an empty database in memory.

ghost use Rattle.std.specs.Prelude.{◌≡◌, Some, IfOk};
ghost use Rattle.sqlite.specs.Held.{Held, state};
ghost use Rattle.sqlite.specs.Steps.{IsEmpty, over_memory};
ghost use Rattle.sql_cells.specs.Meaning.{limited};

use crate::cells::Sql;
use sqlite::{Connection, MemStore};
use std::alloc::AllocError;
use std::rt::HostRuntime;

impl Sql<MemStore> {
    /// SQL over an empty database in memory, with the clock of the machine.
    ///
    /// # Errors
    ///
    /// No memory was left.
    pub fn in_memory(rt: &HostRuntime) -> Result<Sql<MemStore>, AllocError>
        ensures { IfOk result (λ sql. (held : Held MemStore) × (sql ≡ Some (limited held))
            × IsEmpty (state over_memory held)) }
    {
        let mut conn = Connection::open_in_memory(rt.alloc())?;
        conn.set_clock(rt);
        Ok(Sql::over(conn))
    }
}
