//! SQL over a database in memory, as the language of a program.

ghost use Rattle.jkernel_sql.specs.SqlProgram.{in_memory, sql_is_started};

use crate::texts::{ABOUT, EXAMPLE, KERNELSPEC, NAME};
use kernel_program::{BeginFault, Language};
use sql_cells::Sql;
use sqlite::MemStore;
use std::alloc::Global;
use std::rt::HostRuntime;

/// SQL over a database in memory, which is empty when a kernel begins.
#[derive(Clone, Copy)]
pub struct InMemory {
    /// The system, whose clock statements read.
    pub rt: HostRuntime,
}

impl Language for InMemory {
    type Interp = Sql<MemStore>;

    ghost profile = { λ _. in_memory };

    fn name(&self) -> &'static str {
        NAME
    }

    fn about(&self) -> &'static str {
        ABOUT
    }

    fn example(&self) -> &'static str {
        EXAMPLE
    }

    fn kernelspec(&self) -> &'static str {
        KERNELSPEC
    }

    fn shell(&self, alloc: Global) -> Result<Sql<MemStore>, BeginFault> {
        Ok(Sql::in_memory(&self.rt)?)
    }

    fn control(&self, alloc: Global) -> Result<Sql<MemStore>, BeginFault> {
        Ok(Sql::unconnected())
    }

    ghost starts = { λ _. sql_is_started };
}
