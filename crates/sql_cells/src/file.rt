//! SQL over a database in a file.

ghost use Rattle.std.specs.Prelude.{◌≡◌, None, Some, false, IfOk, IfErr, IsTrue};
ghost use Rattle.sqlite.specs.Files.{IsOpened, file_state};
ghost use Rattle.sqlite.specs.Held.{IsNew};
ghost use Rattle.sqlite.specs.Opening.{is_open_error};
ghost use Rattle.sqlite.specs.State.{HasCleanDisk};
ghost use Rattle.sqlite_store.specs.FileStore.{view};
ghost use Rattle.sql_cells.specs.Meaning.{limited};

use crate::cells::{Pieces, Sql};
use interp_core::{Completeness, Completion, Info, InterpFault, Interpreter, Stepped};
use listed::Text;
use sqlite::{Connection, Error, File, FileStore};
use std::alloc::Global;
use std::rt::HostRuntime;

/// SQL over the database in a file, or over none.
#[derive(Drop)]
pub struct FileSql {
    /// The interpreter that it is.
    sql: Sql<FileStore<File>>,
}

impl FileSql {
    /// SQL over the database in the file of this path, which is made if there is none.
    ///
    /// # Errors
    ///
    /// Why the file isn't opened: another process or another connection of this one has it open, for one.
    pub fn open(rt: &HostRuntime, path: &str) -> Result<FileSql, Error>
        ensures opened { IfOk result (λ file. (held : _) × (file.sql ≡ Some (limited held)) × IsNew held
            × (HasCleanDisk (file_state held) → IsOpened held × ((view held.store).has_sums ≡ false))) }
        ensures refused { IfErr result (λ e. IsTrue (is_open_error e)) }
    {
        match Connection::open(rt, path) {
            Ok(conn) => Ok(FileSql {
                sql: Sql::over(conn),
            }),
            Err(error) => Err(error),
        }
    }

    /// SQL over no database: each statement fails.
    pub fn unconnected() -> FileSql
        ensures { result.sql ≡ None }
    {
        FileSql {
            sql: Sql::unconnected(),
        }
    }
}

impl Interpreter for FileSql {
    type Cell = Pieces;

    ghost use Rattle.sql_cells.specs.Laws.{sql_laws};
    ghost use Rattle.sql_cells.specs.Within.{within, within_laws};

    ghost meaning = { within (λ file. file.sql) ⟦<Sql<FileStore<File>> as Interpreter>⟧.meaning };

    fn info(&self, alloc: Global) -> Result<Info, InterpFault> {
        self.sql.info(alloc)
    }

    fn begin(&mut self, alloc: Global, code: &str) -> Result<Pieces, InterpFault> {
        self.sql.begin(alloc, code)
    }

    fn steps_left(&self, cell: &Pieces) -> u64 {
        self.sql.steps_left(cell)
    }

    fn step(&mut self, alloc: Global, cell: &mut Pieces) -> Stepped {
        self.sql.step(alloc, cell)
    }

    fn complete(&self, alloc: Global, code: &str, cursor: u64) -> Result<Completion, InterpFault> {
        self.sql.complete(alloc, code, cursor)
    }

    fn inspect(&self, alloc: Global, code: &str, cursor: u64) -> Result<Option<Text>, InterpFault> {
        self.sql.inspect(alloc, code, cursor)
    }

    fn is_complete(&self, alloc: Global, code: &str) -> Result<Completeness, InterpFault> {
        self.sql.is_complete(alloc, code)
    }

    fn evaluate(&mut self, alloc: Global, text: &str) -> Result<Text, InterpFault> {
        self.sql.evaluate(alloc, text)
    }

    ghost laws = { within_laws (λ file. file.sql) _ (sql_laws _) };
}
