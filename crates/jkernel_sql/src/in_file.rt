//! SQL over the database in a file, as the language of a program.

ghost use Rattle.std.specs.Prelude.{◌≡◌, ◌⊎◌, IfOk, IfErr, IsTrue};
ghost use Rattle.kernel_program.specs.Profile.{IsRefusal};
ghost use Rattle.sqlite.specs.Opening.{is_open_error};
ghost use Rattle.jkernel_sql.specs.SqlProgram.{BeginsInFile, in_file, refusal, sql_is_started};

use crate::texts::{ABOUT, EXAMPLE, KERNELSPEC, NAME};
use kernel_program::{BeginFault, Language};
use listed::Text;
use sql_cells::{FileSql, error_words};
use sqlite::{Error, ErrorCode};
use std::alloc::{AllocError, Global};
use std::rt::HostRuntime;

/// SQL over the database in a file. If another program has that open, each statement fails.
#[derive(Drop)]
pub struct InFile {
    /// The system, whose file it is.
    pub rt: HostRuntime,
    /// Where the file is.
    pub path: String,
}

/// The words of a refusal.
fn refusal(alloc: Global, error: Error) -> Result<Text, AllocError>
    ensures { IfOk result (λ said. said ≡ refusal error) }
{
    let words = error_words(error);
    let said = format!(in alloc; "the database: {words}")?;
    Ok(Text::new(said))
}

/// Why a program doesn't begin whose file isn't opened.
fn refused(alloc: Global, error: Error) -> BeginFault
    requires { IsTrue (is_open_error error) }
    ensures { IsRefusal in_file result }
{
    match refusal(alloc, error) {
        Ok(said) => BeginFault::Refused(said),
        Err(AllocError) => BeginFault::OutOfMemory,
    }
}

impl Language for InFile {
    type Interp = FileSql;

    ghost profile = { λ _. in_file };

    fn name(&self) -> &'static str {
        NAME
    }

    fn about(&self) -> &'static str {
        ABOUT
    }

    fn example(&self) -> &'static str {
        EXAMPLE
    }

    fn kernelspec(&self) -> &'static str {
        KERNELSPEC
    }

    fn shell(&self, alloc: Global) -> Result<FileSql, BeginFault> {
        match FileSql::open(&self.rt, self.path.as_str()) {
            Ok(sql) => Ok(sql),
            Err(Error::SqliteFailure(ErrorCode::DatabaseBusy)) => Ok(FileSql::unconnected()),
            Err(Error::SqliteFailure(ErrorCode::OutOfMemory)) => Err(BeginFault::OutOfMemory),
            Err(error) => Err(refused(alloc, error)),
        }
    }

    fn control(&self, alloc: Global) -> Result<FileSql, BeginFault> {
        Ok(FileSql::unconnected())
    }

    ghost starts = { λ _. sql_is_started };
}
