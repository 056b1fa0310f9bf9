//! What the program promises, said of SQL: laws, each the contract of a function that does nothing of its own.

ghost use Rattle.std.specs.Prelude.{◌≡◌, ℕ, List, Option, Some};
ghost use Rattle.conn_file.specs.Kernelspec.{kernel_words, started_by};
ghost use Rattle.kernel_program.specs.Program.{DoesOrder, GivenWords, RefusesToBegin};
ghost use Rattle.sql_cells.specs.Meaning.{sql_meaning};
ghost use Rattle.sql_cells.specs.Within.{within};
ghost use Rattle.sqlite.specs.Steps.{over_memory};
ghost use Rattle.jkernel_sql.specs.SqlProgram.{in_file, in_memory, kernelspec, program_name};

use crate::in_file::InFile;
use crate::in_memory::InMemory;
use interp_core::Interpreter;
use kernel_program::{Language, law_program_is_started};
use sql_cells::{FileSql, Sql};
use sqlite::{File, FileStore, MemStore};

/// The kernel of this program without a file is one of SQL, which begins over an empty database.
pub fn law_kernel_is_of_sql(language: &InMemory)
    // What `run` promises of the program of `language`, it promises of SQL over memory, and of this name and kernelspec.
    ensures done { (words : GivenWords) (input left before after : Option (List ℕ))
        → DoesOrder ⟦<Sql<MemStore> as Interpreter>⟧.meaning (⟦<InMemory as Language>⟧.profile language.now) words input
        left before after
        → DoesOrder (sql_meaning over_memory) in_memory words input left before after }

    // It never ends with 7.
    ensures begins { (words : GivenWords)
        → ¬ (RefusesToBegin (⟦<InMemory as Language>⟧.profile language.now) words) }

    // The kernelspec is JSON, and has a server start this program.
    ensures starts { started_by kernelspec ≡ Some (kernel_words program_name) }
{
    law_program_is_started(language);
}

/// The kernel of this program over a file is one of SQL, by the same definitions, over a file that was opened, or over no
/// database.
pub fn law_kernel_is_of_file(language: &InFile)
    // What `run` promises of the program of `language`, it promises of SQL over a file, and of this name and kernelspec.
    ensures done { (words : GivenWords) (input left before after : Option (List ℕ))
        → DoesOrder ⟦<FileSql as Interpreter>⟧.meaning (⟦<InFile as Language>⟧.profile language.now) words input left
        before after
        → DoesOrder (within (λ file. file.sql) ⟦<Sql<FileStore<File>> as Interpreter>⟧.meaning) in_file words input left
        before after }

    // The kernelspec is JSON, and has a server start this program.
    ensures starts { started_by kernelspec ≡ Some (kernel_words program_name) }
{
    law_program_is_started(language);
}
