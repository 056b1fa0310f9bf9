//! One statement.

ghost use Rattle.std.specs.Prelude.{◌≡◌};
ghost use Rattle.sqlite.specs.Held.{state};
ghost use Rattle.sqlite.specs.State.{HasCleanDisk};
ghost use Rattle.sql_cells.specs.Statement.{Runs, Spares};

use sqlite::{Alter, Connection, Error, Row, Statement};

/// How a statement comes out.
#[derive(Drop)]
pub enum Came {
    /// The rows that it shows, under the names of the statement's columns.
    Rows(Statement, Vec<Row>),
    /// How many rows it changed.
    Changed(usize),
}

/// Runs the one statement of a text.
///
/// # Errors
///
/// Why it isn't run, or how it failed.
pub fn run_statement<S: Alter>(conn: &mut Connection<S>, sql: &str) -> Result<Came, Error>
    ensures runs { HasCleanDisk (state S.Store conn.new) → Runs S.Store sql.now conn.old conn.new result }
    ensures spares { Spares S.Store sql.now conn.old conn.new }
{
    let statement = match conn.prepare(sql) {
        Ok(statement) => statement,
        Err(refused) => return Err(refused),
    };
    if statement.column_count() == 0 {
        match statement.execute(conn, &[]) {
            Ok(count) => {
                drop(statement);
                Ok(Came::Changed(count))
            }
            Err(failed) => {
                drop(statement);
                Err(failed)
            }
        }
    } else {
        match statement.query_all(conn, &[]) {
            Ok(rows) => Ok(Came::Rows(statement, rows)),
            Err(error) => {
                drop(statement);
                Err(error)
            }
        }
    }
}
