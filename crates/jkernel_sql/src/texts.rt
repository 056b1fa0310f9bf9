//! What the program says of itself.

/// The name of the program.
pub(crate) const NAME: &str = "jkernel-sql";

/// What the program is.
pub(crate) const ABOUT: &str = concat!(
    "A Jupyter kernel of SQL whose promises are proved\n\n",
    "Its database is in memory. With --database <FILE> before the command it is\n",
    "the one in FILE, which is made if there is none.",
);

/// A run that a person can try.
pub(crate) const EXAMPLE: &str =
    "Example: jkernel-sql --database books.db serve -f connection.json";

/// The text of `kernel.json`.
pub(crate) const KERNELSPEC: &str = concat!(
    r#"{"argv":["jkernel-sql","serve","-f","{connection_file}"],"display_name":"SQL","#,
    r#""interrupt_mode":"message","language":"sql"}"#,
);

/// What is told of a database that has no file.
pub(crate) const NO_FILE: &str =
    "error: a value is required for '--database <FILE>' but none was supplied\n";

/// What is told of a database that is named after the command, or a second time.
pub(crate) const LATE: &str = "error: '--database <FILE>' stands once, before the command\n";

/// What is told of a kernelspec that is asked for with a database.
pub(crate) const NO_KERNELSPEC: &str =
    "error: the kernelspec names no database: ./install --language sql --database <FILE> --name <NAME>\n";

/// What is told of want of memory.
pub(crate) const FAILED: &str = "jkernel-sql: failed\n";
