//! A test of what no clause shows: that statements know the time.

use interp_core::Interpreter;
use sql_cells::Sql;
use std::test::Fail;

#[test]
fn statement_over_memory_reads_the_clock(rt: HostRuntime) -> Result<(), Fail> {
    let mut sql = Sql::in_memory(&rt)?;
    let answer = sql.evaluate(rt.alloc(), "datetime('now') > '2000-01-01'")?;
    drop(sql);
    assert_eq!(rt; answer.as_str(), "1");
    Ok(())
}
