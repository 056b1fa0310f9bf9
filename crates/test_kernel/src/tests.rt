//! Kernels in threads: what they publish and reply, and how they end.

mod keeper;
mod long;
mod running;
mod shutdown;

use std::alloc::AllocError;
use std::process::Abort;
use test_requests::both;

/// That a text is the one that is due.
fn expect_same(
    rt: &impl Abort,
    text: Result<String, AllocError>,
    due: Result<String, AllocError>,
) -> Result<(), AllocError> {
    let (text, due) = both(text, due)?;
    assert_eq!(rt; text.as_str(), due.as_str());
    drop(text);
    drop(due);
    Ok(())
}
