//! Two things, or none for want of memory.

use std::alloc::AllocError;

/// Both, if both are there. So whoever asks for both owns neither if one is missing.
pub fn both<A: Drop, B: Drop>(
    first: Result<A, AllocError>,
    second: Result<B, AllocError>,
) -> Result<(A, B), AllocError> {
    match (first, second) {
        (Ok(first), Ok(second)) => Ok((first, second)),
        (Ok(first), Err(AllocError)) => {
            drop(first);
            Err(AllocError)
        }
        (Err(AllocError), Ok(second)) => {
            drop(second);
            Err(AllocError)
        }
        (Err(AllocError), Err(AllocError)) => Err(AllocError),
    }
}
