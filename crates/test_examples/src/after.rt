//! A stop that says yes.

use kernel_engine::Stop;
use std::cell::Cell;

/// Says yes each time but so many at first.
#[derive(Drop)]
pub struct After {
    /// How often no is said yet.
    left: Cell<u64>,
}

impl After {
    /// A stop that says no so often at first.
    pub fn new(noes: u64) -> After {
        After {
            left: Cell::new(noes),
        }
    }
}

impl Stop for After {
    ghost may_ask = { λ _. Unit };

    fn asked(&self) -> bool {
        let left = self.left.get();
        self.left.set(left.saturating_sub(1));
        left == 0
    }
}
