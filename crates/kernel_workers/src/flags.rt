//! The flags by which control stops what shell does.

ghost use Rattle.std.specs.Prelude.{◌≡◌, true};
ghost use Rattle.kernel_engine.specs.Orders.{is_interrupt, order_of_request};
ghost use Rattle.kernel_workers.specs.Works.{WorksOff};

use crate::ended::Ended;
use crate::promises::LeavesWork;
use interp_core::Interpreter;
use jmsg_envelope::Stamp;
use kernel_engine::{Asked, Stop};
use std::alloc::{AllocError, Global};
use std::sync::atomic::{AtomicBool, Ordering};
use std::sync::{Arc, Wait};

/// The flags by which control stops what shell does, for both of them, and by which others see that the kernel is to
/// end. Control raises the one of the end before the one of an interrupt, and shell lowers the latter before it reads
/// the former. So a job that begins after the end was raised isn't done, and the cell of one that began before is
/// interrupted.
#[derive(Drop)]
pub struct Flags {
    /// Whether shell is to end, or ends.
    ending: Arc<AtomicBool, Global>,
    /// Whether the cell that runs is to be interrupted.
    interrupt: Arc<AtomicBool, Global>,
}

impl Flags {
    /// Flags that are down.
    ///
    /// # Errors
    ///
    /// If an allocation is refused.
    pub fn new(alloc: Global) -> Result<Flags, AllocError> {
        let Ok(ending) = Arc::new(alloc, AtomicBool::new(false)) else {
            return Err(AllocError);
        };
        let Ok(interrupt) = Arc::new(alloc, AtomicBool::new(false)) else {
            return Err(AllocError);
        };
        Ok(Flags { ending, interrupt })
    }

    /// The same flags once more.
    ///
    /// # Errors
    ///
    /// If the flags have too many owners.
    pub fn try_clone(&self) -> Result<Flags, AllocError> {
        Ok(Flags {
            ending: Arc::try_clone(&self.ending)?,
            interrupt: Arc::try_clone(&self.interrupt)?,
        })
    }

    /// The same flags twice more.
    ///
    /// # Errors
    ///
    /// If the flags have too many owners.
    pub(crate) fn twice(&self) -> Result<(Flags, Flags), AllocError> {
        let one = self.try_clone()?;
        match self.try_clone() {
            Ok(other) => Ok((one, other)),
            Err(AllocError) => {
                drop(one);
                Err(AllocError)
            }
        }
    }

    /// The flag of the end once more, by which others see that the kernel is to end.
    ///
    /// # Errors
    ///
    /// If the flag has too many owners.
    pub fn ending(&self) -> Result<Arc<AtomicBool, Global>, AllocError> {
        Arc::try_clone(&self.ending)
    }

    /// Raises the flag of an interrupt, as a request asks for.
    pub(crate) fn interrupt(&self, asked: &Asked)
        requires { is_interrupt (order_of_request asked.now.does) ≡ true }
    {
        let _ = asked;
        self.raise();
    }

    /// Raises the flag of an interrupt.
    fn raise(&self) {
        self.interrupt.store(true, Ordering::SeqCst);
    }

    /// Raises the flag of the end, and then that of an interrupt, as a worker has ended that was given this.
    pub(crate) fn end<I, S, W, R>(&self, given: &LeavesWork<I, S, W, R>, ended: &Ended<I, S, W, R>)
    where
        I: Interpreter,
        S: Stamp,
        R: Wait,
        requires { WorksOff I.meaning S.stamp given.now.side given.now.engine.value given.now.inbox.value ended.now }
    {
        let _ = given;
        let _ = ended;
        self.ending.store(true, Ordering::SeqCst);
        self.raise();
    }

    /// Lowers the flag of an interrupt, and then says whether the one of the end is down.
    pub(crate) fn may_begin(&self) -> bool {
        self.interrupt.store(false, Ordering::SeqCst);
        !self.is_ending()
    }

    /// Whether shell is to end, or ends: the whole kernel does then.
    pub(crate) fn is_ending(&self) -> bool {
        self.ending.load(Ordering::SeqCst)
    }
}

impl Stop for Flags {
    ghost may_ask = { λ _. Unit };

    fn asked(&self) -> bool {
        self.interrupt.load(Ordering::SeqCst)
    }
}

/// Stops nothing: what control does is never interrupted.
#[derive(Clone, Copy, Debug)]
pub(crate) struct Never;

impl Stop for Never {
    ghost may_ask = { λ _. ⊥ };

    fn asked(&self) -> bool {
        false
    }
}
