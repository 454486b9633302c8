//! Why a trial stopped before its end.
use lr_bits::NoMemory;
use std::alloc::AllocError;
use std::test::Fail;

/// The trial itself was refused memory, or something isn't as it must be.
pub(crate) enum Trouble {
    Memory,
    Failed(Fail),
}

impl From<AllocError> for Trouble {
    fn from(_: AllocError) -> Self {
        Trouble::Memory
    }
}

impl From<NoMemory> for Trouble {
    fn from(_: NoMemory) -> Self {
        Trouble::Memory
    }
}

impl From<Fail> for Trouble {
    fn from(fail: Fail) -> Self {
        Trouble::Failed(fail)
    }
}

/// That a trial came to its end.
pub(crate) fn ended(outcome: Result<(), Trouble>) -> Result<(), Fail> {
    match outcome {
        Ok(()) => Ok(()),
        Err(Trouble::Memory) => Err(Fail::from("the trial was refused memory")),
        Err(Trouble::Failed(fail)) => Err(fail),
    }
}

/// The same of a trial that may be refused memory.
pub(crate) fn ended_or_refused(outcome: Result<(), Trouble>) -> Result<(), Fail> {
    match outcome {
        Ok(()) => Ok(()),
        Err(Trouble::Memory) => Ok(()),
        Err(Trouble::Failed(fail)) => Err(fail),
    }
}
