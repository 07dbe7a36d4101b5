//! Why a call of the tests' own gives nothing.

use snap_action::Abrupt;
use snap_store::StoreFault;
use std::alloc::{AllocError, AllocFailed};

/// Why a call gives nothing.
#[derive(Clone, Copy, Debug, PartialEq, Eq)]
pub enum Refused {
    /// The memory that the call needed was refused.
    NoMemory,
    /// A store refuses it.
    Store(StoreFault),
    /// A row is not written as rows are, or a step of it cannot be taken.
    Row,
    /// An action was cut off, or what was thrown is no TypeError.
    Error,
}

impl From<snap_base::NoMemory> for Refused {
    fn from(_: snap_base::NoMemory) -> Refused {
        Refused::NoMemory
    }
}

impl From<snap_text::NoMemory> for Refused {
    fn from(_: snap_text::NoMemory) -> Refused {
        Refused::NoMemory
    }
}

impl From<AllocError> for Refused {
    fn from(_: AllocError) -> Refused {
        Refused::NoMemory
    }
}

impl<T: Drop> From<AllocFailed<T>> for Refused {
    fn from(_: AllocFailed<T>) -> Refused {
        Refused::NoMemory
    }
}

impl From<StoreFault> for Refused {
    fn from(fault: StoreFault) -> Refused {
        match fault {
            StoreFault::NoMemory => Refused::NoMemory,
            other => Refused::Store(other),
        }
    }
}

impl<H: Drop> From<Abrupt<H>> for Refused {
    fn from(fault: Abrupt<H>) -> Refused {
        match fault {
            Abrupt::NoMemory => Refused::NoMemory,
            Abrupt::Threw(_) | Abrupt::Stopped(_) => Refused::Error,
        }
    }
}

/// Whether a store refuses a call for this reason. Want of memory is told.
pub fn is_refused<T: Drop>(given: Result<T, Refused>, fault: StoreFault) -> Result<bool, Refused> {
    match given {
        Ok(_) => Ok(false),
        Err(Refused::NoMemory) => Err(Refused::NoMemory),
        Err(why) => Ok(why == Refused::Store(fault)),
    }
}
