//! Why an operator gives no value.

use snap_base::Stop;
use snap_text::NoMemory;
use std::alloc::{AllocError, AllocFailed};

/// Why an operator gives no value.
#[derive(Clone, Copy, Debug, PartialEq, Eq)]
pub enum OperFault {
    /// Evaluation stops there.
    Stopped(Stop),
    /// The memory that the call needed was refused.
    NoMemory,
}

impl From<Stop> for OperFault {
    ghost use Rattle.std.specs.Prelude.{◌≡◌};
    ghost use Rattle.snap_oper.specs.declared.fault.OperFault.TheVariants.{Stopped};

    ghost from_gives = { λ stop fault. fault ≡ Stopped stop };

    fn from(stop: Stop) -> OperFault {
        OperFault::Stopped(stop)
    }
}

impl From<NoMemory> for OperFault {
    ghost use Rattle.std.specs.Prelude.{◌≡◌};
    ghost use Rattle.snap_oper.specs.declared.fault.OperFault.TheVariants.{NoMemory};

    ghost from_gives = { λ _ fault. fault ≡ NoMemory };

    fn from(_: NoMemory) -> OperFault {
        OperFault::NoMemory
    }
}

impl From<AllocError> for OperFault {
    ghost use Rattle.std.specs.Prelude.{◌≡◌};
    ghost use Rattle.snap_oper.specs.declared.fault.OperFault.TheVariants.{NoMemory};

    ghost from_gives = { λ _ fault. fault ≡ NoMemory };

    fn from(_: AllocError) -> OperFault {
        OperFault::NoMemory
    }
}

impl<T: Drop> From<AllocFailed<T>> for OperFault {
    ghost use Rattle.std.specs.Prelude.{◌≡◌};
    ghost use Rattle.snap_oper.specs.declared.fault.OperFault.TheVariants.{NoMemory};

    ghost from_gives = { λ _ fault. fault ≡ NoMemory };

    fn from(_: AllocFailed<T>) -> OperFault {
        OperFault::NoMemory
    }
}
