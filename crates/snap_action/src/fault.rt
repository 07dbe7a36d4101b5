//! Why an action has no result.

use snap_base::{NoMemory, Stop};
use snap_store::StoreFault;

/// Why an action has no result.
#[derive(Debug, Drop)]
pub enum Abrupt<H> {
    /// This value was thrown.
    Threw(H),
    /// Evaluation stops there.
    Stopped(Stop),
    /// The memory that the action needed was refused.
    NoMemory,
}

impl<H> From<NoMemory> for Abrupt<H> {
    ghost use Rattle.std.specs.Prelude.{◌≡◌};
    ghost use Rattle.snap_action.specs.declared.fault.Abrupt.TheVariants.{NoMemory};

    ghost from_gives = { λ _ fault. fault ≡ NoMemory };

    fn from(_: NoMemory) -> Abrupt<H> {
        Abrupt::NoMemory
    }
}

impl<H> From<StoreFault> for Abrupt<H> {
    ghost use Rattle.std.specs.Prelude.{◌≡◌};
    ghost use Rattle.snap_action.specs.Gives.{abrupt_of};

    ghost from_gives = { λ given fault. fault ≡ abrupt_of given };

    fn from(fault: StoreFault) -> Abrupt<H> {
        match fault {
            StoreFault::TooManyNodes => Abrupt::Stopped(Stop::TooManyNodes),
            StoreFault::TooLong => Abrupt::Stopped(Stop::TooLong),
            StoreFault::NoMemory => Abrupt::NoMemory,
        }
    }
}

impl<H> From<snap_text::NoMemory> for Abrupt<H> {
    ghost use Rattle.std.specs.Prelude.{◌≡◌};
    ghost use Rattle.snap_action.specs.declared.fault.Abrupt.TheVariants.{NoMemory};

    ghost from_gives = { λ _ fault. fault ≡ NoMemory };

    fn from(_: snap_text::NoMemory) -> Abrupt<H> {
        Abrupt::NoMemory
    }
}
