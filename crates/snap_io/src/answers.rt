//! What the outside answers where it does not do what it was asked.

ghost use Rattle.std.specs.Prelude.{◌≡◌};
ghost use Rattle.snap_io.specs.declared.answers.ReadAnswer.TheVariants.{NoMemory as no_memory_to_read};
ghost use Rattle.snap_io.specs.declared.answers.WriteAnswer.TheVariants.{NoMemory as no_memory_to_write};

use std::alloc::AllocError;

/// Why a read gave no bytes.
#[derive(Clone, Copy, Debug, PartialEq, Eq)]
pub enum ReadAnswer {
    /// The file holds more bytes than the limit.
    TooLong,
    /// The outside failed; its count of faults rose.
    Failed,
    /// Memory ran out.
    NoMemory,
}

/// Why a write was not done, or not done whole.
#[derive(Clone, Copy, Debug, PartialEq, Eq)]
pub enum WriteAnswer {
    /// The outside failed; its count of faults rose.
    Failed,
    /// Memory ran out; nothing was written.
    NoMemory,
}

impl From<AllocError> for ReadAnswer {
    ghost from_gives = { λ _ answer. answer ≡ no_memory_to_read };

    fn from(_error: AllocError) -> ReadAnswer {
        ReadAnswer::NoMemory
    }
}

impl From<AllocError> for WriteAnswer {
    ghost from_gives = { λ _ answer. answer ≡ no_memory_to_write };

    fn from(_error: AllocError) -> WriteAnswer {
        WriteAnswer::NoMemory
    }
}
