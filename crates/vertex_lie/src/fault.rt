// Why an operation on Lie elements has no answer.

use std::alloc::{AllocError, AllocFailed};
use thiserror::Error;

#[derive(Clone, Copy, Debug, PartialEq, Eq, Error)]
pub enum LieFault {
    /// A number on the way leaves the range that the operation names.
    #[error("a number out of range")]
    Range,
    #[error("out of memory")]
    Memory,
}

impl From<AllocError> for LieFault {
    ghost use Rattle.std.specs.Prelude.{◌≡◌};
    ghost use Rattle.vertex_lie.specs.declared.fault.LieFault.TheVariants.{Memory};

    ghost from_gives = { λ _ e. e ≡ Memory };

    fn from(_: AllocError) -> LieFault {
        LieFault::Memory
    }
}

impl<T: Drop> From<AllocFailed<T>> for LieFault {
    ghost use Rattle.std.specs.Prelude.{◌≡◌};
    ghost use Rattle.vertex_lie.specs.declared.fault.LieFault.TheVariants.{Memory};

    ghost from_gives = { λ _ e. e ≡ Memory };

    fn from(_: AllocFailed<T>) -> LieFault {
        LieFault::Memory
    }
}
