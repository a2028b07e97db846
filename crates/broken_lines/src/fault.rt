// Why a question at a point has no answer.

use plane_geom::Point;
use std::alloc::{AllocError, AllocFailed};
use thiserror::Error;

#[derive(Clone, Copy, Debug, PartialEq, Eq, Error)]
pub enum AskFault {
    /// The order at hand, `newest`, is below the one that was asked for.
    #[error("order {newest} is the newest")]
    NotYet { newest: u32 },
    /// The point is on a live wall, or a line through this special point ends there.
    #[error("not generic")]
    NotGeneric { at: Point },
    /// More than 2^18 exponents are reached.
    #[error("too many exponents are reached")]
    TooManyReach,
    /// More than 2^20 tails end at the point.
    #[error("too many tails")]
    TooManyTails,
    /// A tail meets a live wall in a point with a number above 2^40.
    #[error("a point too far away")]
    PointTooLarge,
    /// The weights of the tails sum to more than 2^126.
    #[error("too much weight")]
    WeightTooLarge,
    #[error("out of memory")]
    Memory,
}

impl From<AllocError> for AskFault {
    ghost use Rattle.std.specs.Prelude.{◌≡◌};
    ghost use Rattle.broken_lines.specs.declared.fault.AskFault.TheVariants.{Memory};

    ghost from_gives = { λ _ e. e ≡ Memory };

    fn from(_: AllocError) -> AskFault {
        AskFault::Memory
    }
}

impl<T: Drop> From<AllocFailed<T>> for AskFault {
    ghost use Rattle.std.specs.Prelude.{◌≡◌};
    ghost use Rattle.broken_lines.specs.declared.fault.AskFault.TheVariants.{Memory};

    ghost from_gives = { λ _ e. e ≡ Memory };

    fn from(_: AllocFailed<T>) -> AskFault {
        AskFault::Memory
    }
}
