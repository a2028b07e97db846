// Why an event was refused.

use std::alloc::{AllocError, AllocFailed};
use thiserror::Error;

#[derive(Debug, Drop, Error)]
pub enum MachineFault {
    /// The condition of the event at this place fails.
    #[error("event {place} is not enabled")]
    NotEnabled { place: usize },
    #[error("out of memory")]
    Memory,
}

impl From<AllocError> for MachineFault {
    ghost use Rattle.std.specs.Prelude.{◌≡◌};
    ghost use Rattle.order_machine.specs.declared.fault.MachineFault.TheVariants.{Memory};

    ghost from_gives = { λ _ e. e ≡ Memory };

    fn from(_: AllocError) -> MachineFault {
        MachineFault::Memory
    }
}

impl<T: Drop> From<AllocFailed<T>> for MachineFault {
    ghost use Rattle.std.specs.Prelude.{◌≡◌};
    ghost use Rattle.order_machine.specs.declared.fault.MachineFault.TheVariants.{Memory};

    ghost from_gives = { λ _ e. e ≡ Memory };

    fn from(_: AllocFailed<T>) -> MachineFault {
        MachineFault::Memory
    }
}
