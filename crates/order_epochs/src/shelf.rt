// The value of which the store has two copies.

ghost use Rattle.std.specs.Arc.{arc_value};

use left_right::Absorb;
use scatter_step::Completed;
use std::alloc::{AllocError, Global};
use std::sync::Arc;

/// A shared owner of a finished order. The next order takes its place, so it is its own operation, and
/// the second copy needs no copy of a diagram.
#[derive(Drop)]
pub(crate) struct Shelf(pub(crate) Arc<Completed, Global>);

impl Absorb<Shelf> for Shelf {
    type State = Completed;

    ghost state = { λ s. arc_value s.0 };

    ghost applied = { λ _ next. arc_value next.0 };

    fn absorb_first(&mut self, operation: &Shelf, _other: &Shelf) -> Result<(), AllocError> {
        self.0 = Arc::try_clone(&operation.0)?;
        Ok(())
    }

    fn absorb_second(&mut self, operation: Shelf, _other: &Shelf) -> Result<(), Shelf> {
        *self = operation;
        Ok(())
    }
}
