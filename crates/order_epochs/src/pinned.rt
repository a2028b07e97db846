// A reader with the order that it lends.

ghost use Rattle.std.specs.Prelude.{◌≡◌};
ghost use Rattle.std.specs.Arc.{arc_value};
ghost use Rattle.scatter_step.specs.Completed.{IsCompleted};
ghost use Rattle.order_epochs.specs.Seen.{epoch_of};

use crate::EpochReader;
use scatter_step::Completed;
use std::alloc::Global;
use std::marker::Model;
use std::sync::Arc;

/// A reader that has pinned an order, which is lent as long as the reader isn't given back. The writer
/// doesn't wait for it. Contracts see the lines of its store, and the order.
#[derive(Drop)]
pub struct Pinned {
    reader: EpochReader,
    order: Arc<Completed, Global>,
}

impl Model for Pinned {
    ghost use Rattle.std.specs.Prelude.{◌≡◌};
    ghost use Rattle.std.specs.Arc.{arc_value};
    ghost use Rattle.scatter_step.specs.Completed.{IsCompleted};
    ghost use Rattle.order_epochs.specs.Seen.{SeenEpoch, epoch_of};

    ghost Value = { SeenEpoch };

    ghost view = { λ p. p.reader };

    ghost invariant = { λ p. (epoch_of (arc_value p.order) ≡ p.reader)
        × IsCompleted (arc_value p.order) };
}

impl Pinned {
    pub(crate) fn new(reader: EpochReader, order: Arc<Completed, Global>) -> Pinned
        requires reader { epoch_of (arc_value order) ≡ reader }
        requires completed { IsCompleted (arc_value order) }
        ensures { result ≡ reader }
    {
        Pinned { reader, order }
    }

    /// Lends the pinned order, without a copy: the completion of the store's lines at that order.
    pub fn completed(&self) -> &Completed
        ensures order { epoch_of result.now ≡ self.now }
        ensures completed { IsCompleted result.now }
    {
        &self.order
    }

    /// Gives the reader back, which has seen the pinned order. It takes no memory.
    pub fn back(self) -> EpochReader
        ensures { result ≡ self }
    {
        self.reader
    }
}
