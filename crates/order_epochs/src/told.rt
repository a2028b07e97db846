// What the writer tells of a published order.

ghost use Rattle.std.specs.Prelude.{◌≡◌, IfSome};
ghost use Rattle.std.specs.Arc.{arc_value};
ghost use Rattle.scatter_step.specs.Completed.{IsCompleted};
ghost use Rattle.order_epochs.specs.Seen.{epoch_of};

use scatter_step::Completed;
use std::alloc::Global;
use std::marker::Model;
use std::snapshot::Snapshot;
use std::sync::Arc;

/// One owner of a finished order, unless it was refused.
#[derive(Drop)]
struct Owner(Option<Arc<Completed, Global>>);

/// An order that was published. Contracts see the lines of its store, and the order.
#[derive(Drop)]
pub struct Told {
    /// What the order is, for contracts alone. It has no bytes.
    about: Snapshot<Completed>,
    order: u32,
    finished: Owner,
}

impl Model for Told {
    ghost use Rattle.std.specs.Prelude.{◌≡◌, IfSome};
    ghost use Rattle.std.specs.Arc.{arc_value};
    ghost use Rattle.scatter_step.specs.Completed.{IsCompleted};
    ghost use Rattle.order_epochs.specs.Seen.{SeenEpoch, epoch_of};

    ghost Value = { SeenEpoch };

    ghost view = { λ t. epoch_of t.about.value };

    ghost invariant = { λ t. (t.order ≡ t.about.value.order) × IsCompleted t.about.value
        × IfSome t.finished.0 (λ a. arc_value a ≡ t.about.value) };
}

impl Told {
    /// It takes no memory.
    pub(crate) fn of(published: &Arc<Completed, Global>) -> Told
        ensures { result ≡ epoch_of (arc_value published.now) }
    {
        let completed: &Completed = published;
        Told {
            about: Snapshot::of(completed),
            order: completed.order(),
            finished: Owner(Arc::try_clone(published).ok()),
        }
    }

    /// The published order.
    pub fn order(&self) -> u32
        ensures { result ≡ self.now.order }
    {
        self.order
    }

    /// One owner more of the order, unless it is refused.
    pub(crate) fn share(&self) -> Option<Arc<Completed, Global>>
        ensures order { IfSome result (λ a. epoch_of (arc_value a) ≡ self.now) }
        ensures completed { IfSome result (λ a. IsCompleted (arc_value a)) }
    {
        match &self.finished.0 {
            Some(finished) => Arc::try_clone(finished).ok(),
            None => None,
        }
    }
}
