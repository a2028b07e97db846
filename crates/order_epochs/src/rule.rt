// The rule of the store, and what its steps tell.

ghost use Rattle.order_epochs.specs.Rule.{KeepsStore, Shown, epoch_on, newcomer, informed};

use crate::shelf::Shelf;
use crate::view::View;
use atomic_table::{Join, Split};
use crossbeam_utils::rule::{Outcome, Protocol};

pub(crate) struct Law;

impl Protocol<Shelf, View> for Law {
    ghost holds = { λ s views. KeepsStore (epoch_on s) views };

    ghost first = { newcomer };
}

/// The two kinds of step: the writer publishes, or a reader enters.
pub(crate) struct Shows;

impl Outcome<Shelf, View> for Shows {
    ghost then = { λ v s t w. Shown v (epoch_on s) (epoch_on t) w };
}

/// What the writer knows, told to a new reader.
pub(crate) struct Twice;

impl Split<View> for Twice {
    ghost left = { λ v. v };

    ghost right = { λ v. v };
}

/// A new reader takes in what the writer told.
pub(crate) struct Later;

impl Join<View> for Later {
    ghost both = { informed };

    ghost spent = { newcomer };
}
