// The rule of the table, and what its steps tell.

ghost use Rattle.joint_board.specs.Rule.{Holds, Claimed, Settled, first_view, after_split, fresh_view, both_views, spent_view};

use crate::view::{Size, View};
use atomic_table::{Join, Play, Split, TableRule};

pub(crate) struct Law;

impl TableRule<(), View, Size> for Law {
    ghost holds = { Holds };

    ghost first = { first_view };
}

/// A number is drawn.
pub(crate) struct Claim;

impl Play<(), View> for Claim {
    ghost then = { Claimed };
}

/// The first seat makes another one.
pub(crate) struct Another;

impl Split<View> for Another {
    ghost left = { after_split };

    ghost right = { fresh_view };
}

/// The first seat takes in another one.
pub(crate) struct Back;

impl Join<View> for Back {
    ghost both = { both_views };

    ghost spent = { spent_view };
}

/// What the first seat learns once all others were joined into it.
pub(crate) struct Settle;

impl Play<(), View> for Settle {
    ghost then = { Settled };
}
