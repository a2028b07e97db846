// Laws of every interleaving, over the definitions.

ghost use Rattle.order_machine.specs.Laws.{OrdersFollow, NumbersFollow, AllAreFinished, PinsNeverFall, PinsAreSeen, AnswersArePinned, NoneIsAboveNewest, NewestIsWithinGoal};

/// The published orders are 1, 2, .. without a gap, and none is above the goal.
pub fn orders_follow()
    ensures follow { OrdersFollow }
    ensures within { NewestIsWithinGoal }
{}

/// Between putting a board up and publishing, each task is drawn once and finished once.
pub fn tasks_are_done_once()
    ensures drawn { NumbersFollow }
    ensures finished { AllAreFinished }
{}

/// A reader pins no lower order than before, nor one below what it has learnt, and is answered in the order that it
/// pinned last.
pub fn readers_never_go_back()
    ensures pins { PinsNeverFall }
    ensures seen { PinsAreSeen }
    ensures answers { AnswersArePinned }
    ensures newest { NoneIsAboveNewest }
{}
