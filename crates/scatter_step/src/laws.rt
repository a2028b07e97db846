//! What is proved of completions as contracts see them.

ghost use Rattle.scatter_step.specs.Laws.{CompletedIsUnique, CompletionIsOne, TruncationCompletes};

/// Two completions of the same lines at one order are equal.
pub fn completions_are_unique()
    ensures completed { CompletedIsUnique }
    ensures diagrams { CompletionIsOne }
{}

/// A completion cut to a lower order is the completion of that order.
pub fn truncations_complete()
    ensures { TruncationCompletes }
{}
