//! What is one: the outcome of words and bytes.
ghost use Rattle.scatter_run.specs.Laws.{OutcomeIsOne};

/// Words and bytes have one outcome: one status, and one text where the words name no session, for any number of
/// workers.
pub fn one_outcome()
    ensures { OutcomeIsOne }
{}
