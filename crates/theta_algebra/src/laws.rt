// What is one: the answer to a query.
ghost use Rattle.theta_algebra.specs.Laws.{AnswerIsOne};

/// A query has one answer in a diagram, but for want of memory: one series, one family, or one fault.
pub fn one_answer()
    ensures { AnswerIsOne }
{}
