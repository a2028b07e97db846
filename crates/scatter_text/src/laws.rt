// What is one: the walls of a file's lines, and the text of a diagram, and that of answers.
ghost use Rattle.scatter_text.specs.Laws.{WallsAreOne, DiagramTextIsOne, AnswersTextIsOne};

/// The lines of a file stand for one list of walls, and a diagram has one text, and so have answers.
pub fn one_text()
    ensures walls { WallsAreOne }
    ensures text { DiagramTextIsOne }
    ensures answers { AnswersTextIsOne }
{}
