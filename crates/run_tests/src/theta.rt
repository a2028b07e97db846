// Runs that answer asks.

use crate::case::{Case, first_unmet};
use scatter_diagram::StopCause;
use scatter_run::Status;
use scatter_text::{LimitKind, TextKind};
use std::test::Fail;

const ANSWERS: [Case; 7] = [
    Case {
        meaning: "a theta function of three broken lines, in a text that is settled",
        words: "theta 2 1",
        input: "scatter 1
vars 2
line 1 0 at 0 0
term 1 1 1 0
line 0 1 at 0 0
term 1 1 0 1
ask 1 theta -1 -1 at 2 1
settle
end
",
        status: Status::Done,
        output: "answers 1
published 2
answer 1 order 2 series
term 1 -1 -1 0 0
term 1 -1 0 0 1
term 1 0 -1 1 0
end
",
    },
    Case {
        meaning: "a product",
        words: "theta 2 1",
        input: "scatter 1
vars 2
line 1 0 at 0 0
term 1 1 1 0
line 0 1 at 0 0
term 1 1 0 1
ask 1 product -1 0 0 -1 at 2 1
end
",
        status: Status::Done,
        output: "answers 1
published 2
answer 1 order 2 product
theta -1 -1
term 1 0 0
theta 0 0
term 1 1 1
end
",
    },
    Case {
        meaning: "asks of 16 workers in their order",
        words: "theta 2 16",
        input: "scatter 1
vars 2
line 1 0 at 0 0
term 1 1 1 0
line 0 1 at 0 0
term 1 1 0 1
ask 1 theta -1 -1 at 1 1
ask 1 theta -1 -1 at 0 5
ask 1 theta -1 -1 at 2 1 order 3
ask 1 theta 0 0 at 2 1 order 2
ask 1 product -1 0 0 -1 at 2 1
end
",
        status: Status::Done,
        output: "answers 1
published 2
answer 1 order 2 fault not-generic 0 0
answer 2 order 2 fault not-generic 0 5
answer 3 order 2 fault not-yet 2
answer 4 order 2 series
term 1 0 0 0 0
answer 5 order 2 product
theta -1 -1
term 1 0 0
theta 0 0
term 1 1 1
end
",
    },
    Case {
        meaning: "no asks",
        words: "theta 2 1",
        input: "scatter 1
vars 2
line 1 0 at 0 0
term 1 1 1 0
line 0 1 at 0 0
term 1 1 0 1
end
",
        status: Status::Done,
        output: "answers 1
published 2
end
",
    },
    Case {
        meaning: "a point that leaves the plane",
        words: "theta 1 1",
        input: "scatter 1
vars 1
line 1 0 at 0 0
term 1 1 1
ask 1 theta 1 -1 at 1099511627776 1
end
",
        status: Status::Done,
        output: "answers 1
published 1
answer 1 order 1 fault point-too-large
end
",
    },
    Case {
        meaning: "powers no further than a line can use them",
        words: "theta 3 1",
        input: "scatter 1
vars 2
line 0 1 at 0 0
term 1 64 0 1
line 64 1 at 9 0
term 2147483647 1 1 0
ask 1 theta 0 1 at 5 -3 order 3
end
",
        status: Status::Done,
        output: "answers 1
published 3
answer 1 order 3 series
term 1 0 1 0 0
term 137438953408 64 2 1 0
term 9297159004490959947744 128 3 2 0
term 412620269797864811640319100542272 192 4 3 0
end
",
    },
    Case {
        meaning: "a stopped order",
        words: "theta 4 1",
        input: "scatter 1
vars 2
line 1 0 at 0 1099511627776
term 1 1 1 0
line 2 1 at 0 0
term 1 1 0 1
ask 1 theta 0 0 at 1 1
ask 1 theta 0 0 at 1 1 order 2
end
",
        status: Status::Stopped {
            order: 2,
            cause: StopCause::PointTooLarge,
        },
        output: "answers 1
published 1
stopped 2 points
answer 1 order 1 series
term 1 0 0 0 0
answer 2 order 1 fault not-yet 1
end
",
    },
];

const REFUSALS: [Case; 9] = [
    Case {
        meaning: "a second reader",
        words: "theta 2 1",
        input: "scatter 1
vars 2
line 1 0 at 0 0
term 1 1 1 0
line 0 1 at 0 0
term 1 1 0 1
ask 2 theta 0 0 at 2 1
end
",
        status: Status::Limit {
            which: LimitKind::Reader,
        },
        output: "fault limit reader
",
    },
    Case {
        meaning: "an order above 24 in an ask",
        words: "theta 2 1",
        input: "scatter 1
vars 2
line 1 0 at 0 0
term 1 1 1 0
line 0 1 at 0 0
term 1 1 0 1
ask 1 theta 0 0 at 2 1 order 25
end
",
        status: Status::Limit {
            which: LimitKind::Least,
        },
        output: "fault limit least
",
    },
    Case {
        meaning: "a point too far away",
        words: "theta 2 1",
        input: "scatter 1
vars 2
line 1 0 at 0 0
term 1 1 1 0
line 0 1 at 0 0
term 1 1 0 1
ask 1 theta 0 0 at 1099511627777 1
end
",
        status: Status::Limit {
            which: LimitKind::Place,
        },
        output: "fault limit point
",
    },
    Case {
        meaning: "an exponent above 64",
        words: "theta 2 1",
        input: "scatter 1
vars 2
line 1 0 at 0 0
term 1 1 1 0
line 0 1 at 0 0
term 1 1 0 1
ask 1 theta 65 0 at 2 1
end
",
        status: Status::Limit {
            which: LimitKind::AskExponent,
        },
        output: "fault limit ask-exponent
",
    },
    Case {
        meaning: "settled twice",
        words: "theta 2 1",
        input: "scatter 1
vars 2
line 1 0 at 0 0
term 1 1 1 0
line 0 1 at 0 0
term 1 1 0 1
settle
settle
end
",
        status: Status::Text {
            line: 8,
            kind: TextKind::Value,
        },
        output: "fault text 8 value
",
    },
    Case {
        meaning: "an ask of too few words",
        words: "theta 2 1",
        input: "scatter 1
vars 2
line 1 0 at 0 0
term 1 1 1 0
line 0 1 at 0 0
term 1 1 0 1
ask 1
end
",
        status: Status::Text {
            line: 7,
            kind: TextKind::Count,
        },
        output: "fault text 7 count
",
    },
    Case {
        meaning: "an ask where lines alone are completed",
        words: "complete 2 1",
        input: "scatter 1
vars 2
line 1 0 at 0 0
term 1 1 1 0
line 0 1 at 0 0
term 1 1 0 1
ask 1 theta 0 0 at 2 1
end
",
        status: Status::Text {
            line: 7,
            kind: TextKind::Word,
        },
        output: "fault text 7 word
",
    },
    Case {
        meaning: "no workers",
        words: "theta 2 0",
        input: "scatter 1
vars 2
line 1 0 at 0 0
term 1 1 1 0
line 0 1 at 0 0
term 1 1 0 1
end
",
        status: Status::Words,
        output: "fault words
",
    },
    Case {
        meaning: "an order above 24",
        words: "theta 25 1",
        input: "scatter 1
vars 2
line 1 0 at 0 0
term 1 1 1 0
line 0 1 at 0 0
term 1 1 0 1
end
",
        status: Status::Words,
        output: "fault words
",
    },
];

#[test]
fn asks_are_answered(rt: HostRuntime) -> Result<(), Fail> {
    let unmet = first_unmet(&rt, rt.alloc(), &ANSWERS)?;
    assert_eq!(rt; unmet, None);
    Ok(())
}

#[test]
fn bad_asks_are_refused(rt: HostRuntime) -> Result<(), Fail> {
    let unmet = first_unmet(&rt, rt.alloc(), &REFUSALS)?;
    assert_eq!(rt; unmet, None);
    Ok(())
}
