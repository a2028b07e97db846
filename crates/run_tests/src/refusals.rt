// Runs that are refused: by their words, by the text of their input, or by a limit.

use crate::case::{Case, first_unmet};
use crate::inputs::TWO_LINES;
use scatter_run::Status;
use scatter_text::{LimitKind, TextKind};
use std::test::Fail;

const WORDS: [Case; 15] = [
    Case {
        meaning: "an order above 24",
        words: "complete 25 1",
        input: TWO_LINES,
        status: Status::Words,
        output: "fault words\n",
    },
    Case {
        meaning: "more than 16 workers",
        words: "complete 4 17",
        input: TWO_LINES,
        status: Status::Words,
        output: "fault words\n",
    },
    Case {
        meaning: "a zero in front",
        words: "complete 04 1",
        input: TWO_LINES,
        status: Status::Words,
        output: "fault words\n",
    },
    Case {
        meaning: "a word missing",
        words: "complete 4",
        input: TWO_LINES,
        status: Status::Words,
        output: "fault words\n",
    },
    Case {
        meaning: "another job",
        words: "session 4 1 9",
        input: TWO_LINES,
        status: Status::Words,
        output: "fault words\n",
    },
    Case {
        meaning: "a flag",
        words: "-h",
        input: TWO_LINES,
        status: Status::Words,
        output: "fault words\n",
    },
    Case {
        meaning: "no words",
        words: "",
        input: TWO_LINES,
        status: Status::Words,
        output: "fault words\n",
    },
    Case {
        meaning: "a word more",
        words: "complete 4 1 1",
        input: TWO_LINES,
        status: Status::Words,
        output: "fault words\n",
    },
    Case {
        meaning: "no worker",
        words: "complete 4 0",
        input: TWO_LINES,
        status: Status::Words,
        output: "fault words\n",
    },
    Case {
        meaning: "the number 0",
        words: "generate 0",
        input: TWO_LINES,
        status: Status::Words,
        output: "fault words\n",
    },
    Case {
        meaning: "a number above 1000000",
        words: "generate 1000001",
        input: TWO_LINES,
        status: Status::Words,
        output: "fault words\n",
    },
    Case {
        meaning: "a number with a zero in front",
        words: "generate 07",
        input: TWO_LINES,
        status: Status::Words,
        output: "fault words\n",
    },
    Case {
        meaning: "a number with a sign",
        words: "generate +7",
        input: TWO_LINES,
        status: Status::Words,
        output: "fault words\n",
    },
    Case {
        meaning: "no number",
        words: "generate",
        input: TWO_LINES,
        status: Status::Words,
        output: "fault words\n",
    },
    Case {
        meaning: "a second number",
        words: "generate 1 2",
        input: TWO_LINES,
        status: Status::Words,
        output: "fault words\n",
    },
];

#[test]
fn bad_words_are_refused(rt: HostRuntime) -> Result<(), Fail> {
    let unmet = first_unmet(&rt, rt.alloc(), &WORDS)?;
    assert_eq!(rt; unmet, None);
    Ok(())
}

const TEXTS: [Case; 8] = [
    Case {
        meaning: "a direction that is a multiple",
        words: "complete 2 1",
        input: "scatter 1\nvars 2\nline 2 2 at 0 0\n",
        status: Status::Text {
            line: 3,
            kind: TextKind::Value,
        },
        output: "fault text 3 value\n",
    },
    Case {
        meaning: "one term twice",
        words: "complete 2 1",
        input: "scatter 1
vars 1
line 1 0 at 0 0
term 1 1 1
term 5 1 1
",
        status: Status::Text {
            line: 5,
            kind: TextKind::Value,
        },
        output: "fault text 5 value\n",
    },
    Case {
        meaning: "a term without a variable",
        words: "complete 2 1",
        input: "scatter 1
vars 1
line 1 0 at 0 0
term 1 1 0
",
        status: Status::Text {
            line: 4,
            kind: TextKind::Value,
        },
        output: "fault text 4 value\n",
    },
    Case {
        meaning: "no end",
        words: "complete 2 1",
        input: "scatter 1\nvars 1\n",
        status: Status::Text {
            line: 3,
            kind: TextKind::Missing,
        },
        output: "fault text 3 missing\n",
    },
    Case {
        meaning: "a carriage return",
        words: "complete 2 1",
        input: "scatter 1\r\nvars 1\nend\n",
        status: Status::Text {
            line: 1,
            kind: TextKind::Byte,
        },
        output: "fault text 1 byte\n",
    },
    Case {
        meaning: "an empty input",
        words: "complete 2 1",
        input: "",
        status: Status::Text {
            line: 1,
            kind: TextKind::Missing,
        },
        output: "fault text 1 missing\n",
    },
    Case {
        meaning: "a last line without its line feed",
        words: "complete 2 1",
        input: "scatter 1\nvars 1\nend",
        status: Status::Text {
            line: 3,
            kind: TextKind::Unfinished,
        },
        output: "fault text 3 unfinished\n",
    },
    Case {
        meaning: "a limit that is passed before a bad line",
        words: "complete 2 1",
        input: "scatter 1\nvars 9\nline 2 2 at 0 0\nend\n",
        status: Status::Text {
            line: 3,
            kind: TextKind::Value,
        },
        output: "fault text 3 value\n",
    },
];

#[test]
fn bad_texts_are_refused(rt: HostRuntime) -> Result<(), Fail> {
    let unmet = first_unmet(&rt, rt.alloc(), &TEXTS)?;
    assert_eq!(rt; unmet, None);
    Ok(())
}

const LIMITS: [Case; 13] = [
    Case {
        meaning: "nine variables",
        words: "complete 2 1",
        input: "scatter 1\nvars 9\nend\n",
        status: Status::Limit {
            which: LimitKind::Vars,
        },
        output: "fault limit vars\n",
    },
    Case {
        meaning: "too many monomials",
        words: "complete 13 1",
        input: "scatter 1\nvars 8\nend\n",
        status: Status::Limit {
            which: LimitKind::Size,
        },
        output: "fault limit size\n",
    },
    Case {
        meaning: "the most monomials",
        words: "complete 12 1",
        input: "scatter 1\nvars 8\nend\n",
        status: Status::Done,
        output: "scatter 1
vars 8
order 12
end
",
    },
    Case {
        meaning: "17 lines",
        words: "complete 2 1",
        input: "scatter 1
vars 1
line 1 0 at 0 0
line 1 0 at 0 1
line 1 0 at 0 2
line 1 0 at 0 3
line 1 0 at 0 4
line 1 0 at 0 5
line 1 0 at 0 6
line 1 0 at 0 7
line 1 0 at 0 8
line 1 0 at 0 9
line 1 0 at 0 10
line 1 0 at 0 11
line 1 0 at 0 12
line 1 0 at 0 13
line 1 0 at 0 14
line 1 0 at 0 15
line 1 0 at 0 16
end
",
        status: Status::Limit {
            which: LimitKind::Lines,
        },
        output: "fault limit lines\n",
    },
    Case {
        meaning: "65 terms on a line",
        words: "complete 2 1",
        input: "scatter 1
vars 1
line 1 0 at 0 0
term 1 1 1
term 1 1 2
term 1 1 3
term 1 1 4
term 1 1 5
term 1 1 6
term 1 1 7
term 1 1 8
term 1 1 9
term 1 1 10
term 1 1 11
term 1 1 12
term 1 1 13
term 1 1 14
term 1 1 15
term 1 1 16
term 1 1 17
term 1 1 18
term 1 1 19
term 1 1 20
term 1 1 21
term 1 1 22
term 1 1 23
term 1 1 24
term 1 1 25
term 1 1 26
term 1 1 27
term 1 1 28
term 1 1 29
term 1 1 30
term 1 1 31
term 1 1 32
term 1 1 33
term 1 1 34
term 1 1 35
term 1 1 36
term 1 1 37
term 1 1 38
term 1 1 39
term 1 1 40
term 1 1 41
term 1 1 42
term 1 1 43
term 1 1 44
term 1 1 45
term 1 1 46
term 1 1 47
term 1 1 48
term 1 1 49
term 1 1 50
term 1 1 51
term 1 1 52
term 1 1 53
term 1 1 54
term 1 1 55
term 1 1 56
term 1 1 57
term 1 1 58
term 1 1 59
term 1 1 60
term 1 1 61
term 1 1 62
term 1 1 63
term 1 1 64
term 1 1 65
end
",
        status: Status::Limit {
            which: LimitKind::Terms,
        },
        output: "fault limit terms\n",
    },
    Case {
        meaning: "a coefficient of -2^31",
        words: "complete 2 1",
        input: "scatter 1
vars 1
line 1 0 at 0 0
term -2147483648 1 1
end
",
        status: Status::Limit {
            which: LimitKind::Coefficient,
        },
        output: "fault limit coefficient\n",
    },
    Case {
        meaning: "an exponent of 65",
        words: "complete 2 1",
        input: "scatter 1
vars 1
line 13 1 at 0 0
term 1 5 1
end
",
        status: Status::Limit {
            which: LimitKind::Exponent,
        },
        output: "fault limit exponent\n",
    },
    Case {
        meaning: "a direction of 65",
        words: "complete 2 1",
        input: "scatter 1
vars 1
line 1 -65 at 0 0
end
",
        status: Status::Limit {
            which: LimitKind::Exponent,
        },
        output: "fault limit exponent\n",
    },
    Case {
        meaning: "a power of 256",
        words: "complete 2 1",
        input: "scatter 1
vars 1
line 1 0 at 0 0
term 1 1 256
end
",
        status: Status::Limit {
            which: LimitKind::Power,
        },
        output: "fault limit power\n",
    },
    Case {
        meaning: "a point above 2^40",
        words: "complete 2 1",
        input: "scatter 1
vars 1
line 1 0 at 1099511627777 0
end
",
        status: Status::Limit {
            which: LimitKind::Place,
        },
        output: "fault limit point\n",
    },
    Case {
        meaning: "a common denominator above 2^40",
        words: "complete 2 1",
        input: "scatter 1
vars 1
line 1 0 at 1/1048577 1/1048576
end
",
        status: Status::Limit {
            which: LimitKind::Place,
        },
        output: "fault limit point\n",
    },
    Case {
        meaning: "two limits, of which the coefficient stands later in the text",
        words: "complete 2 1",
        input: "scatter 1
vars 1
line 65 1 at 0 0
term 2147483648 1 1
end
",
        status: Status::Limit {
            which: LimitKind::Coefficient,
        },
        output: "fault limit coefficient\n",
    },
    Case {
        meaning: "the largest coefficient, exponent, power and point",
        words: "complete 1 1",
        input: "scatter 1
vars 2
line 64 1 at 1099511627776 0
term 2147483647 1 1 0
term 1 1 255 0
end
",
        status: Status::Done,
        output: "scatter 1
vars 2
order 1
line 64 1 at 1099511627776 0
term 2147483647 1 1 0
end
",
    },
];

#[test]
fn large_inputs_are_refused(rt: HostRuntime) -> Result<(), Fail> {
    let unmet = first_unmet(&rt, rt.alloc(), &LIMITS)?;
    assert_eq!(rt; unmet, None);
    Ok(())
}
