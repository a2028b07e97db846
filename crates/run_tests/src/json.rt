// Runs that read and print JSON.

use crate::case::{Case, first_unmet};
use scatter_diagram::StopCause;
use scatter_json::JsonKind;
use scatter_run::Status;
use scatter_text::{LimitKind, TextKind};
use std::test::Fail;

// 1 + t1*x and 1 + t2*y on two lines.
const TWO_LINES: &str =
    r#"{"scatter":1,"vars":2,"lines":[{"at":["0","0"],"dir":[1,0],"terms":[["1",1,[1,0]]]},{"at":["0","0"],"dir":[0,1],"terms":[["1",1,[0,1]]]}]}"#;

const MANY_LINES: &str = r#"{"scatter":1,"vars":2,"lines":[
{"at":["0","0"],"dir":[1,0],"terms":[["1",1,[1,0]]]},
{"at":["0","0"],"dir":[1,0],"terms":[["1",1,[1,0]]]},
{"at":["0","0"],"dir":[1,0],"terms":[["1",1,[1,0]]]},
{"at":["0","0"],"dir":[1,0],"terms":[["1",1,[1,0]]]},
{"at":["0","0"],"dir":[1,0],"terms":[["1",1,[1,0]]]},
{"at":["0","0"],"dir":[1,0],"terms":[["1",1,[1,0]]]},
{"at":["0","0"],"dir":[1,0],"terms":[["1",1,[1,0]]]},
{"at":["0","0"],"dir":[1,0],"terms":[["1",1,[1,0]]]},
{"at":["0","0"],"dir":[1,0],"terms":[["1",1,[1,0]]]},
{"at":["0","0"],"dir":[1,0],"terms":[["1",1,[1,0]]]},
{"at":["0","0"],"dir":[1,0],"terms":[["1",1,[1,0]]]},
{"at":["0","0"],"dir":[1,0],"terms":[["1",1,[1,0]]]},
{"at":["0","0"],"dir":[1,0],"terms":[["1",1,[1,0]]]},
{"at":["0","0"],"dir":[1,0],"terms":[["1",1,[1,0]]]},
{"at":["0","0"],"dir":[1,0],"terms":[["1",1,[1,0]]]},
{"at":["0","0"],"dir":[1,0],"terms":[["1",1,[1,0]]]},
{"at":["0","0"],"dir":[1,0],"terms":[["1",1,[1,0]]]}
]}"#;

const COMPLETIONS: [Case; 6] = [
    Case {
        meaning: "two lines",
        words: "complete-json 2 1",
        input: TWO_LINES,
        status: Status::Done,
        output: r#"{"lines":[{"at":["0","0"],"dir":[1,0],"terms":[["1",1,[1,0]]]},{"at":["0","0"],"dir":[0,1],"terms":[["1",1,[0,1]]]}],"order":2,"rays":[{"at":["0","0"],"dir":[1,1],"terms":[["1",1,[1,1]]]}],"scatter":1,"vars":2}
"#,
    },
    Case {
        meaning: "two lines by 16 workers",
        words: "complete-json 1 16",
        input: TWO_LINES,
        status: Status::Done,
        output: r#"{"lines":[{"at":["0","0"],"dir":[1,0],"terms":[["1",1,[1,0]]]},{"at":["0","0"],"dir":[0,1],"terms":[["1",1,[0,1]]]}],"order":1,"rays":[],"scatter":1,"vars":2}
"#,
    },
    Case {
        meaning: "keys in another order, and spaces",
        words: "complete-json 0 1",
        input: r#"{
  "vars": 2,
  "lines": [
    {"terms": [["1", 1, [1, 0]]], "at": ["0", "0"], "dir": [1, 0]},
    {"dir": [0, 1], "at": ["0", "0"], "terms": [["1", 1, [0, 1]]]}
  ],
  "scatter": 1
}
"#,
        status: Status::Done,
        output: r#"{"lines":[{"at":["0","0"],"dir":[1,0],"terms":[]},{"at":["0","0"],"dir":[0,1],"terms":[]}],"order":0,"rays":[],"scatter":1,"vars":2}
"#,
    },
    Case {
        meaning: "terms out of order",
        words: "complete-json 2 1",
        input: r#"{"scatter":1,"vars":2,"lines":[{"at":["0","0"],"dir":[1,0],"terms":[["1",1,[1,0]],["1",1,[0,1]]]},{"at":["0","0"],"dir":[0,1],"terms":[["1",1,[1,0]],["-1",1,[0,1]]]}]}"#,
        status: Status::Done,
        output: r#"{"lines":[{"at":["0","0"],"dir":[1,0],"terms":[["1",1,[0,1]],["1",1,[1,0]]]},{"at":["0","0"],"dir":[0,1],"terms":[["-1",1,[0,1]],["1",1,[1,0]]]}],"order":2,"rays":[{"at":["0","0"],"dir":[1,1],"terms":[["-1",1,[0,2]],["1",1,[2,0]]]}],"scatter":1,"vars":2}
"#,
    },
    Case {
        meaning: "the lines that were printed, completed again",
        words: "complete-json 2 1",
        input: r#"{"scatter":1,"vars":2,"lines":[{"at":["0","0"],"dir":[1,0],"terms":[["1",1,[0,1]],["1",1,[1,0]]]},{"at":["0","0"],"dir":[0,1],"terms":[["-1",1,[0,1]],["1",1,[1,0]]]}]}"#,
        status: Status::Done,
        output: r#"{"lines":[{"at":["0","0"],"dir":[1,0],"terms":[["1",1,[0,1]],["1",1,[1,0]]]},{"at":["0","0"],"dir":[0,1],"terms":[["-1",1,[0,1]],["1",1,[1,0]]]}],"order":2,"rays":[{"at":["0","0"],"dir":[1,1],"terms":[["-1",1,[0,2]],["1",1,[2,0]]]}],"scatter":1,"vars":2}
"#,
    },
    Case {
        meaning: "a point too large",
        words: "complete-json 4 1",
        input: r#"{"scatter":1,"vars":2,"lines":[{"at":["0","1099511627776"],"dir":[1,0],"terms":[["1",1,[1,0]]]},{"at":["0","0"],"dir":[2,1],"terms":[["1",1,[0,1]]]}]}"#,
        status: Status::Stopped {
            order: 2,
            cause: StopCause::PointTooLarge,
        },
        output: r#"{"lines":[{"at":["0","1099511627776"],"dir":[1,0],"terms":[["1",1,[1,0]]]},{"at":["0","0"],"dir":[2,1],"terms":[["1",1,[0,1]]]}],"order":1,"rays":[],"scatter":1,"stopped":[2,"points"],"vars":2}
"#,
    },
];

const REFUSALS: [Case; 11] = [
    Case {
        meaning: "a text cut short",
        words: "complete-json 2 1",
        input: "{",
        status: Status::Json {
            kind: JsonKind::Syntax,
        },
        output: "fault json syntax\n",
    },
    Case {
        meaning: "no text",
        words: "complete-json 2 1",
        input: "",
        status: Status::Json {
            kind: JsonKind::Syntax,
        },
        output: "fault json syntax\n",
    },
    Case {
        meaning: "lines that are no JSON",
        words: "complete-json 2 1",
        input: "scatter 1\nvars 2\nend\n",
        status: Status::Json {
            kind: JsonKind::Syntax,
        },
        output: "fault json syntax\n",
    },
    Case {
        meaning: "an array",
        words: "complete-json 2 1",
        input: "[]",
        status: Status::Json {
            kind: JsonKind::Shape,
        },
        output: "fault json shape\n",
    },
    Case {
        meaning: "variables that are no whole number",
        words: "complete-json 2 1",
        input: r#"{"scatter":1,"vars":2.0,"lines":[{"at":["0","0"],"dir":[1,0],"terms":[["1",1,[1,0]]]},{"at":["0","0"],"dir":[0,1],"terms":[["1",1,[0,1]]]}]}"#,
        status: Status::Json {
            kind: JsonKind::Shape,
        },
        output: "fault json shape\n",
    },
    Case {
        meaning: "a direction that is not primitive",
        words: "complete-json 2 1",
        input: r#"{"scatter":1,"vars":2,"lines":[{"at":["0","0"],"dir":[2,2],"terms":[["1",1,[1,0]]]},{"at":["0","0"],"dir":[0,1],"terms":[["1",1,[0,1]]]}]}"#,
        status: Status::Json {
            kind: JsonKind::Shape,
        },
        output: "fault json shape\n",
    },
    Case {
        meaning: "a completion",
        words: "complete-json 2 1",
        input: r#"{"lines":[],"order":2,"rays":[],"scatter":1,"vars":2}"#,
        status: Status::Json {
            kind: JsonKind::Shape,
        },
        output: "fault json shape\n",
    },
    Case {
        meaning: "17 lines",
        words: "complete-json 2 1",
        input: MANY_LINES,
        status: Status::Limit {
            which: LimitKind::Lines,
        },
        output: "fault limit lines\n",
    },
    Case {
        meaning: "JSON for the text form",
        words: "complete 2 1",
        input: TWO_LINES,
        status: Status::Text {
            line: 1,
            kind: TextKind::Unfinished,
        },
        output: "fault text 1 unfinished\n",
    },
    Case {
        meaning: "an order above 24",
        words: "complete-json 25 1",
        input: TWO_LINES,
        status: Status::Words,
        output: "fault words\n",
    },
    Case {
        meaning: "no workers",
        words: "complete-json 2 0",
        input: TWO_LINES,
        status: Status::Words,
        output: "fault words\n",
    },
];

#[test]
fn completions_are_printed_in_json(rt: HostRuntime) -> Result<(), Fail> {
    let unmet = first_unmet(&rt, rt.alloc(), &COMPLETIONS)?;
    assert_eq!(rt; unmet, None);
    Ok(())
}

#[test]
fn bad_json_is_refused(rt: HostRuntime) -> Result<(), Fail> {
    let unmet = first_unmet(&rt, rt.alloc(), &REFUSALS)?;
    assert_eq!(rt; unmet, None);
    Ok(())
}
