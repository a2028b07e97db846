// Runs that complete their lines, to the order that is asked or the last before a stop.

use crate::case::{Case, first_unmet};
use crate::inputs::{ONE_AND_TWO, THREE_LINES, TWO_LINES, TWO_LINES_AT_1};
use scatter_diagram::StopCause;
use scatter_run::Status;
use std::test::Fail;

// (1 + t1*x)^2 and (1 + t2*y)^2.
const TWO_AND_TWO: &str = "scatter 1
vars 2
line 1 0 at 0 0
term 2 1 1 0
term 1 2 2 0
line 0 1 at 0 0
term 2 1 0 1
term 1 2 0 2
end
";

// (1 + t1*x)^3 and (1 + t2*y)^3.
const CUBES: &str = "scatter 1
vars 2
line 1 0 at 0 0
term 3 1 1 0
term 3 2 2 0
term 1 3 3 0
line 0 1 at 0 0
term 3 1 0 1
term 3 2 0 2
term 1 3 0 3
end
";

const CUBES_AT_4: &str = "scatter 1
vars 2
order 4
line 1 0 at 0 0
term 3 1 1 0
term 3 2 2 0
term 1 3 3 0
line 0 1 at 0 0
term 3 1 0 1
term 3 2 0 2
term 1 3 0 3
ray 1 1 at 0 0
term 9 1 1 1
term 72 2 2 2
ray 1 2 at 0 0
term 9 1 1 2
ray 1 3 at 0 0
term 3 1 1 3
ray 2 1 at 0 0
term 9 1 2 1
ray 3 1 at 0 0
term 3 1 3 1
end
";

// The ray (1, 1) begins with the coefficients of u, u^2 and u^3 in (1 + u + 4*u^2 + 22*u^3)^9.
const CUBES_AT_12: &str = "scatter 1
vars 2
order 12
line 1 0 at 0 0
term 3 1 1 0
term 3 2 2 0
term 1 3 3 0
line 0 1 at 0 0
term 3 1 0 1
term 3 2 0 2
term 1 3 0 3
ray 1 1 at 0 0
term 9 1 1 1
term 72 2 2 2
term 570 3 3 3
term 4554 4 4 4
term 36855 5 5 5
term 302064 6 6 6
ray 1 2 at 0 0
term 9 1 1 2
term 72 2 2 4
term 570 3 3 6
term 4554 4 4 8
ray 1 3 at 0 0
term 3 1 1 3
term 3 2 2 6
term 1 3 3 9
ray 2 1 at 0 0
term 9 1 2 1
term 72 2 4 2
term 570 3 6 3
term 4554 4 8 4
ray 2 3 at 0 0
term 39 1 2 3
term 3609 2 4 6
ray 2 5 at 0 0
term 9 1 2 5
ray 3 1 at 0 0
term 3 1 3 1
term 3 2 6 2
term 1 3 9 3
ray 3 2 at 0 0
term 39 1 3 2
term 3609 2 6 4
ray 3 4 at 0 0
term 204 1 3 4
ray 3 5 at 0 0
term 204 1 3 5
ray 3 7 at 0 0
term 39 1 3 7
ray 3 8 at 0 0
term 3 1 3 8
ray 4 3 at 0 0
term 204 1 4 3
ray 4 5 at 0 0
term 1197 1 4 5
ray 4 7 at 0 0
term 1197 1 4 7
ray 5 2 at 0 0
term 9 1 5 2
ray 5 3 at 0 0
term 204 1 5 3
ray 5 4 at 0 0
term 1197 1 5 4
ray 5 6 at 0 0
term 7590 1 5 6
ray 5 7 at 0 0
term 12726 1 5 7
ray 6 5 at 0 0
term 7590 1 6 5
ray 7 3 at 0 0
term 39 1 7 3
ray 7 4 at 0 0
term 1197 1 7 4
ray 7 5 at 0 0
term 12726 1 7 5
ray 8 3 at 0 0
term 3 1 8 3
end
";

const COMPLETIONS: [Case; 21] = [
    Case {
        meaning: "no lines",
        words: "complete 3 1",
        input: "scatter 1\nvars 1\nend\n",
        status: Status::Done,
        output: "scatter 1
vars 1
order 3
end
",
    },
    Case {
        meaning: "two lines at order 0",
        words: "complete 0 1",
        input: TWO_LINES,
        status: Status::Done,
        output: "scatter 1
vars 2
order 0
line 1 0 at 0 0
line 0 1 at 0 0
end
",
    },
    Case {
        meaning: "two lines at order 1",
        words: "complete 1 1",
        input: TWO_LINES,
        status: Status::Done,
        output: TWO_LINES_AT_1,
    },
    Case {
        meaning: "two lines at order 2",
        words: "complete 2 1",
        input: TWO_LINES,
        status: Status::Done,
        output: "scatter 1
vars 2
order 2
line 1 0 at 0 0
term 1 1 1 0
line 0 1 at 0 0
term 1 1 0 1
ray 1 1 at 0 0
term 1 1 1 1
end
",
    },
    Case {
        meaning: "two lines at order 24",
        words: "complete 24 1",
        input: TWO_LINES,
        status: Status::Done,
        output: "scatter 1
vars 2
order 24
line 1 0 at 0 0
term 1 1 1 0
line 0 1 at 0 0
term 1 1 0 1
ray 1 1 at 0 0
term 1 1 1 1
end
",
    },
    Case {
        meaning: "one factor and a square",
        words: "complete 4 2",
        input: ONE_AND_TWO,
        status: Status::Done,
        output: "scatter 1
vars 2
order 4
line 1 0 at 0 0
term 1 1 1 0
line 0 1 at 0 0
term 2 1 0 1
term 1 2 0 2
ray 1 1 at 0 0
term 2 1 1 1
term 1 2 2 2
ray 1 2 at 0 0
term 1 1 1 2
end
",
    },
    Case {
        meaning: "two squares",
        words: "complete 4 2",
        input: TWO_AND_TWO,
        status: Status::Done,
        output: "scatter 1
vars 2
order 4
line 1 0 at 0 0
term 2 1 1 0
term 1 2 2 0
line 0 1 at 0 0
term 2 1 0 1
term 1 2 0 2
ray 1 1 at 0 0
term 4 1 1 1
term 10 2 2 2
ray 1 2 at 0 0
term 2 1 1 2
ray 2 1 at 0 0
term 2 1 2 1
end
",
    },
    Case {
        meaning: "two squares at order 2",
        words: "complete 2 1",
        input: TWO_AND_TWO,
        status: Status::Done,
        output: "scatter 1
vars 2
order 2
line 1 0 at 0 0
term 2 1 1 0
term 1 2 2 0
line 0 1 at 0 0
term 2 1 0 1
term 1 2 0 2
ray 1 1 at 0 0
term 4 1 1 1
end
",
    },
    Case {
        meaning: "two lines of determinant 2",
        words: "complete 2 1",
        input: "scatter 1
vars 2
line 1 0 at 0 0
term 1 1 1 0
line 1 2 at 0 0
term 1 1 0 1
end
",
        status: Status::Done,
        output: "scatter 1
vars 2
order 2
line 1 0 at 0 0
term 1 1 1 0
line 1 2 at 0 0
term 1 1 0 1
ray 1 1 at 0 0
term 4 2 1 1
end
",
    },
    Case {
        meaning: "three lines with three meetings",
        words: "complete 3 1",
        input: THREE_LINES,
        status: Status::Done,
        output: "scatter 1
vars 3
order 3
line 1 0 at 0 0
term 1 1 1 0 0
line 0 1 at 0 0
term 1 1 0 1 0
line 1 0 at 0 1
term 1 1 0 0 1
ray 2 1 at -1 0
term 1 1 1 1 1
ray 1 1 at 0 0
term 1 1 1 1 0
ray 1 1 at 0 1
term 1 1 0 1 1
end
",
    },
    Case {
        meaning: "cubes with one worker",
        words: "complete 4 1",
        input: CUBES,
        status: Status::Done,
        output: CUBES_AT_4,
    },
    Case {
        meaning: "cubes with three workers",
        words: "complete 4 3",
        input: CUBES,
        status: Status::Done,
        output: CUBES_AT_4,
    },
    Case {
        meaning: "cubes with sixteen workers",
        words: "complete 4 16",
        input: CUBES,
        status: Status::Done,
        output: CUBES_AT_4,
    },
    Case {
        meaning: "cubes at order 12",
        words: "complete 12 4",
        input: CUBES,
        status: Status::Done,
        output: CUBES_AT_12,
    },
    Case {
        meaning: "parallel lines",
        words: "complete 6 1",
        input: "scatter 1
vars 2
line 1 0 at 0 0
term 1 1 1 0
line 1 0 at 0 3
term 1 1 0 1
end
",
        status: Status::Done,
        output: "scatter 1
vars 2
order 6
line 1 0 at 0 0
term 1 1 1 0
line 1 0 at 0 3
term 1 1 0 1
end
",
    },
    Case {
        meaning: "opposite directions",
        words: "complete 6 1",
        input: "scatter 1
vars 2
line 1 0 at 0 0
term 1 1 1 0
line -1 0 at 5 0
term 1 1 0 1
end
",
        status: Status::Done,
        output: "scatter 1
vars 2
order 6
line 1 0 at 0 0
term 1 1 1 0
line -1 0 at 5 0
term 1 1 0 1
end
",
    },
    Case {
        meaning: "one line twice",
        words: "complete 2 1",
        input: "scatter 1
vars 2
line 1 0 at 0 0
term 1 1 1 0
line 1 0 at 0 0
term 1 1 0 1
end
",
        status: Status::Done,
        output: "scatter 1
vars 2
order 2
line 1 0 at 0 0
term 1 1 1 0
line 1 0 at 0 0
term 1 1 0 1
end
",
    },
    Case {
        meaning: "a coefficient -1",
        words: "complete 4 1",
        input: "scatter 1
vars 2
line 1 0 at 0 0
term -1 1 1 0
line 0 1 at 0 0
term 1 1 0 1
end
",
        status: Status::Done,
        output: "scatter 1
vars 2
order 4
line 1 0 at 0 0
term -1 1 1 0
line 0 1 at 0 0
term 1 1 0 1
ray 1 1 at 0 0
term -1 1 1 1
end
",
    },
    Case {
        meaning: "parts of degree 1 with signs",
        words: "complete 2 1",
        input: "scatter 1
vars 2
line 1 0 at 0 0
term 1 1 1 0
term 1 1 0 1
line 0 1 at 0 0
term 1 1 1 0
term -1 1 0 1
end
",
        status: Status::Done,
        output: "scatter 1
vars 2
order 2
line 1 0 at 0 0
term 1 1 0 1
term 1 1 1 0
line 0 1 at 0 0
term -1 1 0 1
term 1 1 1 0
ray 1 1 at 0 0
term -1 1 0 2
term 1 1 2 0
end
",
    },
    Case {
        meaning: "a point too large",
        words: "complete 4 1",
        input: "scatter 1
vars 2
line 1 0 at 0 1099511627776
term 1 1 1 0
line 2 1 at 0 0
term 1 1 0 1
end
",
        status: Status::Stopped {
            order: 2,
            cause: StopCause::PointTooLarge,
        },
        output: "scatter 1
vars 2
order 1
line 1 0 at 0 1099511627776
term 1 1 1 0
line 2 1 at 0 0
term 1 1 0 1
stopped 2 points
",
    },
    Case {
        meaning: "a weight too large",
        words: "complete 24 1",
        input: "scatter 1
vars 2
line 1 0 at 0 0
term 2147483647 1 1 0
line 0 1 at 0 0
term 2147483647 1 0 1
end
",
        status: Status::Stopped {
            order: 4,
            cause: StopCause::WeightTooLarge,
        },
        output: "scatter 1
vars 2
order 3
line 1 0 at 0 0
term 2147483647 1 1 0
line 0 1 at 0 0
term 2147483647 1 0 1
ray 1 1 at 0 0
term 4611686014132420609 1 1 1
stopped 4 weights
",
    },
];

#[test]
fn completions_are_printed(rt: HostRuntime) -> Result<(), Fail> {
    let unmet = first_unmet(&rt, rt.alloc(), &COMPLETIONS)?;
    assert_eq!(rt; unmet, None);
    Ok(())
}
