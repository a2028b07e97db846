// Runs that answer asks while the orders are computed.

use crate::case::{Case, ends_with, first_unmet, sink_of, source_of};
use crate::gates::hold_until;
use crate::inputs::SESSION_OF_TWO_READERS;
use outside_io::{Gate, MemSink, OpenGate};
use scatter_diagram::StopCause;
use scatter_run::Status;
use scatter_text::LimitKind;
use std::alloc::{AllocError, Global};
use std::sync::Wait;
use std::sync::atomic::{AtomicBool, Ordering};
use std::test::Fail;
use std::thread::Threads;

// What these print doesn't hang on when a reader answers.
const ANSWERS: [Case; 5] = [
    Case {
        meaning: "order 0, which is published before anything is asked",
        words: "session 0 1 1",
        input: "scatter 1
vars 2
line 1 0 at 0 0
term 1 1 1 0
line 0 1 at 0 0
term 1 1 0 1
ask 1 theta 1 0 at 2 1
ask 1 theta 1 0 at 2 1 order 4
end
",
        status: Status::Done,
        output: "answers 1
published 0
answer 1 order 0 series
term 1 1 0 0 0
answer 2 order 0 fault not-yet 0
end
",
    },
    Case {
        meaning: "asks of three readers after the last order, in the order of the asks",
        words: "session 2 3 3",
        input: "scatter 1
vars 2
line 1 0 at 0 0
term 1 1 1 0
line 0 1 at 0 0
term 1 1 0 1
settle
ask 3 product -1 0 0 -1 at 2 1
ask 1 theta -1 -1 at 2 1 order 2
ask 2 theta -1 -1 at 1 1
ask 1 theta -1 -1 at 2 1 order 3
end
",
        status: Status::Done,
        output: "answers 1
published 2
answer 1 order 2 product
theta -1 -1
term 1 0 0
theta 0 0
term 1 1 1
answer 2 order 2 series
term 1 -1 -1 0 0
term 1 -1 0 0 1
term 1 0 -1 1 0
answer 3 order 2 fault not-generic 0 0
answer 4 order 2 fault not-yet 2
end
",
    },
    Case {
        meaning: "no asks, and eight readers",
        words: "session 2 16 8",
        input: "scatter 1
vars 2
line 1 0 at 0 0
term 1 1 1 0
line 0 1 at 0 0
term 1 1 0 1
settle
end
",
        status: Status::Done,
        output: "answers 1
published 2
end
",
    },
    Case {
        meaning: "a stopped order",
        words: "session 4 2 1",
        input: "scatter 1
vars 2
line 1 0 at 0 1099511627776
term 1 1 1 0
line 2 1 at 0 0
term 1 1 0 1
settle
ask 1 theta 0 0 at 1/3 1/5
end
",
        status: Status::Stopped {
            order: 2,
            cause: StopCause::PointTooLarge,
        },
        output: "answers 1
published 1
stopped 2 points
answer 1 order 1 series
term 1 0 0 0 0
end
",
    },
    Case {
        meaning: "a reader above the number of readers",
        words: "session 2 1 2",
        input: "scatter 1
vars 2
line 1 0 at 0 0
term 1 1 1 0
ask 2 theta 0 0 at 2 1
ask 3 theta 0 0 at 2 1
end
",
        status: Status::Limit {
            which: LimitKind::Reader,
        },
        output: "fault limit reader
",
    },
];

const BAD_WORDS: [Case; 5] = [
    Case {
        meaning: "nine readers",
        words: "session 4 1 9",
        input: "",
        status: Status::Words,
        output: "fault words
",
    },
    Case {
        meaning: "no reader",
        words: "session 4 1 0",
        input: "",
        status: Status::Words,
        output: "fault words
",
    },
    Case {
        meaning: "the number of readers left out",
        words: "session 4 1",
        input: "",
        status: Status::Words,
        output: "fault words
",
    },
    Case {
        meaning: "readers without a session",
        words: "theta 4 1 1",
        input: "",
        status: Status::Words,
        output: "fault words
",
    },
    Case {
        meaning: "an order above 24",
        words: "session 25 1 1",
        input: "",
        status: Status::Words,
        output: "fault words
",
    },
];

/// Appends the answer of this number in this order to `theta -1 0 at 2 1` on two lines with the functions
/// (1 + t1*x)^2 and (1 + t2*y)^2, which has three terms, one of each degree.
fn push_series(text: &mut String, number: u32, order: u32) -> Result<(), AllocError> {
    write!(
        text,
        "answer {number} order {order} series\nterm 1 -1 0 0 0\n"
    )?;
    if order >= 1 {
        text.push_str("term 2 -1 1 0 1\n")?;
    }
    if order >= 2 {
        text.push_str("term 1 -1 2 0 2\n")?;
    }
    Ok(())
}

/// What `SESSION_OF_TWO_READERS` prints where the first two asks are answered in these orders.
fn printed_in(alloc: Global, first: u32, second: u32) -> Result<String, AllocError> {
    let mut text = String::from_str(alloc, "answers 1\npublished 4\n")?;
    push_series(&mut text, 1, first)?;
    push_series(&mut text, 2, second)?;
    push_series(&mut text, 3, 4)?;
    push_series(&mut text, 4, 4)?;
    text.push_str("answer 5 order 4 fault not-yet 4\nend\n")?;
    Ok(text)
}

/// Whether the sink holds what is printed where each of the first two asks is answered in some order up to the last.
fn holds_allowed(alloc: Global, sink: &MemSink) -> Result<bool, AllocError> {
    for first in 0..5 {
        for second in 0..5 {
            if sink.held() == printed_in(alloc, first, second)?.as_bytes() {
                return Ok(true);
            }
        }
    }
    Ok(false)
}

/// Whether two readers, of whom each may answer its first ask in any order, print what they may.
fn two_readers_answer<R: Threads + Wait + Sync>(rt: &R, alloc: Global) -> Result<bool, AllocError> {
    let mut source = source_of(alloc, SESSION_OF_TWO_READERS, 0)?;
    let mut sink = sink_of(alloc, 0)?;
    let command = (alloc, "session 4 2 2");
    let told = (&OpenGate, Status::Done);
    let done = ends_with(rt, command, &mut source, &mut sink, told)?;
    Ok(done && holds_allowed(alloc, &sink)?)
}

/// Holds the first ask until a task of order 2 was begun, and that task until the second ask is reached.
#[derive(Drop)]
struct HoldsOrderTwo {
    begun: AtomicBool,
    reached: AtomicBool,
}

impl Gate for HoldsOrderTwo {
    fn at_task(&self, _worker: u32, order: u32, _task: u64) {
        if order == 2 {
            self.begun.store(true, Ordering::SeqCst);
            hold_until(&self.reached);
        }
    }

    fn at_answer(&self, _reader: u32, query: u32) {
        if query == 1 {
            hold_until(&self.begun);
        } else {
            self.reached.store(true, Ordering::SeqCst);
        }
    }
}

const TWO_ASKS: &str = "scatter 1
vars 3
line 1 0 at 0 0
term 1 1 1 0 0
line 0 1 at 0 0
term 1 1 0 1 0
line 1 0 at 0 1
term 1 1 0 0 1
ask 1 theta 0 0 at 2 2
ask 1 theta 0 0 at 2 2
end
";

const ORDER_ONE_TWICE: &str = "answers 1
published 2
answer 1 order 1 series
term 1 0 0 0 0 0
answer 2 order 1 series
term 1 0 0 0 0 0
end
";

const ORDER_ONE_AND_TWO: &str = "answers 1
published 2
answer 1 order 1 series
term 1 0 0 0 0 0
answer 2 order 2 series
term 1 0 0 0 0 0
end
";

/// Whether the first ask is answered in order 1 while order 2 is computed.
fn order_one_is_answered<R: Threads + Wait + Sync>(
    rt: &R,
    alloc: Global,
) -> Result<bool, AllocError> {
    let gate = HoldsOrderTwo {
        begun: AtomicBool::new(false),
        reached: AtomicBool::new(false),
    };
    let mut source = source_of(alloc, TWO_ASKS, 0)?;
    let mut sink = sink_of(alloc, 0)?;
    let command = (alloc, "session 2 2 1");
    let told = (&gate, Status::Done);
    let done = ends_with(rt, command, &mut source, &mut sink, told)?;
    let held = sink.held();
    Ok(done && (held == ORDER_ONE_TWICE.as_bytes() || held == ORDER_ONE_AND_TWO.as_bytes()))
}

#[test]
fn sessions_answer_asks(rt: HostRuntime) -> Result<(), Fail> {
    let unmet = first_unmet(&rt, rt.alloc(), &ANSWERS)?;
    assert_eq!(rt; unmet, None);
    Ok(())
}

#[test]
fn bad_words_of_a_session_are_refused(rt: HostRuntime) -> Result<(), Fail> {
    let unmet = first_unmet(&rt, rt.alloc(), &BAD_WORDS)?;
    assert_eq!(rt; unmet, None);
    Ok(())
}

#[test]
fn readers_answer_in_published_orders(rt: HostRuntime) -> Result<(), Fail> {
    let alloc = rt.alloc();
    let allowed = two_readers_answer(&rt, alloc)?;
    assert!(rt; allowed);
    Ok(())
}

#[test]
fn a_reader_answers_while_an_order_is_computed(rt: HostRuntime) -> Result<(), Fail> {
    let alloc = rt.alloc();
    let one = order_one_is_answered(&rt, alloc)?;
    assert!(rt; one);
    Ok(())
}
