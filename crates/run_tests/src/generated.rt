// Runs on lines that are made from a number, and the same lines as a text.

use crate::case::{Case, ends_with, first_unmet, source_of};
use crate::inputs::TWO_LINES;
use outside_io::{MemSink, OpenGate};
use scatter_run::Status;
use std::alloc::{AllocError, Global};
use std::sync::Wait;
use std::test::Fail;
use std::thread::Threads;

const SUMMARY_OF_7: &str = "generated 7
order 4
rays 94
terms 99
end
";

const SUMMARIES: [Case; 2] = [
    Case {
        meaning: "the counts of lines made from 7",
        words: "generate 7",
        input: "",
        status: Status::Done,
        output: SUMMARY_OF_7,
    },
    Case {
        meaning: "the same counts where there is an input",
        words: "generate 7",
        input: TWO_LINES,
        status: Status::Done,
        output: SUMMARY_OF_7,
    },
];

#[test]
fn lines_are_made_from_numbers(rt: HostRuntime) -> Result<(), Fail> {
    let unmet = first_unmet(&rt, rt.alloc(), &SUMMARIES)?;
    assert_eq!(rt; unmet, None);
    Ok(())
}

// The lines that are made from 7, by the formula.
const LINES_OF_7: &str = "scatter 1
vars 6
line -1 1 at 6 8
term 1 1 1 0 0 0 0 0
line -1 1 at 17 19
term 1 1 0 1 0 0 0 0
line 1 0 at -7 -16
term 1 1 0 0 1 0 0 0
line -1 1 at 15 6
term 1 1 0 0 0 1 0 0
line 1 2 at -12 0
term 1 1 0 0 0 0 1 0
line 1 0 at 3 -13
term 1 1 0 0 0 0 0 1
end
";

/// How many lines of the text begin with the word.
fn count_of(text: &[u8], word: &[u8]) -> usize {
    let lines = text.split(|byte| *byte == b'\n');
    lines.filter(|line| line.starts_with(word)).count()
}

/// Whether the completion of these lines at order 4 is printed with so many rays, and so many terms of
/// lines and rays.
fn has_counts<R: Threads + Wait + Sync>(
    rt: &R,
    alloc: Global,
    input: &str,
    rays: usize,
    terms: usize,
) -> Result<bool, AllocError> {
    let mut source = source_of(alloc, input, 0)?;
    let mut sink = MemSink::new(alloc, 1 << 16, Vec::new(alloc))?;
    let told = (&OpenGate, Status::Done);
    let done = ends_with(rt, (alloc, "complete 4 4"), &mut source, &mut sink, told)?;
    let text = sink.held();
    Ok(done && count_of(text, b"ray ") == rays && count_of(text, b"term ") == terms)
}

#[test]
fn counts_are_those_of_the_text(rt: HostRuntime) -> Result<(), Fail> {
    // The six lines have a term each.
    let counted = has_counts(&rt, rt.alloc(), LINES_OF_7, 94, 99 + 6)?;
    assert!(rt; counted);
    Ok(())
}
