//! Texts with asks: what they say, and their faults in both modes.

use crate::faults::has_fault;
use crate::files::file_in;
use scatter_text::{AskKind, AskRow, Coordinate, TextFile, TextKind, TextMode};
use std::alloc::{AllocError, Global};
use std::test::Fail;

// Asks of both kinds, with and without a least order, and `settle` after the second.
const FOUR_ASKS: &[u8] =
    b"scatter 1\nvars 2\nline 1 0 at 0 0\nterm 1 1 1 0\nask 1 theta -1 0 at 2 1\nask 2 theta 3 -4 at -1/2 0 order 0\nsettle\nask 1 product -1 0 0 -1 at 2 1\nask 999999999999999999 product 0 0 5 6 at 0 7/3 order 25\nend\n";

const TWO: Coordinate = Coordinate { num: 2, den: 1 };

const ONE: Coordinate = Coordinate { num: 1, den: 1 };

const ZERO: Coordinate = Coordinate { num: 0, den: 1 };

const ASKS: [AskRow; 4] = [
    AskRow {
        reader: 1,
        kind: AskKind::Theta { a: -1, b: 0 },
        x: TWO,
        y: ONE,
        least: None,
    },
    AskRow {
        reader: 2,
        kind: AskKind::Theta { a: 3, b: -4 },
        x: Coordinate { num: -1, den: 2 },
        y: ZERO,
        least: Some(0),
    },
    AskRow {
        reader: 1,
        kind: AskKind::Product {
            a: -1,
            b: 0,
            c: 0,
            d: -1,
        },
        x: TWO,
        y: ONE,
        least: None,
    },
    AskRow {
        reader: 999999999999999999,
        kind: AskKind::Product {
            a: 0,
            b: 0,
            c: 5,
            d: 6,
        },
        x: ZERO,
        y: Coordinate { num: 7, den: 3 },
        least: Some(25),
    },
];

fn has_asks(file: &TextFile, asks: &[AskRow], settle: Option<usize>) -> bool {
    file.asks.as_slice() == asks && file.settle == settle
}

fn says(alloc: Global, text: &[u8], asks: &[AskRow], settle: Option<usize>) -> bool {
    match file_in(alloc, text, TextMode::Asks) {
        Some(file) => has_asks(&file, asks, settle),
        None => false,
    }
}

fn copies(alloc: Global) -> Result<bool, AllocError> {
    match file_in(alloc, FOUR_ASKS, TextMode::Asks) {
        Some(file) => Ok(has_asks(&file.copy()?, ASKS.as_slice(), Some(2))),
        None => Ok(false),
    }
}

#[test]
fn four_asks(rt: HostRuntime) -> Result<(), Fail> {
    assert!(rt; says(rt.alloc(), FOUR_ASKS, ASKS.as_slice(), Some(2)));
    assert!(rt; copies(rt.alloc())?);
    Ok(())
}

// Where `settle` may stand, with the number of asks before it, and how many of the first ask above there are.
const PLACES: [(&[u8], usize, Option<usize>); 7] = [
    (b"scatter 1\nvars 1\nend\n", 0, None),
    (b"scatter 1\nvars 1\nsettle\nend\n", 0, Some(0)),
    (
        b"scatter 1\nvars 1\nline 1 0 at 0 0\nsettle\nend\n",
        0,
        Some(0),
    ),
    (
        b"scatter 1\nvars 1\nask 1 theta -1 0 at 2 1\nend\n",
        1,
        None,
    ),
    (
        b"scatter 1\nvars 1\nask 1 theta -1 0 at 2 1\nsettle\nend\n",
        1,
        Some(1),
    ),
    (
        b"scatter 1\nvars 1\nsettle\nask 1 theta -1 0 at 2 1\nend\n",
        1,
        Some(0),
    ),
    (
        b"scatter 1\nvars 1\nline 1 0 at 0 0\nterm 1 1 1\nask 1 theta -1 0 at 2 1\nsettle\nask 1 theta -1 0 at 2 1\nend\n",
        2,
        Some(1),
    ),
];

fn stands(alloc: Global, text: &[u8], count: usize, settle: Option<usize>) -> bool {
    match file_in(alloc, text, TextMode::Asks) {
        Some(file) => {
            let asks = file.asks.as_slice();
            asks.len() == count && asks.iter().all(|a| *a == ASKS[0]) && file.settle == settle
        }
        None => false,
    }
}

#[test]
fn places(rt: HostRuntime) -> Result<(), Fail> {
    for (text, count, settle) in &PLACES {
        assert!(rt; stands(rt.alloc(), text, *count, *settle));
    }
    Ok(())
}

// Faults of texts with asks. Each has the line of its fault.
const FAULTS: [(&[u8], u32, TextKind); 17] = [
    (b"ask 1 theta 1 0 at 2 1\n", 1, TextKind::Word),
    (b"scatter 1\nsettle\n", 2, TextKind::Word),
    (
        b"scatter 1\nvars 1\nline 1 0 at 0 0\nask 1 theta 1 0 at 2 1\nterm 1 1 1\nend\n",
        5,
        TextKind::Word,
    ),
    (
        b"scatter 1\nvars 1\nline 1 0 at 0 0\nsettle\nterm 1 1 1\nend\n",
        5,
        TextKind::Word,
    ),
    (
        b"scatter 1\nvars 1\nask 1 theta 1 0 at 2 1\nline 1 0 at 0 0\nend\n",
        4,
        TextKind::Word,
    ),
    (
        b"scatter 1\nvars 1\nend\nask 1 theta 1 0 at 2 1\n",
        4,
        TextKind::Word,
    ),
    (
        b"scatter 1\nvars 1\nask 1 theta 1 0 at 2 1\n",
        4,
        TextKind::Missing,
    ),
    (
        b"scatter 1\nvars 1\nask 1 theta 1 0 at 2 1",
        3,
        TextKind::Unfinished,
    ),
    (
        b"scatter 1\nvars 1\nsettle\nsettle\nend\n",
        4,
        TextKind::Value,
    ),
    (
        b"scatter 1\nvars 1\nsettle\nask 1 theta 1 0 at 2 1\nsettle\nend\n",
        5,
        TextKind::Value,
    ),
    (b"scatter 1\nvars 1\nsettle 1\n", 3, TextKind::Count),
    (b"scatter 1\nvars 1\nsettled\n", 3, TextKind::Word),
    (
        b"scatter 1\nvars 1\nask 1 theta 1 0 at 2 1 order 2 \n",
        3,
        TextKind::Shape,
    ),
    (
        b"scatter 1\nvars 1\nask 1 theta 1\t0 at 2 1\n",
        3,
        TextKind::Byte,
    ),
    (
        b"scatter 1\nvars 1\nask 0 theta 1 0 at 2 1\nask\n",
        3,
        TextKind::Value,
    ),
    (
        b"scatter 1\nvars 1\nask 1 theta 1 0 at 2 1\nask\nask 0 theta 1 0 at 2 1\n",
        4,
        TextKind::Count,
    ),
    (
        b"scatter 1\nvars 0\nask 1 theta 1 0 at 2 1\n",
        2,
        TextKind::Value,
    ),
];

#[test]
fn faults(rt: HostRuntime) -> Result<(), Fail> {
    for (text, line, kind) in &FAULTS {
        assert!(rt; has_fault(rt.alloc(), text, TextMode::Asks, *line, *kind));
    }
    Ok(())
}

// Faults of one line, which is the third.
const BAD_ASKS: [(&str, TextKind); 26] = [
    ("ask", TextKind::Count),
    ("ask 1", TextKind::Count),
    ("ask theta 1 0 at 2 1", TextKind::Count),
    ("ask 1 thetas 1 0 at 2 1", TextKind::Count),
    ("ask 1 1 0 at 2 1", TextKind::Count),
    ("ask 1 theta 1 0 at 2", TextKind::Count),
    ("ask 1 theta 1 0 at 2 1 order", TextKind::Count),
    ("ask 1 theta 1 0 at 2 1 least 3", TextKind::Count),
    ("ask 1 theta 1 0 on 2 1", TextKind::Count),
    ("ask 1 theta 1 0 0 -1 at 2 1", TextKind::Count),
    ("ask 1 product 1 0 at 2 1", TextKind::Count),
    ("ask 1 product 1 0 at 2 1 order 3", TextKind::Count),
    ("ask 1 product 1 0 0 1 at 2 1 order", TextKind::Count),
    ("ask 1 product 1 0 0 1 at 2 1 order 3 4", TextKind::Count),
    ("ask one theta 1 0 at 2 1", TextKind::Number),
    ("ask 1 theta 01 0 at 2 1", TextKind::Number),
    ("ask 1 theta 1/2 0 at 2 1", TextKind::Number),
    ("ask 1 theta 1 0 at 2/4 1", TextKind::Number),
    ("ask 1 product 1 0 0 +1 at 2 1", TextKind::Number),
    ("ask 1 theta 1 0 at 2 1 order 1/2", TextKind::Number),
    ("ask 0 theta 1 x at 2 1", TextKind::Number),
    ("ask 0 theta 1 0 at 2 1", TextKind::Value),
    ("ask -1 theta 1 0 at 2 1", TextKind::Value),
    ("ask 1 theta 1 0 at 2 1 order -1", TextKind::Value),
    ("ask 0 product 1 0 0 1 at 2 1", TextKind::Value),
    ("ask 1 product 1 0 0 1 at 2 1 order -1", TextKind::Value),
];

fn is_bad(alloc: Global, line: &str, mode: TextMode, kind: TextKind) -> Result<bool, AllocError> {
    let text = format!(in alloc; "scatter 1\nvars 2\n{line}\nend\n")?;
    Ok(has_fault(alloc, text.as_bytes(), mode, 3, kind))
}

#[test]
fn bad_asks(rt: HostRuntime) -> Result<(), Fail> {
    for (line, kind) in &BAD_ASKS {
        assert!(rt; is_bad(rt.alloc(), line, TextMode::Asks, *kind)?);
    }
    Ok(())
}

// In a text without asks their words aren't allowed, whatever follows them.
const WORDS: [&str; 5] = [
    "ask 1 theta 1 0 at 2 1",
    "ask 1 product 1 0 0 1 at 2 1 order 3",
    "ask",
    "settle",
    "settle 1",
];

#[test]
fn words_without_asks(rt: HostRuntime) -> Result<(), Fail> {
    for line in &WORDS {
        assert!(rt; is_bad(rt.alloc(), line, TextMode::Lines, TextKind::Word)?);
    }
    Ok(())
}
