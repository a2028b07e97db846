//! Which limit a file with asks passes first.

use crate::files::file_in;
use scatter_text::{LimitKind, TextMode, check_limits};
use std::alloc::{AllocError, Global};
use std::test::Fail;

fn passes(alloc: Global, text: &[u8], readers: u32, which: Option<LimitKind>) -> bool {
    match file_in(alloc, text, TextMode::Asks) {
        Some(file) => check_limits(&file, 2, readers) == which,
        None => false,
    }
}

// An ask, the number of readers, and the limit. Where two are passed, the first of them in their order is told.
const PASSED: [(&str, u32, Option<LimitKind>); 18] = [
    ("ask 1 theta 64 -64 at 2 1 order 24", 1, None),
    ("ask 1 theta 65 0 at 2 1", 1, Some(LimitKind::AskExponent)),
    ("ask 1 theta 0 -65 at 2 1", 1, Some(LimitKind::AskExponent)),
    ("ask 1 product 64 -64 64 -64 at 2 1", 1, None),
    (
        "ask 1 product 65 0 0 0 at 2 1",
        1,
        Some(LimitKind::AskExponent),
    ),
    (
        "ask 1 product 0 65 0 0 at 2 1",
        1,
        Some(LimitKind::AskExponent),
    ),
    (
        "ask 1 product 0 0 -65 0 at 2 1",
        1,
        Some(LimitKind::AskExponent),
    ),
    (
        "ask 1 product 0 0 0 65 at 2 1",
        1,
        Some(LimitKind::AskExponent),
    ),
    ("ask 2 theta 1 0 at 2 1", 1, Some(LimitKind::Reader)),
    ("ask 2 theta 1 0 at 2 1", 2, None),
    ("ask 9 theta 1 0 at 2 1", 8, Some(LimitKind::Reader)),
    ("ask 1 theta 1 0 at 2 1 order 25", 1, Some(LimitKind::Least)),
    (
        "ask 1 product 1 0 0 1 at 2 1 order 999999999999999999",
        1,
        Some(LimitKind::Least),
    ),
    ("ask 1 theta 1 0 at 1099511627776 -1099511627776", 1, None),
    (
        "ask 1 theta 1 0 at 1099511627777 0",
        1,
        Some(LimitKind::Place),
    ),
    (
        "ask 1 theta 1 0 at 1/1048577 1/1048576",
        1,
        Some(LimitKind::Place),
    ),
    (
        "ask 2 product 65 0 0 0 at 0 -1099511627777 order 25",
        1,
        Some(LimitKind::Place),
    ),
    (
        "ask 2 theta 0 0 at 2 1 order 25",
        1,
        Some(LimitKind::Reader),
    ),
];

fn ask_passes(
    alloc: Global,
    line: &str,
    readers: u32,
    which: Option<LimitKind>,
) -> Result<bool, AllocError> {
    let text = format!(in alloc;
        "scatter 1\nvars 1\nline 1 0 at 0 0\nask 1 theta 0 0 at 0 0\n{line}\nend\n"
    )?;
    Ok(passes(alloc, text.as_bytes(), readers, which))
}

#[test]
fn passed(rt: HostRuntime) -> Result<(), Fail> {
    for (line, readers, which) in &PASSED {
        assert!(rt; ask_passes(rt.alloc(), line, *readers, *which)?);
    }
    Ok(())
}

// A limit of the lines is told before those of the asks.
const LINES_FIRST: &[u8] =
    b"scatter 1\nvars 1\nline 1 0 at 0 0\nterm 1 1 256\nask 2 theta 65 0 at 1099511627777 0\nend\n";

#[test]
fn lines_first(rt: HostRuntime) -> Result<(), Fail> {
    assert!(rt; passes(rt.alloc(), LINES_FIRST, 1, Some(LimitKind::Power)));
    Ok(())
}

// A text with so many asks, and then these lines.
fn with_asks(alloc: Global, count: u32, last: &str) -> Result<String, AllocError> {
    let mut text = String::from_str(alloc, "scatter 1\nvars 1\n")?;
    for _ in 0..count {
        text.push_str("ask 1 theta 0 0 at 0 0\n")?;
    }
    text.push_str(last)?;
    text.push_str("end\n")?;
    Ok(text)
}

fn count_passes(
    alloc: Global,
    count: u32,
    last: &str,
    which: Option<LimitKind>,
) -> Result<bool, AllocError> {
    let text = with_asks(alloc, count, last)?;
    Ok(passes(alloc, text.as_bytes(), 1, which))
}

const COUNTS: [(u32, &str, Option<LimitKind>); 4] = [
    (1024, "", None),
    (1024, "settle\n", None),
    (1025, "", Some(LimitKind::Queries)),
    (1024, "ask 1 theta 65 0 at 0 0\n", Some(LimitKind::Queries)),
];

#[test]
fn counted_asks(rt: HostRuntime) -> Result<(), Fail> {
    for (count, last, which) in &COUNTS {
        assert!(rt; count_passes(rt.alloc(), *count, last, *which)?);
    }
    Ok(())
}
