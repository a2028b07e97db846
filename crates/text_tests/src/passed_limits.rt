//! Which limit a file passes first.

use crate::files::file_of;
use scatter_text::{LimitKind, check_limits};
use std::alloc::{AllocError, Global};
use std::test::Fail;

fn passes(alloc: Global, text: &[u8], order: u32, which: Option<LimitKind>) -> bool {
    match file_of(alloc, text) {
        Some(file) => check_limits(&file, order, 1) == which,
        None => false,
    }
}

const PASSED: [(&[u8], u32, Option<LimitKind>); 9] = [
    (b"scatter 1\nvars 9\nend\n", 2, Some(LimitKind::Vars)),
    (b"scatter 1\nvars 8\nend\n", 12, None),
    (b"scatter 1\nvars 8\nend\n", 13, Some(LimitKind::Size)),
    (
        b"scatter 1\nvars 8\nend\n",
        4294967295,
        Some(LimitKind::Size),
    ),
    (b"scatter 1\nvars 1\nend\n", 131071, None),
    (
        b"scatter 1\nvars 1\nline 1 0 at 0 0\nterm -2147483648 1 1\nend\n",
        2,
        Some(LimitKind::Coefficient),
    ),
    (
        b"scatter 1\nvars 1\nline 13 1 at 0 0\nterm 1 5 1\nend\n",
        2,
        Some(LimitKind::Exponent),
    ),
    (
        b"scatter 1\nvars 1\nline 1 0 at 0 0\nterm 1 1 256\nend\n",
        2,
        Some(LimitKind::Power),
    ),
    (
        b"scatter 1\nvars 1\nline 1 0 at 1/1048577 1/1048576\nend\n",
        2,
        Some(LimitKind::Place),
    ),
];

#[test]
fn passed(rt: HostRuntime) -> Result<(), Fail> {
    for (text, order, which) in &PASSED {
        assert!(rt; passes(rt.alloc(), text, *order, *which));
    }
    Ok(())
}

// A text with this many lines.
fn with_lines(alloc: Global, count: u32) -> Result<String, AllocError> {
    let mut text = String::from_str(alloc, "scatter 1\nvars 1\n")?;
    for _ in 0..count {
        text.push_str("line 1 0 at 0 0\n")?;
    }
    text.push_str("end\n")?;
    Ok(text)
}

// A text with this many terms on one line, with the powers 1 and more.
fn with_terms(alloc: Global, count: u32) -> Result<String, AllocError> {
    let mut text = String::from_str(alloc, "scatter 1\nvars 1\nline 1 0 at 0 0\n")?;
    for power in 0..count {
        write!(&mut text, "term 1 1 {}\n", u64::from(power) + 1)?;
    }
    text.push_str("end\n")?;
    Ok(text)
}

fn line_passes(alloc: Global, count: u32, which: Option<LimitKind>) -> Result<bool, AllocError> {
    let text = with_lines(alloc, count)?;
    Ok(passes(alloc, text.as_bytes(), 2, which))
}

const LINE_COUNTS: [(u32, Option<LimitKind>); 2] = [(16, None), (17, Some(LimitKind::Lines))];

#[test]
fn counted_lines(rt: HostRuntime) -> Result<(), Fail> {
    for (count, which) in &LINE_COUNTS {
        assert!(rt; line_passes(rt.alloc(), *count, *which)?);
    }
    Ok(())
}

fn term_passes(alloc: Global, count: u32, which: Option<LimitKind>) -> Result<bool, AllocError> {
    let text = with_terms(alloc, count)?;
    Ok(passes(alloc, text.as_bytes(), 2, which))
}

// The last are nearly as many bytes as are read, all of them terms of one line, each compared to those before it.
const TERM_COUNTS: [(u32, Option<LimitKind>); 3] = [
    (64, None),
    (65, Some(LimitKind::Terms)),
    (65536, Some(LimitKind::Terms)),
];

#[test]
fn counted_terms(rt: HostRuntime) -> Result<(), Fail> {
    for (count, which) in &TERM_COUNTS {
        assert!(rt; term_passes(rt.alloc(), *count, *which)?);
    }
    Ok(())
}

const WORDS: [(LimitKind, &str); 13] = [
    (LimitKind::Bytes, "bytes"),
    (LimitKind::Vars, "vars"),
    (LimitKind::Size, "size"),
    (LimitKind::Lines, "lines"),
    (LimitKind::Terms, "terms"),
    (LimitKind::Coefficient, "coefficient"),
    (LimitKind::Exponent, "exponent"),
    (LimitKind::Power, "power"),
    (LimitKind::Place, "point"),
    (LimitKind::Queries, "queries"),
    (LimitKind::AskExponent, "ask-exponent"),
    (LimitKind::Reader, "reader"),
    (LimitKind::Least, "least"),
];

#[test]
fn printed_limits(rt: HostRuntime) -> Result<(), Fail> {
    for (kind, word) in &WORDS {
        assert!(rt; kind.word() == *word);
    }
    Ok(())
}
