//! Which fault a text has, and how faults are shown.

use scatter_text::{TextFault, TextKind, TextMode, one_outcome, read_text};
use std::alloc::{AllocError, Global};
use std::test::Fail;

// In both modes.
const FAULTS: [(&[u8], u32, TextKind); 22] = [
    (b"", 1, TextKind::Missing),
    (b"scatter 1\nvars 1\n", 3, TextKind::Missing),
    (b"scatter 1\nvars 1\nend", 3, TextKind::Unfinished),
    (b"scatter 1\r\n", 1, TextKind::Byte),
    (b"scatter 1\n\n", 2, TextKind::Shape),
    (b"scatter  1\n", 1, TextKind::Shape),
    (b"scatter 1 \n", 1, TextKind::Shape),
    (b"scatter 1\nvars 1\nend\n\n", 4, TextKind::Shape),
    (b"vars 1\n", 1, TextKind::Word),
    (b"scatter 1\nvars 1\nend\nend\n", 4, TextKind::Word),
    (b"scatter 1 1\n", 1, TextKind::Count),
    (b"scatter 1\nvars 1\nline 1 0 to 0 0\n", 3, TextKind::Count),
    (b"scatter 04\n", 1, TextKind::Number),
    (b"scatter -0\n", 1, TextKind::Number),
    (b"scatter +1\n", 1, TextKind::Number),
    (b"scatter 1000000000000000000\n", 1, TextKind::Number),
    (
        b"scatter 1\nvars 1\nline 1 0 at 2/4 0\n",
        3,
        TextKind::Number,
    ),
    (
        b"scatter 1\nvars 1\nline 1 0 at 0 1/1\n",
        3,
        TextKind::Number,
    ),
    (b"scatter 999999999999999999\n", 1, TextKind::Value),
    (b"scatter 1\nvars 1\nline 2 2 at 0 0\n", 3, TextKind::Value),
    (
        b"scatter 1\nvars 1\nline 1 0 at 0 0\nterm 1 1 0\n",
        4,
        TextKind::Value,
    ),
    (
        b"scatter 1\nvars 1\nline 1 0 at 0 0\nterm 1 1 1\nterm 5 1 1\n",
        5,
        TextKind::Value,
    ),
];

/// Whether a text has this fault in a mode.
pub fn has_fault(alloc: Global, text: &[u8], mode: TextMode, line: u32, kind: TextKind) -> bool {
    if text.len() > 1048576 {
        return false;
    }
    match read_text(alloc, text, mode) {
        Err(TextFault::Bad { line: at, kind: is }) => at == line && is == kind,
        _ => false,
    }
}

#[test]
fn faults(rt: HostRuntime) -> Result<(), Fail> {
    one_outcome();
    for (text, line, kind) in &FAULTS {
        assert!(rt; has_fault(rt.alloc(), text, TextMode::Lines, *line, *kind));
        assert!(rt; has_fault(rt.alloc(), text, TextMode::Asks, *line, *kind));
    }
    Ok(())
}

fn is_shown(alloc: Global, fault: TextFault, text: &str) -> Result<bool, AllocError> {
    Ok(format!(in alloc; "{fault}")?.as_str() == text)
}

#[test]
fn shown_faults(rt: HostRuntime) -> Result<(), Fail> {
    let bad = TextFault::Bad {
        line: 3,
        kind: TextKind::Missing,
    };
    assert!(rt; is_shown(rt.alloc(), bad, "line 3 is bad: Missing")?);
    assert!(rt; is_shown(rt.alloc(), TextFault::Memory, "out of memory")?);
    Ok(())
}

const WORDS: [(TextKind, &str); 8] = [
    (TextKind::Unfinished, "unfinished"),
    (TextKind::Byte, "byte"),
    (TextKind::Shape, "shape"),
    (TextKind::Word, "word"),
    (TextKind::Count, "count"),
    (TextKind::Number, "number"),
    (TextKind::Value, "value"),
    (TextKind::Missing, "missing"),
];

#[test]
fn printed_kinds(rt: HostRuntime) -> Result<(), Fail> {
    for (kind, word) in &WORDS {
        assert!(rt; kind.word() == *word);
    }
    Ok(())
}
