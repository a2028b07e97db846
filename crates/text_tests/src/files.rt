//! What a text says, and copies of it.

use scatter_text::{Coordinate, LineRow, Rows, TermRow, TextFile, TextMode, read_text};
use std::alloc::{AllocError, Global};
use std::test::Fail;

const TWO_LINES: &[u8] =
    b"scatter 1\nvars 2\nline 1 0 at 0 0\nterm 1 1 1 0\nline 0 1 at -1/2 0\nterm -5 3 0 1\nend\n";

/// The file that a text without asks says, if it is read.
pub fn file_of(alloc: Global, text: &[u8]) -> Option<TextFile> {
    file_in(alloc, text, TextMode::Lines)
}

/// The file that a text says in a mode, if it is read.
pub fn file_in(alloc: Global, text: &[u8], mode: TextMode) -> Option<TextFile> {
    if text.len() > 1048576 {
        return None;
    }
    match read_text(alloc, text, mode) {
        Ok(file) => Some(file),
        Err(_) => None,
    }
}

fn is_term(term: &TermRow) -> bool {
    term.c == -5 && term.j == 3 && term.powers.as_slice() == [0, 1].as_slice()
}

fn has_term(terms: &[TermRow]) -> bool {
    terms.len() == 1 && is_term(&terms[0])
}

fn is_line(line: &LineRow) -> bool {
    line.dx == 0
        && line.dy == 1
        && line.x == Coordinate { num: -1, den: 2 }
        && line.y == Coordinate { num: 0, den: 1 }
        && has_term(line.terms.as_slice())
}

fn has_no_ask(file: &TextFile) -> bool {
    file.asks.as_slice().is_empty() && file.settle.is_none()
}

fn is_file(file: &TextFile) -> bool {
    let lines = file.lines.as_slice();
    file.vars == 2 && lines.len() == 2 && is_line(&lines[1]) && has_no_ask(file)
}

// A text without asks says the same in both modes.
fn reads(alloc: Global, mode: TextMode) -> bool {
    match file_in(alloc, TWO_LINES, mode) {
        Some(file) => is_file(&file),
        None => false,
    }
}

fn copies(alloc: Global) -> Result<bool, AllocError> {
    match file_of(alloc, TWO_LINES) {
        Some(file) => Ok(is_file(&file.copy()?)),
        None => Ok(false),
    }
}

#[test]
fn files(rt: HostRuntime) -> Result<(), Fail> {
    assert!(rt; reads(rt.alloc(), TextMode::Lines));
    assert!(rt; reads(rt.alloc(), TextMode::Asks));
    assert!(rt; copies(rt.alloc())?);
    Ok(())
}

fn keeps(alloc: Global) -> Result<bool, AllocError> {
    let mut numbers = Rows::new(alloc).into_vec();
    numbers.push(7i64)?;
    let numbers = Rows::from_vec(numbers);
    Ok(numbers.copy()?.as_slice() == [7].as_slice())
}

#[test]
fn rows(rt: HostRuntime) -> Result<(), Fail> {
    assert!(rt; keeps(rt.alloc())?);
    Ok(())
}
