//! What a JSON text says, and what is refused.

use scatter_json::{JsonFault, JsonKind, read_json};
use scatter_text::{Coordinate, LineRow, TermRow, TextFile};
use std::alloc::Global;
use std::test::Fail;

/// Two lines of two variables.
pub const TWO_LINES: &[u8] =
    br#"{"scatter":1,"vars":2,"lines":[{"at":["0","0"],"dir":[1,0],"terms":[["1",1,[1,0]]]},{"terms":[["-5",3,[0,1]]],"dir":[0,1],"at":["-1/2","0"]}]}"#;

/// The texts of no value: cut short, of two values, with a comma too many, too large a float, a byte that is no UTF-8.
const NO_VALUE: [&[u8]; 6] = [
    b"",
    b"{",
    b"[] []",
    br#"{"scatter":1,}"#,
    br#"{"scatter":1e999,"vars":1,"lines":[]}"#,
    b"\"\xff\"",
];

/// Values of another form.
const NO_FORM: [&[u8]; 28] = [
    b"[]",
    b"null",
    // the keys of the file
    br#"{"scatter":1,"vars":1}"#,
    br#"{"scatter":1,"vars":1,"lines":[],"order":2}"#,
    br#"{"scatter":1,"vars":1,"line":[]}"#,
    // whole numbers
    br#"{"scatter":2,"vars":1,"lines":[]}"#,
    br#"{"scatter":1.0,"vars":1,"lines":[]}"#,
    br#"{"scatter":"1","vars":1,"lines":[]}"#,
    br#"{"scatter":1,"vars":0,"lines":[]}"#,
    br#"{"scatter":1,"vars":-0,"lines":[]}"#,
    br#"{"scatter":1,"vars":2.0,"lines":[]}"#,
    br#"{"scatter":1,"vars":1000000000000000000,"lines":[]}"#,
    br#"{"scatter":1,"vars":18446744073709551615,"lines":[]}"#,
    br#"{"scatter":1,"vars":1,"lines":{}}"#,
    // the parts of a line
    br#"{"scatter":1,"vars":1,"lines":[{"at":["0","0"],"dir":[1,0]}]}"#,
    br#"{"scatter":1,"vars":1,"lines":[{"at":["0","0"],"dir":[1,0],"terms":[],"ray":0}]}"#,
    br#"{"scatter":1,"vars":1,"lines":[{"at":["0"],"dir":[1,0],"terms":[]}]}"#,
    br#"{"scatter":1,"vars":1,"lines":[{"at":["2/4","0"],"dir":[1,0],"terms":[]}]}"#,
    br#"{"scatter":1,"vars":1,"lines":[{"at":[0,0],"dir":[1,0],"terms":[]}]}"#,
    br#"{"scatter":1,"vars":1,"lines":[{"at":["0","0"],"dir":[2,2],"terms":[]}]}"#,
    br#"{"scatter":1,"vars":1,"lines":[{"at":["0","0"],"dir":[1,0,0],"terms":[]}]}"#,
    // the parts of a term
    br#"{"scatter":1,"vars":1,"lines":[{"at":["0","0"],"dir":[1,0],"terms":[[1,1,[1]]]}]}"#,
    br#"{"scatter":1,"vars":1,"lines":[{"at":["0","0"],"dir":[1,0],"terms":[["0",1,[1]]]}]}"#,
    br#"{"scatter":1,"vars":1,"lines":[{"at":["0","0"],"dir":[1,0],"terms":[["1",0,[1]]]}]}"#,
    br#"{"scatter":1,"vars":1,"lines":[{"at":["0","0"],"dir":[1,0],"terms":[["1",1,[0]]]}]}"#,
    br#"{"scatter":1,"vars":1,"lines":[{"at":["0","0"],"dir":[1,0],"terms":[["1",1,[-1]]]}]}"#,
    br#"{"scatter":1,"vars":1,"lines":[{"at":["0","0"],"dir":[1,0],"terms":[["1",1,[1,1]]]}]}"#,
    br#"{"scatter":1,"vars":1,"lines":[{"at":["0","0"],"dir":[1,0],"terms":[["1",1,[1]],["2",1,[1]]]}]}"#,
];

/// The lines that a text says, if it says some.
pub fn file_of(alloc: Global, text: &[u8]) -> Option<TextFile> {
    match read_json(alloc, text) {
        Ok(file) => Some(file),
        Err(_) => None,
    }
}

fn is_no_value(alloc: Global, text: &[u8]) -> bool {
    match read_json(alloc, text) {
        Err(JsonFault::Syntax) => true,
        _ => false,
    }
}

fn is_no_form(alloc: Global, text: &[u8]) -> bool {
    match read_json(alloc, text) {
        Err(JsonFault::Shape) => true,
        _ => false,
    }
}

fn has_term(terms: &[TermRow]) -> bool {
    terms.len() == 1
        && terms[0].c == -5
        && terms[0].j == 3
        && terms[0].powers.as_slice() == [0, 1].as_slice()
}

fn is_line(line: &LineRow) -> bool {
    line.dx == 0
        && line.dy == 1
        && line.x == Coordinate { num: -1, den: 2 }
        && line.y == Coordinate { num: 0, den: 1 }
        && has_term(line.terms.as_slice())
}

fn has_no_ask(file: &TextFile) -> bool {
    file.asks.as_slice().is_empty() && file.settle.is_none()
}

fn reads(alloc: Global, text: &[u8]) -> bool {
    match file_of(alloc, text) {
        Some(file) => {
            let lines = file.lines.as_slice();
            file.vars == 2 && lines.len() == 2 && is_line(&lines[1]) && has_no_ask(&file)
        }
        None => false,
    }
}

#[test]
fn two_lines(rt: HostRuntime) -> Result<(), Fail> {
    assert!(rt; reads(rt.alloc(), TWO_LINES));
    Ok(())
}

#[test]
fn texts_of_no_value(rt: HostRuntime) -> Result<(), Fail> {
    for text in &NO_VALUE {
        assert!(rt; is_no_value(rt.alloc(), text));
    }
    Ok(())
}

#[test]
fn values_of_another_form(rt: HostRuntime) -> Result<(), Fail> {
    for text in &NO_FORM {
        assert!(rt; is_no_form(rt.alloc(), text));
    }
    Ok(())
}

// Of equal keys the last stands, and the largest whole number has 18 digits.
#[test]
fn accepted(rt: HostRuntime) -> Result<(), Fail> {
    let twice = br#"{"vars":0,"scatter":1,"vars":3,"lines":[]}"#;
    let large = br#"{"scatter":1,"vars":999999999999999999,"lines":[]}"#;
    assert!(rt; file_of(rt.alloc(), twice).is_some_and(|file| file.vars == 3));
    assert!(rt; file_of(rt.alloc(), large).is_some_and(|file| file.vars == 999999999999999999));
    Ok(())
}

#[test]
fn words(rt: HostRuntime) -> Result<(), Fail> {
    assert!(rt; JsonKind::Syntax.word() == "syntax");
    assert!(rt; JsonKind::Shape.word() == "shape");
    Ok(())
}
