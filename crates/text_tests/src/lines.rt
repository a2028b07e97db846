//! The lines that a text says, as walls.

use crate::files::file_of;
use plane_geom::{Direction, Point};
use scatter_diagram::{Initial, Wall};
use scatter_text::{check_limits, initial_of, one_text};
use std::alloc::Global;
use std::test::Fail;
use trunc_series::{Exp, Key};

/// The lines that a text says, if it is read and passes no limit.
pub fn initial(alloc: Global, text: &[u8]) -> Option<Initial> {
    match file_of(alloc, text) {
        Some(file) => match check_limits(&file, 24, 1) {
            None => initial_of(alloc, &file).ok(),
            Some(_) => None,
        },
        None => None,
    }
}

fn key(a: i32, b: i32, p1: u8, p2: u8) -> Key {
    Key {
        exp: Exp { a, b },
        powers: [p1, p2, 0, 0, 0, 0, 0, 0],
    }
}

// The terms of degree 25 and more are left out.
const SLOPED: &[u8] =
    b"scatter 1\nvars 2\nline 1 -2 at 1/2 1/3\nterm 3 2 1 0\nterm -1 1 0 1\nterm 7 3 25 0\nterm 9 4 20 4\nline 0 1 at 0 0\nend\n";

fn is_sloped(line: &Wall) -> bool {
    let terms = [
        (key(0, 0, 0, 0), 1),
        (key(1, -2, 0, 1), -1),
        (key(2, -4, 1, 0), 3),
        (key(4, -8, 20, 4), 9),
    ];
    Some(line.at) == Point::new(3, 2, 6)
        && Some(line.dir) == Direction::new(1, -2)
        && line.function.terms() == terms.as_slice()
}

fn is_upright(line: &Wall) -> bool {
    let terms = [(key(0, 0, 0, 0), 1)];
    Some(line.at) == Point::new(0, 0, 1)
        && Some(line.dir) == Direction::new(0, 1)
        && line.function.terms() == terms.as_slice()
}

fn says(alloc: Global) -> bool {
    match initial(alloc, SLOPED) {
        Some(initial) => {
            let lines = initial.lines();
            initial.vars() == 2 && lines.len() == 2 && is_sloped(&lines[0]) && is_upright(&lines[1])
        }
        None => false,
    }
}

#[test]
fn initial_lines(rt: HostRuntime) -> Result<(), Fail> {
    one_text();
    assert!(rt; says(rt.alloc()));
    Ok(())
}
