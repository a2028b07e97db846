// What a text says: lines in the plane, each with the terms of its function, and asks.
ghost use Rattle.scatter_text.specs.Values.{AreLineRows, IsAsk};
ghost use Rattle.std.specs.Prelude.{◌≡◌, ◌≤◌, ◌≤ℤ◌, pos, length, All, IfOk};
ghost use Rattle.std.specs.Option.{ForSome};

use crate::rows::Rows;
use std::alloc::{AllocError, Global};

/// The rational number num/den.
#[derive(Clone, Copy, Debug, PartialEq, Eq)]
pub struct Coordinate {
    pub num: i64,
    pub den: i64,
}

/// The term `c * t1^a1 * .. * tR^aR * z^(j*dx, j*dy)` of the function of a line in direction (dx, dy), with a1 to aR as `powers`.
#[derive(Drop)]
pub struct TermRow {
    pub c: i64,
    pub j: i64,
    pub powers: Rows<i64>,
}

impl TermRow {
    /// A copy.
    pub fn copy(&self) -> Result<TermRow, AllocError>
        ensures { IfOk result (λ term. term ≡ self.now) }
    {
        Ok(TermRow {
            c: self.c,
            j: self.j,
            powers: self.powers.copy()?,
        })
    }
}

fn copied_terms(alloc: Global, terms: &[TermRow]) -> Result<Vec<TermRow>, AllocError>
    ensures { IfOk result (λ copies. copies.items ≡ terms.now) }
{
    let mut copies = Vec::with_capacity(alloc, terms.len())?;
    for term in terms {
        copies.push(term.copy()?)?;
    }
    Ok(copies)
}

/// A line in direction (dx, dy) through the point (x, y). Its function is 1 plus its terms.
#[derive(Drop)]
pub struct LineRow {
    pub dx: i64,
    pub dy: i64,
    pub x: Coordinate,
    pub y: Coordinate,
    pub terms: Rows<TermRow>,
}

impl LineRow {
    /// A copy.
    pub fn copy(&self) -> Result<LineRow, AllocError>
        ensures { IfOk result (λ line. line ≡ self.now) }
    {
        let terms = copied_terms(self.terms.allocator(), self.terms.as_slice())?;
        Ok(LineRow {
            dx: self.dx,
            dy: self.dy,
            x: self.x,
            y: self.y,
            terms: Rows::from_vec(terms),
        })
    }
}

fn copied_lines(alloc: Global, lines: &[LineRow]) -> Result<Vec<LineRow>, AllocError>
    ensures { IfOk result (λ copies. copies.items ≡ lines.now) }
{
    let mut copies = Vec::with_capacity(alloc, lines.len())?;
    for line in lines {
        copies.push(line.copy()?)?;
    }
    Ok(copies)
}

/// What is asked for.
#[derive(Clone, Copy, Debug, PartialEq, Eq)]
pub enum AskKind {
    /// The theta function of the exponent (a, b).
    Theta { a: i64, b: i64 },
    /// The product of the theta functions of (a, b) and (c, d).
    Product { a: i64, b: i64, c: i64, d: i64 },
}

/// An ask at the point (x, y), by a reader that is counted from 1, for an answer in the order `least` or a higher one, if it
/// is given.
#[derive(Clone, Copy, Debug, PartialEq, Eq)]
pub struct AskRow {
    pub reader: i64,
    pub kind: AskKind,
    pub x: Coordinate,
    pub y: Coordinate,
    pub least: Option<i64>,
}

/// The lines of a diagram, in `vars` variables, and asks about it. Where the word `settle` stands, it is after so many asks.
#[derive(Drop)]
pub struct TextFile {
    pub vars: i64,
    pub lines: Rows<LineRow>,
    pub asks: Rows<AskRow>,
    pub settle: Option<usize>,
    pub ghost variables: { pos 1 ≤ℤ vars },
    pub ghost valid: { AreLineRows vars lines },
    pub ghost valid_asks: { All IsAsk asks },
    pub ghost settled: { ForSome settle (λ n. n ≤ length asks) },
}

impl TextFile {
    /// A copy.
    pub fn copy(&self) -> Result<TextFile, AllocError>
        ensures vars { IfOk result (λ file. file.vars ≡ self.now.vars) }
        ensures lines { IfOk result (λ file. file.lines ≡ self.now.lines) }
        ensures asks { IfOk result (λ file. file.asks ≡ self.now.asks) }
        ensures settle { IfOk result (λ file. file.settle ≡ self.now.settle) }
    {
        let lines = copied_lines(self.lines.allocator(), self.lines.as_slice())?;
        Ok(TextFile {
            vars: self.vars,
            lines: Rows::from_vec(lines),
            asks: self.asks.copy()?,
            settle: self.settle,
        })
    }
}
