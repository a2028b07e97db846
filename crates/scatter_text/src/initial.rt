// The lines that a file says, as walls.
ghost use Rattle.std.specs.Prelude.{◌≡◌, ◌≤◌, ◌*◌, ◌*ℤ◌, ◌++◌, [], ◌∷◌, nat_abs, length, false, All, IfOk, OnOk};
ghost use Rattle.limits.specs.Limits.{highest_order, largest_given_exponent, largest_power, most_variables};
ghost use Rattle.scattering.specs.Series.{cut};
ghost use Rattle.plane_geom.specs.Shown.{vector_of, point_of};
ghost use Rattle.trunc_series.specs.Shown.{powers_of, key_of, sum_of};
ghost use Rattle.scatter_text.specs.Values.{AreCoprime, IsCoordinate};
ghost use Rattle.scatter_text.specs.Limits.{is_far, IsWithinLimits};
ghost use Rattle.scatter_text.specs.GivenWalls.{powers_at, term_given, sum_given, function_of, direction_of, IsInitialOf};
ghost use Rattle.scatter_text.specs.LimitedLines.{IsLimitedLine, IsLimitedTerm, IsPlace, IsCutLineOf};

use crate::file::{Coordinate, LineRow, TermRow, TextFile};
use limits::HIGHEST_ORDER;
use plane_geom::{Direction, Point};
use scatter_diagram::{Initial, Wall};
use std::alloc::{AllocError, Global};
use trunc_series::{Exp, Key, Series};

fn product(a: i64, b: i64) -> i128
    ensures { result ≡ a *ℤ b }
{
    i128::from(a) * i128::from(b)
}

/// The point (x, y).
pub(crate) fn place(x: &Coordinate, y: &Coordinate) -> Point
    requires x { IsCoordinate x.now }
    requires y { IsCoordinate y.now }
    requires near { is_far x.now y.now ≡ false }
    ensures { IsPlace x.now y.now (point_of result) }
{
    let near = Point::new(
        product(x.num, y.den),
        product(y.num, x.den),
        product(x.den, y.den),
    );
    near.unwrap()
}

fn direction(line: &LineRow) -> Direction
    requires primitive { AreCoprime (nat_abs line.now.dx) (nat_abs line.now.dy) }
    requires x { nat_abs line.now.dx ≤ largest_given_exponent }
    requires y { nat_abs line.now.dy ≤ largest_given_exponent }
    ensures { vector_of result ≡ direction_of line.now }
{
    Direction {
        a: line.dx as i32,
        b: line.dy as i32,
    }
}

/// One number of the exponent of a term.
fn exponent(j: i64, d: i64) -> i32
    requires { nat_abs j * nat_abs d ≤ largest_given_exponent }
    ensures { result ≡ j *ℤ d }
{
    (j * d) as i32
}

/// The powers of eight variables, of which the last may not be given.
fn all_powers(given: &[i64]) -> [u8; 8]
    requires count { length given.now ≤ most_variables }
    requires small { All (λ a. nat_abs a ≤ largest_power) given.now }
    ensures { powers_of result ≡ powers_at given.now }
{
    let mut powers = [0u8; 8];
    for (i, power) in given.iter().enumerate() {
        powers[i] = power.unsigned_abs() as u8;
    }
    powers
}

fn key_of(line: &LineRow, term: &TermRow) -> Key
    requires { IsLimitedTerm line.now.dx line.now.dy term.now }
    ensures { key_of result ≡ (term_given (direction_of line.now) term.now).0 }
{
    Key {
        exp: Exp {
            a: exponent(term.j, line.dx),
            b: exponent(term.j, line.dy),
        },
        powers: all_powers(term.powers.as_slice()),
    }
}

/// Appends a term, unless its degree is above the highest order.
fn push_low(out: &mut Vec<(Key, i128)>, key: Key, c: i128) -> Result<(), AllocError>
    ensures { OnOk result (sum_of out.new.items ≡ sum_of out.old.items ++ cut highest_order
        ((key_of key, c) ∷ [])) }
{
    if key.degree() <= HIGHEST_ORDER {
        out.push((key, c))?;
    }
    Ok(())
}

/// 1 and the terms up to the highest order.
fn terms_of(alloc: Global, line: &LineRow) -> Result<Vec<(Key, i128)>, AllocError>
    requires { IsLimitedLine line.now }
    ensures { IfOk result (λ r. sum_of r.items
        ≡ cut highest_order (sum_given (direction_of line.now) line.now.terms)) }
{
    let one = Key {
        exp: Exp { a: 0, b: 0 },
        powers: [0; 8],
    };
    let mut out = vec![in alloc; (one, 1)]?;
    for term in line.terms.as_slice() {
        push_low(&mut out, key_of(line, term), i128::from(term.c))?;
    }
    Ok(out)
}

/// The function of a line up to the highest order.
fn function_of(alloc: Global, line: &LineRow) -> Result<Series, AllocError>
    requires { IsLimitedLine line.now }
    ensures { IfOk result (λ f. f ≡ record {
      order = highest_order;
      terms = cut highest_order (function_of (direction_of line.now) line.now.terms);
    }) }
{
    let terms = terms_of(alloc, line)?;
    Series::from_terms(alloc, HIGHEST_ORDER, terms.as_slice())
}

/// The line of a row, cut to the highest order.
fn line_of(alloc: Global, line: &LineRow) -> Result<Wall, AllocError>
    requires { IsLimitedLine line.now }
    ensures { IfOk result (IsCutLineOf line.now) }
{
    let function = function_of(alloc, line)?;
    Ok(Wall::line(place(&line.x, &line.y), direction(line), function))
}

/// The lines that a file within the limits says, in order, to be completed up to the highest order: terms of a higher
/// degree are left out.
pub fn initial_of(alloc: Global, file: &TextFile) -> Result<Initial, AllocError>
    requires { IsWithinLimits file.now }
    ensures { IfOk result (IsInitialOf file.now) }
{
    let rows = file.lines.as_slice();
    let mut lines = Vec::with_capacity(alloc, rows.len())?;
    for row in rows {
        lines.push(line_of(alloc, row)?)?;
    }
    Ok(Initial::new(file.vars as u32, lines))
}
