// The text of a completed diagram, piece by piece.
ghost use Rattle.std.specs.Prelude.{◌≡◌, ◌≤◌, ◌∷◌, OnOk, IfOk, pos, ◌≤ℤ◌, flat_map, map, decimal, codes, string_bytes};
ghost use Rattle.std.specs.Fmt.{signed_decimal};
ghost use Rattle.limits.specs.Limits.{most_variables};
ghost use Rattle.frac_128.specs.Text.{fraction_text};
ghost use Rattle.plane_geom.specs.Shown.{point_of, vector_of};
ghost use Rattle.scatter_diagram.specs.Shown.{wall_of};
ghost use Rattle.scatter_diagram.specs.Stopped.{cause_of, stop_of};
ghost use Rattle.scatter_text.specs.DiagramText.{row_text, IsWallText, AreWallTexts, cause_word, closing_text, IsDiagramText};
ghost use Rattle.scatter_text.specs.PrintedRows.{row_of, IsHeading, IsRatioText, Continues, ContinuesSome, ContinuesRatio};

use crate::along::{PrintedRow, rows_along};
use frac_128::Fraction;
use plane_geom::{Direction, Point};
use scatter_diagram::{Diagram, StopCause, Wall};
use std::alloc::{AllocError, Global};

/// Appends a space and the number.
pub(crate) fn push_signed(text: &mut String, n: i128) -> Result<(), AllocError>
    ensures { OnOk result (Continues text.old text.new (32 ∷ signed_decimal n)) }
{
    write!(text, " {n}")
}

/// Appends a space and the number.
fn push_unsigned(text: &mut String, n: u32) -> Result<(), AllocError>
    ensures { OnOk result (Continues text.old text.new (32 ∷ decimal n)) }
{
    write!(text, " {n}")
}

/// Appends a space and each number.
pub(crate) fn push_powers(text: &mut String, powers: &[u8]) -> Result<(), AllocError>
    ensures { OnOk result (Continues text.old text.new (flat_map (λ n. 32 ∷ decimal n) powers.now)) }
{
    for power in powers {
        push_unsigned(text, u32::from(*power))?;
    }
    Ok(())
}

/// Appends `term C J P1 .. PR`.
fn push_row(text: &mut String, row: &PrintedRow, vars: usize) -> Result<(), AllocError>
    requires { vars ≤ most_variables }
    ensures { OnOk result (Continues text.old text.new (row_text vars (row_of row.now))) }
{
    text.push_str("term")?;
    push_signed(text, row.c)?;
    push_unsigned(text, row.j)?;
    push_powers(text, &row.powers[..vars])?;
    text.push_str("\n")
}

/// Appends the lines of terms, in their order.
fn push_rows(text: &mut String, rows: &[PrintedRow], vars: usize) -> Result<(), AllocError>
    requires { vars ≤ most_variables }
    ensures { OnOk result (Continues text.old text.new
        (flat_map (row_text vars) (map row_of rows.now))) }
{
    for row in rows {
        push_row(text, row, vars)?;
    }
    Ok(())
}

/// `P`, or `P/Q` with Q at least 2.
fn fraction_text(alloc: Global, q: Fraction) -> Result<String, AllocError>
    ensures { IfOk result (λ text. string_bytes text ≡ fraction_text q.num q.den) }
{
    let bytes = q.print(alloc)?;
    match String::from_utf8(bytes) {
        Ok(text) => Ok(text),
        Err(_) => unreachable!(),
    }
}

/// The spelling of x/w in lowest terms: `P`, or `P/Q` with Q at least 2.
pub fn coordinate_text(alloc: Global, x: i64, w: i64) -> Result<String, AllocError>
    requires { pos 1 ≤ℤ w }
    ensures { IfOk result (λ text. IsRatioText x w (string_bytes text)) }
{
    fraction_text(alloc, Fraction::new(i128::from(x), i128::from(w)))
}

/// Appends a space and x/w in lowest terms.
pub(crate) fn push_coordinate(
    text: &mut String,
    alloc: Global,
    x: i64,
    w: i64,
) -> Result<(), AllocError>
    requires { pos 1 ≤ℤ w }
    ensures { OnOk result (ContinuesRatio text.old text.new x w) }
{
    let spelled = coordinate_text(alloc, x, w)?;
    text.push_str(" ")?;
    text.push_str(spelled.as_str())
}

/// Appends `WORD DX DY at X Y`.
fn push_heading(
    text: &mut String,
    alloc: Global,
    word: &str,
    dir: &Direction,
    at: &Point,
) -> Result<(), AllocError>
    ensures { OnOk result (ContinuesSome text.old text.new
        (IsHeading word.now (vector_of dir.now) (point_of at.now))) }
{
    text.push_str(word)?;
    push_signed(text, i128::from(dir.a))?;
    push_signed(text, i128::from(dir.b))?;
    text.push_str(" at")?;
    push_coordinate(text, alloc, at.x, at.w)?;
    push_coordinate(text, alloc, at.y, at.w)?;
    text.push_str("\n")
}

/// Appends a wall under this word: its heading, and the lines of its terms.
fn push_wall(
    text: &mut String,
    alloc: Global,
    word: &str,
    wall: &Wall,
    vars: usize,
) -> Result<(), AllocError>
    requires { vars ≤ most_variables }
    ensures { OnOk result (ContinuesSome text.old text.new
        (IsWallText word.now vars (wall_of wall.now))) }
{
    let rows = rows_along(alloc, wall)?;
    push_heading(text, alloc, word, &wall.dir, &wall.at)?;
    push_rows(text, rows.as_slice(), vars)
}

/// Appends the lines of a diagram, in their order.
fn push_lines(text: &mut String, alloc: Global, e: &Diagram, vars: usize) -> Result<(), AllocError>
    requires { vars ≤ most_variables }
    ensures { OnOk result (ContinuesSome text.old text.new
        (AreWallTexts (codes "line") vars e.now.diagram.initial)) }
{
    for i in 0..e.line_count() {
        push_wall(text, alloc, "line", e.line(i), vars)?;
    }
    Ok(())
}

/// Appends the rays of a diagram, in their order.
fn push_rays(text: &mut String, alloc: Global, e: &Diagram, vars: usize) -> Result<(), AllocError>
    requires { vars ≤ most_variables }
    ensures { OnOk result (ContinuesSome text.old text.new
        (AreWallTexts (codes "ray") vars e.now.diagram.rays)) }
{
    for i in 0..e.ray_count() {
        push_wall(text, alloc, "ray", e.ray(i), vars)?;
    }
    Ok(())
}

/// The word of a cause.
pub fn cause_word(cause: StopCause) -> &'static str
    ensures { result.now ≡ cause_word (cause_of cause) }
{
    match cause {
        StopCause::PointTooLarge => "points",
        StopCause::WeightTooLarge => "weights",
        StopCause::TooManyWalls => "walls",
    }
}

/// Appends `end`, or `stopped J CAUSE`.
pub fn push_closing(text: &mut String, stop: Option<(u32, StopCause)>) -> Result<(), AllocError>
    ensures { OnOk result (Continues text.old text.new (closing_text (stop_of stop))) }
{
    match stop {
        None => text.push_str("end\n"),
        Some((order, cause)) => {
            let word = cause_word(cause);
            write!(text, "stopped {order} {word}\n")
        }
    }
}

/// The text of a completed diagram in `vars` variables, from 1 to 8. It ends with `end`, or where the computation stopped
/// at a later order with that order and the cause.
pub fn write_diagram(
    alloc: Global,
    e: &Diagram,
    vars: u32,
    stop: Option<(u32, StopCause)>,
) -> Result<Vec<u8>, AllocError>
    requires some { 1 ≤ vars }
    requires few { vars ≤ most_variables }
    ensures { IfOk result (λ text. IsDiagramText vars e.now.order e.now.diagram (stop_of stop)
        text.items) }
{
    let order = e.order();
    let mut text = format!(in alloc; "scatter 1\nvars {vars}\norder {order}\n")?;
    push_lines(&mut text, alloc, e, vars as usize)?;
    push_rays(&mut text, alloc, e, vars as usize)?;
    push_closing(&mut text, stop)?;
    Ok(text.into_bytes())
}
