// The values of rows and walls.
ghost use Rattle.std.specs.Prelude.{◌≡◌, ◌≤◌, [], ◌∷◌, map, string_bytes, IfOk};
ghost use Rattle.std.specs.Fmt.{signed_decimal};
ghost use Rattle.std.specs.List.{AllZip};
ghost use Rattle.limits.specs.Limits.{most_variables};
ghost use Rattle.serde_json.specs.Data.{string};
ghost use Rattle.serde_json.specs.View.{view};
ghost use Rattle.plane_geom.specs.Shown.{point_of, vector_of};
ghost use Rattle.scatter_diagram.specs.Shown.{wall_of};
ghost use Rattle.scatter_text.specs.PrintedRows.{row_of};
ghost use Rattle.scatter_json.specs.JsonText.{list, natural, row_value, direction_value, wall_object, IsPointValue, IsWallValue};

use plane_geom::{Direction, Point};
use scatter_diagram::{Diagram, Wall};
use scatter_text::{PrintedRow, coordinate_text, rows_along};
use serde_json::{Value, json};
use std::alloc::{AllocError, Global};

/// Powers as whole numbers.
fn power_values(alloc: Global, powers: &[u8]) -> Result<Vec<Value>, AllocError>
    ensures { IfOk result (λ values. map view values.items ≡ map natural powers.now) }
{
    let mut values = Vec::with_capacity(alloc, powers.len())?;
    for power in powers {
        values.push(Value::from(*power))?;
    }
    Ok(values)
}

/// The digits of a coefficient.
fn coefficient_text(alloc: Global, c: i128) -> Result<String, AllocError>
    ensures { IfOk result (λ text. string_bytes text ≡ signed_decimal c) }
{
    format!(in alloc; "{c}")
}

/// A text, a number and an array, in an array.
fn three_values(
    alloc: Global,
    text: String,
    n: u32,
    values: Vec<Value>,
) -> Result<Value, AllocError>
    ensures { IfOk result (λ value. view value ≡ list (string (string_bytes text) ∷ natural n
        ∷ list (map view values.items) ∷ [])) }
{
    let value = json!(in alloc; [text, n, values])?;
    Ok(value)
}

/// `[C, J, [P1, .., PR]]`.
fn row_value(alloc: Global, row: &PrintedRow, vars: usize) -> Result<Value, AllocError>
    requires { vars ≤ most_variables }
    ensures { IfOk result (λ value. view value ≡ row_value vars (row_of row.now)) }
{
    let text = coefficient_text(alloc, row.c)?;
    let powers = power_values(alloc, &row.powers[..vars])?;
    let value = three_values(alloc, text, row.j, powers)?;
    Ok(value)
}

/// The terms of a wall, in their order.
fn row_values(alloc: Global, rows: &[PrintedRow], vars: usize) -> Result<Vec<Value>, AllocError>
    requires { vars ≤ most_variables }
    ensures { IfOk result
        (λ values. map view values.items ≡ map (row_value vars) (map row_of rows.now)) }
{
    let mut values = Vec::with_capacity(alloc, rows.len())?;
    for row in rows {
        values.push(row_value(alloc, row, vars)?)?;
    }
    Ok(values)
}

/// Two texts in an array.
fn two_texts(alloc: Global, x: String, y: String) -> Result<Value, AllocError>
    ensures { IfOk result (λ value. view value ≡ list (string (string_bytes x)
        ∷ string (string_bytes y) ∷ [])) }
{
    let value = json!(in alloc; [x, y])?;
    Ok(value)
}

/// `[X, Y]`.
fn point_value(alloc: Global, at: &Point) -> Result<Value, AllocError>
    ensures { IfOk result (λ value. IsPointValue (point_of at.now) (view value)) }
{
    let x = coordinate_text(alloc, at.x, at.w)?;
    let y = coordinate_text(alloc, at.y, at.w)?;
    let value = two_texts(alloc, x, y)?;
    Ok(value)
}

/// `[DX, DY]`.
fn direction_value(alloc: Global, dir: &Direction) -> Result<Value, AllocError>
    ensures { IfOk result (λ value. view value ≡ direction_value (vector_of dir.now)) }
{
    let value = json!(in alloc; [dir.a, dir.b])?;
    Ok(value)
}

/// An object of these members.
fn wall_members(
    alloc: Global,
    at: Value,
    dir: Value,
    terms: Vec<Value>,
) -> Result<Value, AllocError>
    ensures { IfOk result (λ value. view value ≡ wall_object (view at) (view dir)
        (map view terms.items)) }
{
    let value = json!(in alloc; {"at": at, "dir": dir, "terms": terms})?;
    Ok(value)
}

/// `{"at": [X, Y], "dir": [DX, DY], "terms": [..]}`.
fn wall_value(alloc: Global, wall: &Wall, vars: usize) -> Result<Value, AllocError>
    requires { vars ≤ most_variables }
    ensures { IfOk result (λ value. IsWallValue vars (wall_of wall.now) (view value)) }
{
    let rows = rows_along(alloc, wall)?;
    let terms = row_values(alloc, rows.as_slice(), vars)?;
    let at = point_value(alloc, &wall.at)?;
    let dir = direction_value(alloc, &wall.dir)?;
    let value = wall_members(alloc, at, dir, terms)?;
    Ok(value)
}

/// The lines of a diagram, in their order.
pub(crate) fn line_values(alloc: Global, e: &Diagram, vars: usize) -> Result<Vec<Value>, AllocError>
    requires { vars ≤ most_variables }
    ensures { IfOk result
        (λ values. AllZip (IsWallValue vars) e.now.diagram.initial (map view values.items)) }
{
    let mut values = Vec::with_capacity(alloc, e.line_count())?;
    for i in 0..e.line_count() {
        values.push(wall_value(alloc, e.line(i), vars)?)?;
    }
    Ok(values)
}

/// The rays of a diagram, in their order.
pub(crate) fn ray_values(alloc: Global, e: &Diagram, vars: usize) -> Result<Vec<Value>, AllocError>
    requires { vars ≤ most_variables }
    ensures { IfOk result
        (λ values. AllZip (IsWallValue vars) e.now.diagram.rays (map view values.items)) }
{
    let mut values = Vec::with_capacity(alloc, e.ray_count())?;
    for i in 0..e.ray_count() {
        values.push(wall_value(alloc, e.ray(i), vars)?)?;
    }
    Ok(values)
}
