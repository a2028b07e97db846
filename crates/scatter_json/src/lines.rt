// The lines of a diagram.
ghost use Rattle.std.specs.Prelude.{IfOk, MatchOption};
ghost use Rattle.serde_json.specs.View.{view};
ghost use Rattle.scatter_json.specs.Parts.{SaysNo, SayEach, SayNone, SaysPoint, SaysDirection, IsValidLine};

use crate::parts::{coordinate, items, three_members, two_items, whole};
use crate::terms::with_terms;
use scatter_text::{Coordinate, LineRow, OpenLine, is_primitive};
use serde_json::Value;
use std::alloc::{AllocError, Global};

/// The point that a value says.
fn point(value: &Value) -> Option<(Coordinate, Coordinate)>
    ensures { MatchOption result (SaysNo SaysPoint (view value.now)) (SaysPoint (view value.now)) }
{
    let (x, y) = two_items(value)?;
    let x = coordinate(x)?;
    let y = coordinate(y)?;
    Some((x, y))
}

/// The primitive direction that a value says.
fn direction(value: &Value) -> Option<(i64, i64)>
    ensures { MatchOption result (SaysNo SaysDirection (view value.now))
        (SaysDirection (view value.now)) }
{
    let (dx, dy) = two_items(value)?;
    let dx = whole(dx)?;
    let dy = whole(dy)?;
    if is_primitive(dx, dy) {
        Some((dx, dy))
    } else {
        None
    }
}

/// The line that a value says, if the rules on values hold of it.
fn line(alloc: Global, vars: usize, value: &Value) -> Result<Option<LineRow>, AllocError>
    ensures { IfOk result (λ o. MatchOption o (SaysNo (IsValidLine vars) (view value.now))
        (IsValidLine vars (view value.now))) }
{
    let Some((at, dir, terms)) = three_members(value, "at", "dir", "terms") else {
        return Ok(None);
    };
    let Some((x, y)) = point(at) else {
        return Ok(None);
    };
    let Some((dx, dy)) = direction(dir) else {
        return Ok(None);
    };
    let Some(terms) = items(terms) else {
        return Ok(None);
    };
    let line = OpenLine::new(alloc, dx, dy, x, y);
    match with_terms(alloc, vars, line, terms)? {
        Some(line) => Ok(Some(line.row)),
        None => Ok(None),
    }
}

/// The lines that values say, if each says one of which the rules on values hold.
pub(crate) fn lines(
    alloc: Global,
    vars: usize,
    values: &[Value],
) -> Result<Option<Vec<LineRow>>, AllocError>
    ensures { IfOk result (λ o. MatchOption o (SayNone (IsValidLine vars) values.now)
        (λ v. SayEach (IsValidLine vars) values.now v.items)) }
{
    let mut lines = Vec::with_capacity(alloc, values.len())?;
    for value in values {
        match line(alloc, vars, value)? {
            Some(line) => {
                lines.push(line)?;
            }
            None => return Ok(None),
        }
    }
    Ok(Some(lines))
}
