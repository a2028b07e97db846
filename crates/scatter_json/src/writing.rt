// The JSON text of a completed diagram.
ghost use Rattle.std.specs.Prelude.{◌≡◌, ◌≤◌, map, None, IfOk};
ghost use Rattle.limits.specs.Limits.{most_variables};
ghost use Rattle.serde_json.specs.View.{view};
ghost use Rattle.scatter_diagram.specs.Stopped.{cause_of, stop_of};
ghost use Rattle.scatter_json.specs.JsonText.{stopped_value, cut_object, diagram_value, IsDiagramValue, IsJsonText};

use crate::values::{line_values, ray_values};
use scatter_diagram::{Diagram, StopCause};
use scatter_text::cause_word;
use serde_json::{Value, json};
use std::alloc::{AllocError, Global};

/// `[J, CAUSE]`.
fn stopped_value(alloc: Global, order: u32, cause: StopCause) -> Result<Value, AllocError>
    ensures { IfOk result (λ value. view value ≡ stopped_value order (cause_of cause)) }
{
    let word = cause_word(cause);
    let value = json!(in alloc; [order, word])?;
    Ok(value)
}

/// The members of a diagram that was completed.
fn whole_value(
    alloc: Global,
    vars: u32,
    order: u32,
    lines: Vec<Value>,
    rays: Vec<Value>,
) -> Result<Value, AllocError>
    ensures { IfOk result (λ value. view value ≡ diagram_value vars order
        (map view lines.items) (map view rays.items) None) }
{
    let value = json!(in alloc; {
        "lines": lines, "order": order, "rays": rays, "scatter": 1u32, "vars": vars
    })?;
    Ok(value)
}

/// The members of a diagram where a later order was stopped.
fn cut_value(
    alloc: Global,
    vars: u32,
    order: u32,
    lines: Vec<Value>,
    rays: Vec<Value>,
    stopped: &Value,
) -> Result<Value, AllocError>
    ensures { IfOk result (λ value. view value ≡ cut_object vars order (map view lines.items)
        (map view rays.items) (view stopped.now)) }
{
    let value = json!(in alloc; {
        "lines": lines, "order": order, "rays": rays, "scatter": 1u32,
        "stopped": stopped, "vars": vars
    })?;
    Ok(value)
}

/// The members in the order of their keys. `stopped` is among them where a later order was stopped.
fn diagram_value(
    alloc: Global,
    e: &Diagram,
    vars: u32,
    stop: Option<(u32, StopCause)>,
) -> Result<Value, AllocError>
    requires { vars ≤ most_variables }
    ensures { IfOk result (λ value. IsDiagramValue vars e.now.order e.now.diagram (stop_of stop)
        (view value)) }
{
    let lines = line_values(alloc, e, vars as usize)?;
    let rays = ray_values(alloc, e, vars as usize)?;
    match stop {
        None => whole_value(alloc, vars, e.order(), lines, rays),
        Some((order, cause)) => {
            let stopped = stopped_value(alloc, order, cause)?;
            cut_value(alloc, vars, e.order(), lines, rays, &stopped)
        }
    }
}

/// The JSON text of a completed diagram in `vars` variables, from 1 to 8, on one line with no space. Where the computation
/// stopped at a later order, it has that order and the cause.
pub fn write_json(
    alloc: Global,
    e: &Diagram,
    vars: u32,
    stop: Option<(u32, StopCause)>,
) -> Result<Vec<u8>, AllocError>
    requires some { 1 ≤ vars }
    requires few { vars ≤ most_variables }
    ensures { IfOk result (λ text. IsJsonText vars e.now.order e.now.diagram (stop_of stop)
        text.items) }
{
    let value = diagram_value(alloc, e, vars, stop)?;
    let mut text = value.to_vec(alloc)?;
    text.push(b'\n')?;
    Ok(text)
}
