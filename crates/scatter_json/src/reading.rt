// From a JSON text to the lines of a diagram.
ghost use Rattle.std.specs.Prelude.{◌≡◌, Err, IfOk, MatchOption};
ghost use Rattle.serde_json.specs.View.{view};
ghost use Rattle.scatter_json.specs.JsonForm.{IsFile, IsJsonOf, IsJsonFault};
ghost use Rattle.scatter_json.specs.Parts.{SaysNo, IsHead};
ghost use Rattle.scatter_json.specs.declared.fault.JsonKind.TheVariants as kind;

use crate::fault::JsonFault;
use crate::lines::lines;
use crate::parts::{items, three_members, whole};
use scatter_text::{Rows, TextFile};
use serde_json::Value;
use std::alloc::{AllocError, Global};

/// The lines that a JSON text says: `Syntax` where it is the text of no value, `Shape` where its value isn't of the form.
/// `Memory` may come on any text.
pub fn read_json(alloc: Global, bytes: &[u8]) -> Result<TextFile, JsonFault>
    ensures file { IfOk result (IsJsonOf bytes.now) }
    ensures syntax { result ≡ Err JsonFault.Syntax → IsJsonFault bytes.now kind.Syntax }
    ensures shape { result ≡ Err JsonFault.Shape → IsJsonFault bytes.now kind.Shape }
{
    match Value::from_slice(alloc, bytes) {
        Ok(value) => match file(alloc, &value) {
            Ok(Some(file)) => Ok(file),
            Ok(None) => Err(JsonFault::Shape),
            Err(_) => Err(JsonFault::Memory),
        },
        Err(error) => {
            if error.is_memory() {
                Err(JsonFault::Memory)
            } else {
                Err(JsonFault::Syntax)
            }
        }
    }
}

/// The number of variables that the values of `scatter` and `vars` say.
fn head(scatter: &Value, vars: &Value) -> Option<i64>
    ensures { MatchOption result (SaysNo (IsHead (view scatter.now)) (view vars.now))
        (IsHead (view scatter.now) (view vars.now)) }
{
    let version = whole(scatter)?;
    let vars = whole(vars)?;
    if version == 1 && vars >= 1 {
        Some(vars)
    } else {
        None
    }
}

/// The file that a value says.
fn file(alloc: Global, value: &Value) -> Result<Option<TextFile>, AllocError>
    ensures { IfOk result (λ o. MatchOption o (SaysNo IsFile (view value.now))
        (IsFile (view value.now))) }
{
    let Some((rows, scatter, vars)) = three_members(value, "lines", "scatter", "vars") else {
        return Ok(None);
    };
    let Some(vars) = head(scatter, vars) else {
        return Ok(None);
    };
    let Some(rows) = items(rows) else {
        return Ok(None);
    };
    match lines(alloc, vars.unsigned_abs() as usize, rows)? {
        Some(lines) => Ok(Some(TextFile {
            vars,
            lines: Rows::from_vec(lines),
            asks: Rows::new(alloc),
            settle: None,
        })),
        None => Ok(None),
    }
}
