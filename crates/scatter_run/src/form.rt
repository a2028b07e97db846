//! The forms of inputs and of what is printed for them.
ghost use Rattle.std.specs.Prelude.{◌≡◌, ◌≤◌, ℕ, length, Err, IfOk};
ghost use Rattle.limits.specs.Limits.{most_bytes};
ghost use Rattle.scatter_text.specs.declared.fault.TextKind.{TextKind as KindOfText};
ghost use Rattle.scatter_text.specs.Grammar.{IsTextIn, IsFaultIn};
ghost use Rattle.scatter_json.specs.declared.fault.JsonKind.{JsonKind as KindOfJson};
ghost use Rattle.scatter_run.specs.Form.{IsFileIn, IsBadTextIn, IsBadJsonIn};

use scatter_json::{JsonFault, JsonKind, read_json};
use scatter_text::{TextFault, TextFile, TextKind, TextMode, read_text};
use std::alloc::Global;

/// What is read, and what is printed for it.
#[derive(Clone, Copy, Debug, PartialEq, Eq)]
pub(crate) enum Form {
    /// Lines as text, and the text of their completion.
    Text,
    /// The same, each as a JSON value.
    Json,
    /// Lines with asks as text, and the text of the answers.
    Asks,
}

/// Why the bytes of an input say no lines.
#[derive(Clone, Copy, Debug, PartialEq, Eq)]
pub(crate) enum FileFault {
    Text { line: u32, kind: TextKind },
    Json { kind: JsonKind },
    Memory,
}

/// The lines that the bytes say in this form.
pub(crate) fn read_file(alloc: Global, form: Form, bytes: &[u8]) -> Result<TextFile, FileFault>
    requires { length bytes.now ≤ most_bytes }
    ensures file { IfOk result (IsFileIn form bytes.now) }
    ensures text { (line : ℕ) (kind : KindOfText) → result ≡ Err (FileFault.Text line kind)
        → IsBadTextIn form bytes.now line kind }
    ensures json { (kind : KindOfJson) → result ≡ Err (FileFault.Json kind)
        → IsBadJsonIn form bytes.now kind }
{
    match form {
        Form::Text => text_file(alloc, TextMode::Lines, bytes),
        Form::Json => json_file(alloc, bytes),
        Form::Asks => text_file(alloc, TextMode::Asks, bytes),
    }
}

/// The file that a text says.
fn text_file(alloc: Global, mode: TextMode, bytes: &[u8]) -> Result<TextFile, FileFault>
    requires { length bytes.now ≤ most_bytes }
    ensures file { IfOk result (IsTextIn mode bytes.now) }
    ensures text { (line : ℕ) (kind : KindOfText) → result ≡ Err (FileFault.Text line kind)
        → IsFaultIn mode bytes.now line kind }
    ensures json { (kind : KindOfJson) → result ≡ Err (FileFault.Json kind) → ⊥ }
{
    match read_text(alloc, bytes, mode) {
        Ok(file) => Ok(file),
        Err(TextFault::Bad { line, kind }) => Err(FileFault::Text { line, kind }),
        Err(TextFault::Memory) => Err(FileFault::Memory),
    }
}

/// The lines that a JSON text says.
fn json_file(alloc: Global, bytes: &[u8]) -> Result<TextFile, FileFault>
    ensures file { IfOk result (IsFileIn Form.Json bytes.now) }
    ensures text { (line : ℕ) (kind : KindOfText) → result ≡ Err (FileFault.Text line kind) → ⊥ }
    ensures json { (kind : KindOfJson) → result ≡ Err (FileFault.Json kind)
        → IsBadJsonIn Form.Json bytes.now kind }
{
    match read_json(alloc, bytes) {
        Ok(file) => Ok(file),
        Err(JsonFault::Syntax) => Err(FileFault::Json {
            kind: JsonKind::Syntax,
        }),
        Err(JsonFault::Shape) => Err(FileFault::Json {
            kind: JsonKind::Shape,
        }),
        Err(JsonFault::Memory) => Err(FileFault::Memory),
    }
}
