// Reading a text line by line, by what the rows before a line allow.
ghost use Rattle.std.specs.Prelude.{◌≡◌, List, ℕ, ◌≤◌, [], ◌∷◌, length, IfOk};
ghost use Rattle.limits.specs.Limits.{most_bytes};
ghost use Rattle.scatter_text.specs.Grammar.{IsTextIn, IsFaultIn, file_text, file_rows, HasValues, IsBadLine, IsFaultAtEnd};
ghost use Rattle.scatter_text.specs.Reading.{IfBad, IsUnvaluedLine};
ghost use Rattle.scatter_text.specs.Stages.{rows_of, Follows, AreRead};
ghost use Rattle.scatter_text.specs.declared.fault.TextKind.{TextKind};
ghost use Rattle.scatter_text.specs.declared.grammar.TextMode.{TextMode};
ghost use Rattle.scatter_text.specs.declared.file.TextFile.{TextFile};

use crate::ask_list::AskList;
use crate::fault::{TextFault, TextKind};
use crate::file::TextFile;
use crate::grammar::TextMode;
use crate::line::{LineFault, row_at};
use crate::number::find_byte;
use crate::row::Row;
use crate::rows::Rows;
use crate::stage::Stage;
use std::alloc::Global;

/// The file that a text says, or `Bad` with its first fault: the line, counted from 1, and the kind. In the mode `Lines` asks are
/// faults. `Memory` may come on any text.
pub fn read_text(alloc: Global, bytes: &[u8], mode: TextMode) -> Result<TextFile, TextFault>
    requires { length bytes.now ≤ most_bytes }
    ensures file { IfOk result (IsTextIn mode bytes.now) }
    ensures spelling { IfOk result (λ file. bytes.now ≡ file_text file) }
    ensures fault { (line : ℕ) (kind : TextKind) → result ≡ Err (TextFault.Bad line kind)
        → IsFaultIn mode bytes.now line kind }
{
    let mut stage = Stage::Start;
    let mut rest = bytes;
    let mut number: u32 = 1;
    while let Some(end) = find_byte(rest, b'\n') {
        match next(alloc, mode, stage, &rest[..end]) {
            Ok(more) => stage = more,
            Err(fault) => return Err(at(fault, number)),
        }
        rest = &rest[end + 1..];
        number += 1;
    }
    finish(stage, rest, number)
}

/// In no mode a text has both a file and a fault, nor two faults, nor two files.
pub fn one_outcome()
    ensures file_or_fault { (mode : TextMode) (bytes : List ℕ) (file : TextFile) (line : ℕ)
        (kind : TextKind) → IsTextIn mode bytes file → IsFaultIn mode bytes line kind → ⊥ }
    ensures one_fault { (mode : TextMode) (bytes : List ℕ) (l m : ℕ) (k j : TextKind)
        → IsFaultIn mode bytes l k → IsFaultIn mode bytes m j → (l ≡ m) × (k ≡ j) }
    ensures one_file { (mode : TextMode) (bytes : List ℕ) (f g : TextFile)
        → IsTextIn mode bytes f → IsTextIn mode bytes g
        → (f.vars ≡ g.vars) × (f.lines ≡ g.lines) × (f.asks ≡ g.asks) × (f.settle ≡ g.settle) }
{}

/// A line's fault as that of a text.
fn at(fault: LineFault, line: u32) -> TextFault
    ensures { (at : ℕ) (kind : TextKind) → result ≡ TextFault.Bad at kind
        → (at ≡ line) × (fault ≡ LineFault.Bad kind) }
{
    match fault {
        LineFault::Bad(kind) => TextFault::Bad { line, kind },
        LineFault::Memory => TextFault::Memory,
    }
}

/// The stage after one line more.
fn next(alloc: Global, mode: TextMode, stage: Stage, line: &[u8]) -> Result<Stage, LineFault>
    ensures ok { IfOk result (λ more. Follows mode (rows_of stage) line.now (rows_of more)) }
    ensures bad { IfBad result (IsBadLine mode (rows_of stage) line.now) }
{
    let row = allowed_row(alloc, mode, &stage, line)?;
    Ok(stage.with(alloc, row)?)
}

/// The row of a line that comes next, if the line is good.
fn allowed_row(alloc: Global, mode: TextMode, stage: &Stage, line: &[u8]) -> Result<Row, LineFault>
    ensures row { IfOk result (IsUnvaluedLine mode (rows_of stage.now) line.now) }
    ensures values { IfOk result (λ row. HasValues (rows_of stage.now) row.keyword row.values) }
    ensures bad { IfBad result (IsBadLine mode (rows_of stage.now) line.now) }
{
    let row = row_at(alloc, mode, stage.place(), stage.variables(), line)?;
    if !stage.allows(alloc, &row)? {
        return Err(LineFault::Bad(TextKind::Value));
    }
    Ok(row)
}

/// The file of a text whose lines are read, with what stands after the last line feed.
fn finish(stage: Stage, rest: &[u8], line: u32) -> Result<TextFile, TextFault>
    requires { AreRead (rows_of stage) }
    ensures ok { IfOk result (λ file. (rest.now ≡ []) × (file_rows file ≡ rows_of stage)) }
    ensures bad { (at : ℕ) (kind : TextKind) → result ≡ Err (TextFault.Bad at kind)
        → (at ≡ line) × IsFaultAtEnd (rows_of stage) rest.now kind }
{
    if !rest.is_empty() {
        let kind = TextKind::Unfinished;
        return Err(TextFault::Bad { line, kind });
    }
    match stage {
        Stage::Whole { vars, lines, asks } => {
            let AskList { asks, settle } = asks;
            Ok(TextFile {
                vars,
                lines: Rows::from_vec(lines),
                asks: Rows::from_vec(asks),
                settle,
            })
        }
        _ => {
            let kind = TextKind::Missing;
            Err(TextFault::Bad { line, kind })
        }
    }
}
