//! What a job answers on the bytes of its input.
ghost use Rattle.std.specs.Prelude.{◌≡◌, ◌≤◌, length, IfOk, string_bytes};
ghost use Rattle.limits.specs.Limits.{highest_order, most_bytes, most_readers, most_workers};
ghost use Rattle.scatter_run.specs.Checked.{IsChecked};
ghost use Rattle.scatter_run.specs.Outcome.{IsFormOutcome, IsSessionOutcome, bad_text, bad_json_text, limit_fault_text};

use crate::completing::complete;
use crate::form::{FileFault, Form, read_file};
use crate::holding::hold;
use crate::status::Status;
use outside_io::Gate;
use scatter_json::JsonKind;
use scatter_text::{LimitKind, TextFile, TextKind, check_limits};
use std::alloc::{AllocError, Global};
use std::sync::Wait;
use std::thread::Threads;

/// A status with the text that goes with it.
#[derive(Drop)]
pub(crate) struct Answer {
    pub(crate) status: Status,
    pub(crate) text: Vec<u8>,
}

/// What is found of the bytes of an input.
#[derive(Drop)]
pub(crate) enum Checked {
    /// They say this file, which is within the limits.
    File(TextFile),
    /// They say none; this is why.
    Refused(Answer),
}

/// The file that these bytes say in this form, if it passes no limit where it is to be completed to the order and asked by
/// so many readers.
fn check(
    alloc: Global,
    form: Form,
    order: u32,
    readers: u32,
    bytes: &[u8],
) -> Result<Checked, AllocError>
    requires { length bytes.now ≤ most_bytes }
    ensures { IfOk result (IsChecked form order readers bytes.now) }
{
    match read_file(alloc, form, bytes) {
        Ok(file) => match check_limits(&file, order, readers) {
            None => Ok(Checked::File(file)),
            Some(which) => Ok(Checked::Refused(Answer {
                status: Status::Limit { which },
                text: limit_fault(alloc, which)?.into_bytes(),
            })),
        },
        Err(FileFault::Text { line, kind }) => Ok(Checked::Refused(Answer {
            status: Status::Text { line, kind },
            text: text_fault(alloc, line, kind)?.into_bytes(),
        })),
        Err(FileFault::Json { kind }) => Ok(Checked::Refused(Answer {
            status: Status::Json { kind },
            text: json_fault(alloc, kind)?.into_bytes(),
        })),
        Err(FileFault::Memory) => Err(AllocError),
    }
}

/// What a completion answers on these bytes, which are in this form.
pub(crate) fn answer_to<R: Threads + Sync, G: Gate>(
    rt: &R,
    alloc: Global,
    form: Form,
    order: u32,
    workers: u32,
    bytes: &[u8],
    gate: &G,
) -> Result<Answer, AllocError>
    requires short { length bytes.now ≤ most_bytes }
    requires order { order ≤ highest_order }
    requires some { 1 ≤ workers }
    requires few { workers ≤ most_workers }
    ensures { IfOk result (λ a. IsFormOutcome form order bytes.now a.status a.text.items) }
{
    match check(alloc, form, order, 1, bytes)? {
        Checked::File(file) => complete(rt, alloc, form, &file, order, workers, gate),
        Checked::Refused(answer) => Ok(answer),
    }
}

/// What a session of so many readers answers on these bytes.
pub(crate) fn answer_in_session<R: Threads + Wait + Sync, G: Gate>(
    rt: &R,
    alloc: Global,
    order: u32,
    workers: u32,
    readers: u32,
    bytes: &[u8],
    gate: &G,
) -> Result<Answer, AllocError>
    requires short { length bytes.now ≤ most_bytes }
    requires order { order ≤ highest_order }
    requires some_workers { 1 ≤ workers }
    requires few_workers { workers ≤ most_workers }
    requires some_readers { 1 ≤ readers }
    requires few_readers { readers ≤ most_readers }
    ensures { IfOk result
        (λ a. IsSessionOutcome order readers bytes.now a.status a.text.items) }
{
    match check(alloc, Form::Asks, order, readers, bytes)? {
        Checked::File(file) => hold(rt, alloc, &file, order, workers, readers, gate),
        Checked::Refused(answer) => Ok(answer),
    }
}

/// The line of a bad text.
fn text_fault(alloc: Global, line: u32, kind: TextKind) -> Result<String, AllocError>
    ensures { IfOk result (λ text. string_bytes text ≡ bad_text line kind) }
{
    let mut text = String::from_str(alloc, "fault text")?;
    write!(&mut text, " {line}")?;
    text.push_str(" ")?;
    text.push_str(kind.word())?;
    text.push_str("\n")?;
    Ok(text)
}

/// The line of a bad JSON text.
fn json_fault(alloc: Global, kind: JsonKind) -> Result<String, AllocError>
    ensures { IfOk result (λ text. string_bytes text ≡ bad_json_text kind) }
{
    let word = kind.word();
    format!(in alloc; "fault json {word}\n")
}

/// The line of a limit that is passed.
fn limit_fault(alloc: Global, which: LimitKind) -> Result<String, AllocError>
    ensures { IfOk result (λ text. string_bytes text ≡ limit_fault_text which) }
{
    let word = which.word();
    format!(in alloc; "fault limit {word}\n")
}
