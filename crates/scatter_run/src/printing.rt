//! What is printed of a completion, in each form.
ghost use Rattle.std.specs.Prelude.{◌≡◌, ◌≤◌, length, IfOk};
ghost use Rattle.limits.specs.Limits.{most_asks, most_variables, most_workers};
ghost use Rattle.scatter_diagram.specs.Stopped.{stop_of};
ghost use Rattle.scatter_text.specs.Limits.{AreAsksWithinLimits};
ghost use Rattle.scatter_run.specs.Asked.{IsAskedText};
ghost use Rattle.scatter_run.specs.Form.{IsPrintedIn};

use crate::form::Form;
use ask_workers::answer_all;
use scatter_diagram::{Diagram, StopCause};
use scatter_json::write_json;
use scatter_text::{TextFile, queries_of, write_answers, write_diagram};
use std::alloc::{AllocError, Global};
use std::thread::Threads;

/// The text of the answers to a file's asks in a diagram, which so many workers find, and of what stopped a later
/// order.
fn write_asked<R: Threads + Sync>(
    rt: &R,
    alloc: Global,
    file: &TextFile,
    e: &Diagram,
    vars: u32,
    stop: Option<(u32, StopCause)>,
    workers: u32,
) -> Result<Vec<u8>, AllocError>
    requires asks { AreAsksWithinLimits file.now }
    requires few_asks { length file.now.asks ≤ most_asks }
    requires some { 1 ≤ vars }
    requires few { vars ≤ most_variables }
    requires some_workers { 1 ≤ workers }
    requires few_workers { workers ≤ most_workers }
    ensures { IfOk result (λ text. IsAskedText file.now.asks vars e.now.order e.now.diagram
        (stop_of stop) text.items) }
{
    let asks = queries_of(alloc, file)?;
    let answers = answer_all(rt, alloc, e, asks.as_slice(), workers)?;
    write_answers(alloc, vars, e.order(), stop, answers.as_slice())
}

/// What is printed in this form of a diagram, to which a file's lines were completed, and of what stopped a later
/// order. Asks are answered by so many workers.
pub(crate) fn write_file<R: Threads + Sync>(
    rt: &R,
    alloc: Global,
    form: Form,
    file: &TextFile,
    e: &Diagram,
    vars: u32,
    stop: Option<(u32, StopCause)>,
    workers: u32,
) -> Result<Vec<u8>, AllocError>
    requires asks { AreAsksWithinLimits file.now }
    requires few_asks { length file.now.asks ≤ most_asks }
    requires some { 1 ≤ vars }
    requires few { vars ≤ most_variables }
    requires some_workers { 1 ≤ workers }
    requires few_workers { workers ≤ most_workers }
    ensures { IfOk result (λ text. IsPrintedIn form file.now.asks vars e.now.order e.now.diagram
        (stop_of stop) text.items) }
{
    match form {
        Form::Text => write_diagram(alloc, e, vars, stop),
        Form::Json => write_json(alloc, e, vars, stop),
        Form::Asks => write_asked(rt, alloc, file, e, vars, stop, workers),
    }
}
