//! The completion of the values of a file.
ghost use Rattle.std.specs.Prelude.{◌≡◌, ◌≤◌, None, IfOk};
ghost use Rattle.limits.specs.Limits.{highest_order, most_workers};
ghost use Rattle.scatter_text.specs.Limits.{limit_of};
ghost use Rattle.scatter_run.specs.Completed.{IsCompletedText};
ghost use Rattle.scatter_run.specs.Outcome.{IsEnded, ends_with};

use crate::answer::Answer;
use crate::form::Form;
use crate::printing::write_file;
use crate::status::Status;
use joint_workers::complete_by_workers;
use outside_io::Gate;
use scatter_diagram::StopCause;
use scatter_text::{TextFile, initial_of};
use std::alloc::{AllocError, Global};
use std::thread::Threads;

/// The status of a completion with the first stop, if there is one.
pub(crate) fn status_of(stop: Option<(u32, StopCause)>) -> Status
    ensures { ends_with stop ≡ result }
{
    match stop {
        None => Status::Done,
        Some((order, cause)) => Status::Stopped { order, cause },
    }
}

/// What a completion answers on a file that passes no limit, in this form.
pub(crate) fn complete<R: Threads + Sync, G: Gate>(
    rt: &R,
    alloc: Global,
    form: Form,
    file: &TextFile,
    order: u32,
    workers: u32,
    gate: &G,
) -> Result<Answer, AllocError>
    requires order { order ≤ highest_order }
    requires some { 1 ≤ workers }
    requires few { workers ≤ most_workers }
    requires within { limit_of file.now order ≡ None }
    ensures { IfOk result
        (λ a. IsEnded (IsCompletedText form order file.now) a.status a.text.items) }
{
    let initial = initial_of(alloc, file)?;
    let outcome = complete_by_workers(rt, alloc, &initial, order, workers, gate)?;
    let last = outcome.last.diagram();
    let vars = initial.vars();
    let stop = outcome.stop;
    let text = write_file(rt, alloc, form, file, last, vars, stop, workers)?;
    Ok(Answer {
        status: status_of(outcome.stop),
        text,
    })
}
