//! A session over the values of a file: asks are answered while the orders are computed.
ghost use Rattle.std.specs.Prelude.{◌≡◌, ◌≤◌, None, IfOk};
ghost use Rattle.limits.specs.Limits.{highest_order, most_readers, most_workers};
ghost use Rattle.scatter_text.specs.Limits.{first_limit};
ghost use Rattle.scatter_run.specs.Held.{IsSessionText};
ghost use Rattle.scatter_run.specs.Outcome.{IsEnded};

use crate::answer::Answer;
use crate::completing::status_of;
use outside_io::Gate;
use scatter_text::{TextFile, initial_of, queries_of, write_answers};
use session_readers::hold_session;
use std::alloc::{AllocError, Global};
use std::sync::Wait;
use std::thread::Threads;

/// What a session of so many readers answers on a file that passes no limit.
pub(crate) fn hold<R: Threads + Wait + Sync, G: Gate>(
    rt: &R,
    alloc: Global,
    file: &TextFile,
    order: u32,
    workers: u32,
    readers: u32,
    gate: &G,
) -> Result<Answer, AllocError>
    requires order { order ≤ highest_order }
    requires some_workers { 1 ≤ workers }
    requires few_workers { workers ≤ most_workers }
    requires some_readers { 1 ≤ readers }
    requires few_readers { readers ≤ most_readers }
    requires within { first_limit file.now order readers ≡ None }
    ensures { IfOk result
        (λ a. IsEnded (IsSessionText order file.now) a.status a.text.items) }
{
    let initial = initial_of(alloc, file)?;
    let asks = queries_of(alloc, file)?;
    let asks = asks.as_slice();
    let settle = file.settle;
    let session = hold_session(
        rt, alloc, &initial, order, workers, readers, asks, settle, gate,
    )?;
    let answers = session.answers.as_slice();
    let vars = initial.vars();
    let text = write_answers(alloc, vars, session.published, session.stop, answers)?;
    Ok(Answer {
        status: status_of(session.stop),
        text,
    })
}
