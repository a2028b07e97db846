// One ask, and want of memory, which is no answer.

ghost use Rattle.std.specs.Prelude.{◌≡◌, false, OnOk};
ghost use Rattle.scattering.specs.Wall.{walls};
ghost use Rattle.theta_algebra.specs.Answering.{IsQuery, IsAnswer, IsToldAnswer};

use broken_lines::AskFault;
use scatter_diagram::Diagram;
use std::alloc::{AllocError, Global};
use theta_algebra::{Answer, Query, Tracers, answer};

/// Whether this is want of memory.
fn is_memory(answer: &Answer) -> bool
    ensures { result ≡ false → IsToldAnswer answer.now }
{
    matches!(answer.result, Err(AskFault::Memory))
}

/// The answer to a query, by what is kept of earlier ones. Where memory is wanting, that is let go, so that it keeps
/// none from later queries.
pub(crate) fn answer_by<'e>(
    tracers: &mut Tracers<'e>,
    alloc: Global,
    e: &'e Diagram,
    query: &Query,
) -> Answer
    requires query { IsQuery query.now }
    requires tracers { tracers.old ≡ e.now }
    ensures tracers { tracers.new ≡ e.now }
    ensures answer { IsAnswer (walls e.now.diagram) e.now.order query.now result }
{
    let found = tracers.answer(alloc, query);
    if is_memory(&found) {
        *tracers = Tracers::new(alloc, e);
    }
    found
}

/// Answers a query once more where its answer is want of memory.
pub(crate) fn tell(
    alloc: Global,
    e: &Diagram,
    query: &Query,
    found: &mut Answer,
) -> Result<(), AllocError>
    requires query { IsQuery query.now }
    requires found { IsAnswer (walls e.now.diagram) e.now.order query.now found.old }
    ensures answer { OnOk result (IsAnswer (walls e.now.diagram) e.now.order query.now found.new) }
    ensures told { OnOk result (IsToldAnswer found.new) }
{
    if !is_memory(found) {
        return Ok(());
    }
    let again = answer(alloc, e, query);
    if is_memory(&again) {
        return Err(AllocError);
    }
    *found = again;
    Ok(())
}
