//! The job `generate`: the counts of a completion of lines that are made from a number.
ghost use Rattle.std.specs.Prelude.{◌≡◌, length, IfOk};
ghost use Rattle.scattering.specs.Series.{rest};
ghost use Rattle.trunc_series.specs.Shown.{sum_of};
ghost use Rattle.scatter_diagram.specs.Shown.{wall_of};
ghost use Rattle.scatter_diagram.specs.Stopped.{stop_of};
ghost use Rattle.scatter_run.specs.Generated.{term_count, summary_text};
ghost use Rattle.scatter_run.specs.Outcome.{IsGenerateOutcome};

use crate::answer::Answer;
use crate::completing::status_of;
use crate::generator::generated_file;
use joint_workers::complete_by_workers;
use outside_io::Gate;
use scatter_diagram::{Diagram, StopCause, Wall};
use scatter_text::{initial_of, push_closing};
use std::alloc::{AllocError, Global};
use std::thread::Threads;
use trunc_series::{Key, is_constant};

/// The order to which the lines are completed.
const ORDER: u32 = 4;

/// How many workers complete them.
const WORKERS: u32 = 4;

/// What `generate` answers on this number.
pub(crate) fn generate<R: Threads + Sync, G: Gate>(
    rt: &R,
    alloc: Global,
    number: u32,
    gate: &G,
) -> Result<Answer, AllocError>
    ensures { IfOk result (λ a. IsGenerateOutcome number a.status a.text.items) }
{
    let file = generated_file(alloc, number)?;
    let initial = initial_of(alloc, &file)?;
    let outcome = complete_by_workers(rt, alloc, &initial, ORDER, WORKERS, gate)?;
    let text = summary_of(alloc, number, outcome.last.diagram(), outcome.stop)?;
    Ok(Answer {
        status: status_of(outcome.stop),
        text,
    })
}

/// The counts of a completion, and what stopped a later order.
fn summary_of(
    alloc: Global,
    number: u32,
    e: &Diagram,
    stop: Option<(u32, StopCause)>,
) -> Result<Vec<u8>, AllocError>
    ensures { IfOk result (λ text. text.items
        ≡ summary_text number e.now.order e.now.diagram.rays (stop_of stop)) }
{
    let order = e.order();
    let rays = e.ray_count();
    let terms = term_count(e);
    let mut text = format!(in alloc;
        "generated {number}\norder {order}\nrays {rays}\nterms {terms}\n"
    )?;
    push_closing(&mut text, stop)?;
    Ok(text.into_bytes())
}

/// The number of terms other than 1 of all rays.
fn term_count(e: &Diagram) -> u128
    ensures { result ≡ term_count e.now.diagram.rays }
{
    let mut count = 0;
    for i in 0..e.ray_count() {
        count += terms_of(e.ray(i)) as u128;
    }
    count
}

/// The number of terms other than 1 of a wall.
fn terms_of(wall: &Wall) -> usize
    ensures { result ≡ length (rest (wall_of wall.now).function) }
{
    other_terms(wall.function.terms())
}

/// The number of terms whose key is another than 1.
fn other_terms(terms: &[(Key, i128)]) -> usize
    ensures { result ≡ length (rest (sum_of terms.now)) }
{
    let mut others = 0;
    for t in terms {
        if !is_constant(&t.0) {
            others += 1;
        }
    }
    others
}
