// Answers to queries.

ghost use Rattle.std.specs.Prelude.{◌≡◌};
ghost use Rattle.scattering.specs.Wall.{walls};
ghost use Rattle.plane_geom.specs.Shown.{point_of};
ghost use Rattle.theta_algebra.specs.Answering.{IsKind, IsQuery, is_early, IsResult, IsAnswer};

use crate::product::product_of;
use crate::query::{Answer, Query, QueryKind, Reply};
use crate::tracers::Tracers;
use broken_lines::AskFault;
use plane_geom::Point;
use scatter_diagram::Diagram;
use std::alloc::Global;

/// Whether a later order is wanted.
fn is_early(order: u32, least: Option<u32>) -> bool
    ensures { result ≡ is_early order least }
{
    match least {
        Some(least) => order < least,
        None => false,
    }
}

/// What is asked for at a point, in the diagram's order.
fn reply(
    tracers: &mut Tracers<'_>,
    alloc: Global,
    kind: &QueryKind,
    at: &Point,
) -> Result<Reply, AskFault>
    requires { IsKind kind.now }
    ensures same { tracers.new ≡ tracers.old }
    ensures result { IsResult (walls tracers.old.diagram) tracers.old.order kind.now
        (point_of at.now) result }
{
    let order = tracers.order();
    match *kind {
        QueryKind::Theta(m) => {
            let weighed = tracers.weighed(alloc, m, at, order)?;
            Ok(Reply::Series(weighed.0))
        }
        QueryKind::Product(p, q) => {
            let family = product_of(tracers, alloc, p, q, at, order)?;
            Ok(Reply::Family(family))
        }
    }
}

impl<'e> Tracers<'e> {
    /// The answer to a query in the diagram, as `answer` tells it.
    pub fn answer(&mut self, alloc: Global, query: &Query) -> Answer
        requires { IsQuery query.now }
        ensures same { self.new ≡ self.old }
        ensures answer { IsAnswer (walls self.old.diagram) self.old.order query.now result }
    {
        let order = self.order();
        let result = if is_early(order, query.least) {
            Err(AskFault::NotYet { newest: order })
        } else {
            reply(self, alloc, &query.kind, &query.at)
        };
        Answer { order, result }
    }
}

/// The answer to a query in a diagram, at the diagram's order: the theta function, the family of a product, or the
/// first fault. Where the query wants a later order, the fault is `NotYet` with the diagram's order.
pub fn answer(alloc: Global, e: &Diagram, query: &Query) -> Answer
    requires { IsQuery query.now }
    ensures { IsAnswer (walls e.now.diagram) e.now.order query.now result }
{
    let mut tracers = Tracers::new(alloc, e);
    tracers.answer(alloc, query)
}
