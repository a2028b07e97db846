// The tails for an exponent other than (0, 0).

ghost use Rattle.std.specs.Prelude.{◌≡◌, ◌≢◌, IfOk, IfErr, false, None};
ghost use Rattle.std.specs.BTreeMap.{IsOrdered, keys};
ghost use Rattle.scattering.specs.Series.{origin};
ghost use Rattle.scattering.specs.Theta.{is_on_live, IsAskFault};
ghost use Rattle.scattering.specs.Wall.{cut_walls};
ghost use Rattle.plane_geom.specs.Shown.{point_of};
ghost use Rattle.trunc_series.specs.Shown.{exp_of};
ghost use Rattle.broken_lines.specs.Growth.{exp_cmp};
ghost use Rattle.broken_lines.specs.Traced.{AreTails, IsTailsFault};
ghost use Rattle.broken_lines.specs.Tracing.{IsAskReady};

use crate::fault::AskFault;
use crate::node::Ask;
use crate::tail::Traced;
use crate::tracer::Tracing;
use bend_finder::BendFinder;
use std::alloc::{AllocError, Global};
use std::collections::BTreeMap;
use trunc_series::Exp;

/// The exponents that are known, in their order.
fn exponents(alloc: Global, known: &BTreeMap<Exp, u32>) -> Result<Vec<Exp>, AllocError>
    ensures items { IfOk result (λ v. v.items ≡ keys known.now) }
    ensures ordered { IfOk result (λ v. IsOrdered exp_cmp known.now) }
{
    known.keys().copied().collect(alloc)
}

/// The tails that are asked for, at a point that is on no live wall.
pub(crate) fn moving_tails(
    alloc: Global,
    stretches: &mut BendFinder<'_>,
    ask: &Ask,
) -> Result<Traced, AskFault>
    requires ready { IsAskReady stretches.old.walls ask.now }
    requires limit { stretches.old.limit ≡ ask.now.limit }
    requires moves { exp_of ask.now.m ≢ origin }
    requires free { is_on_live (cut_walls ask.now.limit stretches.old.walls) (point_of ask.now.at)
        ≡ false }
    ensures same { stretches.new ≡ stretches.old }
    ensures tails { IfOk result (λ t. AreTails stretches.old.walls ask.now.limit
        (exp_of ask.now.m) (point_of ask.now.at) t) }
    ensures free { IfOk result (λ t. IsAskFault stretches.old.walls ask.now.limit
        (exp_of ask.now.m) (point_of ask.now.at) None) }
    ensures fault { IfErr result (IsTailsFault stretches.old.walls ask.now.limit
        (exp_of ask.now.m) (point_of ask.now.at)) }
{
    let reached = exponents(alloc, &ask.known)?;
    let mut tracing = Tracing::new(alloc);
    tracing.push_roots(alloc, ask, reached.as_slice())?;
    tracing.run(alloc, ask, stretches)?;
    tracing.verdict()
}
