// All exponents within reach.

ghost use Rattle.std.specs.Prelude.{◌≤◌, ◌≡◌, IfOk, IfErr};
ghost use Rattle.scattering.specs.Wall.{walls};
ghost use Rattle.std.specs.BTreeMap.{IsOrdered};
ghost use Rattle.broken_lines.specs.Growth.{exp_cmp};
ghost use Rattle.broken_lines.specs.Reached.{AreAllReached, IsReachFault, reached_of, IsReachMap};

use crate::fault::AskFault;
use crate::growth::Growth;
use scatter_diagram::Diagram;
use std::alloc::{AllocError, Global};
use std::collections::BTreeMap;
use trunc_series::Exp;

/// The least total degrees of terms whose exponents sum to each exponent, up to a limit.
///
/// An exponent of reach n is one of lower reach and a step, or the exponent of a term of degree n; this is a
/// step where no lower terms sum to it. So each degree is found from those below, and no list of terms is
/// formed.
pub(crate) fn reach_map(
    alloc: Global,
    e: &Diagram,
    limit: u32,
) -> Result<BTreeMap<Exp, u32>, AskFault>
    requires { limit ≤ e.now.order }
    ensures reach { IfOk result (λ m. IsReachMap limit (walls e.now.diagram) m) }
    ensures fault { IfErr result (IsReachFault limit (walls e.now.diagram)) }
{
    let origin = Exp { a: 0, b: 0 };
    let mut known = BTreeMap::new(alloc);
    known.insert(origin, 0)?;
    let mut levels = Vec::new(alloc);
    levels.push(Vec::from_slice(alloc, &[origin])?)?;
    let mut steps = Vec::new(alloc);
    // the diagram's order is asked for what its type says of its walls
    for lower in 0..limit.min(e.order()) {
        let level = Vec::new(alloc);
        let degree = lower + 1;
        let mut growth = Growth {
            known,
            level,
            degree,
        };
        growth.add_steps(steps.as_slice(), levels.as_slice())?;
        growth.add_walls(&mut steps, e)?;
        known = growth.known;
        levels.push(growth.level)?;
    }
    Ok(known)
}

/// All exponents of reach at most `limit`, sorted by a and then b, each with its reach: the least total degree
/// of terms of live walls' functions, cut to `limit`, whose exponents sum to it. The exponent (0, 0) has reach
/// 0.
///
/// The fault is `TooManyReach` only where more than 2^18 exponents have a reach of at most `limit`.
pub fn reach(alloc: Global, e: &Diagram, limit: u32) -> Result<Vec<(Exp, u32)>, AskFault>
    requires { limit ≤ e.now.order }
    ensures reach { IfOk result
        (λ rs. AreAllReached limit (walls e.now.diagram) (reached_of rs.items)) }
    ensures fault { IfErr result (IsReachFault limit (walls e.now.diagram)) }
{
    Ok(entries(alloc, reach_map(alloc, e, limit)?)?)
}

/// The exponents that are known, in their order.
fn entries(alloc: Global, known: BTreeMap<Exp, u32>) -> Result<Vec<(Exp, u32)>, AllocError>
    ensures items { IfOk result (λ v. v.items ≡ known.entries) }
    ensures ordered { IfOk result (λ v. IsOrdered exp_cmp known) }
{
    known.into_iter().collect(alloc)
}
