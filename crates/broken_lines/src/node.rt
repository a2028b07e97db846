// Tails that still have to be followed.

ghost use Rattle.std.specs.Prelude.{◌≡◌, ◌≤◌, IfOk};
ghost use Rattle.limits.specs.Limits.{highest_order};
ghost use Rattle.scattering.specs.Series.{exp_sub};
ghost use Rattle.plane_geom.specs.Shown.{point_of};
ghost use Rattle.trunc_series.specs.Shown.{exp_of};
ghost use Rattle.bend_finder.specs.Ahead.{bend_of};
ghost use Rattle.broken_lines.specs.Growth.{IsSummable};
ghost use Rattle.broken_lines.specs.Tracing.{IsWide, seen_node, child_of, root_node, is_within};

use crate::tail::Tail;
use bend_finder::Bend;
use plane_geom::Point;
use std::alloc::{AllocError, Global};
use std::collections::BTreeMap;
use trunc_series::Exp;

/// A tail with the point from which it goes on, and its weight, or a number above 2^126 where it is above that.
#[derive(Drop)]
pub(crate) struct Node {
    pub(crate) tail: Tail,
    pub(crate) at: Point,
    pub(crate) weight: u128,
}

/// What is asked for: the tails for m at a point within a limit, where these exponents are in reach.
#[derive(Drop)]
pub(crate) struct Ask {
    pub(crate) known: BTreeMap<Exp, u32>,
    pub(crate) m: Exp,
    pub(crate) at: Point,
    pub(crate) limit: u32,
}

/// x - y
pub(crate) fn difference(x: Exp, y: Exp) -> Exp
    requires first { IsWide x }
    requires second { IsSummable y }
    ensures { exp_of result ≡ exp_sub (exp_of x) (exp_of y) }
{
    Exp {
        a: x.a - y.a,
        b: x.b - y.b,
    }
}

impl Ask {
    /// Whether m is in reach of an exponent within what is left of the limit.
    pub(crate) fn is_within(&self, x: Exp, used: u32) -> bool
        requires exponent { IsWide x }
        requires asked { IsSummable self.now.m }
        ensures { result ≡ is_within self.now (exp_of x) used }
    {
        match self.known.get(&difference(x, self.m)) {
            Some(n) => used <= self.limit && *n <= self.limit - used,
            None => false,
        }
    }
}

impl Node {
    /// The tail without bends.
    pub(crate) fn root(alloc: Global, x: Exp, at: Point) -> Node
        ensures { seen_node result ≡ root_node (exp_of x) (point_of at) }
    {
        let tail = Tail {
            root: x,
            bends: Vec::new(alloc),
            used: 0,
            last: x,
        };
        Node {
            tail,
            at,
            weight: 1,
        }
    }

    /// The tail with one more bend of a weight.
    pub(crate) fn child(&self, alloc: Global, bend: &Bend, weight: u128) -> Result<Node, AllocError>
        requires used { self.now.tail.used ≤ highest_order }
        requires last { IsSummable self.now.tail.last }
        requires near { IsSummable bend.now.key.exp }
        ensures { IfOk result
            (λ n. seen_node n ≡ child_of (seen_node self.now) (bend_of bend.now, weight)) }
    {
        let mut bends = Vec::with_capacity(alloc, self.tail.bends.len() + 1)?;
        bends.extend_from_slice(self.tail.bends.as_slice())?;
        bends.push(*bend)?;
        let tail = Tail {
            root: self.tail.root,
            bends,
            used: self.tail.used + bend.key.degree(),
            last: difference(self.tail.last, bend.key.exp),
        };
        Ok(Node {
            tail,
            at: bend.at,
            weight: self.weight.saturating_mul(weight),
        })
    }
}
