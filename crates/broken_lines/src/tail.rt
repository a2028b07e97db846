// Tails, and all of them with their weight.

ghost use Rattle.std.specs.Prelude.{◌≡◌, IfOk};
ghost use Rattle.broken_lines.specs.Traced.{seen_tail, seen_tails};

use bend_finder::Bend;
use std::alloc::{AllocError, Global};
use trunc_series::Exp;

/// A line traced backwards from a point: the exponent with which it comes there, and its bends in the order in
/// which they are met from the point on.
#[derive(Debug, PartialEq, Eq, Drop)]
pub struct Tail {
    pub root: Exp,
    pub bends: Vec<Bend>,
    /// The sum of the bends' degrees.
    pub used: u32,
    /// The exponent from which it goes on.
    pub last: Exp,
}

impl Tail {
    pub fn copy(&self, alloc: Global) -> Result<Tail, AllocError>
        ensures { IfOk result (λ t. seen_tail t ≡ seen_tail self.now) }
    {
        Ok(Tail {
            root: self.root,
            bends: Vec::from_slice(alloc, self.bends.as_slice())?,
            used: self.used,
            last: self.last,
        })
    }
}

/// All tails for an exponent at a point, and the sum of their weights.
#[derive(Debug, PartialEq, Eq, Drop)]
pub struct Traced {
    pub tails: Vec<Tail>,
    pub weight: u128,
}

impl Traced {
    pub fn copy(&self, alloc: Global) -> Result<Traced, AllocError>
        ensures tails { IfOk result
            (λ t. seen_tails t.tails.items ≡ seen_tails self.now.tails.items) }
        ensures weight { IfOk result (λ t. t.weight ≡ self.now.weight) }
    {
        let mut tails = Vec::with_capacity(alloc, self.tails.len())?;
        for t in &self.tails {
            tails.push(t.copy(alloc)?)?;
        }
        Ok(Traced {
            tails,
            weight: self.weight,
        })
    }
}
