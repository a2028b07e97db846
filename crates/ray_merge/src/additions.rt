// The terms that a correction adds to rays.

ghost use Rattle.std.specs.Prelude.{◌≡◌, ◌≢◌, ◌≤◌, ℤ, pos, IfOk, nat_abs};
ghost use Rattle.limits.specs.Limits.{largest_weight};
ghost use Rattle.scattering.specs.Collections.{Every};
ghost use Rattle.scattering.specs.Series.{origin};
ghost use Rattle.scattering.specs.Correction.{IsRatio, IsWhole};
ghost use Rattle.trunc_series.specs.Shown.{sum_of};
ghost use Rattle.vertex_lie.specs.Shown.{coefficient_of};
ghost use Rattle.weight_theory.specs.Laws.{IsWholeValue};
ghost use Rattle.ray_merge.specs.Additions.{IsAddedValue, AreAdded, IsLight};

use frac_128::{Fraction, gcd};
use std::alloc::{AllocError, Global};
use trunc_series::Key;
use vertex_lie::LieElement;

/// -g·c for a term c·z^m, where g = gcd(m).
fn added_value(term: &(Key, Fraction)) -> i128
    requires exponent { (coefficient_of term.now).0.exp ≢ origin }
    requires whole { IsWhole (coefficient_of term.now) }
    requires small { (v : ℤ) → IsWholeValue (coefficient_of term.now) v → nat_abs v ≤ largest_weight }
    ensures { IsAddedValue (coefficient_of term.now) result }
{
    let (a, b) = (term.0.exp.a, term.0.exp.b);
    let g = gcd(a.unsigned_abs() as u128, b.unsigned_abs() as u128) as i128;
    -(term.1.num * (g / term.1.den))
}

/// The terms -g·c·z^m for the terms c·z^m of the element, in their order.
pub(crate) fn added_terms(alloc: Global, h: &LieElement) -> Result<Vec<(Key, i128)>, AllocError>
    requires whole { Every IsWhole h.now }
    requires light { IsLight h.now }
    ensures added { IfOk result (λ r. AreAdded h.now (sum_of r.items)) }
    ensures nonzero { IfOk result (λ r. Every (λ t. t.1 ≢ pos 0) (sum_of r.items)) }
    ensures ratios { IfOk result (λ r. Every (λ t. IsRatio t.1) h.now) }
{
    let terms = h.terms();
    let mut out = Vec::with_capacity(alloc, terms.len())?;
    for t in terms {
        out.push((t.0, added_value(t)))?;
    }
    Ok(out)
}
