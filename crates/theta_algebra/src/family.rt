// A family as one sum, taken apart into the series at each exponent.

ghost use Rattle.std.specs.Prelude.{◌≡◌, ◌≤◌, ◌<◌, ◌^◌, nat_abs, IfOk, IsTrue};
ghost use Rattle.limits.specs.Limits.{highest_order, largest_weight};
ghost use Rattle.scattering.specs.Collections.{Every, EveryPair};
ghost use Rattle.scattering.specs.Series.{exp_before, IsSeries};
ghost use Rattle.trunc_series.specs.Shown.{exp_of, sum_of};
ghost use Rattle.theta_algebra.specs.Families.{family_of, IsCoefficient};
ghost use Rattle.theta_algebra.specs.Parts.{IsRunAt, HasOneExp, IsSeriesPart, AreFamilyParts};

use std::alloc::{AllocError, Global};
use trunc_series::{Exp, Key, Series};

/// How many terms at the front have the exponent r.
fn run_of(r: Exp, terms: &[(Key, i128)]) -> usize
    ensures { IsRunAt r terms.now result }
{
    let mut count = 0;
    for t in terms {
        if t.0.exp != r {
            return count;
        }
        count += 1;
    }
    count
}

/// The series of these terms, without their exponent.
fn part(alloc: Global, limit: u32, terms: &[(Key, i128)]) -> Result<Series, AllocError>
    requires order { limit ≤ highest_order }
    requires series { IsSeries limit (sum_of terms.now) }
    requires small { Every (λ t. nat_abs t.1 ≤ largest_weight) (sum_of terms.now) }
    requires same { HasOneExp (sum_of terms.now) }
    ensures { IfOk result (IsSeriesPart limit (sum_of terms.now)) }
{
    let mut own = Vec::with_capacity(alloc, terms.len())?;
    for t in terms {
        let powers = Key {
            exp: Exp { a: 0, b: 0 },
            powers: t.0.powers,
        };
        own.push((powers, t.1))?;
    }
    Ok(Series::from_sorted(alloc, limit, own))
}

/// The series at each exponent, sorted by the exponents.
pub(crate) fn parts(
    alloc: Global,
    limit: u32,
    family: &[(Key, i128)],
) -> Result<Vec<(Exp, Series)>, AllocError>
    requires order { limit ≤ highest_order }
    requires series { IsSeries limit (sum_of family.now) }
    requires small { Every (λ t. nat_abs t.1 ≤ largest_weight) (sum_of family.now) }
    ensures { IfOk result (λ ps. AreFamilyParts limit (sum_of family.now) ps.items) }
{
    let mut out = Vec::new(alloc);
    let mut start = 0;
    while start < family.len() {
        let rest = &family[start..];
        let r = rest[0].0.exp;
        let count = run_of(r, rest);
        out.push((r, part(alloc, limit, &rest[..count])?))?;
        start += count;
    }
    Ok(out)
}
