// Series that tests are made of.

ghost use Rattle.std.specs.Prelude.{◌≡◌, ◌≤◌, [], ◌∷◌, IfOk, IsTrue, nat_abs, pos};
ghost use Rattle.limits.specs.Limits.{highest_order};
ghost use Rattle.trunc_series.specs.Shown.{sum_of};
ghost use Rattle.trunc_series.specs.Worked.{line_terms, t1x};
ghost use Rattle.series_tests.specs.SortedSums.{is_sorted_sum};

use sample_walls::monomials::{ONE, X};
use std::alloc::{AllocError, Global};
use trunc_series::{Key, Majorant, Series};

// The series with these terms, which stand sorted by their keys.
pub fn sorted(alloc: Global, order: u32, terms: &[(Key, i128)]) -> Result<Series, AllocError>
    requires order { order ≤ highest_order }
    requires terms { IsTrue (is_sorted_sum order (sum_of terms.now)) }
    ensures order { IfOk result (λ s. s.order ≡ order) }
    ensures terms { IfOk result (λ s. s.terms ≡ sum_of terms.now) }
{
    Series::from_terms(alloc, order, terms)
}

// 1 + c*t1*x, of order 2
pub fn line(alloc: Global, c: i128) -> Result<Series, AllocError>
    requires { nat_abs c ≡ 1 }
    ensures order { IfOk result (λ s. s.order ≡ 2) }
    ensures terms { IfOk result (λ s. s.terms ≡ line_terms c) }
{
    Series::from_terms(alloc, 2, &[(ONE, 1), (X, c)])
}

// The terms of 1 + t1*x.
pub fn line_list(alloc: Global) -> Result<Vec<(Key, i128)>, AllocError>
    ensures { IfOk result (λ r. sum_of r.items ≡ line_terms (pos 1)) }
{
    Ok(vec![in alloc; (ONE, 1), (X, 1)]?)
}

// t1*x, of order 2
pub fn single(alloc: Global) -> Result<Series, AllocError>
    ensures order { IfOk result (λ s. s.order ≡ 2) }
    ensures terms { IfOk result (λ s. s.terms ≡ (t1x, pos 1) ∷ []) }
{
    Series::monomial(alloc, 2, X, 1)
}

// 1 + t1*x, of order 2
pub fn majorant(alloc: Global) -> Result<Majorant, AllocError>
    ensures order { IfOk result (λ m. m.order ≡ 2) }
    ensures terms { IfOk result (λ m. m.terms ≡ line_terms (pos 1)) }
{
    let series = line(alloc, -1)?;
    Majorant::of(&series)
}
