// Products of lists of terms, added up term by term in a sum under construction and sorted once. Each term is
// multiplied by the row of what fits to its degree, so no pair is formed whose degree is above the order.

ghost use Rattle.std.specs.Prelude.{◌≤◌, IfOk, OnOk};
ghost use Rattle.limits.specs.Limits.{highest_order};
ghost use Rattle.scattering.specs.Collections.{Every};
ghost use Rattle.scattering.specs.Series.{degree, mul};
ghost use Rattle.trunc_series.specs.Shown.{sum_of};
ghost use Rattle.trunc_series.specs.Reduced.{IsFactor, IsProduct};
ghost use Rattle.trunc_series.specs.LowRows.{CanBeFactor};
ghost use Rattle.trunc_series.specs.Sums.{StandsFor};

use crate::Key;
use crate::arithmetic::Arithmetic;
use crate::low_rows::LowRows;
use crate::term_sum::TermSum;
use std::alloc::{AllocError, Global};

/// Makes the sum the product of a list and of what `factor` has in rows, without terms of degree above the
/// order of these. Where memory runs out some terms may be missing.
pub fn multiply_into(
    sum: &mut TermSum,
    rule: Arithmetic,
    terms: &[(Key, i128)],
    factor: &LowRows,
) -> Result<(), AllocError>
    requires terms { CanBeFactor rule (sum_of terms.now) }
    requires low { Every (λ t. degree t.0 ≤ factor.now.order) (sum_of terms.now) }
    requires factor { CanBeFactor rule factor.now.terms }
    ensures { OnOk result (StandsFor rule sum.new
        (mul factor.now.order (sum_of terms.now) factor.now.terms)) }
{
    sum.clear();
    for i in 0..terms.len() {
        let t = &terms[i];
        let row = factor.row(factor.order() - t.0.degree());
        sum.add_row(rule, t, row.keys.as_slice(), row.values.as_slice())?;
    }
    Ok(())
}

/// The product without terms of degree above `order`.
pub fn multiplied(
    alloc: Global,
    rule: Arithmetic,
    order: u32,
    a: &[(Key, i128)],
    b: &[(Key, i128)],
) -> Result<Vec<(Key, i128)>, AllocError>
    requires order { order ≤ highest_order }
    requires left { IsFactor rule (sum_of a.now) }
    requires right { IsFactor rule (sum_of b.now) }
    requires low { Every (λ t. degree t.0 ≤ order) (sum_of a.now) }
    ensures { IfOk result (λ r. IsProduct rule order a.now b.now r.items) }
{
    let factor = LowRows::new(alloc, order, b)?;
    let mut sum = TermSum::new(alloc);
    multiply_into(&mut sum, rule, a, &factor)?;
    sum.sorted(alloc, rule)
}
