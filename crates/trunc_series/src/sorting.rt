// Lists of terms put into order, with like terms added.

ghost use Rattle.std.specs.Prelude.{◌≡◌, IfOk};
ghost use Rattle.scattering.specs.Collections.{Every};
ghost use Rattle.trunc_series.specs.Shown.{sum_of, IsTerm};
ghost use Rattle.trunc_series.specs.Reduced.{AreCollected, unless_zero};
ghost use Rattle.trunc_series.specs.Sums.{AreKeptValues, IsSortedFor};

use crate::arithmetic::Arithmetic;
use crate::key::Key;
use crate::merge::merged;
use std::alloc::{AllocError, Global};

/// One term, or none where its coefficient is 0.
fn single(alloc: Global, term: &(Key, i128)) -> Result<Vec<(Key, i128)>, AllocError>
    ensures { IfOk result (λ r. r.items ≡ unless_zero term.now) }
{
    let mut out = Vec::new(alloc);
    if term.1 != 0 {
        out.push(*term)?;
    }
    Ok(out)
}

/// The terms in order, like terms added, and none with the coefficient 0.
pub(crate) fn in_order(
    alloc: Global,
    rule: Arithmetic,
    terms: &[(Key, i128)],
) -> Result<Vec<(Key, i128)>, AllocError>
    requires { AreKeptValues rule (sum_of terms.now) }
    ensures { IfOk result (λ r. IsSortedFor rule (sum_of r.items) (sum_of terms.now)) }
{
    match terms {
        [] => Ok(Vec::new(alloc)),
        [t] => single(alloc, t),
        _ => {
            let (left, right) = terms.split_at(terms.len() / 2);
            let left = in_order(alloc, rule, left)?;
            let right = in_order(alloc, rule, right)?;
            merged(alloc, rule, left.as_slice(), right.as_slice())
        }
    }
}

/// Terms in any order as a sorted list, those of one key added modulo 2^128.
pub fn collected(
    alloc: Global,
    order: u32,
    terms: &[(Key, i128)],
) -> Result<Vec<(Key, i128)>, AllocError>
    requires { Every (IsTerm order) (sum_of terms.now) }
    ensures { IfOk result (λ r. AreCollected order terms.now r.items) }
{
    in_order(alloc, Arithmetic::Wrapping, terms)
}
