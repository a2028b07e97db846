// Functions in one variable. A weight is a sum of coefficients, so majorants need not tell which variables
// they are in, and in one they have far fewer terms.

ghost use Rattle.std.specs.Prelude.{◌≡◌, ◌<◌, ◌≤◌, ◌^◌, nat_abs, pos, IfOk, OnOk};
ghost use Rattle.limits.specs.Limits.{highest_order};
ghost use Rattle.scattering.specs.Collections.{Every};
ghost use Rattle.scattering.specs.Series.{absolute, degree};
ghost use Rattle.trunc_series.specs.Shown.{key_of, sum_of};
ghost use Rattle.local_product.specs.OneVariable.{one_variable, in_one_variable, IsInOneVariable};

use scatter_diagram::Wall;
use std::alloc::{AllocError, Global};
use trunc_series::sorted_terms::collected;
use trunc_series::{Key, Series};

/// The key with its degree as a power of t1.
fn one_variable(k: &Key) -> Key
    requires { degree (key_of k.now) ≤ highest_order }
    ensures { key_of result ≡ one_variable (key_of k.now) }
{
    Key {
        exp: k.exp,
        powers: [k.degree() as u8, 0, 0, 0, 0, 0, 0, 0],
    }
}

/// |c|
fn size(c: &i128) -> i128
    requires { nat_abs c.now < 2 ^ 127 }
    ensures { result ≡ pos (nat_abs c.now) }
{
    (*c).abs()
}

/// The terms in one variable, with the absolute values of their coefficients.
fn terms_in_one_variable(
    alloc: Global,
    terms: &[(Key, i128)],
) -> Result<Vec<(Key, i128)>, AllocError>
    requires low { Every (λ t. degree t.0 ≤ highest_order) (sum_of terms.now) }
    requires small { Every (λ t. nat_abs t.1 < 2 ^ 127) (sum_of terms.now) }
    ensures { IfOk result (λ r. sum_of r.items ≡ in_one_variable (absolute (sum_of terms.now))) }
{
    let mut out = Vec::with_capacity(alloc, terms.len())?;
    for t in terms {
        out.push((one_variable(&t.0), size(&t.1)))?;
    }
    Ok(out)
}

/// |f| in one variable, where f is the wall's function.
pub fn function_in_one_variable(alloc: Global, w: &Wall) -> Result<Series, AllocError>
    ensures series { IfOk result (IsInOneVariable w.now.function) }
    ensures order { OnOk result (w.now.function.order ≤ highest_order) }
{
    let order = w.function.order();
    let terms = terms_in_one_variable(alloc, w.function.terms())?;
    let terms = collected(alloc, order, terms.as_slice())?;
    Ok(Series::from_sorted(alloc, order, terms))
}
