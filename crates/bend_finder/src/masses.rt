// Masses of a majorant up to each degree.

ghost use Rattle.std.specs.Prelude.{◌≡◌, ◌+◌, ◌≤◌, IfOk, min};
ghost use Rattle.limits.specs.Limits.{highest_order, largest_weight};
ghost use Rattle.scattering.specs.Series.{mass_to};
ghost use Rattle.trunc_series.specs.Shown.{sum_of, term_of};
ghost use Rattle.bend_finder.specs.Bends.{IsCapped, AreCapped, AreMasses, grown_mass};

use limits::LARGEST_WEIGHT;
use std::alloc::{AllocError, Global};
use trunc_series::Key;

/// The masses of the terms up to each degree from 0 to `most`, each above 2^126 as 2^126 + 1.
pub(crate) fn masses(
    alloc: Global,
    terms: &[(Key, i128)],
    most: u32,
) -> Result<Vec<u128>, AllocError>
    requires most { most ≤ highest_order }
    requires terms { AreCapped (sum_of terms.now) }
    ensures { IfOk result (λ r. AreMasses most (sum_of terms.now) r.items) }
{
    let mut masses = Vec::with_capacity(alloc, most as usize + 1)?;
    for degree in 0..most + 1 {
        masses.push(mass(terms, degree))?;
    }
    Ok(masses)
}

/// The sum of the coefficients up to a degree, or 2^126 + 1 where it is above that.
fn mass(terms: &[(Key, i128)], degree: u32) -> u128
    requires { AreCapped (sum_of terms.now) }
    ensures { result ≡ min (mass_to degree (sum_of terms.now)) (largest_weight + 1) }
{
    let mut mass = 0;
    for t in terms {
        mass = grown(mass, t, degree);
    }
    mass
}

/// The mass with a term, where its degree is at most `degree`.
fn grown(mass: u128, t: &(Key, i128), degree: u32) -> u128
    requires mass { mass ≤ largest_weight + 1 }
    requires term { IsCapped t.now.1 }
    ensures { result ≡ grown_mass degree mass (term_of t.now) }
{
    if t.0.degree() > degree {
        return mass;
    }
    (mass + t.1 as u128).min(LARGEST_WEIGHT + 1)
}
