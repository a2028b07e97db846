// Lie elements: finite maps from keys to fractions.

ghost use Rattle.std.specs.Prelude.{◌≡◌, ◌≢◌, pos, IfOk, OnOk};
ghost use Rattle.scattering.specs.Collections.{Every, EveryPair};
ghost use Rattle.scattering.specs.Series.{origin};
ghost use Rattle.vertex_lie.specs.Shown.{lie_of, IsElement, IsElementOf, IsArranged};

use frac_128::Fraction;
use std::alloc::{AllocError, Global};
use std::marker::Model;
use trunc_series::{Key, compare};

/// A finite map from keys with an exponent other than (0, 0) to nonzero fractions. Its terms stand sorted
/// by their keys.
#[derive(Drop)]
pub struct LieElement {
    alloc: Global,
    terms: Vec<(Key, Fraction)>,
}

impl Model for LieElement {
    ghost use Rattle.scattering.specs.Correction.{Lie};
    ghost use Rattle.vertex_lie.specs.Shown.{lie_of, IsElement};

    ghost Value = { Lie };

    ghost view = { λ h. lie_of h.terms.items };

    ghost invariant = { λ h. IsElement (lie_of h.terms.items) };
}

impl LieElement {
    /// The element with exactly these terms, in whatever order they come.
    pub fn from_terms(alloc: Global, terms: &[(Key, Fraction)]) -> Result<LieElement, AllocError>
        requires distinct { EveryPair (λ t u. t.0 ≢ u.0) (lie_of terms.now) }
        requires exponents { Every (λ t. t.0.exp ≢ origin) (lie_of terms.now) }
        requires nonzero { Every (λ t. t.1.num ≢ pos 0) (lie_of terms.now) }
        ensures { IfOk result (λ h. IsElementOf h (lie_of terms.now)) }
    {
        let mut terms = Vec::from_slice(alloc, terms)?;
        arrange(&mut terms)?;
        Ok(LieElement { alloc, terms })
    }

    /// The element with these terms, which stand sorted.
    pub(crate) fn sorted(alloc: Global, terms: Vec<(Key, Fraction)>) -> LieElement
        requires { IsElement (lie_of terms.items) }
        ensures { result ≡ lie_of terms.items }
    {
        LieElement { alloc, terms }
    }

    /// The terms, sorted by their keys: by the exponent's a, then its b, then the powers. No coefficient
    /// is 0 and no key stands twice.
    pub fn terms(&self) -> &[(Key, Fraction)]
        ensures terms { lie_of result.now ≡ self.now }
        ensures element { IsElement self.now }
    {
        self.terms.as_slice()
    }

    pub(crate) fn allocator(&self) -> Global {
        self.alloc
    }

    pub fn copy(&self) -> Result<LieElement, AllocError>
        ensures { IfOk result (λ h. h ≡ self.now) }
    {
        Ok(LieElement {
            alloc: self.alloc,
            terms: Vec::from_slice(self.alloc, self.terms.as_slice())?,
        })
    }
}

/// Sorts terms by their keys, unless they stand so; terms of one key stay in their order.
pub fn arrange(terms: &mut Vec<(Key, Fraction)>) -> Result<(), AllocError>
    ensures { OnOk result (IsArranged (lie_of terms.new.items) (lie_of terms.old.items)) }
{
    if terms.is_sorted_by(|t, u| compare(&t.0, &u.0).is_le()) {
        return Ok(());
    }
    terms.sort_by(|t, u| compare(&t.0, &u.0))?;
    Ok(())
}
