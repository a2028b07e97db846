// The leading part of a pair of images.

ghost use Rattle.std.specs.Prelude.{◌==◌, ◌&&◌, ◌≡◌, ◌≢◌, ◌<◌, ◌^◌, pos, nat_abs, IfOk};
ghost use Rattle.scattering.specs.Collections.{Every};
ghost use Rattle.scattering.specs.Series.{origin, degree};
ghost use Rattle.scattering.specs.Correction.{Lie};
ghost use Rattle.frac_128.specs.Quotient.{AreEqual};
ghost use Rattle.trunc_series.specs.Shown.{key_of, term_of, sum_of, exp_of, HasNearTerms};
ghost use Rattle.trunc_series.specs.Reduced.{IsNearKey};
ghost use Rattle.vertex_lie.specs.Shown.{lie_of};
ghost use Rattle.vertex_lie.specs.Leading.{IsLeading, IsLeadingPart, IsLeadingAlong, HasNothingAlong, axis_of, image_of, reading_of, is_read, turn, key_over, read_from, AreQuotients, IsDividend};

use crate::element::LieElement;
use frac_128::Fraction;
use std::alloc::{AllocError, Global};
use trunc_series::sorted_terms::{Arithmetic, merged};
use trunc_series::{Exp, Key, Series};

/// (1, 0) or (0, 1).
#[derive(Clone, Copy)]
pub enum Axis {
    X,
    Y,
}

/// What is read of an image: of that of z^(1,0) the terms at exponents (n1, n2) with n2 other than 0, of
/// that of z^(0,1) those with n1 other than 0, or the rest of these, which the image of z^(1,0) doesn't
/// tell: those with n2 = 0.
#[derive(Clone, Copy)]
pub enum Reading {
    X,
    Y,
    RestOfY,
}

/// The Lie element h for which the images of z^(1,0) and z^(0,1) have {h, z^(1,0)} and {h, z^(0,1)} at this
/// degree. At a key of exponent (n1, n2) the image of z^(1,0) has -n2 times the coefficient of h, that of
/// z^(0,1) has n1 times it.
pub fn leading(
    alloc: Global,
    image_x: &Series,
    image_y: &Series,
    degree: u32,
) -> Result<LieElement, AllocError>
    requires near_x { HasNearTerms image_x.now.terms }
    requires near_y { HasNearTerms image_y.now.terms }
    requires exists { (h : Lie) × IsLeading image_x.now.terms image_y.now.terms degree h }
    ensures { IfOk result (λ h. IsLeadingPart image_x.now.terms image_y.now.terms degree h) }
{
    let from_x = read(alloc, degree, Reading::X, image_x.terms())?;
    let from_y = read(alloc, degree, Reading::RestOfY, image_y.terms())?;
    let left = from_x.as_slice();
    let both = merged(alloc, Arithmetic::Wrapping, left, from_y.as_slice())?;
    let terms = quotients(alloc, Axis::X, both.as_slice())?;
    Ok(LieElement::sorted(alloc, terms))
}

/// The Lie element h without terms along the axis for which the image of the axis' monomial z^u has
/// {h, z^u} at this degree. The image has no terms there along the axis.
pub fn leading_from(
    alloc: Global,
    axis: Axis,
    image: &Series,
    degree: u32,
) -> Result<LieElement, AllocError>
    requires near { HasNearTerms image.now.terms }
    requires edge { HasNothingAlong image.now.terms degree (axis_of axis) }
    ensures { IfOk result (λ h. IsLeadingAlong image.now.terms degree (axis_of axis) h) }
{
    let read = read(alloc, degree, reading_of(axis), image.terms())?;
    let terms = quotients(alloc, axis, read.as_slice())?;
    Ok(LieElement::sorted(alloc, terms))
}

/// What is read of the image of one axis alone.
fn reading_of(axis: Axis) -> Reading
    ensures { result ≡ reading_of axis }
{
    match axis {
        Axis::X => Reading::X,
        Axis::Y => Reading::Y,
    }
}

/// The terms of one degree of an axis' image, over its monomial, from which coefficients are read.
fn read(
    alloc: Global,
    degree: u32,
    reading: Reading,
    terms: &[(Key, i128)],
) -> Result<Vec<(Key, i128)>, AllocError>
    requires near { Every (λ t. IsNearKey t.0) (sum_of terms.now) }
    requires small { Every (λ t. nat_abs t.1 < 2 ^ 127) (sum_of terms.now) }
    ensures { IfOk result (λ r. sum_of r.items ≡ read_from degree reading (sum_of terms.now)) }
{
    let mut out = Vec::new(alloc);
    for t in terms {
        let key = over(&t.0, reading);
        if shows(degree, reading, &key) {
            out.push((key, t.1))?;
        }
    }
    Ok(out)
}

/// Whether a key has this degree and the coefficient at it is read so.
fn shows(level: u32, reading: Reading, key: &Key) -> bool
    ensures { result ≡ ((degree (key_of key.now) == level) && is_read reading (key_of key.now)) }
{
    if key.degree() != level {
        return false;
    }
    match reading {
        Reading::X => key.exp.b != 0,
        Reading::Y => key.exp.a != 0,
        Reading::RestOfY => key.exp.b == 0 && key.exp.a != 0,
    }
}

/// The key over the monomial whose image is read.
fn over(key: &Key, reading: Reading) -> Key
    requires { IsNearKey (key_of key.now) }
    ensures { key_of result ≡ key_over (key_of key.now) (image_of reading) }
{
    let exp = key.exp;
    Key {
        exp: match reading {
            Reading::X => Exp {
                a: exp.a - 1,
                ..exp
            },
            Reading::Y | Reading::RestOfY => Exp {
                b: exp.b - 1,
                ..exp
            },
        },
        ..*key
    }
}

/// Each coefficient divided by the determinant of the exponent and the axis from whose image it is read:
/// this one, unless that is 0.
fn quotients(
    alloc: Global,
    axis: Axis,
    terms: &[(Key, i128)],
) -> Result<Vec<(Key, Fraction)>, AllocError>
    requires { Every IsDividend (sum_of terms.now) }
    ensures { IfOk result (λ r. AreQuotients (turn axis) (sum_of terms.now) (lie_of r.items)) }
{
    let mut out = Vec::with_capacity(alloc, terms.len())?;
    for t in terms {
        out.push((t.0, quotient(&t.1, determinant(axis, &t.0))))?;
    }
    Ok(out)
}

/// The determinant of the exponent and the axis, or where that is 0 of the exponent and the other one.
fn determinant(axis: Axis, key: &Key) -> i128
    ensures value { result ≡ turn axis (exp_of key.now.exp) }
    ensures small { nat_abs result < 2 ^ 127 }
{
    let (a, b) = (key.exp.a as i128, key.exp.b as i128);
    match axis {
        Axis::X => if b == 0 { a } else { -b },
        Axis::Y => if a == 0 { -b } else { a },
    }
}

/// c/d, for d of either sign.
fn quotient(c: &i128, d: i128) -> Fraction
    requires c { nat_abs c.now < 2 ^ 127 }
    requires d { nat_abs d < 2 ^ 127 }
    requires nonzero { d ≢ pos 0 }
    ensures { AreEqual result.num result.den c.now d }
{
    if d < 0 {
        Fraction::new(-*c, -d)
    } else {
        Fraction::new(*c, d)
    }
}
