// Sums under construction, worked by hand over monomials of x and y.

use sample_walls::monomials::{ONE, X, XX, XY, Y};
use std::alloc::{AllocError, Global};
use std::test::Fail;
use trunc_series::sorted_terms::{Arithmetic, LowRows, TermSum, multiply_into};
use trunc_series::{Exp, Key};

// 2^126 + 1.
const LIMIT: i128 = 85070591730234615865843651857942052865;

fn like_terms(alloc: Global) -> Result<bool, AllocError> {
    let mut sum = TermSum::new(alloc);
    sum.add(Arithmetic::Wrapping, &X, 2)?;
    sum.add(Arithmetic::Wrapping, &Y, 1)?;
    sum.add(Arithmetic::Wrapping, &X, -5)?;
    Ok(sum.terms() == [(X, -3), (Y, 1)].as_slice())
}

fn saturated(alloc: Global) -> Result<bool, AllocError> {
    let mut sum = TermSum::new(alloc);
    sum.add(Arithmetic::Saturating, &X, LIMIT - 2)?;
    sum.add(Arithmetic::Saturating, &X, 3)?;
    Ok(sum.terms() == [(X, LIMIT)].as_slice())
}

fn cleared(alloc: Global) -> Result<bool, AllocError> {
    let mut sum = TermSum::new(alloc);
    sum.add(Arithmetic::Wrapping, &X, 2)?;
    sum.clear();
    sum.add(Arithmetic::Wrapping, &Y, 1)?;
    Ok(sum.terms() == [(Y, 1)].as_slice())
}

// x + 2·x·(1 - x) + 3·x·y.
fn row(alloc: Global) -> Result<bool, AllocError> {
    let mut sum = TermSum::new(alloc);
    sum.add(Arithmetic::Wrapping, &X, 1)?;
    sum.add_row(Arithmetic::Wrapping, &(X, 2), &[ONE, X], &[1, -1])?;
    sum.add_row(Arithmetic::Wrapping, &(Y, 3), &[X], &[1])?;
    Ok(sum.terms() == [(X, 3), (XX, -2), (XY, 3)].as_slice())
}

// x·(3 - 2·x + 3·y) + y - y, in order.
fn in_order(alloc: Global) -> Result<bool, AllocError> {
    let mut sum = TermSum::new(alloc);
    sum.add_row(Arithmetic::Wrapping, &(X, 1), &[X, Y, ONE], &[-2, 3, 3])?;
    sum.add(Arithmetic::Wrapping, &Y, 1)?;
    sum.add(Arithmetic::Wrapping, &Y, -1)?;
    let terms = sum.sorted(alloc, Arithmetic::Wrapping)?;
    Ok(terms.as_slice() == [(X, 3), (XY, 3), (XX, -2)].as_slice())
}

// Up to order 1, (1 + x)·(1 - x) in place of y.
fn product(alloc: Global) -> Result<bool, AllocError> {
    let factor = LowRows::new(alloc, 1, &[(ONE, 1), (X, -1), (XX, 5)])?;
    let mut sum = TermSum::new(alloc);
    sum.add(Arithmetic::Wrapping, &Y, 1)?;
    multiply_into(&mut sum, Arithmetic::Wrapping, &[(ONE, 1), (X, 1)], &factor)?;
    Ok(sum.terms() == [(ONE, 1), (X, 0)].as_slice())
}

#[test]
fn terms_are_added_up(rt: HostRuntime) -> Result<(), Fail> {
    let alloc = rt.alloc();
    assert!(rt; like_terms(alloc)?);
    assert!(rt; saturated(alloc)?);
    assert!(rt; cleared(alloc)?);
    assert!(rt; row(alloc)?);
    assert!(rt; in_order(alloc)?);
    assert!(rt; product(alloc)?);
    Ok(())
}

fn monomial(i: u8) -> Key {
    let (a, b) = (i / 16, i % 16);
    Key {
        exp: Exp {
            a: i32::from(a),
            b: i32::from(b),
        },
        powers: [a, 0, 0, 0, 0, 0, 0, b],
    }
}

fn twice_each(alloc: Global) -> Result<TermSum, AllocError> {
    let mut sum = TermSum::new(alloc);
    for i in 0..200 {
        sum.add(Arithmetic::Wrapping, &monomial(i), i128::from(i) + 1)?;
    }
    for i in 0..200 {
        sum.add(Arithmetic::Wrapping, &monomial(i), 1)?;
    }
    Ok(sum)
}

fn are_once_each(terms: &[(Key, i128)]) -> bool {
    let rows = terms.iter().zip(0..200u8);
    for (t, i) in rows {
        if t.0 != monomial(i) || t.1 != i128::from(i) + 2 {
            return false;
        }
    }
    terms.len() == 200
}

// Also where the table grows, no key stands twice.
#[test]
fn keys_stand_once(rt: HostRuntime) -> Result<(), Fail> {
    let sum = twice_each(rt.alloc())?;
    assert!(rt; are_once_each(sum.terms()));
    Ok(())
}

// 200 monomials, each with its opposite.
fn cancelled(alloc: Global) -> Result<TermSum, AllocError> {
    let mut sum = TermSum::new(alloc);
    for i in 0..200 {
        sum.add(Arithmetic::Wrapping, &monomial(i), 1)?;
        sum.add(Arithmetic::Wrapping, &monomial(i), -1)?;
    }
    Ok(sum)
}

// Terms that have become 0 don't pile up.
#[test]
fn zeros_are_dropped(rt: HostRuntime) -> Result<(), Fail> {
    let sum = cancelled(rt.alloc())?;
    assert!(rt; sum.terms().len() <= 16);
    Ok(())
}
