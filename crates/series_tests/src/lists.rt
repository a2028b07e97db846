// Coefficients as they are kept, and sorted lists of terms, worked by hand.

use sample_walls::monomials::{ONE, X, XX};
use std::alloc::{AllocError, Global};
use std::test::Fail;
use trunc_series::sorted_terms::{
    Arithmetic, absolutes, collected, level, low_terms, merged, multiplied, one_term, product, sum,
    without_constant,
};

const TWO_TO_126: i128 = 1 << 126;

fn wraps() -> bool {
    sum(Arithmetic::Wrapping, &i128::MAX, &1) == i128::MIN
        && product(Arithmetic::Wrapping, &TWO_TO_126, &4) == 0
}

fn saturates() -> bool {
    sum(Arithmetic::Saturating, &TWO_TO_126, &2) == TWO_TO_126 + 1
        && product(Arithmetic::Saturating, &TWO_TO_126, &4) == TWO_TO_126 + 1
}

fn is_exact(rule: Arithmetic) -> bool {
    sum(rule, &2, &3) == 5 && product(rule, &2, &3) == 6
}

#[test]
fn coefficients_are_kept(rt: HostRuntime) -> Result<(), Fail> {
    assert!(rt; wraps());
    assert!(rt; saturates());
    assert!(rt; is_exact(Arithmetic::Wrapping) && is_exact(Arithmetic::Saturating));
    Ok(())
}

fn like_terms(alloc: Global) -> Result<bool, AllocError> {
    let terms = collected(alloc, 2, &[(X, 2), (ONE, 1), (X, -1)])?;
    Ok(terms.as_slice() == [(ONE, 1), (X, 1)].as_slice())
}

fn merge(alloc: Global) -> Result<bool, AllocError> {
    let left = [(ONE, 1), (X, 2)];
    let terms = merged(alloc, Arithmetic::Wrapping, &left, &[(X, -2), (XX, 3)])?;
    Ok(terms.as_slice() == [(ONE, 1), (XX, 3)].as_slice())
}

fn low(alloc: Global) -> Result<bool, AllocError> {
    let terms = low_terms(alloc, 1, &[(ONE, 1), (X, 2), (XX, 3)])?;
    Ok(terms.as_slice() == [(ONE, 1), (X, 2)].as_slice())
}

fn others(alloc: Global) -> Result<bool, AllocError> {
    let terms = without_constant(alloc, &[(ONE, 1), (X, 2)])?;
    Ok(terms.as_slice() == [(X, 2)].as_slice())
}

fn absolute(alloc: Global) -> Result<bool, AllocError> {
    let terms = absolutes(alloc, &[(ONE, 1), (X, -2)])?;
    Ok(terms.as_slice() == [(ONE, 1), (X, 2)].as_slice())
}

fn of_degree(alloc: Global) -> Result<bool, AllocError> {
    let terms = level(alloc, 1, &[(ONE, 1), (X, 2), (XX, 3)])?;
    Ok(terms.as_slice() == [(X, 2)].as_slice())
}

fn unit(alloc: Global) -> Result<bool, AllocError> {
    Ok(one_term(alloc)?.as_slice() == [(ONE, 1)].as_slice())
}

#[test]
fn lists_of_terms(rt: HostRuntime) -> Result<(), Fail> {
    let alloc = rt.alloc();
    assert!(rt; like_terms(alloc)?);
    assert!(rt; merge(alloc)?);
    assert!(rt; low(alloc)?);
    assert!(rt; others(alloc)?);
    assert!(rt; absolute(alloc)?);
    assert!(rt; of_degree(alloc)?);
    assert!(rt; unit(alloc)?);
    Ok(())
}

// (1 + t1*x)·(1 - t1*x) at order 2
fn difference_of_squares(alloc: Global) -> Result<bool, AllocError> {
    let left = [(ONE, 1), (X, 1)];
    let terms = multiplied(alloc, Arithmetic::Wrapping, 2, &left, &[(ONE, 1), (X, -1)])?;
    Ok(terms.as_slice() == [(ONE, 1), (XX, -1)].as_slice())
}

// 2·t1*x times 1 - t1*x
fn one_row(alloc: Global) -> Result<bool, AllocError> {
    let terms = multiplied(
        alloc,
        Arithmetic::Wrapping,
        2,
        &[(X, 2)],
        &[(ONE, 1), (X, -1)],
    )?;
    Ok(terms.as_slice() == [(X, 2), (XX, -2)].as_slice())
}

// The same at order 1.
fn one_low_row(alloc: Global) -> Result<bool, AllocError> {
    let terms = multiplied(
        alloc,
        Arithmetic::Wrapping,
        1,
        &[(X, 2)],
        &[(ONE, 1), (X, -1)],
    )?;
    Ok(terms.as_slice() == [(X, 2)].as_slice())
}

#[test]
fn products_of_lists(rt: HostRuntime) -> Result<(), Fail> {
    let alloc = rt.alloc();
    assert!(rt; difference_of_squares(alloc)?);
    assert!(rt; one_row(alloc)?);
    assert!(rt; one_low_row(alloc)?);
    Ok(())
}
