// Series, worked by hand at order 2, over 1 and t1*x.

use crate::samples::{line, line_list, single};
use sample_walls::monomials::{ONE, X, XX, XY, Y};
use std::alloc::{AllocError, Global};
use std::cmp::Ordering;
use std::test::Fail;
use trunc_series::{Key, Series, compare, is_constant, times};

#[test]
fn keys(rt: HostRuntime) -> Result<(), Fail> {
    assert!(rt; is_constant(&ONE) && !is_constant(&X));
    assert_eq!(rt; (ONE.degree(), XY.degree()), (0, 2));
    assert!(rt; times(&X, &Y) == XY);
    assert_eq!(rt; compare(&Y, &X), Ordering::Less);
    Ok(())
}

fn has(s: &Series, terms: &[(Key, i128)]) -> bool {
    s.terms() == terms
}

fn constants(alloc: Global) -> Result<bool, AllocError> {
    let zero = Series::zero(alloc, 2)?;
    let one = Series::one(alloc, 2)?;
    Ok(has(&zero, &[]) && has(&one, &[(ONE, 1)]))
}

fn monomials(alloc: Global) -> Result<bool, AllocError> {
    let low = Series::monomial(alloc, 2, X, 3)?;
    let high = Series::monomial(alloc, 1, XX, 3)?;
    Ok(has(&low, &[(X, 3)]) && has(&high, &[]))
}

fn given(alloc: Global) -> Result<Series, AllocError> {
    Series::from_terms(alloc, 2, &[(XX, 1), (ONE, 1), (X, -1)])
}

fn coefficients(alloc: Global) -> Result<bool, AllocError> {
    let s = given(alloc)?;
    Ok(
        has(&s, &[(ONE, 1), (X, -1), (XX, 1)])
            && [s.coefficient(&X), s.coefficient(&XX), s.coefficient(&Y)] == [-1, 1, 0],
    )
}

fn cut(alloc: Global) -> Result<bool, AllocError> {
    let s = Series::from_terms(alloc, 2, &[(XX, 1), (ONE, 1), (X, -1)])?;
    let cut = s.truncate(1)?;
    Ok(has(&cut, &[(ONE, 1), (X, -1)]) && cut.order() == 1)
}

fn copies(alloc: Global) -> Result<bool, AllocError> {
    let s = given(alloc)?;
    Ok(s.same(&s.copy()?) && !s.same(&Series::one(alloc, 2)?))
}

fn from_sorted(alloc: Global) -> Result<bool, AllocError> {
    let terms = line_list(alloc)?;
    let s = Series::from_sorted(alloc, 2, terms);
    Ok(has(&s, &[(ONE, 1), (X, 1)]) && s.order() == 2)
}

#[test]
fn series_are_made_and_cut(rt: HostRuntime) -> Result<(), Fail> {
    let alloc = rt.alloc();
    assert!(rt; constants(alloc)?);
    assert!(rt; monomials(alloc)?);
    assert!(rt; coefficients(alloc)?);
    assert!(rt; cut(alloc)?);
    assert!(rt; copies(alloc)?);
    assert!(rt; from_sorted(alloc)?);
    Ok(())
}

fn sum(alloc: Global) -> Result<bool, AllocError> {
    let minus = line(alloc, -1)?;
    let x = single(alloc)?;
    let s = minus.add(&x)?;
    Ok(has(&s, &[(ONE, 1)]))
}

fn product(alloc: Global) -> Result<bool, AllocError> {
    let plus = line(alloc, 1)?;
    let minus = line(alloc, -1)?;
    let s = plus.mul(&minus)?;
    Ok(has(&s, &[(ONE, 1), (XX, -1)]))
}

fn square(alloc: Global) -> Result<bool, AllocError> {
    let plus = line(alloc, 1)?;
    let s = plus.power(2)?;
    Ok(has(&s, &[(ONE, 1), (X, 2), (XX, 1)]))
}

fn inverse(alloc: Global) -> Result<bool, AllocError> {
    let plus = line(alloc, 1)?;
    let s = plus.power(-1)?;
    Ok(has(&s, &[(ONE, 1), (X, -1), (XX, 1)]))
}

#[test]
fn products_and_powers(rt: HostRuntime) -> Result<(), Fail> {
    let alloc = rt.alloc();
    assert!(rt; sum(alloc)?);
    assert!(rt; product(alloc)?);
    assert!(rt; square(alloc)?);
    assert!(rt; inverse(alloc)?);
    Ok(())
}
