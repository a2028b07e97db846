// Majorants, worked by hand at order 2, over 1 and t1*x.

use crate::samples::{line, line_list, majorant};
use sample_walls::monomials::{ONE, X, XX};
use std::alloc::{AllocError, Global};
use std::test::Fail;
use trunc_series::{Key, Majorant, Series};

fn bounds(m: &Majorant, terms: &[(Key, i128)]) -> bool {
    m.terms() == terms
}

fn doubled(alloc: Global) -> Result<bool, AllocError> {
    let one = majorant(alloc)?;
    let two = one.add(&one)?;
    Ok(bounds(&one, &[(ONE, 1), (X, 1)]) && bounds(&two, &[(ONE, 2), (X, 2)]) && two.mass() == 4)
}

fn copies(alloc: Global) -> Result<bool, AllocError> {
    let copy = majorant(alloc)?.copy()?;
    Ok(bounds(&copy, &[(ONE, 1), (X, 1)]) && copy.order() == 2)
}

fn from_sorted(alloc: Global) -> Result<bool, AllocError> {
    let terms = line_list(alloc)?;
    let m = Majorant::from_sorted(alloc, 2, terms);
    Ok(bounds(&m, &[(ONE, 1), (X, 1)]) && m.order() == 2 && m.mass() == 2)
}

// 2^127 - 1 at t1*x
fn high(alloc: Global) -> Result<Majorant, AllocError> {
    let series = Series::from_terms(alloc, 2, &[(X, i128::MAX)])?;
    Majorant::of(&series)
}

fn saturated(alloc: Global) -> Result<bool, AllocError> {
    let high = high(alloc)?;
    Ok(bounds(&high, &[(X, (1 << 126) + 1)]) && high.mass() == (1 << 126) + 1)
}

#[test]
fn majorants_saturate(rt: HostRuntime) -> Result<(), Fail> {
    let alloc = rt.alloc();
    assert!(rt; doubled(alloc)?);
    assert!(rt; copies(alloc)?);
    assert!(rt; from_sorted(alloc)?);
    assert!(rt; saturated(alloc)?);
    Ok(())
}

fn geometric(alloc: Global) -> Result<bool, AllocError> {
    let of = majorant(alloc)?;
    let m = of.geometric()?;
    Ok(bounds(&m, &[(ONE, 1), (X, 1), (XX, 1)]) && m.mass() == 3)
}

fn geometric_of(alloc: Global) -> Result<bool, AllocError> {
    let minus = line(alloc, -1)?;
    let m = Majorant::geometric_of(&minus)?;
    Ok(bounds(&m, &[(ONE, 1), (X, 1), (XX, 1)]))
}

fn square(alloc: Global) -> Result<bool, AllocError> {
    let of = majorant(alloc)?;
    let m = of.mul(&of)?;
    Ok(bounds(&m, &[(ONE, 1), (X, 2), (XX, 1)]))
}

fn second_power(alloc: Global) -> Result<bool, AllocError> {
    let of = majorant(alloc)?;
    let m = of.power(2)?;
    Ok(bounds(&m, &[(ONE, 1), (X, 2), (XX, 1)]) && m.mass() == 4)
}

#[test]
fn products_and_powers(rt: HostRuntime) -> Result<(), Fail> {
    let alloc = rt.alloc();
    assert!(rt; geometric(alloc)?);
    assert!(rt; geometric_of(alloc)?);
    assert!(rt; square(alloc)?);
    assert!(rt; second_power(alloc)?);
    Ok(())
}
