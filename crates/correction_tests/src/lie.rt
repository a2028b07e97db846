// Lie elements: their bracket, leading parts and logarithms.

ghost use Rattle.std.specs.Prelude.{◌≡◌, ◌≢◌, ◌<◌, ◌^◌, pos, nat_abs, IfOk};
ghost use Rattle.scattering.specs.Collections.{Every};
ghost use Rattle.scattering.specs.Series.{origin};
ghost use Rattle.trunc_series.specs.Shown.{key_of};
ghost use Rattle.trunc_series.specs.Reduced.{IsNearKey};
ghost use Rattle.trunc_series.specs.Worked.{line_terms};
ghost use Rattle.correction_tests.specs.WorkedImages.{worked_x, worked_y};

use frac_128::Fraction;
use plane_geom::Direction;
use sample_walls::monomials::{X, XX, XY, Y};
use std::alloc::{AllocError, Global};
use std::test::Fail;
use trunc_series::{Exp, Key, Series};
use vertex_lie::{LieElement, LieFault, leading, wall_log};

// the element with one term
fn single(alloc: Global, key: Key, c: i128) -> Result<LieElement, AllocError>
    requires moves { (key_of key).exp ≢ origin }
    requires near { IsNearKey (key_of key) }
    requires nonzero { c ≢ pos 0 }
    ensures { IfOk result (λ h. Every (λ t. IsNearKey t.0) h) }
{
    let terms = [(key, Fraction::new(c, 1))];
    LieElement::from_terms(alloc, &terms)
}

// b·t2·y + a·t1·x
fn double(alloc: Global, a: i128, b: i128) -> Result<LieElement, AllocError>
    requires first { a ≢ pos 0 }
    requires second { b ≢ pos 0 }
    ensures { IfOk result (λ h. Every (λ t. IsNearKey t.0) h) }
{
    let terms = [(Y, Fraction::new(b, 1)), (X, Fraction::new(a, 1))];
    LieElement::from_terms(alloc, &terms)
}

// whether {t1·x, t2·y}, modulo terms of degree above the order, has exactly these terms
fn has_bracket(alloc: Global, order: bool, terms: &[(Key, Fraction)]) -> Result<bool, Fail> {
    let f = single(alloc, X, 1)?;
    let g = single(alloc, Y, 1)?;
    let bracket = f.bracket(&g, if order { 2 } else { 1 });
    Ok(bracket.is_ok_and(|h| h.terms() == terms))
}

// of 2^126·t1·x and 2^126·t2·y
fn product_is_out_of_range(alloc: Global) -> Result<bool, Fail> {
    let f = single(alloc, X, 1 << 126)?;
    let g = single(alloc, Y, 1 << 126)?;
    Ok(f.bracket(&g, 2).err() == Some(LieFault::Range))
}

// of 2^63·(t1·x + t2·y) and 2^63·(t2·y - t1·x): the coefficient is 2^126 + 2^126
fn sum_is_out_of_range(alloc: Global) -> Result<bool, Fail> {
    let f = double(alloc, 1 << 63, 1 << 63)?;
    let g = double(alloc, -(1 << 63), 1 << 63)?;
    Ok(f.bracket(&g, 2).err() == Some(LieFault::Range))
}

// of 2^62·(t1·x + t2·y) and 2^62·(t2·y - t1·x)
fn sum_is_in_range(alloc: Global) -> Result<bool, Fail> {
    let f = double(alloc, 1 << 62, 1 << 62)?;
    let g = double(alloc, -(1 << 62), 1 << 62)?;
    let sum = [(XY, Fraction::new(1 << 125, 1))];
    Ok(f.bracket(&g, 2).is_ok_and(|h| h.terms() == sum.as_slice()))
}

#[test]
fn brackets(rt: HostRuntime) -> Result<(), Fail> {
    let alloc = rt.alloc();
    let one = [(XY, Fraction::new(1, 1))];
    assert!(rt; has_bracket(alloc, true, &one)?);
    assert!(rt; has_bracket(alloc, false, &[])?);
    assert!(rt; product_is_out_of_range(alloc)?);
    assert!(rt; sum_is_out_of_range(alloc)?);
    assert!(rt; sum_is_in_range(alloc)?);
    Ok(())
}

// whether a copy has the terms
fn copies(alloc: Global) -> Result<bool, Fail> {
    let f = single(alloc, X, 3)?;
    Ok(f.copy()?.terms() == f.terms())
}

// whether terms are sorted where they come out of order
fn sorts(alloc: Global) -> Result<bool, Fail> {
    let (third, half) = (Fraction::new(1, 3), Fraction::new(-1, 2));
    let element = LieElement::from_terms(alloc, &[(X, third), (Y, half)])?;
    Ok(element.terms() == [(Y, half), (X, third)].as_slice())
}

#[test]
fn elements(rt: HostRuntime) -> Result<(), Fail> {
    assert!(rt; copies(rt.alloc())?);
    assert!(rt; sorts(rt.alloc())?);
    Ok(())
}

// x + t1·t2·x^2·y
fn image_x(alloc: Global) -> Result<Series, AllocError>
    ensures { IfOk result (λ s. s.terms ≡ worked_x) }
{
    let first = Key {
        exp: Exp { a: 1, b: 0 },
        powers: [0; 8],
    };
    let second = Key {
        exp: Exp { a: 2, b: 1 },
        powers: [1, 1, 0, 0, 0, 0, 0, 0],
    };
    Series::from_terms(alloc, 2, &[(first, 1), (second, 1)])
}

// y - t1·t2·x·y^2
fn image_y(alloc: Global) -> Result<Series, AllocError>
    ensures { IfOk result (λ s. s.terms ≡ worked_y) }
{
    let first = Key {
        exp: Exp { a: 0, b: 1 },
        powers: [0; 8],
    };
    let second = Key {
        exp: Exp { a: 1, b: 2 },
        powers: [1, 1, 0, 0, 0, 0, 0, 0],
    };
    Series::from_terms(alloc, 2, &[(first, 1), (second, -1)])
}

// whether -t1·t2·x·y is the leading part of degree 2
fn leads(alloc: Global) -> Result<bool, Fail> {
    let x = image_x(alloc)?;
    let y = image_y(alloc)?;
    let part = leading(alloc, &x, &y, 2)?;
    Ok(part.terms() == [(XY, Fraction::new(-1, 1))].as_slice())
}

#[test]
fn leading_parts(rt: HostRuntime) -> Result<(), Fail> {
    assert!(rt; leads(rt.alloc())?);
    Ok(())
}

// 1 + c·t1·x, of order 2
fn wall_function(alloc: Global, c: i128) -> Result<Series, AllocError>
    requires nonzero { c ≢ pos 0 }
    requires small { nat_abs c < 2 ^ 127 }
    ensures order { IfOk result (λ s. s.order ≡ 2) }
    ensures terms { IfOk result (λ s. s.terms ≡ line_terms c) }
{
    Series::from_terms(alloc, 2, &[(Key::ONE, 1), (X, c)])
}

// the logarithm of 1 + c·t1·x
fn line_log(alloc: Global, c: i128) -> Result<Option<LieElement>, LieFault>
    requires nonzero { c ≢ pos 0 }
    requires small { nat_abs c < 2 ^ 127 }
{
    let function = wall_function(alloc, c)?;
    match Direction::new(1, 0) {
        Some(dir) => Ok(Some(wall_log(alloc, &function, &dir)?)),
        None => Ok(None),
    }
}

// whether the logarithm of 1 + t1·x is t1·x - t1^2·x^2/4 as an element
fn has_log(alloc: Global) -> bool {
    let expected = [(X, Fraction::new(1, 1)), (XX, Fraction::new(-1, 4))];
    match line_log(alloc, 1) {
        Ok(Some(log)) => log.terms() == expected.as_slice(),
        _ => false,
    }
}

fn log_is_out_of_range(alloc: Global) -> bool {
    line_log(alloc, 1 << 120).err() == Some(LieFault::Range)
}

#[test]
fn logarithms(rt: HostRuntime) -> Result<(), Fail> {
    assert!(rt; has_log(rt.alloc()));
    assert!(rt; log_is_out_of_range(rt.alloc()));
    Ok(())
}

fn shows(alloc: Global, fault: LieFault, text: &str) -> Result<bool, Fail> {
    Ok(format!(in alloc; "{fault}")?.as_str() == text)
}

#[test]
fn faults(rt: HostRuntime) -> Result<(), Fail> {
    let alloc = rt.alloc();
    assert!(rt; shows(alloc, LieFault::Range, "a number out of range")?);
    assert!(rt; shows(alloc, LieFault::Memory, "out of memory")?);
    Ok(())
}
