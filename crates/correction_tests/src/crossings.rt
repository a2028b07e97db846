// Crossings, by hand.

ghost use Rattle.std.specs.Prelude.{◌≡◌, ◌^◌, ◌∷◌, [], pos, IfOk};
ghost use Rattle.plane_geom.specs.Shown.{vector_of};
ghost use Rattle.trunc_series.specs.Worked.{line_terms};
ghost use Rattle.correction_tests.specs.CrossedSums.{east, worked_key, crossed_once};

use plane_geom::Direction;
use sample_walls::monomials::{ONE, X};
use std::alloc::{AllocError, Global};
use std::test::Fail;
use trunc_series::{Exp, Key, Majorant, Series};
use wall_auto::{Side, cross, cross_majorant};

// t1^p·z^(a, b)
fn key(p: u8, a: i32, b: i32) -> Key {
    Key {
        exp: Exp { a, b },
        powers: [p, 0, 0, 0, 0, 0, 0, 0],
    }
}

// (1, 0)
fn level() -> Result<Direction, &'static str>
    ensures { IfOk result (λ d. vector_of d ≡ east) }
{
    Direction::new(1, 0).ok_or("not primitive")
}

// 1 + t1*x
pub fn line(alloc: Global) -> Result<Series, AllocError>
    ensures order { IfOk result (λ s. s.order ≡ 2) }
    ensures terms { IfOk result (λ s. s.terms ≡ line_terms (pos 1)) }
{
    Series::from_terms(alloc, 2, &[(ONE, 1), (X, 1)])
}

// y
fn upright(alloc: Global) -> Result<Series, AllocError>
    ensures order { IfOk result (λ s. s.order ≡ 2) }
    ensures terms { IfOk result (λ s. s.terms ≡ (worked_key 0 (pos 0) (pos 1), pos 1) ∷ []) }
{
    let y = Key {
        exp: Exp { a: 0, b: 1 },
        powers: [0; 8],
    };
    Series::monomial(alloc, 2, y, 1)
}

// y + t1*x*y
fn once(alloc: Global) -> Result<Series, AllocError>
    ensures order { IfOk result (λ s. s.order ≡ 2) }
    ensures terms { IfOk result (λ s. s.terms ≡ crossed_once) }
{
    let y = Key {
        exp: Exp { a: 0, b: 1 },
        powers: [0; 8],
    };
    let xy = Key {
        exp: Exp { a: 1, b: 1 },
        powers: [1, 0, 0, 0, 0, 0, 0, 0],
    };
    Series::from_terms(alloc, 2, &[(y, 1), (xy, 1)])
}

// y
fn bound(alloc: Global) -> Result<Majorant, AllocError>
    ensures order { IfOk result (λ m. m.order ≡ 2) }
    ensures terms { IfOk result (λ m. m.terms ≡ (worked_key 0 (pos 0) (pos 1), pos 1) ∷ []) }
{
    let series = upright(alloc)?;
    Majorant::of(&series)
}

// Whether y is taken to these terms.
fn crosses(alloc: Global, side: Side, terms: &[(Key, i128)]) -> Result<bool, Fail> {
    let dir = level()?;
    let f = line(alloc)?;
    let y = upright(alloc)?;
    let image = cross(alloc, &y, &dir, &f, side)?;
    Ok(image.terms() == terms)
}

// Whether y + t1·x·y is taken to y.
fn crosses_back(alloc: Global) -> Result<bool, Fail> {
    let dir = level()?;
    let f = line(alloc)?;
    let g = once(alloc)?;
    let image = cross(alloc, &g, &dir, &f, Side::Minus)?;
    Ok(image.terms() == [(key(0, 0, 1), 1)].as_slice())
}

// Whether the majorant of y is taken to these terms.
fn bounds(alloc: Global, terms: &[(Key, i128)]) -> Result<bool, Fail> {
    let dir = level()?;
    let f = line(alloc)?;
    let g = bound(alloc)?;
    let image = cross_majorant(alloc, &g, &dir, &f)?;
    Ok(image.terms() == terms)
}

#[test]
fn crossings(rt: HostRuntime) -> Result<(), Fail> {
    let alloc = rt.alloc();
    let y = (key(0, 0, 1), 1);
    assert!(rt; crosses(alloc, Side::Plus, &[y, (key(1, 1, 1), 1)])?);
    let minus = [y, (key(1, 1, 1), -1), (key(2, 2, 1), 1)];
    assert!(rt; crosses(alloc, Side::Minus, &minus)?);
    assert!(rt; crosses_back(alloc)?);
    let majorant = [y, (key(1, 1, 1), 1), (key(2, 2, 1), 1)];
    assert!(rt; bounds(alloc, &majorant)?);
    Ok(())
}

// 1 + 2^62*t1*x, whose cube has a coefficient of 187 bits
fn steep(alloc: Global) -> Result<Series, AllocError>
    ensures order { IfOk result (λ s. s.order ≡ 3) }
    ensures terms { IfOk result (λ s. s.terms ≡ line_terms (pos (2 ^ 62))) }
{
    Series::from_terms(alloc, 3, &[(ONE, 1), (X, 1 << 62)])
}

// t1^2*y^3
fn high(alloc: Global) -> Result<Series, AllocError>
    ensures order { IfOk result (λ s. s.order ≡ 3) }
    ensures terms { IfOk result (λ s. s.terms ≡ (worked_key 2 (pos 0) (pos 3), pos 1) ∷ []) }
{
    let y = Key {
        exp: Exp { a: 0, b: 3 },
        powers: [2, 0, 0, 0, 0, 0, 0, 0],
    };
    Series::monomial(alloc, 3, y, 1)
}

// Whether the image of t1^2·y^3 has a coefficient of 64 bits.
fn crosses_steeply(alloc: Global) -> Result<bool, Fail> {
    let dir = level()?;
    let f = steep(alloc)?;
    let y = high(alloc)?;
    let image = cross(alloc, &y, &dir, &f, Side::Plus)?;
    let terms = [(key(2, 0, 3), 1), (key(3, 1, 3), 13835058055282163712)];
    Ok(image.terms() == terms.as_slice())
}

#[test]
fn steep_powers(rt: HostRuntime) -> Result<(), Fail> {
    assert!(rt; crosses_steeply(rt.alloc())?);
    Ok(())
}
