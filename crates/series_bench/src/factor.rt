// The factors that are multiplied.

ghost use Rattle.std.specs.Prelude.{◌≡◌, ◌≤◌, ◌<◌, ◌-◌, ◌^◌, [], ◌∷◌, nat_abs, IfOk};
ghost use Rattle.limits.specs.Limits.{highest_order, largest_exponent};
ghost use Rattle.trunc_series.specs.Shown.{term_of, HasNearTerms};
ghost use Rattle.series_bench.specs.Factor.{IsPart};

use limits::HIGHEST_ORDER;
use std::alloc::{AllocError, Global};
use trunc_series::{Exp, Key, Series, bounds_carry_over};

/// The number of terms of a factor.
const TERMS: u32 = 2000;

/// The order of the factors.
/// The powers i and j of the monomial t1^i·t2^j at a place below 325: each of degree at most 24 comes once.
fn powers(place: u32) -> (u8, u8)
    requires { place < 325 }
    ensures first { result.0 ≤ highest_order }
    ensures second { result.1 ≤ highest_order }
{
    let x = (place % 25) as u8;
    let y = (place / 25) as u8;
    if x + y <= 24 {
        (x, y)
    } else {
        (24 - x, 25 - y)
    }
}

/// A multiple of the spread.
fn multiple(spread: i32, round: i32) -> i32
    requires spread { nat_abs spread ≤ 100 }
    requires round { nat_abs round ≤ 100 }
    ensures { nat_abs result ≤ 10000 }
{
    spread * round
}

/// An exponent of a monomial; the exponents of one monomial differ from round to round.
fn exponent(spread: i32, round: i32, i: i32, j: i32) -> Exp
    requires spread { nat_abs spread ≤ 100 }
    requires round { nat_abs round ≤ 6 }
    requires i { nat_abs i ≤ highest_order }
    requires j { nat_abs j ≤ highest_order }
    ensures a { nat_abs result.a ≤ largest_exponent }
    ensures b { nat_abs result.b ≤ largest_exponent }
{
    Exp {
        a: multiple(spread, round) + i - 2 * j,
        b: multiple(round, round) + j,
    }
}

/// The coefficient of a term; it is odd.
fn coefficient(round: i32, i: i32, j: i32) -> i32
    requires round { nat_abs round ≤ 6 }
    requires i { nat_abs i ≤ highest_order }
    requires j { nat_abs j ≤ highest_order }
    ensures { nat_abs result ≤ 2 ^ 20 }
{
    2 * (i + round - j) + 1
}

/// The term at a place below 2000: the monomials come in turn, and come again with another exponent.
fn term(spread: i32, place: u32) -> (Key, i128)
    requires spread { nat_abs spread ≤ 100 }
    requires place { place < 2000 }
    ensures small { nat_abs result.1 ≤ 2 ^ 20 }
    ensures near { HasNearTerms (term_of result ∷ []) }
{
    let round = (place / 325) as i32;
    let (i, j) = powers(place % 325);
    let powers = [i, j, 0, 0, 0, 0, 0, 0];
    let (i, j) = (i32::from(i), i32::from(j));
    let exp = exponent(spread, round, i, j);
    let c = coefficient(round, i, j);
    (Key { exp, powers }, i128::from(c))
}

/// The sum of the terms at the places from `from` to before `to`.
fn sum(alloc: Global, spread: i32, from: u32, to: u32) -> Result<Series, AllocError>
    requires spread { nat_abs spread ≤ 100 }
    requires to { to ≤ 2000 }
    ensures { IfOk result (IsPart (to - from)) }
{
    bounds_carry_over();
    if to <= from {
        return Series::zero(alloc, HIGHEST_ORDER);
    }
    if to - from == 1 {
        let (key, c) = term(spread, from);
        return Series::monomial(alloc, HIGHEST_ORDER, key, c);
    }
    let middle = from + (to - from) / 2;
    let left = sum(alloc, spread, from, middle)?;
    let right = sum(alloc, spread, middle, to)?;
    left.add(&right)
}

/// A series of order 24 with 2,000 terms in the variables t1 and t2.
pub(crate) fn factor(alloc: Global, spread: i32) -> Result<Series, AllocError>
    requires { nat_abs spread ≤ 100 }
    ensures { IfOk result (IsPart 2000) }
{
    sum(alloc, spread, 0, TERMS)
}
