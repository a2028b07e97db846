// Theta functions, and the faults of asking for one.

ghost use Rattle.broken_lines.specs.Traced.{IsAskable};

use crate::tails::{exp, one_line, two_lines};
use broken_lines::AskFault;
use plane_geom::Point;
use sample_walls::monomials::{ONE, T3_X};
use sample_walls::{origin, place};
use std::alloc::Global;
use std::test::Fail;
use theta_algebra::{Answer, Reply, theta};
use trunc_series::{Exp, Key, Series};

/// t1^i·t2^j·z^(a, b)
pub(crate) const fn monomial(i: u8, j: u8, a: i32, b: i32) -> Key {
    Key {
        exp: Exp { a, b },
        powers: [i, j, 0, 0, 0, 0, 0, 0],
    }
}

// Whether the theta of m among the two lines is the series of order 2 with these terms.
fn has_terms(alloc: Global, m: Exp, at: Point, terms: &[(Key, i128)]) -> Result<bool, Fail>
    requires { IsAskable m }
{
    let e = two_lines(alloc)?;
    let found = theta(alloc, &e, m, &at, 2)?;
    Ok(found.order() == 2 && found.terms() == terms)
}

// Whether the theta of (0, 2) at (0, -2) is z^(0, 2) + 2·t1·z^(1, 2) among the one line.
fn doubles(alloc: Global) -> Result<bool, Fail> {
    let e = one_line(alloc)?;
    let found = theta(alloc, &e, exp(0, 2), &place(0, -2)?, 1)?;
    let wanted = [(monomial(0, 0, 0, 2), 1), (monomial(1, 0, 1, 2), 2)];
    Ok(found.order() == 1 && found.terms() == wanted.as_slice())
}

// Whether the same theta up to order 0 is z^(0, 2).
fn goes_straight(alloc: Global) -> Result<bool, Fail> {
    let e = one_line(alloc)?;
    let found = theta(alloc, &e, exp(0, 2), &place(0, -2)?, 0)?;
    let wanted = [(monomial(0, 0, 0, 2), 1)];
    Ok(found.order() == 0 && found.terms() == wanted.as_slice())
}

#[test]
fn thetas_sum_lines(rt: HostRuntime) -> Result<(), Fail> {
    let thrice = [
        (monomial(0, 0, -1, -1), 1),
        (monomial(0, 1, -1, 0), 1),
        (monomial(1, 0, 0, -1), 1),
    ];
    assert!(rt; has_terms(rt.alloc(), exp(-1, -1), place(2, 1)?, thrice.as_slice())?);
    assert!(rt; has_terms(rt.alloc(), exp(0, 0), place(2, 1)?, [(ONE, 1)].as_slice())?);
    assert!(rt; doubles(rt.alloc())?);
    assert!(rt; goes_straight(rt.alloc())?);
    Ok(())
}

// Whether the theta of (-1, -1) has a fault among the two lines.
fn fails(alloc: Global, at: Point, fault: AskFault) -> Result<bool, Fail> {
    let e = two_lines(alloc)?;
    Ok(theta(alloc, &e, exp(-1, -1), &at, 2).err() == Some(fault))
}

// Whether even the theta of (0, 0) has a fault on a line.
fn rests_off_lines(alloc: Global) -> Result<bool, Fail> {
    let e = two_lines(alloc)?;
    let at = place(0, 5)?;
    let fault = theta(alloc, &e, exp(0, 0), &at, 2).err();
    Ok(fault == Some(AskFault::NotGeneric { at }))
}

#[test]
fn thetas_are_asked_at_generic_points(rt: HostRuntime) -> Result<(), Fail> {
    let through = AskFault::NotGeneric { at: origin() };
    assert!(rt; fails(rt.alloc(), place(1, 1)?, through)?);
    let on_line = AskFault::NotGeneric { at: place(0, 5)? };
    assert!(rt; fails(rt.alloc(), place(0, 5)?, on_line)?);
    assert!(rt; rests_off_lines(rt.alloc())?);
    Ok(())
}

// Whether an answer's reply is one series with the term 3·t3·x.
fn is_one_series(answer: &Answer) -> bool {
    match &answer.result {
        Ok(Reply::Series(s)) => s.order() == 1 && s.terms() == [(T3_X, 3)].as_slice(),
        _ => false,
    }
}

// Whether an answer's reply is the family of that series at (2, -1).
fn is_family(answer: &Answer) -> bool {
    let Ok(Reply::Family(family)) = &answer.result else {
        return false;
    };
    let [(r, s)] = family.as_slice() else {
        return false;
    };
    *r == exp(2, -1) && s.order() == 1 && s.terms() == [(T3_X, 3)].as_slice()
}

// Whether the copy of an answer with one series has the same.
fn copies_series(alloc: Global) -> Result<bool, Fail> {
    let reply = Reply::Series(Series::monomial(alloc, 1, T3_X, 3)?);
    let answer = Answer {
        order: 7,
        result: Ok(reply),
    };
    let copy = answer.copy(alloc)?;
    Ok(copy.order == 7 && is_one_series(&copy))
}

// Whether the copy of an answer with a family has the same.
fn copies_family(alloc: Global) -> Result<bool, Fail> {
    let mut family = Vec::new(alloc);
    family.push((exp(2, -1), Series::monomial(alloc, 1, T3_X, 3)?))?;
    let answer = Answer {
        order: 7,
        result: Ok(Reply::Family(family)),
    };
    let copy = answer.copy(alloc)?;
    Ok(copy.order == 7 && is_family(&copy))
}

// Whether the copy of an answer that is a fault has the same.
fn copies_fault(alloc: Global) -> Result<bool, Fail> {
    let answer = Answer {
        order: 7,
        result: Err(AskFault::TooManyTails),
    };
    let copy = answer.copy(alloc)?;
    Ok(copy.order == 7 && copy.result.err() == Some(AskFault::TooManyTails))
}

#[test]
fn answers_are_copied(rt: HostRuntime) -> Result<(), Fail> {
    assert!(rt; copies_series(rt.alloc())?);
    assert!(rt; copies_family(rt.alloc())?);
    assert!(rt; copies_fault(rt.alloc())?);
    Ok(())
}
