// The terms of a wall's function in x = z^d, where d is the wall's direction, in the order in which they are printed.
ghost use Rattle.std.specs.Prelude.{◌≡◌, ◌≢◌, ◌∷◌, [], ◌≤ℤ◌, ◌*ℤ◌, ℤ, pos, map, IfOk, OnOk};
ghost use Rattle.std.specs.List.Sorted.{IsPermutation, IsSorted};
ghost use Rattle.scattering.specs.Series.{rest, scale, IsMultiple};
ghost use Rattle.plane_geom.specs.Shown.{vector_of};
ghost use Rattle.trunc_series.specs.Shown.{term_of, sum_of, exp_of as exponent_of};
ghost use Rattle.scatter_diagram.specs.Shown.{wall_of};
ghost use Rattle.scatter_text.specs.DiagramText.{AreRows, row_term};
ghost use Rattle.scatter_text.specs.PrintedRows.{row_of, row_order, printed_order, AreAlong, AreMultiples, IsAlongMore};

use plane_geom::Direction;
use scatter_diagram::Wall;
use std::alloc::{AllocError, Global};
use std::cmp::Ordering;
use trunc_series::{Exp, Key, is_constant};

/// The term c·t^P·z^(j·d) of the function of a wall in direction d, with P as `powers`.
#[derive(Clone, Copy)]
pub struct PrintedRow {
    pub j: u32,
    pub powers: [u8; 8],
    pub c: i128,
}

/// x/d where that is a positive whole number.
fn quotient(x: i32, d: i32) -> u32
    requires some { d ≢ pos 0 }
    requires multiple { (j : ℤ) × (pos 1 ≤ℤ j) × (x ≡ j *ℤ d) }
    ensures { x ≡ pos result *ℤ d }
{
    x.unsigned_abs() / d.unsigned_abs()
}

/// Of which multiple of the direction this is the exponent.
fn multiple(dir: &Direction, exp: &Exp) -> u32
    requires { IsMultiple (vector_of dir.now) (exponent_of exp.now) }
    ensures { exponent_of exp.now ≡ scale (pos result) (vector_of dir.now) }
{
    if dir.a != 0 {
        quotient(exp.a, dir.a)
    } else {
        quotient(exp.b, dir.b)
    }
}

/// A term as it is printed.
fn row(dir: &Direction, key: &Key, c: i128) -> PrintedRow
    requires { IsMultiple (vector_of dir.now) (exponent_of key.now.exp) }
    ensures { row_term (vector_of dir.now) (row_of result) ≡ term_of (key.now, c) }
{
    let j = multiple(dir, &key.exp);
    let powers = key.powers;
    PrintedRow { j, powers, c }
}

/// Appends a term, unless its key is the constant key.
fn push_along(
    out: &mut Vec<PrintedRow>,
    dir: &Direction,
    term: &(Key, i128),
) -> Result<(), AllocError>
    requires { AreMultiples (vector_of dir.now) (term_of term.now ∷ []) }
    ensures { OnOk result (IsAlongMore (vector_of dir.now) (map row_of out.old.items)
        (map row_of out.new.items) (term_of term.now)) }
{
    let (key, c) = term;
    if is_constant(key) {
        return Ok(());
    }
    out.push(row(dir, key, *c))?;
    Ok(())
}

/// The terms other than the constant, in their order.
fn terms_along(
    alloc: Global,
    dir: &Direction,
    terms: &[(Key, i128)],
) -> Result<Vec<PrintedRow>, AllocError>
    requires { AreMultiples (vector_of dir.now) (sum_of terms.now) }
    ensures { IfOk result (λ r. AreAlong (vector_of dir.now) (map row_of r.items)
        (rest (sum_of terms.now))) }
{
    let mut out = Vec::with_capacity(alloc, terms.len())?;
    for term in terms {
        push_along(&mut out, dir, term)?;
    }
    Ok(out)
}

/// How two rows stand: by j, then by the powers.
fn compare(r: &PrintedRow, s: &PrintedRow) -> Ordering
    ensures { result ≡ row_order (row_of r.now) (row_of s.now) }
{
    r.j.cmp(&s.j).then(r.powers.cmp(&s.powers))
}

/// Sorts rows by j, then by the powers.
fn sort(rows: &mut Vec<PrintedRow>)
    ensures permutation { IsPermutation rows.old.items rows.new.items }
    ensures sorted { IsSorted printed_order rows.new.items }
{
    rows.sort_unstable_by(|r, s| compare(r, s));
}

/// The terms of the function other than the constant, by j and then by the powers.
pub fn rows_along(alloc: Global, wall: &Wall) -> Result<Vec<PrintedRow>, AllocError>
    ensures { IfOk result (λ rows. AreRows (wall_of wall.now) (map row_of rows.items)) }
{
    let mut rows = terms_along(alloc, &wall.dir, wall.function.terms())?;
    sort(&mut rows);
    Ok(rows)
}
