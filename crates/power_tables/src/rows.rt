// Rows of binomial and multiset coefficients, as they are kept, by Pascal's rule.

ghost use Rattle.std.specs.Prelude.{◌≡◌, ◌<◌, nat_abs, ℕ, suc, pos, ◌∷◌, length, replicate, IfOk, OnOk};
ghost use Rattle.power_tables.specs.Kept.{AreKeepable};
ghost use Rattle.power_tables.specs.Rows.{rule_of, factor_of, IsBinomialRow, IsFullRow, AreBinomialRows};
ghost use Rattle.power_tables.specs.Binomials.{AreBinomials, HasRow, rows_in};
ghost use Rattle.power_tables.specs.declared.rows.Family.{Family};
ghost use Rattle.power_tables.specs.Tables.{factor};
ghost use Rattle.trunc_series.specs.Arithmetic.{kept, IsKeepable};

use std::alloc::{AllocError, Global};
use trunc_series::sorted_terms::{Arithmetic, product, sum};

/// The numbers of a row: those of the powers u^0 to u^24.
pub const WIDTH: usize = 25;

/// Rows above this one are not kept.
const MOST_KEPT: usize = 1 << 17;

/// Binomial coefficients of the numbers from 0 on, and of those from 0 down, and multiset coefficients.
#[derive(Clone, Copy)]
pub enum Family {
    Above,
    Below,
    Multisets,
}

/// The number at `r` of the next row, of which the numbers before it are made.
fn next_number(family: Family, row: &[i128], next: &[i128], r: usize) -> i128
    requires inside { r < length row.now }
    requires made { length next.now ≡ r }
    requires row { AreKeepable (rule_of family) row.now }
    requires next { AreKeepable (rule_of family) next.now }
    ensures number { (m : ℕ) → IsBinomialRow family m row.now → IsBinomialRow family (suc m) next.now
        → result ≡ kept (rule_of family) (factor_of family (suc m) r) }
    ensures keepable { IsKeepable (rule_of family) result }
{
    if r == 0 {
        return 1;
    }
    match family {
        Family::Above => sum(Arithmetic::Wrapping, &row[r], &row[r - 1]),
        Family::Below => {
            let less = product(Arithmetic::Wrapping, &next[r - 1], &-1);
            sum(Arithmetic::Wrapping, &row[r], &less)
        }
        Family::Multisets => sum(Arithmetic::Saturating, &row[r], &next[r - 1]),
    }
}

/// The row after a row.
fn next_row(alloc: Global, family: Family, row: &[i128]) -> Result<Vec<i128>, AllocError>
    requires row { AreKeepable (rule_of family) row.now }
    ensures length { IfOk result (λ r. length r.items ≡ length row.now) }
    ensures keepable { IfOk result (λ r. AreKeepable (rule_of family) r.items) }
    ensures next { IfOk result
        (λ r. (m : ℕ) → IsBinomialRow family m row.now → IsBinomialRow family (suc m) r.items) }
{
    let mut next = Vec::with_capacity(alloc, row.len())?;
    for r in 0..row.len() {
        next.push(next_number(family, row, next.as_slice(), r))?;
    }
    Ok(next)
}

/// The row of 0: 1, 0, 0 and so on.
fn first_row(alloc: Global) -> Result<Vec<i128>, AllocError>
    ensures { IfOk result (λ r. r.items ≡ pos 1 ∷ replicate 24 (pos 0)) }
{
    let mut out = Vec::with_capacity(alloc, WIDTH)?;
    out.push(1)?;
    for _ in 1..WIDTH {
        out.push(0)?;
    }
    Ok(out)
}

/// Makes the row of 0, where there are none.
fn start_rows(alloc: Global, family: Family, rows: &mut Vec<Vec<i128>>) -> Result<(), AllocError>
    requires rows { AreBinomialRows family 0 rows.old.items }
    ensures rows { AreBinomialRows family 0 rows.new.items }
    ensures some { OnOk result (0 < length rows.new.items) }
{
    if rows.len() > 0 {
        return Ok(());
    }
    let row = first_row(alloc)?;
    rows.push(row)?;
    Ok(())
}

/// Makes rows from 0 on, at least to that of `m`.
pub fn make_rows(
    alloc: Global,
    family: Family,
    rows: &mut Vec<Vec<i128>>,
    m: usize,
) -> Result<(), AllocError>
    requires rows { AreBinomialRows family 0 rows.old.items }
    ensures rows { AreBinomialRows family 0 rows.new.items }
    ensures made { OnOk result (m < length rows.new.items) }
{
    start_rows(alloc, family, rows)?;
    'grow: while rows.len() <= m {
        let next = next_row(alloc, family, rows[rows.len() - 1].as_slice())?;
        rows.push(next)?;
    }
    Ok(())
}

/// The row of `m`, made from that of 0 without keeping any.
fn far_row(alloc: Global, family: Family, m: usize) -> Result<Vec<i128>, AllocError>
    ensures { IfOk result (λ r. IsFullRow family m r.items) }
{
    let mut row = first_row(alloc)?;
    for i in 0..m {
        row = next_row(alloc, family, row.as_slice())?;
    }
    Ok(row)
}

/// Rows that were made, of each family, and the last one that was made above those that are kept.
#[derive(Drop)]
pub struct Binomials {
    pub above: Vec<Vec<i128>>,
    pub below: Vec<Vec<i128>>,
    pub multisets: Vec<Vec<i128>>,
    pub far: Vec<i128>,
}

/// The family of the numbers of a power with the exponent `n`.
pub fn family_of(rule: Arithmetic, n: i64) -> Family
    ensures rule { rule_of result ≡ rule }
    ensures numbers { (r : ℕ) → factor_of result (nat_abs n) r ≡ factor rule n r }
{
    match rule {
        Arithmetic::Saturating => Family::Multisets,
        Arithmetic::Wrapping => { if n < 0 { Family::Below } else { Family::Above } }
    }
}

/// Makes the row of `m`, where it isn't there.
pub fn make_row(
    alloc: Global,
    family: Family,
    m: usize,
    binomials: &mut Binomials,
) -> Result<(), AllocError>
    requires { AreBinomials binomials.old }
    ensures binomials { AreBinomials binomials.new }
    ensures made { OnOk result (HasRow family m binomials.new) }
{
    if m > MOST_KEPT {
        binomials.far = far_row(alloc, family, m)?;
        return Ok(());
    }
    match family {
        Family::Above => make_rows(alloc, family, &mut binomials.above, m),
        Family::Below => make_rows(alloc, family, &mut binomials.below, m),
        Family::Multisets => make_rows(alloc, family, &mut binomials.multisets, m),
    }
}

/// The rows of a family that are kept.
fn rows_of(family: Family, binomials: &Binomials) -> &[Vec<i128>]
    ensures { result.now ≡ rows_in family binomials.now }
{
    match family {
        Family::Above => binomials.above.as_slice(),
        Family::Below => binomials.below.as_slice(),
        Family::Multisets => binomials.multisets.as_slice(),
    }
}

/// The row of `m`, which was made.
pub fn row_of(family: Family, m: usize, binomials: &Binomials) -> &[i128]
    requires binomials { AreBinomials binomials.now }
    requires made { HasRow family m binomials.now }
    ensures { IsFullRow family m result.now }
{
    if m > MOST_KEPT {
        return binomials.far.as_slice();
    }
    rows_of(family, binomials)[m].as_slice()
}
