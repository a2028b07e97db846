// Numbers that bound others as long as they don't saturate, and rows of them by degree.

ghost use Rattle.std.specs.Prelude.{◌≡◌, ◌≤◌, ◌<◌, ◌+◌, ◌*◌, ◌/◌, ◌^◌, ℕ, slice_index};
ghost use Rattle.degree_theory.specs.Parts.{multichoose};
ghost use Rattle.weight_bounds.specs.Masses.{IsBound};
ghost use Rattle.weight_bounds.specs.Rows.{AddsTimes};

/// A mass for each degree from 0 to 24.
pub(crate) type Masses = [u128; 25];

/// An exponent for each degree from 0 to 24.
pub(crate) type Exponents = [u64; 25];

#[inline(always)]
pub(crate) fn sum(x: u128, y: u128) -> u128
    ensures { (v w : ℕ) → IsBound x v → IsBound y w → IsBound result (v + w) }
{
    x.saturating_add(y)
}

/// Most masses have 64 bits, and their product 128.
#[inline(always)]
pub(crate) fn product(x: u128, y: u128) -> u128
    ensures { (v w : ℕ) → IsBound x v → IsBound y w → IsBound result (v * w) }
{
    if x <= u64::MAX as u128 && y <= u64::MAX as u128 {
        return (x as u64) as u128 * (y as u64) as u128;
    }
    match x.checked_mul(y) {
        Some(p) => p,
        None => u128::MAX,
    }
}

/// x divided by r + 1.
#[inline(always)]
fn quotient(x: u128, r: usize) -> u128
    requires { r < 2 ^ 60 }
    ensures { result ≡ x / (r + 1) }
{
    if x <= u64::MAX as u128 {
        (x as u64 / (r as u64 + 1)) as u128
    } else {
        x / (r as u128 + 1)
    }
}

/// The multiset coefficient of n and r + 1, of that of n and r.
#[inline(always)]
pub(crate) fn next_choice(c: u128, n: u64, r: usize) -> u128
    requires small { n < 2 ^ 60 }
    requires few { r < 2 ^ 60 }
    ensures { IsBound c (multichoose n r) → IsBound result (multichoose n (r + 1)) }
{
    let p = product(c, (n + r as u64) as u128);
    if p < u128::MAX { quotient(p, r) } else { p }
}

/// Adds c times the numbers of the degrees from `from` to below `end` to those of `by` degrees more.
#[inline(always)]
pub(crate) fn add_times(
    target: &mut Masses,
    by: usize,
    from: usize,
    end: usize,
    c: u128,
    row: &Masses,
)
    requires { by + end ≤ 25 }
    ensures { AddsTimes by from end target.old target.new c row.now }
{
    for i in from..end {
        target[by + i] = sum(target[by + i], product(c, row[i]));
    }
}
