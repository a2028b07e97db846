// Values of a power at the keys of a part.

ghost use Rattle.std.specs.Prelude.{◌≡◌, ◌≤◌, ◌<◌, ℤ, pos, length, replicate, OnOk};
ghost use Rattle.trunc_series.specs.Arithmetic.{IsKeepable};
ghost use Rattle.power_tables.specs.Kept.{AreKeepable, IsSoundPart, seen_part};
ghost use Rattle.power_tables.specs.Rows.{AddsScaled, HasFactors, AreCombined};

use crate::rows::WIDTH;
use crate::scaling::add_scaled;
use crate::table::Part;
use std::alloc::AllocError;
use trunc_series::sorted_terms::Arithmetic;

/// Makes so many zeros of the values.
fn reset(values: &mut Vec<i128>, count: usize) -> Result<(), AllocError>
    ensures { OnOk result (values.new.items ≡ replicate count (pos 0)) }
{
    values.clear();
    values.resize(count, 0)?;
    Ok(())
}

/// Makes the values at the keys of a part, of the power whose numbers are in `row`.
pub fn combine(
    rule: Arithmetic,
    row: &[i128],
    part: &Part,
    values: &mut Vec<i128>,
) -> Result<(), AllocError>
    requires part { IsSoundPart rule part.now }
    requires row { AreKeepable rule row.now }
    requires width { length row.now ≡ 25 }
    ensures { OnOk result ((n : ℤ) → HasFactors rule n row.now
        → AreCombined rule n (seen_part part.now) values.new.items) }
{
    reset(values, part.keys.len())?;
    add_scaled(rule, values, &row[1], part.first.as_slice());
    for r in 0..part.higher.len() {
        part.higher[r].add_to(rule, &row[r + 2], values);
    }
    Ok(())
}
