// Tables of powers, by hand.

ghost use Rattle.std.specs.Prelude.{◌≤◌};

use crate::crossings::line;
use power_tables::{PowerTable, PowerValues};
use std::alloc::Global;
use std::test::Fail;
use trunc_series::sorted_terms::Arithmetic;

// Whether the values at a place are these, of the degrees 1 to 4.
fn has_values(values: &PowerValues, table: &PowerTable, place: usize, want: &[i128; 4]) -> bool
    requires { table.now.least ≤ 1 }
{
    for degree in 1..5 {
        if values.part(table, place, degree) != [want[degree as usize - 1]].as_slice() {
            return false;
        }
    }
    true
}

// Whether the n-th power of 1 + t1·x, or of 1/(1 - t1·x) where numbers saturate, has these coefficients at
// t1·x to t1^4·x^4.
fn has_power(alloc: Global, rule: Arithmetic, n: i64, want: &[i128; 4]) -> Result<bool, Fail> {
    let f = line(alloc)?;
    let table = PowerTable::new(alloc, rule, 4, &f)?;
    let mut values = PowerValues::new(alloc)?;
    if table.least() != 1 || table.order() != 4 {
        return Ok(false);
    }
    let place = values.reach(&table, n, 4)?;
    Ok(has_values(&values, &table, place, want))
}

#[test]
fn powers(rt: HostRuntime) -> Result<(), Fail> {
    let alloc = rt.alloc();
    let rule = Arithmetic::Wrapping;
    assert!(rt; has_power(alloc, rule, 1, &[1, 0, 0, 0])?);
    assert!(rt; has_power(alloc, rule, 3, &[3, 3, 1, 0])?);
    assert!(rt; has_power(alloc, rule, -2, &[-2, 3, -4, 5])?);
    // C(100000, 2) and so on
    let large = [100000, 4999950000, 166661666700000, 4166416671249975000];
    assert!(rt; has_power(alloc, rule, 100000, &large)?);
    let rule = Arithmetic::Saturating;
    assert!(rt; has_power(alloc, rule, 2, &[2, 3, 4, 5])?);
    assert!(rt; has_power(alloc, rule, -2, &[2, 3, 4, 5])?);
    Ok(())
}
