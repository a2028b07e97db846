// (1 + t1*x)^12 times itself at the highest order: the coefficients are binomial.

ghost use Rattle.std.specs.Prelude.{◌≡◌, IfOk};
ghost use Rattle.series_tests.specs.Binomials.{twelfth_power};

use crate::samples::sorted;
use std::alloc::{AllocError, Global};
use std::test::Fail;
use trunc_series::{Exp, Key, Series};

macro_rules! x_to {
    ($k:literal) => {
        Key {
            exp: Exp { a: $k, b: 0 },
            powers: [$k, 0, 0, 0, 0, 0, 0, 0],
        }
    };
}

// (1 + t1*x)^24.
const BINOMIALS: [(Key, i128); 25] = [
    (x_to!(0), 1),
    (x_to!(1), 24),
    (x_to!(2), 276),
    (x_to!(3), 2024),
    (x_to!(4), 10626),
    (x_to!(5), 42504),
    (x_to!(6), 134596),
    (x_to!(7), 346104),
    (x_to!(8), 735471),
    (x_to!(9), 1307504),
    (x_to!(10), 1961256),
    (x_to!(11), 2496144),
    (x_to!(12), 2704156),
    (x_to!(13), 2496144),
    (x_to!(14), 1961256),
    (x_to!(15), 1307504),
    (x_to!(16), 735471),
    (x_to!(17), 346104),
    (x_to!(18), 134596),
    (x_to!(19), 42504),
    (x_to!(20), 10626),
    (x_to!(21), 2024),
    (x_to!(22), 276),
    (x_to!(23), 24),
    (x_to!(24), 1),
];

fn twelfth(alloc: Global) -> Result<Series, AllocError>
    ensures order { IfOk result (λ s. s.order ≡ 24) }
    ensures terms { IfOk result (λ s. s.terms ≡ twelfth_power) }
{
    let terms = [
        (x_to!(0), 1),
        (x_to!(1), 12),
        (x_to!(2), 66),
        (x_to!(3), 220),
        (x_to!(4), 495),
        (x_to!(5), 792),
        (x_to!(6), 924),
        (x_to!(7), 792),
        (x_to!(8), 495),
        (x_to!(9), 220),
        (x_to!(10), 66),
        (x_to!(11), 12),
        (x_to!(12), 1),
    ];
    sorted(alloc, 24, &terms)
}

fn square(alloc: Global) -> Result<Series, AllocError> {
    let f = twelfth(alloc)?;
    f.mul(&f)
}

fn square_is_binomial(alloc: Global) -> Result<bool, AllocError> {
    Ok(square(alloc)?.terms() == BINOMIALS.as_slice())
}

#[test]
fn products_are_binomial(rt: HostRuntime) -> Result<(), Fail> {
    assert!(rt; square_is_binomial(rt.alloc())?);
    Ok(())
}
