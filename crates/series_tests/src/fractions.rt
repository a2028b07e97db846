// Fractions, worked by hand.

use frac_128::{Fraction, gcd};
use std::alloc::{AllocError, Global};
use std::cmp::Ordering;
use std::test::Fail;

fn divisors() -> bool {
    gcd(12, 18) == 6 && gcd(0, 0) == 0
}

fn sums() -> bool {
    let (half, third) = (Fraction::new(1, 2), Fraction::new(1, 3));
    half.checked_add(third) == Some(Fraction::new(5, 6))
}

fn large_sums() -> bool {
    let most = Fraction::new(i128::MAX, 1);
    most.checked_add(Fraction::new(1, 1)).is_none()
}

fn products() -> bool {
    let product = Fraction::new(2, 3).checked_mul(Fraction::new(3, 2));
    product == Some(Fraction::new(1, 1))
}

fn large_products() -> bool {
    let most = Fraction::new(i128::MAX, 1);
    most.checked_mul(Fraction::new(2, 1)).is_none()
}

fn order() -> bool {
    let least = Fraction::new(i128::MIN, i128::MAX);
    least.compare(Fraction::new(i128::MIN, i128::MAX - 1)) == Ordering::Greater
}

#[test]
fn sums_products_and_order(rt: HostRuntime) -> Result<(), Fail> {
    assert!(rt; divisors());
    assert!(rt; sums() && large_sums());
    assert!(rt; products() && large_products());
    assert!(rt; order());
    Ok(())
}

fn is_refused(text: &str) -> bool {
    Fraction::read(text.as_bytes()).is_none()
}

fn is_read() -> bool {
    Fraction::read(b"-1/4") == Some(Fraction::new(-1, 4))
}

fn is_printed(alloc: Global) -> Result<bool, AllocError> {
    Ok(Fraction::new(-1, 4).print(alloc)?.as_slice() == b"-1/4".as_slice())
}

#[test]
fn texts(rt: HostRuntime) -> Result<(), Fail> {
    for other in ["2/4", "1/1", "-0", "+1", "1/-2", "", "/"] {
        assert!(rt; is_refused(other), "{other}");
    }
    assert!(rt; is_read());
    assert!(rt; is_printed(rt.alloc())?);
    Ok(())
}
