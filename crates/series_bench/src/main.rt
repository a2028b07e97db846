//! Multiplies two series of order 24 with 2,000 terms each, once, and prints the number of terms of the
//! first factor, of the second and of the product. It is there to be timed.
#![tactic(auto)]

mod factor;

ghost use Rattle.std.specs.Prelude.{IfOk};
ghost use Rattle.scattering.specs.Series.{mul};
ghost use Rattle.trunc_series.specs.Shown.{IsSeriesOf};
ghost use Rattle.series_bench.specs.Factor.{IsPart};

use factor::factor;
use std::alloc::AllocError;
use std::io;
use trunc_series::{Series, bounds_carry_over};

/// The product of two factors, whose masses are small enough for it to be exact.
fn product(f: &Series, g: &Series) -> Result<Series, AllocError>
    requires left { IsPart 2000 f.now }
    requires right { IsPart 2000 g.now }
    ensures { IfOk result (λ h. IsSeriesOf h f.now.order (mul f.now.order f.now.terms g.now.terms)) }
{
    bounds_carry_over();
    f.mul(g)
}

/// Prints the numbers of terms.
fn main(rt: HostRuntime) -> io::Result<()> {
    let f = factor(rt.alloc(), 3)?;
    let g = factor(rt.alloc(), 7)?;
    let h = product(&f, &g)?;
    let (left, right, both) = (f.terms().len(), g.terms().len(), h.terms().len());
    println!(rt; "{left} {right} {both}")
}
