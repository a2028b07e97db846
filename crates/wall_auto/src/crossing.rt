// Crossings of series, and their majorants.

ghost use Rattle.std.specs.Prelude.{◌≡◌, ◌≤◌, IfOk};
ghost use Rattle.limits.specs.Limits.{highest_order};
ghost use Rattle.scattering.specs.Collections.{Every};
ghost use Rattle.scattering.specs.Series.{IsWallFunction, degree};
ghost use Rattle.plane_geom.specs.Shown.{vector_of};
ghost use Rattle.trunc_series.specs.Shown.{sum_of, HasNearTerms};
ghost use Rattle.trunc_series.specs.Sums.{AreKeptValues};
ghost use Rattle.wall_auto.specs.Sign.{sign};
ghost use Rattle.wall_auto.specs.ByDegree.{IsCrossedAs};
ghost use Rattle.wall_auto.specs.Laws.{IsLightAcross, Crosses, BoundsCrossing};

use crate::{Side, SumByDegree};
use plane_geom::Direction;
use power_tables::{PowerTable, PowerValues};
use std::alloc::{AllocError, Global};
use trunc_series::sorted_terms::Arithmetic;
use trunc_series::{Key, Majorant, Series};

/// The sorted terms of a sum after a wall is crossed, without terms of degree above the order.
fn crossed(
    alloc: Global,
    rule: Arithmetic,
    order: u32,
    terms: &[(Key, i128)],
    dir: &Direction,
    function: &Series,
    side: Side,
) -> Result<Vec<(Key, i128)>, AllocError>
    requires order { order ≤ highest_order }
    requires wall { IsWallFunction function.now.order (vector_of dir.now) function.now.terms }
    requires near_function { HasNearTerms function.now.terms }
    requires near { HasNearTerms (sum_of terms.now) }
    requires kept { AreKeptValues rule (sum_of terms.now) }
    requires low { Every (λ t. degree t.0 ≤ order) (sum_of terms.now) }
    ensures { IfOk result (IsCrossedAs rule order (vector_of dir.now)
        function.now.terms (sign side) (sum_of terms.now)) }
{
    let table = PowerTable::new(alloc, rule, order, function)?;
    let mut sum = SumByDegree::new(alloc, order)?;
    sum.start_with(rule, terms)?;
    let mut values = PowerValues::new(alloc)?;
    sum.cross(&table, dir, side, &mut values)?;
    sum.sorted(rule)
}

/// The series after a wall is crossed: z^m becomes z^m·f^(s·det(dir, m)), without terms of degree above
/// the order, where f is the wall's function and s is 1, or -1 on the side of `Minus`.
///
/// Exponents are at most 2^16 in absolute value. `mass` bounds the crossing's majorant, as
/// `cross_majorant` computes it of the series' absolute values.
pub fn cross(
    alloc: Global,
    g: &Series,
    dir: &Direction,
    function: &Series,
    side: Side,
) -> Result<Series, AllocError>
    requires wall { IsWallFunction g.now.order (vector_of dir.now) function.now.terms }
    requires order { function.now.order ≡ g.now.order }
    requires near { HasNearTerms g.now.terms }
    requires near_function { HasNearTerms function.now.terms }
    requires mass { IsLightAcross (vector_of dir.now) function.now.terms g.now }
    ensures { IfOk result (Crosses (vector_of dir.now) function.now.terms (sign side) g.now) }
{
    let order = g.order();
    let rule = Arithmetic::Wrapping;
    let terms = crossed(alloc, rule, order, g.terms(), dir, function, side)?;
    Ok(Series::from_sorted(alloc, order, terms))
}

/// The majorant of a crossing: z^m becomes z^m·G^|det(dir, m)|, where G = 1/(2 - |f|).
pub fn cross_majorant(
    alloc: Global,
    g: &Majorant,
    dir: &Direction,
    function: &Series,
) -> Result<Majorant, AllocError>
    requires wall { IsWallFunction g.now.order (vector_of dir.now) function.now.terms }
    requires order { function.now.order ≡ g.now.order }
    requires near { HasNearTerms g.now.terms }
    requires near_function { HasNearTerms function.now.terms }
    ensures { IfOk result (BoundsCrossing (vector_of dir.now) function.now.terms g.now) }
{
    let order = g.order();
    let rule = Arithmetic::Saturating;
    let terms = crossed(alloc, rule, order, g.terms(), dir, function, Side::Plus)?;
    Ok(Majorant::from_sorted(alloc, order, terms))
}
