// The laws of crossings, of series that the calls answer.

ghost use Rattle.wall_auto.specs.Laws.{CrossedSeriesKeepProducts, CrossedSeriesKeepBrackets, CrossedSeriesKeepCenter, CrossedSeriesAreUndone, MajorantTestsCrossing};

/// A crossing of series keeps products, the bracket and the terms of exponent (0, 0), and the crossing of
/// the opposite side undoes it.
///
/// All of series of one order, for any wall function and any whole number as the sign.
pub fn crossings_are_automorphisms()
    ensures products { CrossedSeriesKeepProducts }
    ensures brackets { CrossedSeriesKeepBrackets }
    ensures center { CrossedSeriesKeepCenter }
    ensures undone { CrossedSeriesAreUndone }
{}

/// How `cross_majorant` tests the condition of `cross`, for any series: the mass of its answer, of the
/// majorant of the series, is at most 2^126 exactly where the condition holds.
pub fn majorants_test_crossings()
    ensures { MajorantTestsCrossing }
{}
