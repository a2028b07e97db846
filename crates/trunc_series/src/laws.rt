// The laws of series of one order: of a commutative ring, and of the bounds that operations ask for.

ghost use Rattle.trunc_series.specs.Laws.{SeriesIsDetermined, AdditionCommutes, AdditionIsAssociative, ZeroIsNeutral, NegativeCancels, MultiplicationCommutes, MultiplicationIsAssociative, OneIsNeutral, MultiplicationDistributes, ExponentsAdd, InverseCancels, SignedExponentsAdd, AdditionKeepsSame, MultiplicationKeepsSame, PowersKeepSame, SeriesHasLeastMass, SeriesStaysNear, SumsStayNear, MassesAdd, MassesMultiply, MajorantTestsProduct, MajorantTestsPower, GeometricTestsNegativePower, MajorantHasGeometric};

/// Series of one order are a commutative ring, modulo terms of degree above the order.
///
/// A series is determined by its order and the coefficients of the sum that a contract names for it. So
/// results whose sums have the same coefficients are equal, and each law of sums is one of results.
pub fn series_are_a_ring()
    ensures determined { SeriesIsDetermined }
    ensures addition_commutes { AdditionCommutes }
    ensures addition_is_associative { AdditionIsAssociative }
    ensures zero_is_neutral { ZeroIsNeutral }
    ensures negative_cancels { NegativeCancels }
    ensures multiplication_commutes { MultiplicationCommutes }
    ensures multiplication_is_associative { MultiplicationIsAssociative }
    ensures one_is_neutral { OneIsNeutral }
    ensures multiplication_distributes { MultiplicationDistributes }
    ensures exponents_add { ExponentsAdd }
    ensures inverse_cancels { InverseCancels }
    ensures signed_exponents_add { SignedExponentsAdd }
    ensures addition_keeps_same { AdditionKeepsSame }
    ensures multiplication_keeps_same { MultiplicationKeepsSame }
    ensures powers_keep_same { PowersKeepSame }
{}

/// How the conditions of sums and products follow from bounds on their operands.
///
/// The mass of a sum is at most the sum of the masses, that of a product at most their product, and the
/// exponents of a series are among those of the sum that it stands for.
pub fn bounds_carry_over()
    ensures series_has_least_mass { SeriesHasLeastMass }
    ensures series_stays_near { SeriesStaysNear }
    ensures sums_stay_near { SumsStayNear }
    ensures masses_add { MassesAdd }
    ensures masses_multiply { MassesMultiply }
{}

/// How majorants test the condition of a product, by the mass of their product, and that of a power of
/// either sign, by the mass of the majorant's power or of its geometric majorant's.
pub fn majorants_test_masses()
    ensures product { MajorantTestsProduct }
    ensures power { MajorantTestsPower }
    ensures negative_power { GeometricTestsNegativePower }
    ensures geometric { MajorantHasGeometric }
{}
