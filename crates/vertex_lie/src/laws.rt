// What is proved of Lie elements and of leading parts, over the definitions.

ghost use Rattle.vertex_lie.specs.Laws.{ElementIsDetermined, CommonDenominatorExists, BracketIsOfSums, BracketOfElementsIsAntisymmetric, LeadingIsCorrection};

/// Two elements with the same coefficients are equal.
pub fn elements_are_determined()
    ensures { ElementIsDetermined }
{}

/// Over common denominators the bracket of elements is the bracket of sums, and each element has one.
///
/// So all laws of the bracket of sums, that it is antisymmetric, a derivation in each place and satisfies the
/// Jacobi identity, are laws of the bracket of elements.
pub fn brackets_are_of_sums()
    ensures denominators { CommonDenominatorExists }
    ensures brackets { BracketIsOfSums }
    ensures antisymmetric { BracketOfElementsIsAntisymmetric }
{}

/// The leading part of the images under a local product is the correction at that point, and the other way
/// round.
pub fn leading_parts_are_corrections()
    ensures { LeadingIsCorrection }
{}
