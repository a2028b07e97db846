//! Sums taken apart by degree: the part of degree e of a product, a power, a crossing or an image is
//! made of parts of lower degree.
//!
//! Each theorem is the contract of a function without parameters; its statement stands in `specs/`.
#![tactic(auto)]

ghost use Rattle.degree_theory.specs.Laws.{PartIsRead, PartsMakeSum, PartOfProduct, SubstitutionIsDetermined, PascalHolds, RowIsProducts, PartOfPower, PowerBeginsLate, PowerReadsLowDegrees, PartOfCrossing, PartAfterCrossing, CrossingReadsLowDegrees, PartOfImage, ImageKeepsLowDegrees, ImageGrows, PartOfMajorantPower, PartAfterMajorant, MajorantReadsLowDegrees, PartOfMajorantImage, MajorantImageKeepsLowDegrees, MajorantImageGrows, MassByParts, ImageKeepsEdge, CorrectionLeavesEdge, OneImageIsEnough};

/// A sum's part of a degree has its coefficients there, and all parts together are the sum.
pub fn sums_have_parts()
    ensures read { PartIsRead }
    ensures whole { PartsMakeSum }
{}

/// The part of a product is the sum of the products of parts whose degrees sum to its degree.
pub fn products_have_parts()
    ensures part { PartOfProduct }
    ensures determined { SubstitutionIsDetermined }
{}

/// The part of a power f^n, for any whole number n, by binomial coefficients.
///
/// They multiply the parts of the powers of f - 1, of which those above the degree are nothing.
pub fn powers_have_parts()
    ensures pascal { PascalHolds }
    ensures row { RowIsProducts }
    ensures part { PartOfPower }
    ensures late { PowerBeginsLate }
    ensures low { PowerReadsLowDegrees }
{}

/// The part of a crossing is the part that was there, and what parts of lower degree add.
pub fn crossings_have_parts()
    ensures whole { PartOfCrossing }
    ensures part { PartAfterCrossing }
    ensures low { CrossingReadsLowDegrees }
{}

/// The part of an image is the part that was there, and what each half-wall adds.
///
/// It adds products of lower parts of the sum before it. Where functions change from a degree on, so do
/// images, and at that degree by what the changes add to the monomial itself.
pub fn images_have_parts()
    ensures part { PartOfImage }
    ensures low { ImageKeepsLowDegrees }
    ensures grows { ImageGrows }
{}

/// The same of the majorants of powers, crossings and images.
pub fn majorants_have_parts()
    ensures power { PartOfMajorantPower }
    ensures part { PartAfterMajorant }
    ensures image { PartOfMajorantImage }
    ensures low { MajorantReadsLowDegrees }
    ensures kept { MajorantImageKeepsLowDegrees }
    ensures grows { MajorantImageGrows }
    ensures mass { MassByParts }
{}

/// Where all live walls at a point turn to one side of u, the image of z^u alone tells the correction.
///
/// Walls along u may go through the point, and it has to be consistent at the order before.
pub fn one_image_is_enough()
    ensures image { ImageKeepsEdge }
    ensures correction { CorrectionLeavesEdge }
    ensures enough { OneImageIsEnough }
{}
