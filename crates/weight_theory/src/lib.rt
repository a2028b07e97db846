//! Weights: the weight of a point bounds all that is formed on the way to the images and corrections there.
//!
//! Each theorem is the contract of a function without parameters; its statement stands in `specs/`.
#![tactic(auto)]

ghost use Rattle.weight_theory.specs.Laws.{PowerIsBelow, CrossingIsBelow, AbsoluteIsAbove, MassIsBelow, SeriesMassIsBelow, CoefficientIsBelow, CrossingIsLight, SeriesAbsoluteIsBelow, MajorantIsMonotone, MajorantMassIsMonotone, MajorantStaysNonnegative, StageIsLight, MajorantStagesAreLight, CarryIsBelow, ImageIsBelow, HalvesHaveFunctions, StagesAreLight, NextStagesAreLight, ImagesAreLight, StartingRayIsLight, StartingCutRayIsLight, CorrectionIsLight, CorrectionTermIsLight};

/// A power of a wall function is below one of 1/(2 - |f|), and so a crossing is below its majorant.
///
/// All coefficients up to degree k are compared, for a wall function of any order, whole powers and both
/// signs of a crossing.
pub fn crossing_is_bounded()
    ensures powers { PowerIsBelow }
    ensures crossings { CrossingIsBelow }
    ensures absolute { AbsoluteIsAbove }
{}

/// A series is no heavier than a majorant of it, and none of its coefficients is above the majorant's mass.
pub fn majorants_bound_masses()
    ensures masses { MassIsBelow }
    ensures series { SeriesMassIsBelow }
    ensures coefficients { CoefficientIsBelow }
    ensures crossing { CrossingIsLight }
    ensures absolute { SeriesAbsoluteIsBelow }
{}

/// A greater majorant gives a greater one after a crossing, coefficient by coefficient and by its mass.
pub fn majorants_are_monotone()
    ensures monotone { MajorantIsMonotone }
    ensures masses { MajorantMassIsMonotone }
    ensures nonnegative { MajorantStaysNonnegative }
{}

/// A majorant only grows from one crossing to the next, so each stage of it weighs at most the weight.
pub fn stages_are_light()
    ensures stage { StageIsLight }
    ensures stages { MajorantStagesAreLight }
{}

/// Each stage of the images at a point is below its majorant, so both together weigh at most the weight.
pub fn images_are_light()
    ensures carried { CarryIsBelow }
    ensures image { ImageIsBelow }
    ensures halves { HalvesHaveFunctions }
    ensures stages { StagesAreLight }
    ensures next { NextStagesAreLight }
    ensures images { ImagesAreLight }
{}

/// The function of a ray that starts at a point weighs at most the weight there, also cut to any degree.
pub fn starting_rays_are_light()
    ensures whole { StartingRayIsLight }
    ensures cut { StartingCutRayIsLight }
{}

/// The whole values gcd·c of a correction weigh at most the weight at its point, together and each.
pub fn corrections_are_light()
    ensures all { CorrectionIsLight }
    ensures each { CorrectionTermIsLight }
{}
