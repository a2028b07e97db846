// What a stretch finds ahead of it.

use crate::bend::Bend;
use plane_geom::Point;
use std::marker::Model;

/// The bends of a stretch, sorted by point and then by key, each with its weight: the sum of the coefficients of
/// |F|^n up to the key's degree, or a number above 2^126 where it is above that. `far` says whether the stretch
/// crosses a live wall in a point with a number above 2^40. Where it doesn't, `special` is the least special
/// point of the stretch.
#[derive(Drop)]
pub struct Ahead {
    pub bends: Vec<(Bend, u128)>,
    pub far: bool,
    pub special: Option<Point>,
}

impl Model for Ahead {
    ghost use Rattle.bend_finder.specs.Ahead.{SeenAhead, seen_ahead};

    ghost Value = { SeenAhead };

    ghost view = { λ a. seen_ahead a.bends.items a.far a.special };
}
