// What names a kept power.

ghost use Rattle.std.specs.Prelude.{◌≡◌};
ghost use Rattle.plane_geom.specs.Shown.{point_of};
ghost use Rattle.bend_finder.specs.Kept.{key_point};

use plane_geom::Point;

/// A point (x/w, y/w), and how many times F is multiplied there.
#[derive(Clone, Copy, PartialEq, Eq, PartialOrd, Ord)]
pub(crate) struct PowerKey {
    pub(crate) x: i64,
    pub(crate) y: i64,
    pub(crate) w: i64,
    pub(crate) times: u32,
}

/// The name of F^times at a point.
pub(crate) fn key_at(q: &Point, times: u32) -> PowerKey
    ensures point { key_point result ≡ point_of q.now }
    ensures times { result.times ≡ times }
{
    PowerKey {
        x: q.x,
        y: q.y,
        w: q.w,
        times,
    }
}
