// Live walls on a point.

ghost use Rattle.std.specs.Prelude.{◌≡◌};
ghost use Rattle.plane_geom.specs.Shown.{point_of};
ghost use Rattle.scatter_diagram.specs.Shown.{wall_of};
ghost use Rattle.bend_finder.specs.Special.{live_holds};

use plane_geom::Point;
use scatter_diagram::Wall;

/// Whether the wall is live and on the point.
pub(crate) fn is_live_on(w: &Wall, p: &Point) -> bool
    ensures { result ≡ live_holds (wall_of w.now) (point_of p.now) }
{
    w.is_live() && w.holds(p)
}
