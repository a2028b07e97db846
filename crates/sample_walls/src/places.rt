// Points.

ghost use Rattle.std.specs.Prelude.{◌≡◌, pos};
ghost use Rattle.plane_geom.specs.Places.{point};
ghost use Rattle.plane_geom.specs.Shown.{point_of};

use plane_geom::Point;
use std::test::Fail;

pub fn origin() -> Point
    ensures { point_of result ≡ point (pos 0) (pos 0) (pos 1) }
{
    Point { x: 0, y: 0, w: 1 }
}

/// (x, 0)
pub fn on_axis(x: u16) -> Point
    ensures { point_of result ≡ point (pos x) (pos 0) (pos 1) }
{
    Point {
        x: x as i64,
        y: 0,
        w: 1,
    }
}

/// (x, y), where that is near.
pub fn place(x: i128, y: i128) -> Result<Point, Fail> {
    Ok(Point::new(x, y, 1).ok_or("far")?)
}
