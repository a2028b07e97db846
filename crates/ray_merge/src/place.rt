// The order of rays: by start, then by direction.

ghost use Rattle.std.specs.Prelude.{◌≡◌};
ghost use Rattle.scatter_diagram.specs.Shown.{wall_of};
ghost use Rattle.ray_merge.specs.Rays.{ray_order};

use scatter_diagram::{Wall, compare_directions};
use std::cmp::Ordering;

/// How two rays stand.
pub(crate) fn compare_places(r: &Wall, s: &Wall) -> Ordering
    ensures { result ≡ ray_order (wall_of r.now) (wall_of s.now) }
{
    match r.at.compare(&s.at) {
        Ordering::Equal => compare_directions(&r.dir, &s.dir),
        unequal => unequal,
    }
}
