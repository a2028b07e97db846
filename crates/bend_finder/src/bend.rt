// Bends.

use plane_geom::Point;
use trunc_series::Key;

/// The point at which a broken line turns, and the key of the term by which it turns.
#[derive(Clone, Copy, Debug, PartialEq, Eq)]
pub struct Bend {
    pub at: Point,
    pub key: Key,
}
