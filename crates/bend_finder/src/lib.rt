//! What a stretch of a broken line that is traced backwards finds ahead of it: the bends that it may go on with,
//! with their weights, whether it crosses a wall too far away, and the least special point. Also what a broken line is
//! multiplied by at a bend.
#![tactic(auto)]

mod ahead;
mod bend;
mod candidates;
mod direction;
mod finder;
mod kept;
mod kept_runs;
mod live;
mod live_walls;
mod marks;
mod masses;
mod power_key;
mod powers;
mod products;
mod series_powers;
mod special;
mod spots;
mod turns;

pub use ahead::Ahead;
pub use bend::Bend;
pub use finder::BendFinder;
