//! The numbers that limit what is read and what is computed, each named once. They are this program's
//! own. `specs/Limits.antt` has the same numbers for contracts.
#![tactic(auto)]

/// The highest order of a series, a diagram or a completion.
pub const HIGHEST_ORDER: u32 = 24;

/// The largest weight of a point, and mass of any result: 2^126. Then sums of signed coefficients fit
/// 128 bits.
pub const LARGEST_WEIGHT: u128 = 1 << 126;

/// The walls of a diagram: all its lines and all its rays.
pub const MOST_WALLS: usize = 8192;

/// x, y and w of a near point (x/w, y/w) in lowest terms: 2^40.
pub const LARGEST_COORDINATE: u64 = 1 << 40;

/// The numbers of a direction.
pub const LARGEST_DIRECTION: u32 = 4096;

/// The exponents that wall functions reach within a degree: 2^18.
pub const MOST_REACHED: usize = 1 << 18;

/// The tails that end at a point: 2^20.
pub const MOST_TAILS: usize = 1 << 20;

/// The variables of an input.
pub const MOST_VARIABLES: u32 = 8;

/// The lines of an input.
pub const MOST_LINES: usize = 16;

/// The terms of one line of an input.
pub const MOST_TERMS: usize = 64;

/// The bytes of an input: 2^20.
pub const MOST_BYTES: usize = 1 << 20;

/// The monomials in the variables of an input up to an order.
pub const MOST_MONOMIALS: u64 = 131072;

/// The absolute value of a coefficient of an input.
pub const LARGEST_COEFFICIENT: u64 = 2147483647;

/// The exponents that an input gives, and those of its directions.
pub const LARGEST_GIVEN_EXPONENT: u64 = 64;

/// A power of a variable in an input.
pub const LARGEST_POWER: u64 = 255;

/// The workers that words may ask for.
pub const MOST_WORKERS: u32 = 16;

/// The readers of a store of orders, and of a session.
pub const MOST_READERS: u32 = 8;

/// The asks of an input.
pub const MOST_ASKS: usize = 1024;
