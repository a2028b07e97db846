// The spelling of numbers and coordinates: each has one, that of a fraction.
ghost use Rattle.std.specs.Prelude.{◌≡◌, ◌==◌, position, IsTrue, ◌↔◌, MatchOption};
ghost use Rattle.scatter_text.specs.Grammar.{IsShort, IsNumberText, IsCoordinateText};
ghost use Rattle.scatter_text.specs.Reading.{AreShort, IsShortPair, IsNumberOf, IsCoordinateOf};

use crate::file::Coordinate;
use frac_128::Fraction;

/// 10^18, the least number of more than 18 digits.
const LONG: u128 = 1_000_000_000_000_000_000;

/// The number that a token spells: `0`, or up to 18 digits of which the first isn't 0, after a `-` or none.
pub fn read_number(token: &[u8]) -> Option<i64>
    ensures { MatchOption result (¬ IsNumberText token.now) (IsNumberOf token.now) }
{
    match read_coordinate(token) {
        Some(c) if c.den == 1 => Some(c.num),
        _ => None,
    }
}

/// The coordinate that a token spells: a number, or `P/Q` in lowest terms with Q at least 2.
pub fn read_coordinate(token: &[u8]) -> Option<Coordinate>
    ensures { MatchOption result (¬ IsCoordinateText token.now) (IsCoordinateOf token.now) }
{
    match Fraction::read(token) {
        Some(q) => short(q),
        None => None,
    }
}

/// A fraction whose numbers have at most 18 digits.
fn short(q: Fraction) -> Option<Coordinate>
    ensures { MatchOption result (¬ AreShort q.num q.den) (IsShortPair q.num q.den) }
{
    if is_short(q.num) && is_short(q.den) {
        let num = q.num as i64;
        let den = q.den as i64;
        Some(Coordinate { num, den })
    } else {
        None
    }
}

/// Whether a number has at most 18 digits.
pub fn is_short(n: i128) -> bool
    ensures { IsTrue result ↔ IsShort n }
{
    n.unsigned_abs() < LONG
}

/// The first place of a byte.
pub fn find_byte(bytes: &[u8], byte: u8) -> Option<usize>
    ensures { result ≡ position (λ b. b == byte) bytes.now }
{
    bytes.iter().position(|b| *b == byte)
}
