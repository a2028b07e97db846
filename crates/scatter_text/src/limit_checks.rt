// The limits of what is accepted.
ghost use Rattle.std.specs.Prelude.{◌≡◌, pos, nat_abs, nat_lt, ◌≤ℤ◌, All, ◌+◌, ◌<◌, ◌≤◌, ◌^◌, ◌||◌};
ghost use Rattle.std.specs.List.{list_any};
ghost use Rattle.limits.specs.Limits.{most_variables, most_monomials};
ghost use Rattle.scatter_text.specs.Limits.{binomial, gcd, first_limit, has_many_asks, has_large_ask_exponent, has_high_reader, has_high_least, has_many_vars, has_many_monomials, has_many_lines, has_many_terms, has_large_coefficient, is_exponent_large, has_large_exponent, is_power_large, has_large_power, is_far};

use crate::fault::LimitKind;
use crate::file::{AskKind, AskRow, Coordinate, LineRow, TermRow, TextFile};
use frac_128::gcd;
use limits::{
    HIGHEST_ORDER, LARGEST_COEFFICIENT, LARGEST_COORDINATE, LARGEST_GIVEN_EXPONENT, LARGEST_POWER,
    MOST_ASKS, MOST_LINES, MOST_MONOMIALS, MOST_TERMS, MOST_VARIABLES,
};

/// The first limit that a file passes when it is to be completed to an order and asked by so many readers, never `Bytes`.
pub fn check_limits(file: &TextFile, order: u32, readers: u32) -> Option<LimitKind>
    ensures { result ≡ first_limit file.now order readers }
{
    let lines = file.lines.as_slice();
    let asks = file.asks.as_slice();
    if has_many_vars(file.vars) {
        Some(LimitKind::Vars)
    } else if has_many_monomials(order, file.vars) {
        Some(LimitKind::Size)
    } else if has_many_lines(lines) {
        Some(LimitKind::Lines)
    } else if has_many_terms(lines) {
        Some(LimitKind::Terms)
    } else if have_large_coefficient(lines) {
        Some(LimitKind::Coefficient)
    } else if have_large_exponent(lines) {
        Some(LimitKind::Exponent)
    } else if have_large_power(lines) {
        Some(LimitKind::Power)
    } else if have_far_point(lines) || have_far_ask(asks) {
        Some(LimitKind::Place)
    } else if has_many_asks(asks) {
        Some(LimitKind::Queries)
    } else if have_large_ask_exponent(asks) {
        Some(LimitKind::AskExponent)
    } else if have_high_reader(asks, readers) {
        Some(LimitKind::Reader)
    } else if have_high_least(asks) {
        Some(LimitKind::Least)
    } else {
        None
    }
}

fn has_many_vars(vars: i64) -> bool
    ensures { result ≡ has_many_vars vars }
{
    vars.unsigned_abs() > MOST_VARIABLES as u64
}

#[tactic(auto, unfolding(crate::specs::Limits::has_many_monomials))]
fn has_many_monomials(order: u32, vars: i64) -> bool
    requires { nat_abs vars ≤ most_variables }
    ensures { result ≡ has_many_monomials order vars }
{
    has_large_binomial(order as u64, vars.unsigned_abs())
}

/// Whether the binomial of `order + vars` over `vars` exceeds the limit. Those on the way to it only grow, so one above
/// the limit is taken no further.
fn has_large_binomial(order: u64, vars: u64) -> bool
    requires order { order < 2 ^ 32 }
    requires vars { vars ≤ most_variables }
    ensures { result ≡ nat_lt most_monomials (binomial (order + vars) vars) }
{
    let mut count = 1;
    for i in 0..vars {
        count = count * (order + i + 1) / (i + 1);
        if count > MOST_MONOMIALS {
            return true;
        }
    }
    false
}

#[tactic(auto, unfolding(crate::specs::Limits::has_many_lines))]
fn has_many_lines(lines: &[LineRow]) -> bool
    ensures { result ≡ has_many_lines lines.now }
{
    lines.len() > MOST_LINES
}

#[tactic(auto, unfolding(crate::specs::Limits::has_many_terms))]
fn has_many_terms(lines: &[LineRow]) -> bool
    ensures { result ≡ has_many_terms lines.now }
{
    lines.iter().any(|l| l.terms.as_slice().len() > MOST_TERMS)
}

fn have_large_coefficient(lines: &[LineRow]) -> bool
    ensures { result ≡ list_any has_large_coefficient lines.now }
{
    lines.iter().any(has_large_coefficient)
}

#[tactic(auto, unfolding(crate::specs::Limits::has_large_coefficient))]
fn has_large_coefficient(line: &LineRow) -> bool
    ensures { result ≡ has_large_coefficient line.now }
{
    line.terms
        .as_slice()
        .iter()
        .any(|t| t.c.unsigned_abs() > LARGEST_COEFFICIENT)
}

fn have_large_exponent(lines: &[LineRow]) -> bool
    ensures { result ≡ list_any has_large_exponent lines.now }
{
    lines.iter().any(has_large_exponent)
}

/// Whether an exponent of the direction, or of a term, exceeds the limit.
#[tactic(auto, unfolding(crate::specs::Limits::has_large_exponent))]
fn has_large_exponent(line: &LineRow) -> bool
    ensures { result ≡ has_large_exponent line.now }
{
    is_exponent_large(1, line.dx) || is_exponent_large(1, line.dy) || have_large_multiple(line)
}

fn have_large_multiple(line: &LineRow) -> bool
    ensures { result ≡ list_any (λ t. is_exponent_large t.j line.now.dx
        || is_exponent_large t.j line.now.dy) line.now.terms }
{
    line.terms.as_slice().iter().any(|t| is_exponent_large(t.j, line.dx)
        || is_exponent_large(t.j, line.dy))
}

/// Whether j*d exceeds the limit of exponents in absolute value.
#[tactic(auto, unfolding(crate::specs::Limits::is_exponent_large))]
fn is_exponent_large(j: i64, d: i64) -> bool
    ensures { result ≡ is_exponent_large j d }
{
    j.unsigned_abs() as u128 * d.unsigned_abs() as u128 > LARGEST_GIVEN_EXPONENT as u128
}

fn have_large_power(lines: &[LineRow]) -> bool
    ensures { result ≡ list_any has_large_power lines.now }
{
    lines.iter().any(has_large_power)
}

#[tactic(auto, unfolding(crate::specs::Limits::has_large_power))]
fn has_large_power(line: &LineRow) -> bool
    ensures { result ≡ has_large_power line.now }
{
    line.terms.as_slice().iter().any(is_power_large)
}

#[tactic(auto, unfolding(crate::specs::Limits::is_power_large))]
fn is_power_large(term: &TermRow) -> bool
    ensures { result ≡ is_power_large term.now }
{
    term.powers
        .as_slice()
        .iter()
        .any(|a| a.unsigned_abs() > LARGEST_POWER)
}

fn have_far_point(lines: &[LineRow]) -> bool
    requires { All (λ l. (pos 1 ≤ℤ l.x.den) × (pos 1 ≤ℤ l.y.den)) lines.now }
    ensures { result ≡ list_any (λ l. is_far l.x l.y) lines.now }
{
    for line in lines {
        if is_far(line.x, line.y) {
            return true;
        }
    }
    false
}

fn have_far_ask(asks: &[AskRow]) -> bool
    requires { All (λ a. (pos 1 ≤ℤ a.x.den) × (pos 1 ≤ℤ a.y.den)) asks.now }
    ensures { result ≡ list_any (λ a. is_far a.x a.y) asks.now }
{
    for ask in asks {
        if is_far(ask.x, ask.y) {
            return true;
        }
    }
    false
}

#[tactic(auto, unfolding(crate::specs::Limits::has_many_asks))]
fn has_many_asks(asks: &[AskRow]) -> bool
    ensures { result ≡ has_many_asks asks.now }
{
    asks.len() > MOST_ASKS
}

fn have_large_ask_exponent(asks: &[AskRow]) -> bool
    ensures { result ≡ list_any has_large_ask_exponent asks.now }
{
    asks.iter().any(has_large_ask_exponent)
}

#[tactic(auto, unfolding(crate::specs::Limits::has_large_ask_exponent))]
fn has_large_ask_exponent(ask: &AskRow) -> bool
    ensures { result ≡ has_large_ask_exponent ask.now }
{
    match ask.kind {
        AskKind::Theta { a, b } => is_exponent_large(1, a) || is_exponent_large(1, b),
        AskKind::Product { a, b, c, d } => {
            is_exponent_large(1, a)
                || is_exponent_large(1, b)
                || is_exponent_large(1, c)
                || is_exponent_large(1, d)
        }
    }
}

fn have_high_reader(asks: &[AskRow], readers: u32) -> bool
    ensures { result ≡ list_any (has_high_reader readers) asks.now }
{
    asks.iter().any(|a| has_high_reader(a, readers))
}

#[tactic(auto, unfolding(crate::specs::Limits::has_high_reader))]
fn has_high_reader(ask: &AskRow, readers: u32) -> bool
    ensures { result ≡ has_high_reader readers ask.now }
{
    ask.reader.unsigned_abs() > u64::from(readers)
}

fn have_high_least(asks: &[AskRow]) -> bool
    ensures { result ≡ list_any has_high_least asks.now }
{
    asks.iter().any(has_high_least)
}

#[tactic(auto, unfolding(crate::specs::Limits::has_high_least))]
fn has_high_least(ask: &AskRow) -> bool
    ensures { result ≡ has_high_least ask.now }
{
    match ask.least {
        Some(order) => order.unsigned_abs() > u64::from(HIGHEST_ORDER),
        None => false,
    }
}

/// The greatest common divisor.
fn greatest_divisor(a: u128, b: u128) -> u128
    requires { 0 < a }
    ensures value { result ≡ gcd a b }
    ensures positive { 0 < result }
{
    gcd(a, b)
}

/// Whether a point isn't near: over the least common denominator, a number above the limit.
#[tactic(auto, unfolding(crate::specs::Limits::is_far))]
fn is_far(x: Coordinate, y: Coordinate) -> bool
    requires x { pos 1 ≤ℤ x.den }
    requires y { pos 1 ≤ℤ y.den }
    ensures { result ≡ is_far x y }
{
    let p = x.den.unsigned_abs() as u128;
    let q = y.den.unsigned_abs() as u128;
    let w = p * q / greatest_divisor(p, q);
    w > LARGEST_COORDINATE as u128
        || x.num.unsigned_abs() as u128 * (w / p) > LARGEST_COORDINATE as u128
        || y.num.unsigned_abs() as u128 * (w / q) > LARGEST_COORDINATE as u128
}
