// The asks of a file, as queries.
ghost use Rattle.std.specs.Prelude.{◌≡◌, ◌≤◌, ◌≤ℤ◌, nat_abs, pos, IfOk};
ghost use Rattle.std.specs.List.{AllZip};
ghost use Rattle.std.specs.Option.{ForSome};
ghost use Rattle.limits.specs.Limits.{largest_given_exponent};
ghost use Rattle.trunc_series.specs.Shown.{exp_of};
ghost use Rattle.scatter_text.specs.Limits.{AreAsksWithinLimits};
ghost use Rattle.scatter_text.specs.GivenQueries.{exp_given, IsKindSmall, IsOrderSmall, IsKindOf, IsLeastOf, IsLimitedAsk, IsQueryOf, IsReadersQueryOf};

use crate::file::{AskKind, AskRow, TextFile};
use crate::initial::place;
use std::alloc::{AllocError, Global};
use theta_algebra::{Query, QueryKind};
use trunc_series::Exp;

fn exponent(a: i64, b: i64) -> Exp
    requires first { nat_abs a ≤ largest_given_exponent }
    requires second { nat_abs b ≤ largest_given_exponent }
    ensures { exp_of result ≡ exp_given a b }
{
    Exp {
        a: a as i32,
        b: b as i32,
    }
}

fn kind_of(kind: &AskKind) -> QueryKind
    requires { IsKindSmall kind.now }
    ensures { IsKindOf kind.now result }
{
    match *kind {
        AskKind::Theta { a, b } => QueryKind::Theta(exponent(a, b)),
        AskKind::Product { a, b, c, d } => QueryKind::Product(exponent(a, b), exponent(c, d)),
    }
}

/// The order, where one is given.
fn least_of(least: Option<i64>) -> Option<u32>
    requires small { IsOrderSmall least }
    requires given { ForSome least (λ order. pos 0 ≤ℤ order) }
    ensures { IsLeastOf least result }
{
    match least {
        Some(order) => Some(order.unsigned_abs() as u32),
        None => None,
    }
}

/// The query that an ask says.
fn query_of(ask: &AskRow) -> Query
    requires { IsLimitedAsk ask.now }
    ensures { IsQueryOf ask.now result }
{
    Query {
        kind: kind_of(&ask.kind),
        at: place(&ask.x, &ask.y),
        least: least_of(ask.least),
    }
}

/// The query that an ask says, with its reader.
fn readers_query(ask: &AskRow) -> (u32, Query)
    requires { IsLimitedAsk ask.now }
    ensures { IsReadersQueryOf ask.now result }
{
    (ask.reader.unsigned_abs() as u32, query_of(ask))
}

/// The asks that a file within the limits says, in order, each with its reader, counted from 1.
pub fn queries_of(alloc: Global, file: &TextFile) -> Result<Vec<(u32, Query)>, AllocError>
    requires { AreAsksWithinLimits file.now }
    ensures { IfOk result (λ queries. AllZip IsReadersQueryOf file.now.asks queries.items) }
{
    let asks = file.asks.as_slice();
    let mut queries = Vec::with_capacity(alloc, asks.len())?;
    for ask in asks {
        queries.push(readers_query(ask))?;
    }
    Ok(queries)
}
