// The terms of a line's function.
ghost use Rattle.std.specs.Prelude.{◌≡◌, List, [], IsTrue, ◌↔◌, IfOk, MatchOption};
ghost use Rattle.serde_json.specs.View.{view};
ghost use Rattle.scatter_text.specs.declared.file.TermRow.{TermRow};
ghost use Rattle.scatter_json.specs.JsonForm.{SaysWhole, SaysTerm};
ghost use Rattle.scatter_json.specs.Parts.{SaysNo, SayEach, SayNone, MayFollow, SayTerms, AddsTerm, AddsTerms};

use crate::parts::{items, number, three_items, whole};
use scatter_text::{OpenLine, Rows, TermRow, is_term};
use serde_json::Value;
use std::alloc::{AllocError, Global};

/// The whole numbers that values say, if each says one.
fn numbers(alloc: Global, values: &[Value]) -> Result<Option<Vec<i64>>, AllocError>
    ensures { IfOk result (λ o. MatchOption o (SayNone SaysWhole values.now)
        (λ v. SayEach SaysWhole values.now v.items)) }
{
    let mut numbers = Vec::with_capacity(alloc, values.len())?;
    for value in values {
        match whole(value) {
            Some(n) => {
                numbers.push(n)?;
            }
            None => return Ok(None),
        }
    }
    Ok(Some(numbers))
}

/// The term that a value says.
fn term(alloc: Global, value: &Value) -> Result<Option<TermRow>, AllocError>
    ensures { IfOk result (λ o. MatchOption o (SaysNo SaysTerm (view value.now))
        (SaysTerm (view value.now))) }
{
    let Some((c, j, powers)) = three_items(value) else {
        return Ok(None);
    };
    let Some(c) = number(c) else {
        return Ok(None);
    };
    let Some(j) = whole(j) else {
        return Ok(None);
    };
    let Some(powers) = items(powers) else {
        return Ok(None);
    };
    match numbers(alloc, powers)? {
        Some(powers) => Ok(Some(TermRow {
            c,
            j,
            powers: Rows::from_vec(powers),
        })),
        None => Ok(None),
    }
}

/// Whether the rules on values hold of a term that comes next.
fn may_follow(
    alloc: Global,
    vars: usize,
    line: &OpenLine,
    term: &TermRow,
) -> Result<bool, AllocError>
    ensures { IfOk result (λ b. IsTrue b ↔ MayFollow vars line.now.row.terms term.now) }
{
    let powers = term.powers.as_slice();
    if is_term(term) && powers.len() == vars {
        line.lacks(alloc, term)
    } else {
        Ok(false)
    }
}

/// The line with the term that a value says, if it says one that may come next.
fn with_term(
    alloc: Global,
    vars: usize,
    line: OpenLine,
    value: &Value,
) -> Result<Option<OpenLine>, AllocError>
    ensures { IfOk result (λ o. MatchOption o
        ((t : TermRow) → SaysTerm (view value.now) t → MayFollow vars line.row.terms t → ⊥)
        (λ more. AddsTerm vars line.row (view value.now) more.row)) }
{
    let Some(term) = term(alloc, value)? else {
        return Ok(None);
    };
    if !may_follow(alloc, vars, &line, &term)? {
        return Ok(None);
    }
    let more = line.with(alloc, term)?;
    Ok(Some(more))
}

/// The line with the terms that values say, if each says one that may come next.
pub(crate) fn with_terms(
    alloc: Global,
    vars: usize,
    line: OpenLine,
    values: &[Value],
) -> Result<Option<OpenLine>, AllocError>
    requires { line.row.terms ≡ [] }
    ensures { IfOk result (λ o. MatchOption o
        ((terms : List TermRow) → SayTerms vars values.now terms → ⊥)
        (λ more. AddsTerms vars line.row values.now more.row)) }
{
    let mut line = line;
    for value in values {
        match with_term(alloc, vars, line, value)? {
            Some(more) => line = more,
            None => return Ok(None),
        }
    }
    Ok(Some(line))
}
