// The text of answers, piece by piece.
ghost use Rattle.std.specs.Prelude.{◌≡◌, ◌≢◌, ◌≤◌, ◌<◌, ◌+◌, ◌^◌, ◌∷◌, ◌++◌, OnOk, IfOk, All, length, flat_map, decimal, codes};
ghost use Rattle.std.specs.Fmt.{signed_decimal};
ghost use Rattle.limits.specs.Limits.{most_variables};
ghost use Rattle.plane_geom.specs.Shown.{point_of};
ghost use Rattle.trunc_series.specs.Shown.{powers_of, key_of, sum_of};
ghost use Rattle.scatter_diagram.specs.Stopped.{stop_of};
ghost use Rattle.broken_lines.specs.declared.fault.AskFault.TheVariants.{Memory};
ghost use Rattle.scatter_text.specs.DiagramText.{first_powers};
ghost use Rattle.scatter_text.specs.PrintedRows.{Continues, ContinuesSome};
ghost use Rattle.theta_algebra.specs.Answering.{IsToldResult, IsToldAnswer};
ghost use Rattle.scatter_text.specs.AnswersText.{monomial_text, series_text, powers_text, theta_text, family_text, IsPointWords, IsFaultWords, IsResultText, IsAnswerText, AreAnswerTexts, stopped_text, IsAnswersText};

use crate::printing::{push_closing, push_coordinate, push_powers, push_signed};
use broken_lines::AskFault;
use plane_geom::Point;
use scatter_diagram::StopCause;
use std::alloc::{AllocError, Global};
use theta_algebra::{Answer, Reply};
use trunc_series::{Exp, Key, Series};

/// Appends a space and the power of each variable.
fn push_first_powers(text: &mut String, key: &Key, vars: usize) -> Result<(), AllocError>
    requires { vars ≤ most_variables }
    ensures { OnOk result (Continues text.old text.new
        (flat_map (λ n. 32 ∷ decimal n) (first_powers vars (powers_of key.now.powers)))) }
{
    push_powers(text, &key.powers[..vars])
}

/// Appends `term C A B P1 .. PR`.
fn push_monomial(text: &mut String, key: &Key, c: i128, vars: usize) -> Result<(), AllocError>
    requires { vars ≤ most_variables }
    ensures { OnOk result (Continues text.old text.new (monomial_text vars (key_of key.now, c))) }
{
    text.push_str("term")?;
    push_signed(text, c)?;
    push_signed(text, i128::from(key.exp.a))?;
    push_signed(text, i128::from(key.exp.b))?;
    push_first_powers(text, key, vars)?;
    text.push_str("\n")
}

/// Appends the terms of a series, in their order.
fn push_series(text: &mut String, terms: &[(Key, i128)], vars: usize) -> Result<(), AllocError>
    requires { vars ≤ most_variables }
    ensures { OnOk result (Continues text.old text.new (series_text vars (sum_of terms.now))) }
{
    for term in terms {
        push_monomial(text, &term.0, term.1, vars)?;
    }
    Ok(())
}

/// Appends `term C P1 .. PR`.
fn push_coefficient(text: &mut String, key: &Key, c: i128, vars: usize) -> Result<(), AllocError>
    requires { vars ≤ most_variables }
    ensures { OnOk result (Continues text.old text.new (powers_text vars (key_of key.now, c))) }
{
    text.push_str("term")?;
    push_signed(text, c)?;
    push_first_powers(text, key, vars)?;
    text.push_str("\n")
}

/// Appends the terms of the series of a theta, in their order.
fn push_coefficients(
    text: &mut String,
    terms: &[(Key, i128)],
    vars: usize,
) -> Result<(), AllocError>
    requires { vars ≤ most_variables }
    ensures { OnOk result (Continues text.old text.new
        (flat_map (powers_text vars) (sum_of terms.now))) }
{
    for term in terms {
        push_coefficient(text, &term.0, term.1, vars)?;
    }
    Ok(())
}

/// Appends `theta A B` and the terms of its series.
fn push_theta(text: &mut String, theta: &(Exp, Series), vars: usize) -> Result<(), AllocError>
    requires { vars ≤ most_variables }
    ensures { OnOk result (Continues text.old text.new (theta_text vars theta.now)) }
{
    let (r, series) = theta;
    text.push_str("theta")?;
    push_signed(text, i128::from(r.a))?;
    push_signed(text, i128::from(r.b))?;
    text.push_str("\n")?;
    push_coefficients(text, series.terms(), vars)
}

/// Appends the thetas of a product, in their order.
fn push_family(text: &mut String, family: &[(Exp, Series)], vars: usize) -> Result<(), AllocError>
    requires { vars ≤ most_variables }
    ensures { OnOk result (Continues text.old text.new (family_text vars family.now)) }
{
    for theta in family {
        push_theta(text, theta, vars)?;
    }
    Ok(())
}

/// Appends `not-generic X Y`.
fn push_not_generic(text: &mut String, alloc: Global, at: &Point) -> Result<(), AllocError>
    ensures { OnOk result (ContinuesSome text.old text.new (IsPointWords (point_of at.now))) }
{
    text.push_str("not-generic")?;
    push_coordinate(text, alloc, at.x, at.w)?;
    push_coordinate(text, alloc, at.y, at.w)
}

/// Appends the words of a fault.
fn push_fault(text: &mut String, alloc: Global, fault: &AskFault) -> Result<(), AllocError>
    requires { fault.now ≢ Memory }
    ensures { OnOk result (ContinuesSome text.old text.new (IsFaultWords fault.now)) }
{
    match fault {
        AskFault::NotYet { newest } => write!(text, "not-yet {newest}"),
        AskFault::NotGeneric { at } => push_not_generic(text, alloc, at),
        AskFault::TooManyReach => text.push_str("too-many-reach"),
        AskFault::TooManyTails => text.push_str("too-many-tails"),
        AskFault::PointTooLarge => text.push_str("point-too-large"),
        AskFault::WeightTooLarge => text.push_str("weight-too-large"),
        AskFault::Memory => unreachable!(),
    }
}

/// Appends the rest of an answer's first line, after its order, and what follows.
fn push_result(
    text: &mut String,
    alloc: Global,
    told: &Result<Reply, AskFault>,
    vars: usize,
) -> Result<(), AllocError>
    requires few { vars ≤ most_variables }
    requires kept { IsToldResult told.now }
    ensures { OnOk result (ContinuesSome text.old text.new (IsResultText vars told.now)) }
{
    match told {
        Ok(Reply::Series(s)) => {
            text.push_str("series\n")?;
            push_series(text, s.terms(), vars)
        }
        Ok(Reply::Family(family)) => {
            text.push_str("product\n")?;
            push_family(text, family.as_slice(), vars)
        }
        Err(fault) => {
            text.push_str("fault ")?;
            push_fault(text, alloc, fault)?;
            text.push_str("\n")
        }
    }
}

/// Appends answer i.
fn push_answer(
    text: &mut String,
    alloc: Global,
    i: usize,
    answer: &Answer,
    vars: usize,
) -> Result<(), AllocError>
    requires few { vars ≤ most_variables }
    requires told { IsToldAnswer answer.now }
    ensures { OnOk result (ContinuesSome text.old text.new (IsAnswerText vars i answer.now)) }
{
    let order = answer.order;
    write!(text, "answer {i} order {order} ")?;
    push_result(text, alloc, &answer.result, vars)
}

/// Appends the answers, in their order.
fn push_answers(
    text: &mut String,
    alloc: Global,
    answers: &[Answer],
    vars: usize,
) -> Result<(), AllocError>
    requires few { vars ≤ most_variables }
    requires told { All IsToldAnswer answers.now }
    ensures { OnOk result (ContinuesSome text.old text.new (AreAnswerTexts vars 1 answers.now)) }
{
    for i in 0..answers.len() {
        push_answer(text, alloc, i + 1, &answers[i], vars)?;
    }
    Ok(())
}

/// Appends `stopped J CAUSE`, where order J was stopped.
fn push_stopped(text: &mut String, stop: Option<(u32, StopCause)>) -> Result<(), AllocError>
    ensures { OnOk result (Continues text.old text.new (stopped_text (stop_of stop))) }
{
    match stop {
        None => Ok(()),
        Some(stopped) => push_closing(text, Some(stopped)),
    }
}

/// The text of the answers of a run in `vars` variables, from 1 to 8, whose last order is `published`; where the
/// computation stopped at a later order, with that order and the cause.
pub fn write_answers(
    alloc: Global,
    vars: u32,
    published: u32,
    stop: Option<(u32, StopCause)>,
    answers: &[Answer],
) -> Result<Vec<u8>, AllocError>
    requires some { 1 ≤ vars }
    requires few { vars ≤ most_variables }
    requires told { All IsToldAnswer answers.now }
    ensures { IfOk result (λ text. IsAnswersText vars published (stop_of stop) answers.now
        text.items) }
{
    let mut text = format!(in alloc; "answers 1\npublished {published}\n")?;
    push_stopped(&mut text, stop)?;
    push_answers(&mut text, alloc, answers, vars as usize)?;
    push_closing(&mut text, None)?;
    Ok(text.into_bytes())
}
