// The values of the lines of complete tails, and their sum.

ghost use Rattle.std.specs.Prelude.{◌≡◌, ◌++◌, [], ◌∷◌, IfOk, OnOk};
ghost use Rattle.trunc_series.specs.Shown.{exp_of, term_of};
ghost use Rattle.trunc_series.specs.Sums.{AreKeptValues, StandsFor};
ghost use Rattle.trunc_series.specs.declared.arithmetic.Arithmetic.TheVariants.{Wrapping};
ghost use Rattle.broken_line_theory.specs.TailValue.{tail_value};
ghost use Rattle.broken_lines.specs.Traced.{seen_tail, plain};
ghost use Rattle.theta_algebra.specs.LineValues.{tail_bends, value_term, line_term, line_sum, traced_sum, AreLightBends, IsLightTail, AreLightTails};

use broken_lines::{Bend, LineTracer, Tail};
use std::alloc::{AllocError, Global};
use trunc_series::sorted_terms::{Arithmetic, TermSum};
use trunc_series::{Exp, Key, times};

/// The powers and the coefficient by which the bends that follow on the exponent x multiply, as a term without an
/// exponent. At each bend it is the coefficient of F^n at its key.
fn value_of_bends(
    tracer: &mut LineTracer<'_>,
    x: Exp,
    bends: &[Bend],
) -> Result<(Key, i128), AllocError>
    requires bends { AreLightBends tracer.old.walls tracer.old.limit (exp_of x)
        (tail_bends bends.now) }
    ensures same { tracer.new ≡ tracer.old }
    ensures value { IfOk result (λ t. term_of t ≡ value_term
        (tail_value tracer.old.walls tracer.old.limit (exp_of x) (tail_bends bends.now))) }
{
    let [bend, later @ ..] = bends else {
        return Ok((Key::ONE, 1));
    };
    let value = tracer.value(x, bend)?;
    let left = Exp {
        a: x.a - bend.key.exp.a,
        b: x.b - bend.key.exp.b,
    };
    let rest = value_of_bends(tracer, left, later)?;
    let powers = Key {
        exp: Key::ONE.exp,
        powers: bend.key.powers,
    };
    Ok((times(&powers, &rest.0), value * rest.1))
}

/// The final monomial of the line of a complete tail, with its coefficient.
fn line_value(tracer: &mut LineTracer<'_>, tail: &Tail) -> Result<(Key, i128), AllocError>
    requires tail { AreLightBends tracer.old.walls tracer.old.limit (seen_tail tail.now).root
        (seen_tail tail.now).bends }
    ensures same { tracer.new ≡ tracer.old }
    ensures value { IfOk result (λ t. term_of t ≡ line_term tracer.old.walls tracer.old.limit
        (plain (seen_tail tail.now))) }
{
    let value = value_of_bends(tracer, tail.root, tail.bends.as_slice())?;
    let powers = value.0.powers;
    let exp = tail.root;
    Ok((Key { exp, powers }, value.1))
}

/// Adds the value of the line of a tail, if that is complete: if it goes on from m.
fn add_value(
    sum: &mut TermSum,
    tracer: &mut LineTracer<'_>,
    m: Exp,
    tail: &Tail,
) -> Result<(), AllocError>
    requires tail { IsLightTail tracer.old.walls tracer.old.limit (exp_of m) (seen_tail tail.now) }
    requires terms { AreKeptValues Wrapping sum.old }
    ensures same { tracer.new ≡ tracer.old }
    ensures added { OnOk result (StandsFor Wrapping sum.new (line_sum tracer.old.walls
        tracer.old.limit (exp_of m) (plain (seen_tail tail.now) ∷ []) ++ sum.old)) }
{
    if tail.last != m {
        return Ok(());
    }
    let line = line_value(tracer, tail)?;
    sum.add(Arithmetic::Wrapping, &line.0, line.1)
}

/// The sum of the values of the lines of those of the tails for m that are complete.
pub(crate) fn sum_of_values(
    alloc: Global,
    tracer: &mut LineTracer<'_>,
    m: Exp,
    tails: &[Tail],
) -> Result<TermSum, AllocError>
    requires tails { AreLightTails tracer.old.walls tracer.old.limit (exp_of m) tails.now }
    ensures same { tracer.new ≡ tracer.old }
    ensures sum { IfOk result (λ s. StandsFor Wrapping s
        (traced_sum tracer.old.walls tracer.old.limit (exp_of m) tails.now)) }
{
    let mut sum = TermSum::new(alloc);
    for tail in tails {
        add_value(&mut sum, tracer, m, tail)?;
    }
    Ok(sum)
}
