// The exponents of one reach after those of lower ones.

ghost use Rattle.std.specs.Prelude.{◌≡◌, ◌≤◌, ◌<◌, ◌-◌, ◌↔◌, IsTrue, OnOk, IfOk, IfErr, length};
ghost use Rattle.scattering.specs.Wall.{walls};
ghost use Rattle.scattering.specs.Series.{exp_add};
ghost use Rattle.trunc_series.specs.Shown.{exp_of, sum_of};
ghost use Rattle.broken_lines.specs.Growth.{AreLevelsSummable, AreSteps, AreSummable, IsSummable, Gains, IsNew, IsTooMany, AddsSteps, IsShifted, IsStepped, IsTermOf, IsTermOfSome};

use crate::fault::AskFault;
use limits::MOST_REACHED;
use scatter_diagram::Diagram;
use std::collections::BTreeMap;
use trunc_series::{Exp, Key};

/// The exponents found so far, each with its reach, and the list of those whose reach is the degree at hand.
#[derive(Drop)]
pub(crate) struct Growth {
    pub(crate) known: BTreeMap<Exp, u32>,
    pub(crate) level: Vec<Exp>,
    pub(crate) degree: u32,
}

impl Growth {
    /// Notes that the degree at hand reaches an exponent, unless it is known. Answers whether it is new.
    fn add(&mut self, x: Exp) -> Result<bool, AskFault>
        ensures gains { OnOk result (Gains (λ y. y ≡ x) self.old self.new) }
        ensures new { IfOk result (λ b. IsTrue b ↔ IsNew self.old x) }
        ensures fault { IfErr result (IsTooMany (λ y. y ≡ x) self.old) }
    {
        if self.known.contains_key(&x) {
            return Ok(false);
        }
        if self.known.len() >= MOST_REACHED {
            return Err(AskFault::TooManyReach);
        }
        self.known.insert(x, self.degree)?;
        self.level.push(x)?;
        Ok(true)
    }

    /// Adds a step to each of some exponents.
    fn add_shifted(&mut self, step: Exp, from: &[Exp]) -> Result<(), AskFault>
        requires step { IsSummable step }
        requires from { AreSummable from.now }
        ensures gains { OnOk result (Gains (IsShifted step from.now) self.old self.new) }
        ensures fault { IfErr result (IsTooMany (IsShifted step from.now) self.old) }
    {
        for x in from {
            self.add(sum(step, *x))?;
        }
        Ok(())
    }

    /// Adds each step, of the degree that it has, to the exponents whose reach is what is left of the degree at
    /// hand.
    pub(crate) fn add_steps(
        &mut self,
        steps: &[(Exp, u32)],
        levels: &[Vec<Exp>],
    ) -> Result<(), AskFault>
        requires levels { length levels.now ≡ self.old.degree }
        requires steps { AreSteps self.old.degree steps.now }
        requires within { AreLevelsSummable levels.now }
        ensures gains { OnOk result (Gains (IsStepped steps.now levels.now self.old.degree)
            self.old self.new) }
        ensures fault { IfErr result (IsTooMany (IsStepped steps.now levels.now self.old.degree)
            self.old) }
    {
        for (step, degree) in steps {
            let left = self.degree - *degree;
            self.add_shifted(*step, levels[left as usize].as_slice())?;
        }
        Ok(())
    }

    /// Adds an exponent, which is a step from now on if it is new.
    fn add_step(&mut self, steps: &mut Vec<(Exp, u32)>, x: Exp) -> Result<(), AskFault>
        ensures gains { OnOk result (Gains (λ y. y ≡ x) self.old self.new) }
        ensures steps { OnOk result (AddsSteps (λ y. y ≡ x) self.old self.new
            steps.old.items steps.new.items) }
        ensures fault { IfErr result (IsTooMany (λ y. y ≡ x) self.old) }
    {
        if self.add(x)? {
            steps.push((x, self.degree))?;
        }
        Ok(())
    }

    /// Adds the exponents of the terms of the degree at hand. Those that are new are steps from now on.
    fn add_terms(
        &mut self,
        steps: &mut Vec<(Exp, u32)>,
        terms: &[(Key, i128)],
    ) -> Result<(), AskFault>
        ensures gains { OnOk result (Gains (IsTermOf self.old.degree (sum_of terms.now))
            self.old self.new) }
        ensures steps { OnOk result (AddsSteps (IsTermOf self.old.degree (sum_of terms.now)) self.old
            self.new steps.old.items steps.new.items) }
        ensures fault { IfErr result (IsTooMany (IsTermOf self.old.degree (sum_of terms.now)) self.old) }
    {
        for t in terms {
            if t.0.degree() == self.degree {
                self.add_step(steps, t.0.exp)?;
            }
        }
        Ok(())
    }

    /// Adds the exponents of the terms of lines.
    fn add_lines(&mut self, steps: &mut Vec<(Exp, u32)>, e: &Diagram) -> Result<(), AskFault>
        ensures gains { OnOk result (Gains (IsTermOfSome self.old.degree e.now.diagram.initial)
            self.old self.new) }
        ensures steps { OnOk result (AddsSteps (IsTermOfSome self.old.degree e.now.diagram.initial)
            self.old self.new steps.old.items steps.new.items) }
        ensures fault { IfErr result (IsTooMany (IsTermOfSome self.old.degree e.now.diagram.initial)
            self.old) }
    {
        for i in 0..e.line_count() {
            self.add_terms(steps, e.line(i).function.terms())?;
        }
        Ok(())
    }

    /// Adds the exponents of the terms of rays.
    fn add_rays(&mut self, steps: &mut Vec<(Exp, u32)>, e: &Diagram) -> Result<(), AskFault>
        ensures gains { OnOk result (Gains (IsTermOfSome self.old.degree e.now.diagram.rays)
            self.old self.new) }
        ensures steps { OnOk result (AddsSteps (IsTermOfSome self.old.degree e.now.diagram.rays)
            self.old self.new steps.old.items steps.new.items) }
        ensures fault { IfErr result (IsTooMany (IsTermOfSome self.old.degree e.now.diagram.rays)
            self.old) }
    {
        for i in 0..e.ray_count() {
            self.add_terms(steps, e.ray(i).function.terms())?;
        }
        Ok(())
    }

    /// Adds the exponents of the terms of all walls.
    pub(crate) fn add_walls(
        &mut self,
        steps: &mut Vec<(Exp, u32)>,
        e: &Diagram,
    ) -> Result<(), AskFault>
        ensures gains { OnOk result (Gains (IsTermOfSome self.old.degree (walls e.now.diagram))
            self.old self.new) }
        ensures steps { OnOk result (AddsSteps (IsTermOfSome self.old.degree (walls e.now.diagram))
            self.old self.new steps.old.items steps.new.items) }
        ensures fault { IfErr result (IsTooMany (IsTermOfSome self.old.degree (walls e.now.diagram))
            self.old) }
    {
        self.add_lines(steps, e)?;
        self.add_rays(steps, e)
    }
}

/// x + y
pub(crate) fn sum(x: Exp, y: Exp) -> Exp
    requires first { IsSummable x }
    requires second { IsSummable y }
    ensures { exp_of result ≡ exp_add (exp_of x) (exp_of y) }
{
    Exp {
        a: x.a + y.a,
        b: x.b + y.b,
    }
}
