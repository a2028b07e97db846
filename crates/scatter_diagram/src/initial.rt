// Initial walls: the lines that a diagram is completed from.

ghost use Rattle.std.specs.Prelude.{◌≡◌, ◌≤◌, IfOk, length};
ghost use Rattle.limits.specs.Limits.{highest_order, most_lines, most_variables};
ghost use Rattle.scattering.specs.Collections.{Every};
ghost use Rattle.scattering.specs.Wall.{IsWall};
ghost use Rattle.scatter_diagram.specs.Listed.{AreLines};
ghost use Rattle.scatter_diagram.specs.Shown.{walls_of};

use crate::Wall;
use crate::lists::copied;
use std::alloc::{AllocError, Global};
use std::marker::Model;

/// Up to 16 lines, in the order in which they were given, in 1 to 8 variables. Their functions have
/// order 24.
#[derive(Drop)]
pub struct Initial {
    vars: u32,
    lines: Vec<Wall>,
}

impl Model for Initial {
    ghost use Rattle.scatter_diagram.specs.Listed.{SeenInitial, IsInitialList};
    ghost use Rattle.scatter_diagram.specs.Shown.{walls_of};

    ghost Value = { SeenInitial };

    ghost view = { λ i. record { vars = i.vars; lines = walls_of i.lines.items } };

    ghost invariant = { λ i. IsInitialList i.vars i.lines.items };
}

impl Initial {
    pub fn new(vars: u32, lines: Vec<Wall>) -> Initial
        requires few_vars { vars ≤ most_variables }
        requires some_vars { 1 ≤ vars }
        requires few_lines { length lines.items ≤ most_lines }
        requires lines { AreLines highest_order lines.items }
        ensures { result ≡ record { vars = vars; lines = walls_of lines.items } }
    {
        Initial { vars, lines }
    }

    pub fn vars(&self) -> u32
        ensures value { result ≡ self.now.vars }
        ensures least { 1 ≤ result }
        ensures most { result ≤ most_variables }
    {
        self.vars
    }

    pub fn lines(&self) -> &[Wall]
        ensures walls { walls_of result.now ≡ self.now.lines }
        ensures lines { AreLines highest_order result.now }
        ensures proper { Every (IsWall highest_order) self.now.lines }
        ensures few { length result.now ≤ most_lines }
    {
        self.lines.as_slice()
    }

    pub fn copy(&self) -> Result<Initial, AllocError>
        ensures { IfOk result (λ i. i ≡ self.now) }
    {
        let alloc: Global = *self.lines.allocator();
        Ok(Initial {
            vars: self.vars,
            lines: copied(alloc, self.lines.as_slice())?,
        })
    }
}
