//! The lines that `generate` makes from a number, by a linear congruential generator.
ghost use Rattle.std.specs.Prelude.{◌≡◌, ◌<◌, pos, IfOk, OnOk};
ghost use Rattle.scatter_text.specs.Limits.{IsWithinLimits};
ghost use Rattle.scatter_run.specs.Generated.{next_state, drawn, direction_at, coordinate_at, powers_of_variable, line_drawn, generated_lines};

use scatter_text::{Coordinate, LineRow, Rows, TermRow, TextFile};
use std::alloc::{AllocError, Global};

/// How many lines are made, each with a variable of its own.
const LINES: usize = 6;

/// The directions that are drawn from.
const DIRECTIONS: [(i64, i64); 8] = [
    (1, 0),
    (0, 1),
    (1, 1),
    (1, 2),
    (2, 1),
    (-1, 1),
    (-1, 2),
    (-2, 1),
];

/// All states are below it.
const MODULUS: u64 = 1 << 31;

/// A linear congruential generator, by its state.
#[derive(Drop)]
struct Draws {
    state: u32,
}

impl Draws {
    /// The next draw, from 0 to below `end`.
    fn draw(&mut self, end: u32) -> u32
        requires { 0 < end }
        ensures state { self.new.state ≡ next_state self.old.state }
        ensures drawn { result ≡ drawn end self.new.state }
    {
        let before = u64::from(self.state);
        let after = (before * 1_103_515_245 + 12_345) % MODULUS;
        self.state = after as u32;
        (after / 256) as u32 % end
    }

    /// One of the eight directions.
    fn direction(&mut self) -> (i64, i64)
        ensures state { self.new.state ≡ next_state self.old.state }
        ensures drawn { result ≡ direction_at (drawn 8 self.new.state) }
    {
        DIRECTIONS[self.draw(8) as usize]
    }

    /// A whole number from -20 to 20.
    fn coordinate(&mut self) -> Coordinate
        ensures state { self.new.state ≡ next_state self.old.state }
        ensures drawn { result ≡ coordinate_at (drawn 41 self.new.state) }
    {
        let num = i64::from(self.draw(41)) - 20;
        Coordinate { num, den: 1 }
    }

    /// The line of a variable, which is counted from 0.
    fn line(&mut self, alloc: Global, variable: usize) -> Result<LineRow, AllocError>
        requires { variable < 6 }
        ensures state { OnOk result
            (self.new.state ≡ next_state (next_state (next_state self.old.state))) }
        ensures line { IfOk result (λ l. l ≡ line_drawn (drawn 8 (next_state self.old.state))
            (drawn 41 (next_state (next_state self.old.state))) (drawn 41 self.new.state) variable) }
    {
        let (dx, dy) = self.direction();
        let x = self.coordinate();
        let y = self.coordinate();
        let terms = vec![in alloc; term_of(alloc, variable)?]?;
        Ok(LineRow {
            dx,
            dy,
            x,
            y,
            terms: Rows::from_vec(terms),
        })
    }
}

/// The variable itself, which is counted from 0, along its line's direction.
fn term_of(alloc: Global, variable: usize) -> Result<TermRow, AllocError>
    requires { variable < 6 }
    ensures { IfOk result
        (λ t. t ≡ record { c = pos 1; j = pos 1; powers = powers_of_variable variable }) }
{
    let mut powers = [0; LINES];
    powers[variable] = 1;
    Ok(TermRow {
        c: 1,
        j: 1,
        powers: Rows::from_vec(Vec::from_array(alloc, powers)?),
    })
}

/// The lines that are made from the number, as a file of six variables.
pub(crate) fn generated_file(alloc: Global, number: u32) -> Result<TextFile, AllocError>
    ensures lines { IfOk result (λ file. file.lines ≡ generated_lines number) }
    ensures within { IfOk result IsWithinLimits }
{
    let mut draws = Draws { state: number };
    let mut lines = Vec::with_capacity(alloc, LINES)?;
    for variable in 0..LINES {
        lines.push(draws.line(alloc, variable)?)?;
    }
    Ok(TextFile {
        vars: LINES as i64,
        lines: Rows::from_vec(lines),
        asks: Rows::new(alloc),
        settle: None,
    })
}
