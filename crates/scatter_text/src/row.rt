// What a line says: its keyword, and a value for each slot after it.
ghost use Rattle.std.specs.Prelude.{◌≡◌, IfOk};
ghost use Rattle.scatter_text.specs.Grammar.{number_in, number_given, coordinate_in, powers_in, term_said, ask_said, theta_said, product_said};

use crate::file::{AskKind, AskRow, Coordinate, TermRow};
use crate::grammar::{FixedWord, Keyword};
use crate::rows::Rows;
use std::alloc::{AllocError, Global};

/// What stands in a slot.
#[derive(Drop)]
pub enum RowValue {
    Fixed(FixedWord),
    Number(i64),
    Coordinate(Coordinate),
    Powers(Rows<i64>),
}

/// What a line says.
#[derive(Drop)]
pub struct Row {
    pub keyword: Keyword,
    pub values: Rows<RowValue>,
}

impl Row {
    /// The number at a place among the values.
    pub fn number(&self, i: usize) -> i64
        ensures { result ≡ number_in self.now.values i }
    {
        match self.values.as_slice().get(i) {
            Some(RowValue::Number(n)) => *n,
            _ => 0,
        }
    }

    /// The number at a place among the values, if one is given.
    fn given(&self, i: usize) -> Option<i64>
        ensures { result ≡ number_given self.now.values i }
    {
        match self.values.as_slice().get(i) {
            Some(RowValue::Number(n)) => Some(*n),
            _ => None,
        }
    }

    /// The coordinate at a place among the values.
    pub fn coordinate(&self, i: usize) -> Coordinate
        ensures { result ≡ coordinate_in self.now.values i }
    {
        match self.values.as_slice().get(i) {
            Some(RowValue::Coordinate(c)) => *c,
            _ => Coordinate { num: 0, den: 1 },
        }
    }

    /// A copy of the powers at a place among the values.
    fn powers(&self, alloc: Global, i: usize) -> Result<Rows<i64>, AllocError>
        ensures { IfOk result (λ powers. powers ≡ powers_in self.now.values i) }
    {
        match self.values.as_slice().get(i) {
            Some(RowValue::Powers(powers)) => powers.copy(),
            _ => Ok(Rows::new(alloc)),
        }
    }

    /// The term that the row says.
    pub fn term(&self, alloc: Global) -> Result<TermRow, AllocError>
        ensures { IfOk result (λ term. term ≡ term_said self.now.values) }
    {
        Ok(TermRow {
            c: self.number(0),
            j: self.number(1),
            powers: self.powers(alloc, 2)?,
        })
    }

    /// The ask that the row says.
    pub fn ask(&self) -> AskRow
        ensures { result ≡ ask_said self.now.values }
    {
        match self.values.as_slice().get(1) {
            Some(RowValue::Fixed(FixedWord::Product)) => self.product(),
            _ => self.theta(),
        }
    }

    /// The ask for a theta function.
    fn theta(&self) -> AskRow
        ensures { result ≡ theta_said self.now.values }
    {
        AskRow {
            reader: self.number(0),
            kind: AskKind::Theta {
                a: self.number(2),
                b: self.number(3),
            },
            x: self.coordinate(5),
            y: self.coordinate(6),
            least: self.given(8),
        }
    }

    /// The ask for a product.
    fn product(&self) -> AskRow
        ensures { result ≡ product_said self.now.values }
    {
        AskRow {
            reader: self.number(0),
            kind: AskKind::Product {
                a: self.number(2),
                b: self.number(3),
                c: self.number(4),
                d: self.number(5),
            },
            x: self.coordinate(7),
            y: self.coordinate(8),
            least: self.given(10),
        }
    }
}
