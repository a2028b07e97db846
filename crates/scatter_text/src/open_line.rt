// The last line of a text so far, which may get further terms.
ghost use Rattle.std.specs.Prelude.{◌≡◌, [], ◌∷◌, ◌++◌, IsTrue, ◌↔◌, IfOk, All};
ghost use Rattle.scatter_text.specs.Monomials.{HasMonomials, exponents};
ghost use Rattle.scatter_text.specs.Values.{AreAlike};

use crate::file::{Coordinate, LineRow, TermRow};
use crate::rows::Rows;
use std::alloc::{AllocError, Global};
use std::collections::BTreeSet;

/// The last line so far, with the monomials of its terms: of each term the exponent of z^d, then those of the variables.
#[derive(Drop)]
pub struct OpenLine {
    pub row: LineRow,
    pub monomials: BTreeSet<Vec<i64>>,
    pub ghost known: { HasMonomials monomials row.terms },
}

impl OpenLine {
    /// A line without terms.
    pub fn new(alloc: Global, dx: i64, dy: i64, x: Coordinate, y: Coordinate) -> OpenLine
        ensures { result.row ≡ record { dx = dx; dy = dy; x = x; y = y; terms = [] } }
    {
        OpenLine {
            row: line(alloc, dx, dy, x, y),
            monomials: BTreeSet::new(alloc),
        }
    }

    /// Whether no term has the monomial of this one.
    pub fn lacks(&self, alloc: Global, term: &TermRow) -> Result<bool, AllocError>
        ensures { IfOk result (λ b. IsTrue b
            ↔ All (λ earlier. ¬ AreAlike earlier term.now) self.now.row.terms) }
    {
        let monomial = exponents(alloc, term)?;
        Ok(!self.monomials.contains(&monomial))
    }

    /// The line with one term more, at the end.
    pub fn with(self, alloc: Global, term: TermRow) -> Result<OpenLine, AllocError>
        ensures { IfOk result (λ more. more.row ≡ record self.row { terms = self.row.terms ++ term ∷ [] }) }
    {
        let OpenLine { row, mut monomials } = self;
        let monomial = exponents(alloc, &term)?;
        monomials.insert(monomial)?;
        let row = with_term(row, term)?;
        Ok(OpenLine { row, monomials })
    }
}

/// The exponents of a term: that of z^d, then those of the variables.
fn exponents(alloc: Global, term: &TermRow) -> Result<Vec<i64>, AllocError>
    ensures { IfOk result (λ v. v.items ≡ exponents term.now) }
{
    let powers = term.powers.as_slice();
    let mut exponents = Vec::with_capacity(alloc, powers.len())?;
    exponents.push(term.j)?;
    exponents.extend_from_slice(powers)?;
    Ok(exponents)
}

/// A line without terms.
fn line(alloc: Global, dx: i64, dy: i64, x: Coordinate, y: Coordinate) -> LineRow
    ensures { result ≡ record { dx = dx; dy = dy; x = x; y = y; terms = [] } }
{
    LineRow {
        dx,
        dy,
        x,
        y,
        terms: Rows::new(alloc),
    }
}

/// The line with one term more, at the end.
fn with_term(line: LineRow, term: TermRow) -> Result<LineRow, AllocError>
    ensures { IfOk result (λ more. more ≡ record line { terms = line.terms ++ term ∷ [] }) }
{
    let LineRow {
        dx,
        dy,
        x,
        y,
        terms,
    } = line;
    let mut terms = terms.into_vec();
    terms.push(term)?;
    let terms = Rows::from_vec(terms);
    Ok(LineRow {
        dx,
        dy,
        x,
        y,
        terms,
    })
}
