// How far a text is read: the rows so far, as the file that they begin.
ghost use Rattle.std.specs.Prelude.{◌≡◌, [], ◌∷◌, ◌++◌, IsTrue, ◌↔◌, IfOk, All, nat_abs, pos, ◌≤ℤ◌};
ghost use Rattle.std.specs.Option.{ForSome};
ghost use Rattle.scatter_text.specs.Grammar.{place_after, variables_of, is_settled, HasValues, IsNewTerm, IsTermAfter, line_said};
ghost use Rattle.scatter_text.specs.Stages.{rows_of, asks_rows, CanFollow, CanEnd};
ghost use Rattle.scatter_text.specs.declared.stage.Stage.TheVariants.{Head, Body};
ghost use Rattle.scatter_text.specs.Values.{AreCoprime, IsTermRow, HasAskValues};

use crate::ask_list::{AskList, OpenAsks};
use crate::file::{AskRow, LineRow, TermRow};
use crate::grammar::{Keyword, Place};
use crate::open_line::OpenLine;
use crate::row::Row;
use frac_128::gcd;
use std::alloc::{AllocError, Global};

/// What the rows so far say.
#[derive(Drop)]
pub enum Stage {
    Start,
    Version,
    /// The number of variables is known, and no line.
    Head {
        vars: i64,
    },
    /// The lines so far, and the last of them, which may get further terms.
    Body {
        vars: i64,
        lines: Vec<LineRow>,
        last: OpenLine,
    },
    /// All lines, and the asks so far.
    Asking {
        vars: i64,
        lines: Vec<LineRow>,
        asks: OpenAsks,
    },
    /// The text has ended.
    Whole {
        vars: i64,
        lines: Vec<LineRow>,
        asks: AskList,
    },
}

impl Stage {
    /// The place of the next line.
    pub fn place(&self) -> Place
        ensures { place_after (rows_of self.now) ≡ result }
    {
        match self {
            Stage::Start => Place::Start,
            Stage::Version => Place::Version,
            Stage::Head { .. } => Place::Lines,
            Stage::Body { .. } => Place::Terms,
            Stage::Asking { .. } => Place::Asks,
            Stage::Whole { .. } => Place::After,
        }
    }

    /// The number of variables, or 0 before it is known.
    pub fn variables(&self) -> usize
        ensures { variables_of (rows_of self.now) ≡ result }
    {
        match self {
            Stage::Start | Stage::Version => 0,
            Stage::Head { vars } => vars.unsigned_abs() as usize,
            Stage::Body { vars, .. } => vars.unsigned_abs() as usize,
            Stage::Asking { vars, .. } => vars.unsigned_abs() as usize,
            Stage::Whole { vars, .. } => vars.unsigned_abs() as usize,
        }
    }

    /// Whether the rules on values hold of a row that comes next.
    pub fn allows(&self, alloc: Global, row: &Row) -> Result<bool, AllocError>
        ensures { IfOk result (λ b. IsTrue b
            ↔ HasValues (rows_of self.now) row.now.keyword row.now.values) }
    {
        match row.keyword {
            Keyword::Scatter => Ok(row.number(0) == 1),
            Keyword::Vars => Ok(row.number(0) >= 1),
            Keyword::Line => Ok(is_primitive(row.number(0), row.number(1))),
            Keyword::Term => {
                let term = row.term(alloc)?;
                self.allows_term(alloc, &term)
            }
            Keyword::Ask => Ok(is_ask(&row.ask())),
            Keyword::Settle => Ok(!self.is_settled()),
            Keyword::End => Ok(true),
        }
    }

    /// Whether `settle` stands among the rows so far.
    fn is_settled(&self) -> bool
        ensures { is_settled (rows_of self.now) ≡ result }
    {
        match self {
            Stage::Start | Stage::Version | Stage::Head { .. } => false,
            Stage::Body { .. } => false,
            Stage::Asking { asks, .. } => asks.list.settle.is_some(),
            Stage::Whole { asks, .. } => asks.settle.is_some(),
        }
    }

    /// Whether the rules on values hold of a term that comes next.
    fn allows_term(&self, alloc: Global, term: &TermRow) -> Result<bool, AllocError>
        ensures { IfOk result (λ b. IsTrue b ↔ IsTermAfter (rows_of self.now) term.now) }
    {
        if is_term(term) {
            self.is_new(alloc, term)
        } else {
            Ok(false)
        }
    }

    /// Whether no term of the last line has the monomial of this one.
    fn is_new(&self, alloc: Global, term: &TermRow) -> Result<bool, AllocError>
        ensures { IfOk result (λ b. IsTrue b ↔ IsNewTerm (rows_of self.now) term.now) }
    {
        match self {
            Stage::Body { last, .. } => last.lacks(alloc, term),
            Stage::Asking { .. } => Ok(true),
            _ => Ok(true),
        }
    }

    /// The stage with one row more, which its place and the rules on values allow.
    pub fn with(self, alloc: Global, row: Row) -> Result<Stage, AllocError>
        requires { CanFollow (rows_of self) row }
        ensures { IfOk result (λ next. rows_of next ≡ row ∷ rows_of self) }
    {
        match self {
            Stage::Start => Ok(Stage::Version),
            Stage::Version => Ok(Stage::Head {
                vars: row.number(0),
            }),
            Stage::Head { vars } => begun(alloc, vars, &row),
            Stage::Body { vars, lines, last } => continued(alloc, vars, lines, last, &row),
            Stage::Asking { vars, lines, asks } => asked(vars, lines, asks.list, &row),
            Stage::Whole { .. } => unreachable!(),
        }
    }
}

/// The stage after the first row that follows the number of variables.
fn begun(alloc: Global, vars: i64, row: &Row) -> Result<Stage, AllocError>
    requires { CanFollow (rows_of (Head vars)) row.now }
    ensures { IfOk result (λ next. rows_of next ≡ row.now ∷ rows_of (Head vars)) }
{
    let lines = Vec::new(alloc);
    match row.keyword {
        Keyword::Line => {
            let last = opened(alloc, row);
            Ok(Stage::Body { vars, lines, last })
        }
        _ => asked(vars, lines, AskList::new(alloc), row),
    }
}

/// The stage after a row that follows the last line so far, or a term of it.
fn continued(
    alloc: Global,
    vars: i64,
    lines: Vec<LineRow>,
    last: OpenLine,
    row: &Row,
) -> Result<Stage, AllocError>
    requires { CanFollow (rows_of (Body vars lines last)) row.now }
    ensures { IfOk result (λ next. rows_of next ≡ row.now ∷ rows_of (Body vars lines last)) }
{
    match row.keyword {
        Keyword::Line => {
            let lines = with_line(lines, last.row)?;
            let last = opened(alloc, row);
            Ok(Stage::Body { vars, lines, last })
        }
        Keyword::Term => {
            let last = last.with(alloc, row.term(alloc)?)?;
            Ok(Stage::Body { vars, lines, last })
        }
        _ => {
            let lines = with_line(lines, last.row)?;
            asked(vars, lines, AskList::new(alloc), row)
        }
    }
}

/// The stage after a row that follows all lines: an ask, `settle` or the end.
fn asked(vars: i64, lines: Vec<LineRow>, asks: AskList, row: &Row) -> Result<Stage, AllocError>
    requires { CanEnd (asks_rows vars lines.items asks) row.now }
    ensures { IfOk result (λ next. rows_of next ≡ row.now ∷ asks_rows vars lines.items asks) }
{
    match row.keyword {
        Keyword::Ask => {
            let asks = asks.with_ask(row.ask())?;
            Ok(Stage::Asking { vars, lines, asks })
        }
        Keyword::Settle => {
            let asks = asks.with_settle();
            Ok(Stage::Asking { vars, lines, asks })
        }
        _ => Ok(Stage::Whole { vars, lines, asks }),
    }
}

/// The line that a row says, without terms.
fn opened(alloc: Global, row: &Row) -> OpenLine
    ensures { result.row ≡ line_said row.now.values }
{
    let x = row.coordinate(3);
    let y = row.coordinate(4);
    OpenLine::new(alloc, row.number(0), row.number(1), x, y)
}

/// The lines with one more at the end.
fn with_line(mut lines: Vec<LineRow>, line: LineRow) -> Result<Vec<LineRow>, AllocError>
    ensures { IfOk result (λ more. more.items ≡ lines.items ++ line ∷ []) }
{
    lines.push(line)?;
    Ok(lines)
}

/// Whether a direction is primitive.
pub fn is_primitive(dx: i64, dy: i64) -> bool
    ensures { IsTrue result ↔ AreCoprime (nat_abs dx) (nat_abs dy) }
{
    gcd(dx.unsigned_abs() as u128, dy.unsigned_abs() as u128) == 1
}

/// Whether the rules on values hold of a term by itself.
pub fn is_term(term: &TermRow) -> bool
    ensures { IsTrue result ↔ IsTermRow term.now }
{
    let powers = term.powers.as_slice();
    term.c != 0 && term.j >= 1 && has_no_negative(powers) && !is_zero(powers)
}

fn has_no_negative(powers: &[i64]) -> bool
    ensures { IsTrue result ↔ All (λ a. pos 0 ≤ℤ a) powers.now }
{
    powers.iter().all(|a| *a >= 0)
}

fn is_zero(powers: &[i64]) -> bool
    ensures { IsTrue result ↔ All (λ a. a ≡ pos 0) powers.now }
{
    powers.iter().all(|a| *a == 0)
}

/// Whether the rules on values hold of an ask.
fn is_ask(ask: &AskRow) -> bool
    ensures { IsTrue result ↔ HasAskValues ask.now }
{
    ask.reader >= 1 && is_order(ask.least)
}

/// Whether a least order, if there is one, isn't negative.
fn is_order(least: Option<i64>) -> bool
    ensures { IsTrue result ↔ ForSome least (λ order. pos 0 ≤ℤ order) }
{
    match least {
        Some(order) => order >= 0,
        None => true,
    }
}
