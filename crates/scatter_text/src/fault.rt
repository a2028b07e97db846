// What can be wrong with a text, and which limits a file can pass.
use std::alloc::AllocError;
use thiserror::Error;

/// What is wrong with a line. A line's tests are made in the order of the variants.
#[derive(Clone, Copy, Debug, PartialEq, Eq)]
pub enum TextKind {
    /// It is the last one, isn't empty, and has no line feed.
    Unfinished,
    /// It holds a byte outside 32 to 126.
    Byte,
    /// It is empty, begins or ends with a space, or has two spaces together.
    Shape,
    /// Its first token isn't a word that is allowed at its place.
    Word,
    /// It has too few or too many tokens, or a fixed word isn't in its place.
    Count,
    /// A token isn't spelled as the number or coordinate that belongs there.
    Number,
    /// A number is one that the rules on values refuse.
    Value,
    /// Every line is good, and there is no `end`.
    Missing,
}

impl TextKind {
    ghost use Rattle.std.specs.Prelude.{◌≡◌};
    ghost use Rattle.scatter_text.specs.Grammar.{kind_word};

    /// The word that is printed.
    pub fn word(self) -> &'static str
        ensures { result.now ≡ kind_word self }
    {
        match self {
            TextKind::Unfinished => "unfinished",
            TextKind::Byte => "byte",
            TextKind::Shape => "shape",
            TextKind::Word => "word",
            TextKind::Count => "count",
            TextKind::Number => "number",
            TextKind::Value => "value",
            TextKind::Missing => "missing",
        }
    }
}

/// Why a text wasn't read.
#[derive(Debug, Drop, Error)]
pub enum TextFault {
    /// The first bad line, counted from 1, and what is wrong with it.
    #[error("line {line} is bad: {kind:?}")]
    Bad { line: u32, kind: TextKind },
    /// Memory ran out.
    #[error("out of memory")]
    Memory,
}

/// A limit that a file passes. They are tested in the order of the variants.
#[derive(Clone, Copy, Debug, PartialEq, Eq)]
pub enum LimitKind {
    /// More than `limits::MOST_BYTES` bytes of text.
    Bytes,
    /// More than `limits::MOST_VARIABLES` variables.
    Vars,
    /// More than `limits::MOST_MONOMIALS` monomials in the variables up to the order.
    Size,
    /// More than `limits::MOST_LINES` lines.
    Lines,
    /// More than `limits::MOST_TERMS` terms on a line.
    Terms,
    /// A coefficient above `limits::LARGEST_COEFFICIENT` in absolute value.
    Coefficient,
    /// An exponent of a line's direction, or of a term, above `limits::LARGEST_GIVEN_EXPONENT` in absolute value.
    Exponent,
    /// A power of a variable above `limits::LARGEST_POWER`.
    Power,
    /// A point of a line or ask that isn't near: over the least common denominator, a number above
    /// `limits::LARGEST_COORDINATE`.
    Place,
    /// More than `limits::MOST_ASKS` asks.
    Queries,
    /// An exponent of an ask above `limits::LARGEST_GIVEN_EXPONENT` in absolute value.
    AskExponent,
    /// A reader above the number of readers.
    Reader,
    /// A least order above `limits::HIGHEST_ORDER`.
    Least,
}

impl LimitKind {
    ghost use Rattle.std.specs.Prelude.{◌≡◌};
    ghost use Rattle.scatter_text.specs.Limits.{limit_word};

    /// The word that is printed.
    pub fn word(self) -> &'static str
        ensures { result.now ≡ limit_word self }
    {
        match self {
            LimitKind::Bytes => "bytes",
            LimitKind::Vars => "vars",
            LimitKind::Size => "size",
            LimitKind::Lines => "lines",
            LimitKind::Terms => "terms",
            LimitKind::Coefficient => "coefficient",
            LimitKind::Exponent => "exponent",
            LimitKind::Power => "power",
            LimitKind::Place => "point",
            LimitKind::Queries => "queries",
            LimitKind::AskExponent => "ask-exponent",
            LimitKind::Reader => "reader",
            LimitKind::Least => "least",
        }
    }
}
