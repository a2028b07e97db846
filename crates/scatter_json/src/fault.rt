// What can be wrong with a JSON text.
use thiserror::Error;

/// What is wrong with a text.
#[derive(Clone, Copy, Debug, PartialEq, Eq)]
pub enum JsonKind {
    /// It is the text of no value.
    Syntax,
    /// Its value isn't of the form.
    Shape,
}

impl JsonKind {
    ghost use Rattle.std.specs.Prelude.{◌≡◌};
    ghost use Rattle.scatter_json.specs.JsonForm.{json_word};

    /// The word that is printed.
    pub fn word(self) -> &'static str
        ensures { result.now ≡ json_word self }
    {
        match self {
            JsonKind::Syntax => "syntax",
            JsonKind::Shape => "shape",
        }
    }
}

/// Why a text wasn't read.
#[derive(Debug, Drop, Error)]
pub enum JsonFault {
    /// It is the text of no value.
    #[error("not a JSON text")]
    Syntax,
    /// Its value isn't of the form.
    #[error("not of the form of a diagram")]
    Shape,
    /// Memory ran out.
    #[error("out of memory")]
    Memory,
}
