//! How a run ended.
ghost use Rattle.std.specs.Prelude.{◌≡◌};

use scatter_diagram::StopCause;
use scatter_json::JsonKind;
use scatter_text::{LimitKind, TextKind};

/// How a run ended. `code` is the program's exit status.
#[derive(Clone, Copy, Debug, PartialEq, Eq)]
pub enum Status {
    /// All was done, and the job's text is written.
    Done,
    /// The words name no job.
    Words,
    /// The input isn't of the format: its first bad line, counted from 1, and what is wrong with it.
    Text { line: u32, kind: TextKind },
    /// The input isn't a JSON text of the form: what is wrong with it.
    Json { kind: JsonKind },
    /// The input passes a limit.
    Limit { which: LimitKind },
    /// An order is stopped: the text has the completion of the order before.
    Stopped { order: u32, cause: StopCause },
    /// A read failed.
    ReadFault,
    /// A write failed: the sink has a part of the text.
    WriteFault,
    /// Memory ran out before anything was written.
    Memory,
}

impl Status {
    ghost use Rattle.scatter_run.specs.Outcome.{code_of};

    /// The exit status of the program: 0 for `Done`, else 1 to 7.
    pub fn code(&self) -> u8
        ensures { result ≡ code_of self.now }
    {
        match self {
            Status::Done => 0,
            Status::Words => 1,
            Status::Text { .. } | Status::Json { .. } => 2,
            Status::Limit { .. } => 3,
            Status::Stopped { .. } => 4,
            Status::ReadFault => 5,
            Status::WriteFault => 6,
            Status::Memory => 7,
        }
    }
}
