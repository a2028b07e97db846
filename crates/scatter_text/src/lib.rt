// The text that describes lines of a scattering diagram and asks about it: its types, its reader, the limits of what is
// accepted, and the initial lines that it says. Also the text of a completed diagram.
#![tactic(auto)]

mod along;
mod answers;
mod ask_list;
mod fault;
mod file;
mod grammar;
mod initial;
mod laws;
mod limit_checks;
mod line;
mod number;
mod open_line;
mod printing;
mod queries;
mod reading;
mod row;
mod rows;
mod stage;

pub use along::{PrintedRow, rows_along};
pub use answers::write_answers;
pub use fault::{LimitKind, TextFault, TextKind};
pub use file::{AskKind, AskRow, Coordinate, LineRow, TermRow, TextFile};
pub use grammar::TextMode;
pub use initial::initial_of;
pub use laws::one_text;
pub use limit_checks::check_limits;
pub use number::{is_short, read_coordinate, read_number};
pub use open_line::OpenLine;
pub use printing::{cause_word, coordinate_text, push_closing, write_diagram};
pub use queries::queries_of;
pub use reading::{one_outcome, read_text};
pub use rows::Rows;
pub use stage::{is_primitive, is_term};
