//! The lines of a script, and the commands that they are.
//!
//! `read_line` reads one line. `specs/` says which bytes are a line of which command: the words of a line, what
//! spells a name, a number, a place or a value, and the form of each command. A line is one command's at most, and
//! unreadable exactly when it is none's. The script and its lines are this project's own.
#![tactic(auto)]

mod bytes;
pub mod command;
mod forms;
mod keyword;
pub mod laws;
pub mod line;
pub mod line_error;
mod number;
mod spelling;
mod words;

pub use forms::is_comment;
pub use spelling::is_name;
pub use words::{gap_length, word_length};
