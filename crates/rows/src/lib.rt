//! What the programs of rows share: rows and their lines, the words of a line, the lines of an answer, and how a program
//! runs.
#![tactic(auto)]

mod answers;
mod committers;
mod kinds;
mod program;
mod reading;
mod words;

pub use answers::{refuse, say, say_id, say_lines, say_number, say_printed, say_specs, say_texts};
pub use committers::{nobody, somebody};
pub use kinds::{hash_of, object_kind_of};
pub use program::{run_lines, run_rows, tell_lines};
pub use reading::{Row, lines};
pub use words::{Question, decoded, name_of, split_word};
