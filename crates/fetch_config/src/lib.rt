//! Git's configuration texts: reading, writing, look-ups, edits and overrides.
#![tactic(auto)]

mod error;
mod file;
pub mod laws;
mod line;
mod lookup;
mod meta;
mod number;
mod overrides;
mod print;
mod reading;
mod section;
mod text;
mod value;

pub use error::{ConfigError, Unreadable};
pub use file::File;
pub use lookup::is_same_sub;
pub use meta::{Meta, Origin};
pub use section::Section;
pub use text::is_same_name;
