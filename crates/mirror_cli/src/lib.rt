//! The program's word `mirror`: a repository is read, mirrored by several workers, and the mirror is reported.
#![tactic(auto)]

pub mod laws;
mod mirroring;
mod reporting;
mod running;
mod tokens;
mod words;

pub use reporting::append_mirror;
pub use running::run_mirror_scene;
pub use tokens::append_mirror_token;
pub use words::read_mirror_words;
