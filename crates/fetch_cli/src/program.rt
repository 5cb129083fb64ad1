//! The program: where its input comes from, where its output goes, and its words.

pub mod answers;
pub mod input;
pub mod io;
pub mod memory;
pub mod running;
pub mod server_scene;
pub mod standard;
pub mod words;
