//! Files of the outside: a tree of them, told where it can be, and files in memory.
#![tactic(auto)]

mod file_error;
mod file_path;
mod file_tree;
mod files;
pub mod laws;
mod memory_files;
mod node;

pub use file_error::FileError;
pub use files::Files;
pub use memory_files::MemoryFiles;
pub use node::{Node, TreeNode};
