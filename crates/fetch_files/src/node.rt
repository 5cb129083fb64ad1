//! What stands at a path.

use fetch_base::Text;

/// What stands at a path.
#[derive(Clone, Copy, Debug, PartialEq, Eq)]
pub enum Node {
    /// A file.
    File,
    /// A directory.
    Directory,
}

/// What a tree of files has at a path.
// Not copied: it is the answer of one call, given to its caller.
#[derive(Debug, Drop)]
pub enum TreeNode {
    /// A file with these bytes.
    File(Text),
    /// A directory.
    Directory,
}
