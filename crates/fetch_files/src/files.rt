//! A tree of files.

ghost use Rattle.std.specs.Prelude.{◌≡◌, Bool, Option, IsErrOf, OnErr};
ghost use Rattle.fetch_base.specs.Faults.{Faults, Rose, Counts};
ghost use Rattle.fetch_files.specs.FileCalls.{Asks, Changes, IsRefused, failed_after};
ghost use Rattle.fetch_base.specs.Calls.{risen_after};
ghost use Rattle.fetch_files.specs.Paths.{parts_of};
ghost use Rattle.fetch_files.specs.Trees.{Tree, kind_in, names_in, read_in, with_directories, written, renamed, without_file, without_all};

use crate::file_error::FileError;
use crate::node::Node;
use fetch_base::{Failed, Text};

/// A tree of files. Paths are byte texts, with `/` between their parts: empty parts are dropped, so that `/a//b` and
/// `/a/b/` are `/a/b`, and nothing else is changed. The root is a directory.
///
/// Where the files tell their tree, each call tells at Ok what the tree has or what becomes of it. A call answers
/// `Failed` where something of the wrong kind is in its way, where it asks for something that isn't there, and, if
/// `may_fail` says so, at any time. It counts one fault then, and none otherwise; a count at its greatest value stays
/// there. A question leaves the tree as it is, and a call that is refused leaves it as it was: nothing is undone or tried
/// again behind it.
///
/// Who writes files of the outside, as those of a host, tells no tree: others change it, too, and a write that was refused
/// may have written a part. Promises that speak of a tree then say nothing, and those on faults stand.
///
/// A fetch makes and removes one keep file; it writes no objects and no references. `MemoryFiles::new(alloc,
/// Vec::new(alloc))` stands for none.
pub trait Files {
    /// How often a call failed. A `u64` that rises by one and stands still at its end will do.
    ghost faults: { Self → Faults };

    /// The whole tree, where it is known. None for files that others may change.
    ghost told: { Self → Option Tree };

    /// Whether a call may fail where nothing is in its way.
    ghost may_fail: { Self → Bool };

    /// What stands at the path, if anything does. `Failed` where a file stands above the path.
    fn kind_of(&mut self, path: &[u8]) -> Result<Option<Node>, FileError>
        ensures counts { Counts (faults self.old) (faults self.new) }
        ensures cause { IsErrOf result FileError.Failed → Rose (faults self.old) (faults self.new) }
        ensures failed { (faults self.new).count ≡ failed_after (faults self.old).count result }
        ensures tree { Asks (λ kind. kind) (told self.old) (told self.new) (λ t. kind_in t (parts_of path.now)) result }
        ensures in_the_way { IsErrOf result FileError.Failed
            → IsRefused (may_fail self.old) (told self.old) (λ t. kind_in t (parts_of path.now)) }
        ensures may_fail { may_fail self.new ≡ may_fail self.old };

    /// The names in the directory, ascending. `Failed` where no directory stands at the path.
    fn list(&mut self, path: &[u8]) -> Result<Vec<Text>, FileError>
        ensures counts { Counts (faults self.old) (faults self.new) }
        ensures cause { IsErrOf result FileError.Failed → Rose (faults self.old) (faults self.new) }
        ensures failed { (faults self.new).count ≡ failed_after (faults self.old).count result }
        ensures tree { Asks (λ names. names.items) (told self.old) (told self.new) (λ t. names_in t (parts_of path.now)) result }
        ensures in_the_way { IsErrOf result FileError.Failed
            → IsRefused (may_fail self.old) (told self.old) (λ t. names_in t (parts_of path.now)) }
        ensures may_fail { may_fail self.new ≡ may_fail self.old };

    /// Makes the directory, and those above it that are absent. `Failed` where a file stands at the path or above it.
    fn make_dir_all(&mut self, path: &[u8]) -> Result<(), FileError>
        ensures counts { Counts (faults self.old) (faults self.new) }
        ensures cause { IsErrOf result FileError.Failed → Rose (faults self.old) (faults self.new) }
        ensures failed { (faults self.new).count ≡ failed_after (faults self.old).count result }
        ensures tree { Changes (told self.old) (told self.new) (λ t. with_directories t (parts_of path.now)) result }
        ensures in_the_way { IsErrOf result FileError.Failed
            → IsRefused (may_fail self.old) (told self.old) (λ t. with_directories t (parts_of path.now)) }
        ensures may_fail { may_fail self.new ≡ may_fail self.old };

    /// Replaces the whole file, and makes the directories above it that are absent. `Failed` where a directory stands at
    /// the path, or a file above it.
    fn write(&mut self, path: &[u8], bytes: &[u8]) -> Result<(), FileError>
        ensures counts { Counts (faults self.old) (faults self.new) }
        ensures cause { IsErrOf result FileError.Failed → Rose (faults self.old) (faults self.new) }
        ensures failed { (faults self.new).count ≡ failed_after (faults self.old).count result }
        ensures tree { Changes (told self.old) (told self.new) (λ t. written t (parts_of path.now) bytes.now) result }
        ensures in_the_way { IsErrOf result FileError.Failed
            → IsRefused (may_fail self.old) (told self.old) (λ t. written t (parts_of path.now) bytes.now) }
        ensures may_fail { may_fail self.new ≡ may_fail self.old };

    /// The bytes of the file, or None where nothing stands at the path. `Failed` where a directory does, or a file above it.
    fn read(&mut self, path: &[u8]) -> Result<Option<Text>, FileError>
        ensures counts { Counts (faults self.old) (faults self.new) }
        ensures cause { IsErrOf result FileError.Failed → Rose (faults self.old) (faults self.new) }
        ensures failed { (faults self.new).count ≡ failed_after (faults self.old).count result }
        ensures tree { Asks (λ bytes. bytes) (told self.old) (told self.new) (λ t. read_in t (parts_of path.now)) result }
        ensures in_the_way { IsErrOf result FileError.Failed
            → IsRefused (may_fail self.old) (told self.old) (λ t. read_in t (parts_of path.now)) }
        ensures may_fail { may_fail self.new ≡ may_fail self.old };

    /// Moves a file to another path, also where a file stands there. `Failed` where no file stands at `from`, where a
    /// directory stands at `to`, and where none stands right above it.
    fn rename(&mut self, from: &[u8], to: &[u8]) -> Result<(), FileError>
        ensures counts { Counts (faults self.old) (faults self.new) }
        ensures cause { IsErrOf result FileError.Failed → Rose (faults self.old) (faults self.new) }
        ensures failed { (faults self.new).count ≡ failed_after (faults self.old).count result }
        ensures tree { Changes (told self.old) (told self.new) (λ t. renamed t (parts_of from.now) (parts_of to.now)) result }
        ensures in_the_way { IsErrOf result FileError.Failed
            → IsRefused (may_fail self.old) (told self.old) (λ t. renamed t (parts_of from.now) (parts_of to.now)) }
        ensures may_fail { may_fail self.new ≡ may_fail self.old };

    /// Removes the file. Takes no memory. `Failed` where no file stands at the path.
    fn remove_file(&mut self, path: &[u8]) -> Result<(), Failed>
        ensures counts { Counts (faults self.old) (faults self.new) }
        ensures cause { OnErr result (Rose (faults self.old) (faults self.new)) }
        ensures failed { (faults self.new).count ≡ risen_after (faults self.old).count result }
        ensures tree { Changes (told self.old) (told self.new) (λ t. without_file t (parts_of path.now)) result }
        ensures in_the_way { OnErr result (IsRefused (may_fail self.old) (told self.old) (λ t. without_file t (parts_of path.now))) }
        ensures may_fail { may_fail self.new ≡ may_fail self.old };

    /// Removes the directory and all that is in it: the root stays, and is empty. Takes no memory. `Failed` where no
    /// directory stands at the path.
    fn remove_dir_all(&mut self, path: &[u8]) -> Result<(), Failed>
        ensures counts { Counts (faults self.old) (faults self.new) }
        ensures cause { OnErr result (Rose (faults self.old) (faults self.new)) }
        ensures failed { (faults self.new).count ≡ risen_after (faults self.old).count result }
        ensures tree { Changes (told self.old) (told self.new) (λ t. without_all t (parts_of path.now)) result }
        ensures in_the_way { OnErr result (IsRefused (may_fail self.old) (told self.old) (λ t. without_all t (parts_of path.now))) }
        ensures may_fail { may_fail self.new ≡ may_fail self.old };
}
