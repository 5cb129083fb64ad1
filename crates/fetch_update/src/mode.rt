//! What an update does to its reference.

ghost use Rattle.std.specs.Prelude.{◌≡◌, [], ◌++◌, if◌then◌else◌, IfOk};
ghost use Rattle.std.specs.Fmt.{WritesOnOk, comma_space};
ghost use Rattle.hex.specs.Hex.{encode_lower};
ghost use Rattle.fetch_update.specs.Modes.{not_found_text, checked_out_text, directories_text};

use fetch_store::{List, NoMemory, ObjectId, Text};
use std::{fmt, str};

/// What an update does to its reference, or why it does nothing.
#[derive(Debug, Drop, PartialEq, Eq)]
pub enum Mode {
    /// The reference has the value already.
    NoChangeNeeded,
    /// The new commit has the old one among its ancestors, by a dated path.
    FastForward,
    /// The value is replaced by force, since the refspec has a plus.
    Forced,
    /// The reference isn't there yet.
    New,
    /// A tag that the remote didn't send, since nothing that is fetched leads to it.
    ImplicitTagNotSentByRemote,
    /// The object that the remote names isn't stored.
    RejectedSourceObjectNotFound { id: ObjectId },
    /// The tag is there with another value, and the refspec has no plus.
    RejectedTagUpdate,
    /// It is no fast-forward, and the refspec has no plus.
    RejectedNonFastForward,
    /// The reference is there, and that of the remote leads to none.
    RejectedToReplaceWithUnborn,
    /// The branch is checked out in these directories.
    RejectedCurrentlyCheckedOut { worktree_dirs: List<Text> },
}

/// How the kind of a reference changes.
#[derive(Clone, Copy, Debug, PartialEq, Eq, PartialOrd, Ord, Hash)]
pub enum TypeChange {
    /// It named an object, and names a reference now.
    DirectToSymbolic,
    /// It named a reference, and names an object now.
    SymbolicToDirect,
}

impl Mode {
    /// An equal mode.
    pub fn try_clone(&self) -> Result<Mode, NoMemory>
        ensures { IfOk result (λ copy. copy ≡ self.now) }
    {
        match self {
            Mode::NoChangeNeeded => Ok(Mode::NoChangeNeeded),
            Mode::FastForward => Ok(Mode::FastForward),
            Mode::Forced => Ok(Mode::Forced),
            Mode::New => Ok(Mode::New),
            Mode::ImplicitTagNotSentByRemote => Ok(Mode::ImplicitTagNotSentByRemote),
            Mode::RejectedSourceObjectNotFound { id } => {
                Ok(Mode::RejectedSourceObjectNotFound { id: *id })
            }
            Mode::RejectedTagUpdate => Ok(Mode::RejectedTagUpdate),
            Mode::RejectedNonFastForward => Ok(Mode::RejectedNonFastForward),
            Mode::RejectedToReplaceWithUnborn => Ok(Mode::RejectedToReplaceWithUnborn),
            Mode::RejectedCurrentlyCheckedOut { worktree_dirs } => {
                Ok(Mode::RejectedCurrentlyCheckedOut {
                    worktree_dirs: worktree_dirs.try_clone_with(Text::try_clone)?,
                })
            }
        }
    }
}

impl fmt::Display for Mode {
    ghost use Rattle.std.specs.Prelude.{Some};
    ghost use Rattle.fetch_update.specs.Modes.{mode_text};

    ghost output = { λ mode. Some (mode_text mode) };

    fn fmt<W: fmt::Write>(&self, f: &mut fmt::Formatter<W>) -> fmt::Result {
        match self {
            Mode::NoChangeNeeded => f.write_str("up-to-date"),
            Mode::FastForward => f.write_str("fast-forward"),
            Mode::Forced => f.write_str("forced-update"),
            Mode::New => f.write_str("new"),
            Mode::ImplicitTagNotSentByRemote => f.write_str("unrelated tag on remote"),
            Mode::RejectedSourceObjectNotFound { id } => write_not_found(f, id),
            Mode::RejectedTagUpdate => f.write_str("rejected (would overwrite existing tag)"),
            Mode::RejectedNonFastForward => f.write_str("rejected (non-fast-forward)"),
            Mode::RejectedToReplaceWithUnborn => {
                f.write_str("rejected (refusing to overwrite existing with unborn ref)")
            }
            Mode::RejectedCurrentlyCheckedOut { worktree_dirs } => {
                write_checked_out(f, worktree_dirs.as_slice())
            }
        }
    }
}

fn write_not_found<W: fmt::Write>(f: &mut fmt::Formatter<W>, id: &ObjectId) -> fmt::Result
    ensures { WritesOnOk W.write_str_gives f.old result (not_found_text id.now) f.new }
{
    f.write_str("rejected (")?;
    write_hex(f, id.as_bytes())?;
    f.write_str(" not found)")
}

/// Two digits for each byte.
fn write_hex<W: fmt::Write>(f: &mut fmt::Formatter<W>, bytes: &[u8]) -> fmt::Result
    ensures { WritesOnOk W.write_str_gives f.old result (encode_lower bytes.now) f.new }
{
    'bytes: for byte in bytes {
        write!(f, "{byte:02x}")?;
    }
    Ok(())
}

fn write_checked_out<W: fmt::Write>(f: &mut fmt::Formatter<W>, dirs: &[Text]) -> fmt::Result
    ensures { WritesOnOk W.write_str_gives f.old result (checked_out_text dirs.now) f.new }
{
    f.write_str("rejected (cannot write into checked-out branch at \"")?;
    write_directories(f, dirs)?;
    f.write_str("\")")
}

/// Those directories that are UTF-8, with a comma between them.
fn write_directories<W: fmt::Write>(f: &mut fmt::Formatter<W>, dirs: &[Text]) -> fmt::Result
    ensures { WritesOnOk W.write_str_gives f.old result (directories_text dirs.now) f.new }
{
    let mut is_first = true;
    'dirs: for dir in dirs {
        if let Ok(text) = str::from_utf8(dir.as_bytes()) {
            write_directory(f, is_first, text)?;
            is_first = false;
        }
    }
    Ok(())
}

/// A directory, and before it a comma unless it is the first.
fn write_directory<W: fmt::Write>(
    f: &mut fmt::Formatter<W>,
    is_first: bool,
    dir: &str,
) -> fmt::Result
    ensures { WritesOnOk W.write_str_gives f.old result ((if is_first then [] else comma_space) ++ dir.now) f.new }
{
    if !is_first {
        f.write_str(", ")?;
    }
    f.write_str(dir)
}
