//! Steps of a creation are taken.

ghost use Rattle.std.specs.Prelude.{◌≡◌, Some, IfOk, IfErr, IfSome, OnOk, IsTrue, option_map};
ghost use Rattle.fetch_base.specs.Faults.{Rose, Counts};
ghost use Rattle.fetch_files.specs.Paths.{parts_of};
ghost use Rattle.fetch_files.specs.Trees.{kind_in, with_directories};
ghost use Rattle.fetch_create.specs.Creation.{Makes, Reaches, IsStopped, IsStopAt, IsOpenRefusal, listed_in, is_fault};
ghost use Rattle.fetch_create.specs.declared.create.step.Step.TheVariants as steps;

use crate::create::Error;
use crate::create::step::Step;
use fetch_store::{FileError, Files, Node, Text};

/// Takes the steps in order, up to the first that is refused.
pub(crate) fn perform<F: Files>(files: &mut F, plan: &[Step]) -> Result<(), Error>
    ensures done { OnOk result (Reaches (F.told files.old) plan.now (F.told files.new)) }
    ensures refused { IfErr result (IsStopped (F.may_fail files.old) (F.told files.old) plan.now (F.told files.new)) }
    ensures cause { IfErr result (λ e. IsTrue (is_fault e) → Rose (F.faults files.old) (F.faults files.new)) }
    ensures counts { Counts (F.faults files.old) (F.faults files.new) }
    ensures may_fail { F.may_fail files.new ≡ F.may_fail files.old }
{
    for step in plan {
        take_step(files, step)?;
    }
    Ok(())
}

fn take_step<F: Files>(files: &mut F, step: &Step) -> Result<(), Error>
    ensures done { OnOk result (Makes (F.told files.old) step.now (F.told files.new)) }
    ensures refused { IfErr result (IsStopAt (F.may_fail files.old) (F.told files.old) step.now (F.told files.new)) }
    ensures cause { IfErr result (λ e. IsTrue (is_fault e) → Rose (F.faults files.old) (F.faults files.new)) }
    ensures counts { Counts (F.faults files.old) (F.faults files.new) }
    ensures may_fail { F.may_fail files.new ≡ F.may_fail files.old }
{
    match step {
        Step::Clear { path } => clear(files, path),
        Step::Vacant { path } => refuse_directory(files, path),
        Step::Directory { path } => make_directory(files, path),
        Step::File { path, bytes } => write_file(files, path, bytes),
    }
}

/// Tests that the directory has no entry, or makes it.
fn clear<F: Files>(files: &mut F, path: &Text) -> Result<(), Error>
    ensures done { OnOk result (Makes (F.told files.old) (steps.Clear path.now) (F.told files.new)) }
    ensures refused { IfErr result (IsStopAt (F.may_fail files.old) (F.told files.old) (steps.Clear path.now) (F.told files.new)) }
    ensures cause { IfErr result (λ e. IsTrue (is_fault e) → Rose (F.faults files.old) (F.faults files.new)) }
    ensures counts { Counts (F.faults files.old) (F.faults files.new) }
    ensures may_fail { F.may_fail files.new ≡ F.may_fail files.old }
{
    match listed(files, path)? {
        None => open_absent(files, path),
        Some(names) => match names.as_slice() {
            [] => Ok(()),
            [_, ..] => Err(Error::DirectoryNotEmpty {
                path: path.try_clone()?,
            }),
        },
    }
}

/// Makes a directory that is to be opened, and is absent.
fn open_absent<F: Files>(files: &mut F, path: &Text) -> Result<(), Error>
    ensures done { OnOk result (Makes (F.told files.old) (steps.Directory path.now) (F.told files.new)) }
    ensures refused { IfErr result (IsOpenRefusal (F.may_fail files.old) (F.told files.old) path.now
        (λ t. with_directories t (parts_of path.now)) (F.told files.new)) }
    ensures cause { IfErr result (λ e. IsTrue (is_fault e) → Rose (F.faults files.old) (F.faults files.new)) }
    ensures counts { Counts (F.faults files.old) (F.faults files.new) }
    ensures may_fail { F.may_fail files.new ≡ F.may_fail files.old }
{
    match files.make_dir_all(path.as_bytes()) {
        Ok(()) => Ok(()),
        Err(FileError::Failed) => Err(Error::IoOpen {
            path: path.try_clone()?,
        }),
        Err(FileError::NoMemory) => Err(Error::NoMemory),
    }
}

/// What is listed at the path. None where nothing stands there.
pub fn listed<F: Files>(files: &mut F, path: &Text) -> Result<Option<Vec<Text>>, Error>
    ensures tree { IfOk result (λ found. F.told files.new ≡ F.told files.old) }
    ensures found { IfOk result (λ found. IfSome (F.told files.old)
        (λ t. listed_in t path.now ≡ Some (option_map (λ names. names.items) found))) }
    ensures refused { IfErr result (IsOpenRefusal (F.may_fail files.old) (F.told files.old) path.now (λ t. listed_in t path.now)
        (F.told files.new)) }
    ensures quiet { OnOk result ((F.faults files.new).count ≡ (F.faults files.old).count) }
    ensures cause { IfErr result (λ e. IsTrue (is_fault e) → Rose (F.faults files.old) (F.faults files.new)) }
    ensures counts { Counts (F.faults files.old) (F.faults files.new) }
    ensures may_fail { F.may_fail files.new ≡ F.may_fail files.old }
{
    if kind_at(files, path)?.is_none() {
        return Ok(None);
    }
    match files.list(path.as_bytes()) {
        Ok(names) => Ok(Some(names)),
        Err(FileError::Failed) => Err(Error::IoOpen {
            path: path.try_clone()?,
        }),
        Err(FileError::NoMemory) => Err(Error::NoMemory),
    }
}

/// What stands at the path, if anything does.
fn kind_at<F: Files>(files: &mut F, path: &Text) -> Result<Option<Node>, Error>
    ensures tree { IfOk result (λ found. F.told files.new ≡ F.told files.old) }
    ensures found { IfOk result (λ found. IfSome (F.told files.old) (λ t. kind_in t (parts_of path.now) ≡ Some found)) }
    ensures refused { IfErr result (IsOpenRefusal (F.may_fail files.old) (F.told files.old) path.now (λ t. kind_in t (parts_of path.now))
        (F.told files.new)) }
    ensures quiet { OnOk result ((F.faults files.new).count ≡ (F.faults files.old).count) }
    ensures cause { IfErr result (λ e. IsTrue (is_fault e) → Rose (F.faults files.old) (F.faults files.new)) }
    ensures counts { Counts (F.faults files.old) (F.faults files.new) }
    ensures may_fail { F.may_fail files.new ≡ F.may_fail files.old }
{
    match files.kind_of(path.as_bytes()) {
        Ok(found) => Ok(found),
        Err(FileError::Failed) => Err(Error::IoOpen {
            path: path.try_clone()?,
        }),
        Err(FileError::NoMemory) => Err(Error::NoMemory),
    }
}

/// Tests that no directory stands at the path.
fn refuse_directory<F: Files>(files: &mut F, path: &Text) -> Result<(), Error>
    ensures done { OnOk result (Makes (F.told files.old) (steps.Vacant path.now) (F.told files.new)) }
    ensures refused { IfErr result (IsStopAt (F.may_fail files.old) (F.told files.old) (steps.Vacant path.now) (F.told files.new)) }
    ensures cause { IfErr result (λ e. IsTrue (is_fault e) → Rose (F.faults files.old) (F.faults files.new)) }
    ensures counts { Counts (F.faults files.old) (F.faults files.new) }
    ensures may_fail { F.may_fail files.new ≡ F.may_fail files.old }
{
    match kind_at(files, path)? {
        None => Ok(()),
        Some(Node::File) => Ok(()),
        Some(Node::Directory) => Err(Error::DirectoryExists {
            path: path.try_clone()?,
        }),
    }
}

fn make_directory<F: Files>(files: &mut F, path: &Text) -> Result<(), Error>
    ensures done { OnOk result (Makes (F.told files.old) (steps.Directory path.now) (F.told files.new)) }
    ensures refused { IfErr result (IsStopAt (F.may_fail files.old) (F.told files.old) (steps.Directory path.now) (F.told files.new)) }
    ensures cause { IfErr result (λ e. IsTrue (is_fault e) → Rose (F.faults files.old) (F.faults files.new)) }
    ensures counts { Counts (F.faults files.old) (F.faults files.new) }
    ensures may_fail { F.may_fail files.new ≡ F.may_fail files.old }
{
    match files.make_dir_all(path.as_bytes()) {
        Ok(()) => Ok(()),
        Err(FileError::Failed) => Err(Error::CreateDirectory {
            path: path.try_clone()?,
        }),
        Err(FileError::NoMemory) => Err(Error::NoMemory),
    }
}

fn write_file<F: Files>(files: &mut F, path: &Text, bytes: &Text) -> Result<(), Error>
    ensures done { OnOk result (Makes (F.told files.old) (steps.File path.now bytes.now) (F.told files.new)) }
    ensures refused { IfErr result (IsStopAt (F.may_fail files.old) (F.told files.old) (steps.File path.now bytes.now) (F.told files.new)) }
    ensures cause { IfErr result (λ e. IsTrue (is_fault e) → Rose (F.faults files.old) (F.faults files.new)) }
    ensures counts { Counts (F.faults files.old) (F.faults files.new) }
    ensures may_fail { F.may_fail files.new ≡ F.may_fail files.old }
{
    match files.write(path.as_bytes(), bytes.as_bytes()) {
        Ok(()) => Ok(()),
        Err(FileError::Failed) => Err(Error::IoWrite {
            path: path.try_clone()?,
        }),
        Err(FileError::NoMemory) => Err(Error::NoMemory),
    }
}
