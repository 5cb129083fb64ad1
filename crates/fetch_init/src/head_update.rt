//! A repository's `HEAD` takes what a remote listed.

ghost use Rattle.std.specs.Prelude.{◌≡◌, ◌++◌, ◌∷◌, [], Ok, codes, IfOk, IfErr, IfSome, IsErrOf, OnOk, OnErr, Some};
ghost use Rattle.std.specs.Option.{option_copied};
ghost use Rattle.fetch_base.specs.Faults.{Rose, Counts};
ghost use Rattle.fetch_init.specs.HeadTargets as head_target_is;
ghost use Rattle.fetch_init.specs.HeadUpdates as spec;
ghost use Rattle.fetch_init.specs.declared.clone.fetch.Error.TheVariants as errors;
ghost use Rattle.fetch_config.specs.Print.{text_of};
ghost use Rattle.fetch_remote.specs.Repositories.{state_of, setup_of, resolved_of};

use crate::clone::fetch::Error;
use crate::head_target::{HeadError, HeadTarget, head_target_of};
use crate::init::opening::{config_path, head};
use crate::named_ref::RefNameError;
use fetch_config::File;
use fetch_create::following;
use fetch_refs::{Change, LogChange, PackedRefs, PreviousValue, RefEdit, RefLog, Target};
use fetch_remote::find::existing;
use fetch_remote::{Direction, Repository, Resolved};
use fetch_specs::{FullName, PartialName, RefSpec};
use fetch_store::{FileError, Files, NoMemory, ObjectId, Text};
use fetch_wire::RefMap;
use std::alloc::Global;

/// The file `config` as it is to be written, and what it puts into force.
#[derive(Drop)]
pub(crate) struct NewConfig {
    /// Where it stands.
    pub path: Text,
    /// What it says.
    pub text: Text,
    /// The local file of that text, resolved.
    pub resolved: Resolved,
}

/// `HEAD` takes a revision's commit, or else leads to the reference that a ref name means, or else takes what the remote's
/// `HEAD` says. A name that it leads to gets its id, and `HEAD` a line in its reflog. Where that name is a branch that the
/// saved remote's refspecs take, the local configuration gets a section for it, and the file `config` is written anew. All
/// memory but that of this write is taken before `HEAD` moves.
///
/// It has an effect, unlike the laws of other crates: after a later fetch it moves `HEAD` as a clone does.
// Many arguments: the public signature. A clone hands in what it was asked for.
pub fn update_head<F: Files>(
    alloc: Global,
    repo: &mut Repository,
    files: &mut F,
    map: &RefMap,
    message: &[u8],
    remote_name: &[u8],
    ref_name: Option<&PartialName>,
    revision: Option<&RefSpec>,
) -> Result<(), Error>
    ensures ok { OnOk result (spec.IsHeadUpdated (F.told files.old) (F.told files.new) repo.old repo.new map.now message.now remote_name.now
        (option_copied ref_name.entry) (option_copied revision.entry)) }
    ensures refused { IfErr result (spec.IsHeadRefusal (F.may_fail files.old) (F.told files.old) (F.told files.new) repo.old repo.new
        map.now message.now remote_name.now (option_copied ref_name.entry) (option_copied revision.entry)) }
    ensures io { IsErrOf result errors.SaveConfigIo → Rose (F.faults files.old) (F.faults files.new) }
    ensures counts { Counts (F.faults files.old) (F.faults files.new) }
    ensures may_fail { F.may_fail files.new ≡ F.may_fail files.old }
{
    let head_target = find_head_target(alloc, repo, map, ref_name, revision)?;
    let local = followed(alloc, repo, remote_name, &head_target)?;
    let new = made_ready(alloc, repo, local)?;
    turn(alloc, repo, message, head_target)?;
    save_if(repo, files, new)
}

/// What `HEAD` is to take.
pub fn find_head_target(
    alloc: Global,
    repo: &Repository,
    map: &RefMap,
    ref_name: Option<&PartialName>,
    revision: Option<&RefSpec>,
) -> Result<HeadTarget, Error>
    ensures ok { IfOk result (λ head_target. spec.head_target_of (state_of repo.now) map.now (option_copied ref_name.entry)
        (option_copied revision.entry) ≡ Ok head_target) }
    ensures refused { IfErr result (spec.LacksHeadTarget (state_of repo.now) map.now (option_copied ref_name.entry)
        (option_copied revision.entry)) }
{
    match head_target_of(alloc, map, repo.store(), ref_name, revision) {
        Ok(head_target) => Ok(head_target),
        Err(e) => Err(refusal_of(alloc, ref_name, revision, e)),
    }
}

/// How a refusal to aim is told.
pub(crate) fn refusal_of(
    alloc: Global,
    ref_name: Option<&PartialName>,
    revision: Option<&RefSpec>,
    e: HeadError,
) -> Error
    ensures { spec.IsToldAs (option_copied ref_name.entry) (option_copied revision.entry) e result }
{
    match e {
        HeadError::Name(RefNameError::Missing) => match copied(ref_name) {
            Some(wanted) => Error::RefNameMissing { wanted },
            None => Error::NoMemory,
        },
        HeadError::Name(RefNameError::Ambiguous { candidates }) => match copied(ref_name) {
            Some(wanted) => Error::RefNameAmbiguous { wanted, candidates },
            None => Error::NoMemory,
        },
        HeadError::Name(RefNameError::NoMemory) => Error::NoMemory,
        HeadError::InvalidHead { name } => Error::InvalidHeadRef {
            head_ref_name: name,
        },
        HeadError::Revision => match source_of(alloc, revision) {
            Ok(wanted) => Error::RevisionMissing { wanted },
            Err(_) => Error::NoMemory,
        },
        HeadError::Find { id } => Error::FindRevision { id },
        HeadError::Peel { id } => Error::PeelRevision { id },
        HeadError::NoMemory => Error::NoMemory,
    }
}

/// A copy of a name that is there, unless memory runs out.
fn copied(name: Option<&PartialName>) -> Option<PartialName>
    ensures { IfSome result (λ copy. option_copied name.entry ≡ Some copy) }
{
    match name {
        Some(name) => name.try_clone().ok(),
        None => None,
    }
}

/// The text that a revision is told with.
fn source_of(alloc: Global, revision: Option<&RefSpec>) -> Result<Text, NoMemory>
    ensures { IfOk result (λ text. text ≡ spec.source_of (option_copied revision.entry)) }
{
    let Some(revision) = revision else {
        return Text::new(alloc, b"");
    };
    match revision.source() {
        Some(source) => Text::new(alloc, source),
        None => Text::new(alloc, b""),
    }
}

/// The local file with the section of the branch that `HEAD` leads to, where it gets one.
fn followed(
    alloc: Global,
    repo: &Repository,
    remote_name: &[u8],
    head_target: &HeadTarget,
) -> Result<Option<File>, NoMemory>
    ensures { IfOk result (λ found. found ≡ spec.followed (setup_of repo.now) remote_name.now head_target.now) }
{
    let HeadTarget::Name { name, .. } = head_target else {
        return Ok(None);
    };
    let kind = repo.object_hash();
    match repo.find_remote(alloc, remote_name) {
        Ok(remote) => following(
            alloc,
            repo.local(),
            remote_name,
            remote.refspecs(Direction::Fetch),
            kind,
            name,
        ),
        Err(existing::Error::NoMemory) => Err(NoMemory),
        Err(_) => following(alloc, repo.local(), remote_name, &[], kind, name),
    }
}

/// The edits by which `HEAD` takes what is aimed at.
fn edits_of(
    alloc: Global,
    message: &[u8],
    head_target: HeadTarget,
) -> Result<Vec<RefEdit>, NoMemory>
    ensures { IfOk result (λ edits. edits.items ≡ head_target_is.edits_of message.now head_target) }
{
    match head_target {
        HeadTarget::Nothing => Ok(Vec::new(alloc)),
        HeadTarget::Id(id) => of_head(alloc, message, Target::Object(id)),
        HeadTarget::Name { name, id } => {
            let mut edits = of_head(alloc, message, Target::Symbolic(name.try_clone()?))?;
            push_named(alloc, &mut edits, message, name, id)?;
            Ok(edits)
        }
    }
}

/// The edit by which `HEAD` takes a value.
fn of_head(alloc: Global, message: &[u8], new: Target) -> Result<Vec<RefEdit>, NoMemory>
    ensures { IfOk result (λ edits. edits.items ≡ head_target_is.update message.now (codes "HEAD") new ∷ []) }
{
    let mut edits = Vec::new(alloc);
    edits.push(update(alloc, RefLog::AndReference, message, head(alloc)?, new)?)?;
    Ok(edits)
}

/// Where there is an id, the name gets it, and `HEAD` a line in its reflog.
fn push_named(
    alloc: Global,
    edits: &mut Vec<RefEdit>,
    message: &[u8],
    name: FullName,
    id: Option<ObjectId>,
) -> Result<(), NoMemory>
    ensures { OnOk result (edits.new.items ≡ edits.old.items ++ head_target_is.named_edits message.now name id) }
{
    let Some(id) = id else {
        return Ok(());
    };
    edits.push(update(
        alloc,
        RefLog::AndReference,
        message,
        name,
        Target::Object(id),
    )?)?;
    edits.push(update(
        alloc,
        RefLog::Only,
        message,
        head(alloc)?,
        Target::Object(id),
    )?)?;
    Ok(())
}

fn update(
    alloc: Global,
    mode: RefLog,
    message: &[u8],
    name: FullName,
    new: Target,
) -> Result<RefEdit, NoMemory>
    ensures { IfOk result (λ edit. edit ≡ head_target_is.update_of mode message.now name new) }
{
    Ok(RefEdit {
        change: Change::Update {
            log: LogChange {
                mode,
                force_create_reflog: false,
                message: Text::new(alloc, message)?,
            },
            expected: PreviousValue::Any,
            new,
        },
        name,
    })
}

/// Lets `HEAD` take what is aimed at. References are written packed.
fn turn(
    alloc: Global,
    repo: &mut Repository,
    message: &[u8],
    head_target: HeadTarget,
) -> Result<(), NoMemory>
    ensures state { OnOk result (state_of repo.new ≡ spec.moved (setup_of repo.old) (state_of repo.old) message.now head_target) }
    ensures err { OnErr result (state_of repo.new ≡ state_of repo.old) }
    ensures setup { setup_of repo.new ≡ setup_of repo.old }
{
    let edits = edits_of(alloc, message, head_target)?;
    let committer = repo.settings().committer.try_clone()?;
    match repo.edit_refs(edits.as_slice(), &committer, PackedRefs::Only) {
        Ok(()) => Ok(()),
        Err(_) => Err(NoMemory),
    }
}

/// The local file made ready to be written, where there is one.
fn made_ready(
    alloc: Global,
    repo: &Repository,
    local: Option<File>,
) -> Result<Option<NewConfig>, NoMemory>
    ensures local { IfOk result (λ new. spec.local_of new ≡ local) }
    ensures ready { IfOk result (spec.IsReadyIn (setup_of repo.now)) }
{
    match local {
        Some(local) => Ok(Some(new_config(alloc, repo, local)?)),
        None => Ok(None),
    }
}

fn new_config(alloc: Global, repo: &Repository, local: File) -> Result<NewConfig, NoMemory>
    ensures local { IfOk result (λ new. new.resolved.file ≡ local) }
    ensures ready { IfOk result (λ new. spec.IsReadyIn (setup_of repo.now) (Some new)) }
{
    let resolved = resolve(alloc, repo, local)?;
    let path = config_path(alloc, repo.git_dir())?;
    let text = whole_text(alloc, &resolved.file)?;
    Ok(NewConfig {
        path,
        text,
        resolved,
    })
}

/// What a file is resolved to in place of the local one.
fn resolve(alloc: Global, repo: &Repository, local: File) -> Result<Resolved, NoMemory>
    ensures file { IfOk result (λ r. r.file ≡ local) }
    ensures config { IfOk result (λ r. resolved_of (setup_of repo.now).base r.file (setup_of repo.now).overrides ≡ Some r.config) }
{
    match repo.resolve_local(alloc, local) {
        Ok(resolved) => Ok(resolved),
        Err(_) => Err(NoMemory),
    }
}

/// The text of all sections of a file.
fn whole_text(alloc: Global, file: &File) -> Result<Text, NoMemory>
    ensures { IfOk result (λ text. text ≡ text_of file.now.sections) }
{
    match file.write(alloc, None) {
        Ok(text) => Ok(text),
        Err(_) => Err(NoMemory),
    }
}

/// Writes the file `config` and puts it into force, where there is one.
fn save_if<F: Files>(
    repo: &mut Repository,
    files: &mut F,
    new: Option<NewConfig>,
) -> Result<(), Error>
    requires { spec.IsReadyIn (setup_of repo.old) new }
    ensures state { state_of repo.new ≡ state_of repo.old }
    ensures ok { OnOk result (spec.FollowsIf (setup_of repo.old) (setup_of repo.new) (F.told files.old) (F.told files.new)
        (spec.local_of new)) }
    ensures refused { IfErr result (spec.IsUnsaved (F.may_fail files.old) (F.told files.old) (setup_of repo.old).settings.git_dir
        (spec.local_of new)) }
    ensures err { OnErr result (setup_of repo.new ≡ setup_of repo.old) }
    ensures tree { OnErr result (F.told files.new ≡ F.told files.old) }
    ensures io { IsErrOf result errors.SaveConfigIo → Rose (F.faults files.old) (F.faults files.new) }
    ensures counts { Counts (F.faults files.old) (F.faults files.new) }
    ensures may_fail { F.may_fail files.new ≡ F.may_fail files.old }
{
    match new {
        Some(new) => save_config(repo, files, new),
        None => Ok(()),
    }
}

/// Writes the file `config`, and puts it into force. Memory is taken by the write alone.
fn save_config<F: Files>(repo: &mut Repository, files: &mut F, new: NewConfig) -> Result<(), Error>
    requires { spec.IsReadyIn (setup_of repo.old) (Some new) }
    ensures state { state_of repo.new ≡ state_of repo.old }
    ensures ok { OnOk result (spec.FollowsIf (setup_of repo.old) (setup_of repo.new) (F.told files.old) (F.told files.new)
        (Some new.resolved.file)) }
    ensures refused { IfErr result (spec.IsUnsaved (F.may_fail files.old) (F.told files.old) (setup_of repo.old).settings.git_dir
        (Some new.resolved.file)) }
    ensures err { OnErr result (setup_of repo.new ≡ setup_of repo.old) }
    ensures tree { OnErr result (F.told files.new ≡ F.told files.old) }
    ensures io { IsErrOf result errors.SaveConfigIo → Rose (F.faults files.old) (F.faults files.new) }
    ensures counts { Counts (F.faults files.old) (F.faults files.new) }
    ensures may_fail { F.may_fail files.new ≡ F.may_fail files.old }
{
    let NewConfig {
        path,
        text,
        resolved,
    } = new;
    match files.write(path.as_bytes(), text.as_bytes()) {
        Ok(()) => {
            repo.put_local(resolved);
            Ok(())
        }
        Err(FileError::Failed) => Err(Error::SaveConfigIo),
        Err(FileError::NoMemory) => Err(Error::NoMemory),
    }
}

/// Writes the whole local file into the file `config` in the directory. After an error it is as before.
pub fn write_local<F: Files>(
    alloc: Global,
    files: &mut F,
    git_dir: &[u8],
    local: &File,
) -> Result<(), Error>
    ensures written { OnOk result (spec.IsWritten (F.told files.old) git_dir.now local.now (F.told files.new)) }
    ensures refused { IfErr result (spec.IsUnsaved (F.may_fail files.old) (F.told files.old) git_dir.now (Some local.now)) }
    ensures tree { OnErr result (F.told files.new ≡ F.told files.old) }
    ensures io { IsErrOf result errors.SaveConfigIo → Rose (F.faults files.old) (F.faults files.new) }
    ensures counts { Counts (F.faults files.old) (F.faults files.new) }
    ensures may_fail { F.may_fail files.new ≡ F.may_fail files.old }
{
    let path = config_path(alloc, git_dir)?;
    let Ok(text) = local.write(alloc, None) else {
        return Err(Error::NoMemory);
    };
    match files.write(path.as_bytes(), text.as_bytes()) {
        Ok(()) => Ok(()),
        Err(FileError::Failed) => Err(Error::SaveConfigIo),
        Err(FileError::NoMemory) => Err(Error::NoMemory),
    }
}
