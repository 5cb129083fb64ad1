//! What a scene sets up.

ghost use Rattle.std.specs.Prelude.{◌≡◌, [], ◌∷◌, map, IfOk};
ghost use Rattle.std.specs.FinMap as finmap;
ghost use Rattle.fetch_store.specs.Stores.{AreOf, add_all};
ghost use Rattle.fetch_remote.specs.Remotes.{nameless};
ghost use Rattle.fetch_remote.specs.Repositories.{state_of, setup_of};
ghost use Rattle.fetch_cli.specs.Opened as opened;
ghost use Rattle.fetch_cli.specs.Report as spec;

use fetch_check::make_unlogged;
use fetch_config::File;
use fetch_refs::{Change, LogChange, PreviousValue, RefEdit, RefError, RefLog, Refs, Signature};
use fetch_remote::{FetchOptions, OpenOptions, Parts, Remote, Repository, ref_map};
use fetch_scene::{Local, Reference, RemotePart, Scene, SceneOptions};
use fetch_specs::RefSpec;
use fetch_store::{Kind, List, NoMemory, Object, ObjectId, Store, Text};
use fetch_update::Worktree;
use std::alloc::Global;

/// A repository and a remote, as a scene says; and how it is to be fetched, what is checked out, and what the peer says.
// Not copied: it is set up of a scene, for one fetch.
#[derive(Drop)]
pub struct FetchCase {
    /// The repository that fetches.
    pub repo: Repository,
    /// The remote that is fetched from.
    pub remote: Remote,
    /// How it is fetched.
    pub options: FetchOptions,
    /// Where branches are checked out.
    pub worktrees: List<Worktree>,
    /// What the peer says, piece by piece.
    pub pieces: List<Text>,
}

/// Who writes the lines of reflogs.
#[tactic(auto, unfolding(crate::specs::Report::committer))]
fn committer(alloc: Global) -> Result<Signature, NoMemory>
    ensures { IfOk result (λ signature. signature ≡ spec.committer) }
{
    Ok(Signature {
        name: Text::new(alloc, b"fetch")?,
        email: Text::new(alloc, b"fetch@localhost")?,
        seconds: 0,
        offset_minutes: 0,
    })
}

/// The edit that puts a reference at its name, and isn't logged.
fn edit_of(alloc: Global, reference: &Reference) -> Result<RefEdit, NoMemory>
    ensures { IfOk result (λ edit. edit ≡ opened.edit_of reference.now) }
{
    let log = LogChange {
        mode: RefLog::AndReference,
        force_create_reflog: false,
        message: Text::new(alloc, b"")?,
    };
    Ok(RefEdit {
        change: Change::Update {
            log,
            expected: PreviousValue::Any,
            new: reference.target.try_clone()?,
        },
        name: reference.name.try_clone()?,
    })
}

fn edits_of(alloc: Global, references: &[Reference]) -> Result<Vec<RefEdit>, NoMemory>
    ensures { IfOk result (λ edits. edits.items ≡ map opened.edit_of references.now) }
{
    let mut edits = Vec::new(alloc);
    for reference in references {
        edits.push(edit_of(alloc, reference)?)?;
    }
    Ok(edits)
}

/// The references, without reflogs.
fn refs_of(
    alloc: Global,
    hash: Kind,
    references: &[Reference],
    committer: &Signature,
) -> Result<Refs, RefError>
    ensures { IfOk result (λ refs. refs ≡ record {
      hash = hash;
      names = spec.with_references finmap.empty references.now;
      logs = finmap.empty;
      packed = finmap.empty;
    }) }
{
    let edits = edits_of(alloc, references)?;
    let mut refs = Refs::new(alloc, hash);
    make_unlogged(&mut refs, &edits, committer)?;
    Ok(refs)
}

/// The objects. No two have one id, so that memory alone may refuse them.
fn store_of(alloc: Global, hash: Kind, objects: Vec<(ObjectId, Object)>) -> Result<Store, NoMemory>
    requires { AreOf hash objects.items }
    ensures hash { IfOk result (λ store. store.hash ≡ hash) }
    ensures objects { IfOk result (λ store. store.objects ≡ add_all finmap.empty objects.items) }
{
    let mut store = Store::new(alloc, hash);
    match store.add_all(objects) {
        Ok(()) => Ok(store),
        Err(_) => Err(NoMemory),
    }
}

/// A configuration without sections, from where the other comes. Memory alone may refuse it.
fn base_of(alloc: Global, config: &File) -> Result<File, NoMemory>
    ensures { IfOk result (λ base. base ≡ record { meta = config.now.meta; sections = [] }) }
{
    let meta = config.meta().try_clone()?;
    match File::new(alloc, meta) {
        Ok(base) => Ok(base),
        Err(_) => Err(NoMemory),
    }
}

fn options_of(options: SceneOptions, extra: List<RefSpec>) -> FetchOptions
    ensures { result ≡ spec.fetch_options options extra }
{
    let SceneOptions {
        dry_run,
        packed_only,
        filter,
        shallow,
        parameters,
        bound,
        message,
    } = options;
    FetchOptions {
        map: ref_map::Options {
            prefix_from_spec_as_filter_on_remote: filter,
            handshake_parameters: parameters,
            extra_refspecs: extra,
            max_reply_bytes: bound,
        },
        dry_run,
        write_packed_refs_only: packed_only,
        reflog_message: message,
        shallow,
    }
}

/// The remote of a scene, with its one address, and how it is fetched from.
pub fn open_remote(alloc: Global, remote: RemotePart) -> Result<(Remote, FetchOptions), NoMemory>
    ensures remote { IfOk result (λ x. x.0 ≡ nameless (remote.address ∷ []) remote.specs remote.tags) }
    ensures options { IfOk result (λ x. x.1 ≡ spec.fetch_options remote.options remote.extra) }
{
    let mut urls = List::new(alloc);
    urls.push(remote.address)?;
    Ok((
        Remote::new(urls, remote.specs, remote.tags),
        options_of(remote.options, remote.extra),
    ))
}

/// The repository of these parts, and its work trees. There are no overrides, so that memory alone may refuse it.
fn open(
    alloc: Global,
    store: Store,
    refs: Refs,
    committer: Signature,
    local: Local,
) -> Result<(Repository, List<Worktree>), NoMemory>
    requires refs { store.hash ≡ refs.hash }
    requires hash { store.hash ≡ local.head.hash }
    requires committer { committer ≡ spec.committer }
    ensures state { IfOk result (λ x. state_of x.0
        ≡ record { hash = store.hash; objects = store.objects; border = local.border; refs = refs }) }
    ensures setup { IfOk result (λ x. setup_of x.0 ≡ spec.setup_in local.head local.config) }
    ensures worktrees { IfOk result (λ x. x.1 ≡ local.worktrees) }
{
    let Local {
        head,
        border,
        config,
        worktrees,
        ..
    } = local;
    let base = base_of(alloc, &config)?;
    let options = OpenOptions {
        lenient_config: head.lenient,
        api_config_overrides: List::new(alloc),
        base,
    };
    let parts = Parts {
        store,
        refs,
        border,
        local: config,
        committer,
        git_dir: head.git_dir,
        workdir: head.workdir,
        options,
    };
    match Repository::from_parts(alloc, parts) {
        Ok(repo) => Ok((repo, worktrees)),
        Err(_) => Err(NoMemory),
    }
}

/// The repository that a scene says, and its work trees. The objects are of its hash, as those that are read are.
pub fn open_local(
    alloc: Global,
    local: Local,
    objects: List<(ObjectId, Object)>,
) -> Result<(Repository, List<Worktree>), NoMemory>
    requires { AreOf local.head.hash objects }
    ensures state { IfOk result (λ x. state_of x.0 ≡ spec.found_in local.head.hash objects local.border local.refs) }
    ensures setup { IfOk result (λ x. setup_of x.0 ≡ spec.setup_in local.head local.config) }
    ensures worktrees { IfOk result (λ x. x.1 ≡ local.worktrees) }
{
    let committer = committer(alloc)?;
    let Ok(refs) = refs_of(alloc, local.head.hash, local.refs.as_slice(), &committer) else {
        return Err(NoMemory);
    };
    let store = store_of(alloc, local.head.hash, objects.into_vec())?;
    open(alloc, store, refs, committer, local)
}

/// Sets up what a scene says. Its objects are of its hash, as those that are read are.
pub fn open_scene(alloc: Global, scene: Scene) -> Result<FetchCase, NoMemory>
    requires { AreOf scene.hash scene.objects }
    ensures given { IfOk result (λ s. record { remote = s.remote; options = s.options; setup = setup_of s.repo } ≡ spec.given_of scene) }
    ensures found { IfOk result (λ s. state_of s.repo ≡ spec.found_of scene) }
    ensures worktrees { IfOk result (λ s. s.worktrees ≡ scene.worktrees) }
    ensures pieces { IfOk result (λ s. s.pieces ≡ scene.pieces) }
{
    let (local, objects, remote, pieces) = scene.into_parts();
    let (repo, worktrees) = open_local(alloc, local, objects)?;
    let (remote, options) = open_remote(alloc, remote)?;
    Ok(FetchCase {
        repo,
        remote,
        options,
        worktrees,
        pieces,
    })
}
