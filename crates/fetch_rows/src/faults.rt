//! Fetches in which something fails, each made by one call and by the calls for its steps, and what is told of them.

ghost use Rattle.std.specs.Prelude.{IfOk, IfSome};
ghost use Rattle.fetch_store.specs.Stores.{AreOf};

mod failing;
mod fetching;
mod reading;
mod saying;
mod storing;

use self::failing::failing_of;
use self::fetching::Fetch;
use self::reading::{Fault, fault_of};
use self::saying::said;
use self::storing::{objects_of, storing};
use fetch_cli::{
    Scene, SceneFault, append_keep, append_refused, append_state, append_token, open_scene,
    read_scene,
};
use fetch_remote::{FetchError, FetchOptions, Outcome};
use fetch_store::{Files, MemoryFiles, NoMemory, Text, after};
use fetch_wire::line_in;
use rows::{Row, lines, say, say_number};
use std::alloc::Global;
use std::thread::Threads;

/// Where keep files stand.
const PACKS: &[u8] = b"/w/.git/objects/pack";

/// Whether a fetch is made by one call, or by the calls for its steps.
#[derive(Clone, Copy)]
enum Way {
    AtOnce,
    InSteps,
}

fn append_refusal(out: &mut Vec<u8>, refusal: &FetchError) -> Result<(), NoMemory> {
    let mut token = Vec::new(*out.allocator());
    append_token(&mut token, refusal)?;
    append_refused(out, &token)
}

fn append_answer(out: &mut Vec<u8>, answer: &Result<Outcome, FetchError>) -> Result<(), NoMemory> {
    match answer {
        Ok(_) => say(out, &[b"ok"]),
        Err(refusal) => append_refusal(out, refusal),
    }
}

/// What stands after the first line.
fn after_line(bytes: &[u8]) -> Option<&[u8]> {
    match line_in(usize::MAX, 0, bytes) {
        Ok((_, length)) => bytes.get(length..),
        Err(_) => None,
    }
}

/// How many lines these bytes are.
fn lines_in(bytes: &[u8]) -> usize {
    let mut rest = bytes;
    let mut lines = 0usize;
    for _ in 0..bytes.len() {
        let Some(behind) = after_line(rest) else {
            break;
        };
        rest = behind;
        lines = lines.saturating_add(1);
    }
    lines
}

/// The names of the keep files. Listing them may be the call that is to fail, so it is tried twice.
fn keeps(alloc: Global, files: &mut MemoryFiles) -> Vec<Text> {
    for _ in 0..2 {
        if let Ok(names) = files.list(PACKS) {
            return names;
        }
    }
    Vec::new(alloc)
}

fn append_keeps(out: &mut Vec<u8>, files: &mut MemoryFiles) -> Result<(), NoMemory> {
    for name in &keeps(*out.allocator(), files) {
        append_keep(out, name.as_bytes())?;
    }
    Ok(())
}

/// What a fetch answered, what its peer heard and told, and the repository and the files that it left.
fn append_fetched(
    out: &mut Vec<u8>,
    answer: &Result<Outcome, FetchError>,
    fetch: &mut Fetch,
) -> Result<(), NoMemory> {
    append_answer(out, answer)?;
    say_number(out, b"heard", lines_in(fetch.peer.heard()))?;
    out.extend_from_slice(&fetch.told.lines)?;
    append_state(out, &fetch.repo)?;
    append_keeps(out, &mut fetch.files)
}

/// Fetches in this way, and puts down what came of it.
fn append_fetch(
    rt: &(impl Threads + Sync),
    alloc: Global,
    way: Way,
    fetch: (Fetch, FetchOptions),
    out: &mut Vec<u8>,
) -> Result<(), NoMemory> {
    let (mut fetch, options) = fetch;
    let answer = match way {
        Way::AtOnce => fetch.at_once(rt, alloc, options),
        Way::InSteps => fetch.in_steps(rt, alloc, options),
    };
    append_fetched(out, &answer, &mut fetch)
}

/// What is fetched.
#[derive(Clone, Copy)]
struct Given<'a> {
    /// The scene.
    scene: &'a [u8],
    /// The id and the text of an object that the repository stores in the place of what the scene says, if any.
    stored: &'a [u8],
}

/// The scene that is given. None where the bytes are none.
fn scene_of(
    rt: &(impl Threads + Sync),
    alloc: Global,
    given: &Given<'_>,
) -> Result<Option<Scene>, NoMemory>
    ensures { IfOk result (λ found. IfSome found (λ scene. AreOf scene.hash scene.objects)) }
{
    let objects = objects_of(alloc, given.stored)?;
    match read_scene(rt, alloc, given.scene) {
        Ok(scene) => Ok(Some(storing(scene, objects))),
        Err(SceneFault::Malformed { .. }) => Ok(None),
        Err(SceneFault::NoMemory) => Err(NoMemory),
    }
}

/// The fetch that a scene says, in which something fails.
fn fetch_of(alloc: Global, scene: Scene, fault: &Fault) -> Result<(Fetch, FetchOptions), NoMemory>
    requires { AreOf scene.hash scene.objects }
{
    let failing = failing_of(alloc, fault)?;
    let pieces = said(alloc, scene.pieces.as_slice(), fault)?;
    Ok(Fetch::new(alloc, open_scene(alloc, scene)?, pieces, failing))
}

/// What a fetch in this way tells. None where the bytes are no scene.
fn told(
    rt: &(impl Threads + Sync),
    alloc: Global,
    given: &Given<'_>,
    fault: &Fault,
    way: Way,
) -> Result<Option<Vec<u8>>, NoMemory> {
    match scene_of(rt, alloc, given)? {
        Some(scene) => {
            let mut out = Vec::new(alloc);
            append_fetch(rt, alloc, way, fetch_of(alloc, scene, fault)?, &mut out)?;
            Ok(Some(out))
        }
        None => Ok(None),
    }
}

/// What the fetch at once tells, and where the fetch in steps tells something else, that.
fn append_both(out: &mut Vec<u8>, at_once: &[u8], in_steps: &[u8]) -> Result<(), NoMemory> {
    out.extend_from_slice(at_once)?;
    if in_steps != at_once {
        say(out, &[b"in steps"])?;
        out.extend_from_slice(in_steps)?;
    }
    Ok(())
}

/// Fetches once at once and once in steps, while what a line names fails, and puts down what came of it. Whether it names
/// something, and the scene is one.
fn tell_fault(
    rt: &(impl Threads + Sync),
    alloc: Global,
    given: &Given<'_>,
    line: &[u8],
    out: &mut Vec<u8>,
) -> Result<bool, NoMemory> {
    say(out, &[b"==", line])?;
    let Some(fault) = fault_of(line) else {
        return Ok(false);
    };
    let Some(at_once) = told(rt, alloc, given, &fault, Way::AtOnce)? else {
        return Ok(false);
    };
    let Some(in_steps) = told(rt, alloc, given, &fault, Way::InSteps)? else {
        return Ok(false);
    };
    append_both(out, &at_once, &in_steps)?;
    Ok(true)
}

/// Fetches what the scene of a row says, once for each line that names what fails. Whether each of them does.
pub(crate) fn tell_faults(
    rt: &(impl Threads + Sync),
    alloc: Global,
    row: &Row<'_>,
    out: &mut Vec<u8>,
) -> Result<bool, NoMemory> {
    let mut given = Given {
        scene: row.scene,
        stored: &[],
    };
    for line in &lines(alloc, row.lines)? {
        match after(b"stored ", line) {
            Some(stored) => given.stored = stored,
            None => {
                if !tell_fault(rt, alloc, &given, line, out)? {
                    return Ok(false);
                }
            }
        }
    }
    Ok(true)
}
