//! Clones, from peers that say what a row has or from servers, over files in memory or on the host.

use crate::building::built;
use crate::clone_case::{CloneCase, Closures, agrees, as_it_is, options};
use crate::said::maker_of;
use crate::served::ServedConnect;
use crate::standing::say_place;
use crate::trying::{Course, Ending, peer_by, remote_by, tell_tries};
use fetch_clone::create::Options;
use fetch_clone::{HostFiles, PrepareFetch};
use fetch_remote::connect::Connect;
use fetch_remote::{Remote, Repository};
use fetch_serve::{ServeError, Server};
use fetch_store::{Files, MemoryFiles, NoMemory, decimal};
use peer_rows::repository_of;
use rows::{lines, say, say_printed, somebody, split_word};
use std::alloc::{Alloc, Global};
use std::fs::Files as HostCalls;
use std::thread::Threads;

/// Where a clone is to stand.
fn creation(clone_case: &CloneCase) -> Options {
    if clone_case.is_used {
        Options {
            destination_must_be_empty: Some(false),
            ..Options::default()
        }
    } else {
        Options::default()
    }
}

/// Clones what a row says into this place, by these peers.
// Many arguments: the row, the files, the maker and the place, and what each row is told with.
fn clone_over<T: Threads + Sync, F: Files + Drop, C: Connect + Drop>(
    rt: &T,
    alloc: Global,
    clone_case: &CloneCase,
    files: F,
    maker: C,
    place: &[u8],
    course: Course,
    out: &mut Vec<u8>,
) -> Result<(), NoMemory> {
    let options = options(alloc, false)?;
    let committer = somebody(alloc)?;
    let clone = PrepareFetch::new(
        alloc,
        clone_case.url.as_bytes(),
        place,
        clone_case.kind,
        creation(clone_case),
        options,
        committer,
        files,
        maker,
        as_it_is,
        agrees::<C::Peer>,
    );
    let clone = match clone {
        Ok(clone) => built(alloc, clone_case, clone, out)?,
        Err(_) => return say(out, &[b"unprepared"]),
    };
    let closures = clone_case.closures;
    if closures == Closures::Usual {
        return tell_tries(rt, alloc, clone_case, clone, place, course, out);
    }
    let clone = clone
        .configure_remote(move |remote: Remote| remote_by(alloc, closures, remote))
        .configure_connection(move |_peer: &mut C::Peer| peer_by(alloc, closures));
    tell_tries(rt, alloc, clone_case, clone, place, course, out)
}

/// Clones what a row says over files in memory, with so many tries.
fn clone_in_memory<T: Threads + Sync, C: Connect + Drop>(
    rt: &T,
    alloc: Global,
    clone_case: &CloneCase,
    maker: C,
    tries: u64,
    out: &mut Vec<u8>,
) -> Result<(), NoMemory> {
    let files = MemoryFiles::new(alloc, Vec::from_slice(alloc, &clone_case.files)?);
    let course = Course {
        tries,
        ending: Ending::GivenUp,
    };
    clone_over(rt, alloc, clone_case, files, maker, b"/w", course, out)
}

/// The same from what its peers say.
fn clone_from_script<T: Threads + Sync>(
    rt: &T,
    alloc: Global,
    clone_case: &CloneCase,
    tries: u64,
    out: &mut Vec<u8>,
) -> Result<(), NoMemory> {
    let maker = maker_of(alloc, &clone_case.said, &clone_case.unmade)?;
    clone_in_memory(rt, alloc, clone_case, maker, tries, out)
}

/// The same from servers of a repository. Where it can't be served, it is told why.
fn clone_from<T: Threads + Sync>(
    rt: &T,
    alloc: Global,
    clone_case: &CloneCase,
    repo: &Repository,
    tries: u64,
    out: &mut Vec<u8>,
) -> Result<(), NoMemory> {
    match Server::new(alloc, repo.store(), repo.refs(), repo.border()) {
        Ok(server) => {
            clone_in_memory(
                rt,
                alloc,
                clone_case,
                ServedConnect::new(server),
                tries,
                out,
            )
        }
        Err(ServeError::NoMemory) => Err(NoMemory),
        Err(e) => say_printed(out, b"unserved", &e),
    }
}

/// The same from servers of the repository that the row says. Whether it says one.
fn clone_from_server<T: Threads + Sync>(
    rt: &T,
    alloc: Global,
    clone_case: &CloneCase,
    tries: u64,
    out: &mut Vec<u8>,
) -> Result<bool, NoMemory> {
    match repository_of(rt, alloc, clone_case.server.as_bytes())? {
        Some(repo) => {
            clone_from(rt, alloc, clone_case, &repo, tries, out)?;
            Ok(true)
        }
        None => Ok(false),
    }
}

/// Puts a file of the user's at the place, where the row has one there.
fn prepare_place<F: Files>(clone_case: &CloneCase, files: &mut F) {
    if clone_case.is_used {
        let _ = files.make_dir_all(b"made");
        let _ = files.write(b"made/notes", b"mine\n");
    }
}

/// Clones what a row says over the files of the host, in a directory `made` where the program runs, which is removed then. Where
/// the clone isn't given up, what stands there is told before.
fn clone_on_host<T: Threads + Sync + HostCalls + Alloc<A = Global> + Clone + Drop>(
    rt: &T,
    alloc: Global,
    clone_case: &CloneCase,
    course: Course,
    out: &mut Vec<u8>,
) -> Result<(), NoMemory> {
    let mut files = HostFiles::new(rt.clone()?);
    prepare_place(clone_case, &mut files);
    let own = HostFiles::new(rt.clone()?);
    let maker = maker_of(alloc, &clone_case.said, &clone_case.unmade)?;
    clone_over(rt, alloc, clone_case, own, maker, b"made", course, out)?;
    if course.ending != Ending::GivenUp {
        say_place(&mut files, b"made/.git/config", out)?;
        say_place(&mut files, b"made/notes", out)?;
    }
    let _ = files.remove_dir_all(b"made");
    Ok(())
}

/// How a clone on the host ends, where a word asks for one.
fn ending_of(word: &[u8]) -> Option<Ending> {
    if word == b"clone-on-host".as_slice() {
        Some(Ending::GivenUp)
    } else if word == b"drop-on-host".as_slice() {
        Some(Ending::Dropped)
    } else if word == b"persist-on-host".as_slice() {
        Some(Ending::Persisted)
    } else {
        None
    }
}

/// Clones what a row says with so many tries, where a line asks for that. Whether it does.
fn tell_clones<T: Threads + Sync + HostCalls + Alloc<A = Global> + Clone + Drop>(
    rt: &T,
    alloc: Global,
    clone_case: &CloneCase,
    word: &[u8],
    rest: &[u8],
    out: &mut Vec<u8>,
) -> Result<bool, NoMemory> {
    let Some(tries) = decimal(rest) else {
        return Ok(false);
    };
    if word == b"clone".as_slice() {
        clone_from_script(rt, alloc, clone_case, tries, out)?;
        return Ok(true);
    }
    if word == b"clone-from-server".as_slice() {
        return clone_from_server(rt, alloc, clone_case, tries, out);
    }
    match ending_of(word) {
        Some(ending) => {
            clone_on_host(rt, alloc, clone_case, Course { tries, ending }, out)?;
            Ok(true)
        }
        None => Ok(false),
    }
}

/// Puts down what was told, or that it is the same as by the clone before.
fn append_told(out: &mut Vec<u8>, told: &[u8], last: &[u8]) -> Result<(), NoMemory> {
    if told == last {
        say(out, &[b"the same"])
    } else {
        out.extend_from_slice(told)?;
        Ok(())
    }
}

/// Takes a line of a row, or clones what the row says, where `last` is what the clone before told. Whether it is such a line.
// Many arguments: the row and its line, and what each row is told with.
fn tell_line<T: Threads + Sync + HostCalls + Alloc<A = Global> + Clone + Drop>(
    rt: &T,
    alloc: Global,
    clone_case: &mut CloneCase,
    line: &[u8],
    last: &mut Vec<u8>,
    out: &mut Vec<u8>,
) -> Result<bool, NoMemory> {
    let (word, rest) = split_word(line);
    if clone_case.take(alloc, word, rest)? {
        return Ok(true);
    }
    let mut told = Vec::new(alloc);
    if !tell_clones(rt, alloc, clone_case, word, rest, &mut told)? {
        return Ok(false);
    }
    append_told(out, &told, last)?;
    *last = told;
    Ok(true)
}

/// Takes the lines of a row, and clones what they say. Whether they are such lines.
pub(crate) fn tell<T: Threads + Sync + HostCalls + Alloc<A = Global> + Clone + Drop>(
    rt: &T,
    alloc: Global,
    text: &[u8],
    out: &mut Vec<u8>,
) -> Result<bool, NoMemory> {
    let mut clone_case = Box::new(alloc, CloneCase::new(alloc)?)?;
    let mut last = Vec::new(alloc);
    for line in &lines(alloc, text)? {
        if !tell_line(rt, alloc, &mut clone_case, line, &mut last, out)? {
            return Ok(false);
        }
    }
    Ok(true)
}
