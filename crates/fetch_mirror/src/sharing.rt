//! How names are shared among workers.

ghost use Rattle.std.specs.Prelude.{◌≡◌, ◌++◌, ◌<◌, ◌≤◌, ◌∷◌, [], IfOk, OnOk, length, replicate, slice_index_or, slice_set};
ghost use Rattle.fetch_mirror.specs.Shares as spec;
ghost use Rattle.fetch_mirror.specs.Shares.{AreShares, itself_text};

use fetch_specs::{FullName, Operation, RefSpec, parse};
use fetch_store::{List, NoMemory};
use std::alloc::{AllocError, Global};

/// What each of so many workers fetches: the name at place `i`, counted from 0, goes to the worker `i` modulo their count, to
/// be fetched as itself, by force. So the shares divide the names, and only the last ones may be empty.
pub fn share(
    alloc: Global,
    names: &[FullName],
    workers: u32,
) -> Result<List<List<RefSpec>>, NoMemory>
    requires some { 1 ≤ workers }
    ensures shares { IfOk result (AreShares workers names.now) }
{
    let count = workers as usize;
    let mut shares = empty_shares(alloc, count)?;
    for (i, name) in names.iter().enumerate() {
        deal(shares.as_mut_slice(), i % count, as_itself(alloc, name)?)?;
    }
    Ok(List::from(shares))
}

#[tactic(auto, using(crate::proofs::Dealing::one_more_empty))]
fn empty_shares(alloc: Global, workers: usize) -> Result<Vec<List<RefSpec>>, NoMemory>
    ensures { IfOk result (λ shares. shares.items ≡ replicate workers []) }
{
    let mut shares = Vec::with_capacity(alloc, workers)?;
    for _ in 0..workers {
        shares.push(List::new(alloc))?;
    }
    Ok(shares)
}

/// Puts a refspec behind those of a worker.
fn deal(shares: &mut [List<RefSpec>], worker: usize, spec: RefSpec) -> Result<(), NoMemory>
    requires { worker < length shares.old }
    ensures { OnOk result (shares.new ≡ slice_set shares.old worker (slice_index_or shares.old worker [] ++ spec ∷ [])) }
{
    shares[worker].push(spec)
}

/// A name as it is fetched. Each full name makes a refspec, so that memory alone may refuse it.
#[tactic(auto, using(crate::proofs::AsItself::itself_is_read))]
fn as_itself(alloc: Global, name: &FullName) -> Result<RefSpec, NoMemory>
    ensures { IfOk result (λ own. own ≡ spec.as_itself name.now) }
{
    match parse(
        alloc,
        text_of(alloc, name.as_bytes())?.as_slice(),
        Operation::Fetch,
    ) {
        Ok(spec) => Ok(spec),
        Err(_) => Err(NoMemory),
    }
}

fn text_of(alloc: Global, name: &[u8]) -> Result<Vec<u8>, AllocError>
    ensures { IfOk result (λ text. text.items ≡ itself_text name.now) }
{
    let mut text = Vec::from_slice(alloc, b"+")?;
    text.extend_from_slice(name)?;
    text.push(b':')?;
    text.extend_from_slice(name)?;
    Ok(text)
}
