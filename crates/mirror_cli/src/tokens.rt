//! How it is told why a repository isn't mirrored.

ghost use Rattle.std.specs.Prelude.{◌≡◌, ◌++◌, OnOk};
ghost use Rattle.mirror_cli.specs.MirrorTokens as spec;

use fetch_cli::append_token;
use fetch_cli::tokens::{append_both, append_count, append_digits, append_text, append_word};
use fetch_journal::SharedError;
use fetch_mirror::MirrorError;
use fetch_remote::{FetchError, prepare};
use fetch_serve::ServeError;
use fetch_store::NoMemory;
use race_cli::append_shared_token;

#[tactic(auto, unfolding(crate::specs::MirrorTokens::serve_token))]
fn append_serve(out: &mut Vec<u8>, refusal: &ServeError) -> Result<(), NoMemory>
    ensures { OnOk result (out.new.items ≡ out.old.items ++ spec.serve_token refusal.now) }
{
    match refusal {
        ServeError::ShallowServer => append_word(out, b"ShallowServer"),
        ServeError::WrongId { id } => append_digits(out, b"WrongId", id),
        ServeError::NotClosed { link } => append_both(out, b"NotClosed", &link.from, &link.to),
        ServeError::NotServable { name } => append_text(out, b"NotServable", name.as_bytes()),
        ServeError::Malformed { place } => append_count(out, b"Malformed", *place),
        ServeError::RequestTooLong { bound } => {
            append_count(out, b"RequestTooLong", *bound as usize)
        }
        ServeError::NoMemory => append_word(out, b"NoMemory"),
    }
}

/// The number of a worker, and why it was refused.
#[tactic(auto, unfolding(crate::specs::MirrorTokens::worker_token, fetch_cli::specs::Tokens::keeping))]
fn append_worker(out: &mut Vec<u8>, index: u32, refusal: &SharedError) -> Result<(), NoMemory>
    ensures { OnOk result (out.new.items ≡ out.old.items ++ spec.worker_token index refusal.now) }
{
    append_count(out, b"Worker", index as usize)?;
    append_word(out, b" ")?;
    append_shared_token(out, refusal)
}

/// Puts the name of a refusal and what it keeps behind what is there. A repository that isn't served and a listing that was
/// refused are told as what is wrapped. After an error a part of it may stand there.
#[tactic(auto, unfolding(crate::specs::MirrorTokens::mirror_token))]
pub fn append_mirror_token(out: &mut Vec<u8>, refusal: MirrorError) -> Result<(), NoMemory>
    ensures { OnOk result (out.new.items ≡ out.old.items ++ spec.mirror_token refusal) }
{
    match refusal {
        MirrorError::Workers { count } => append_count(out, b"Workers", count as usize),
        MirrorError::Server(e) => append_serve(out, &e),
        MirrorError::List(e) => append_token(out, &FetchError::Prepare(prepare::Error::RefMap(e))),
        MirrorError::Worker { index, error } => append_worker(out, index, &error),
        MirrorError::NoMemory => append_word(out, b"NoMemory"),
    }
}
