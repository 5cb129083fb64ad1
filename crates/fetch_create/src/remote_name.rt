//! What a clone's remote is called, and by which refspec it is fetched.

ghost use Rattle.std.specs.Prelude.{◌≡◌, IfOk, IfErr, OnOk, None, option_map, ◌++◌};
ghost use Rattle.std.specs.Option.{option_copied};
ghost use Rattle.fetch_create.specs.RemoteNames as spec;

use fetch_config::File;
use fetch_store::{NoMemory, Text};
use std::alloc::Global;

/// The name of the remote that the configuration says, where it says one.
#[tactic(auto, unfolding(crate::specs::RemoteNames::default_remote_of))]
pub fn default_remote(config: &File) -> Option<&[u8]>
    ensures { option_map (λ name. name.now) result ≡ spec.default_remote_of config.now }
{
    config.string(b"clone", None, b"defaultRemoteName", false)
}

/// The refspec of one reference, or else of all branches.
pub fn spec_text(alloc: Global, remote: &[u8], target: Option<&[u8]>) -> Result<Text, NoMemory>
    ensures { IfOk result (λ text. text ≡ spec.spec_text remote.now (option_copied target.entry)) }
{
    let mut text = Vec::new(alloc);
    match target {
        Some(target) => push_one(&mut text, remote, target)?,
        None => {
            text.extend_from_slice(b"+refs/heads/*:")?;
            push_tracking(&mut text, remote, b"*")?;
        }
    }
    Ok(Text::from(text))
}

fn push_one(text: &mut Vec<u8>, remote: &[u8], target: &[u8]) -> Result<(), NoMemory>
    ensures { OnOk result (text.new.items ≡ text.old.items ++ spec.spec_of_one remote.now target.now) }
{
    text.push(b'+')?;
    text.extend_from_slice(target)?;
    text.push(b':')?;
    push_destination(text, remote, target)?;
    Ok(())
}

fn push_destination(text: &mut Vec<u8>, remote: &[u8], target: &[u8]) -> Result<(), NoMemory>
    ensures { OnOk result (text.new.items ≡ text.old.items ++ spec.destination_of remote.now target.now) }
{
    match target.strip_prefix(b"refs/heads/") {
        Some(short) => push_tracking(text, remote, short),
        None => {
            text.extend_from_slice(target)?;
            Ok(())
        }
    }
}

fn push_tracking(text: &mut Vec<u8>, remote: &[u8], short: &[u8]) -> Result<(), NoMemory>
    ensures { OnOk result (text.new.items ≡ text.old.items ++ spec.tracking_of remote.now short.now) }
{
    text.extend_from_slice(b"refs/remotes/")?;
    text.extend_from_slice(remote)?;
    text.push(b'/')?;
    text.extend_from_slice(short)?;
    Ok(())
}
