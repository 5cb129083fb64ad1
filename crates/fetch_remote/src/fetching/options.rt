//! How a fetch is to be done.

ghost use Rattle.std.specs.Prelude.{◌≡◌, [], true, false, None, IfOk};
ghost use Rattle.fetch_negotiate.specs.declared.algorithm.Shallow.TheVariants.{NoChange};

use crate::ref_map;
use fetch_negotiate::Shallow;
use fetch_store::NoMemory;
use fetch_update::RefLogMessage;
use std::alloc::Global;

/// How a fetch is to be done.
#[derive(Debug, Drop)]
pub struct FetchOptions {
    /// How references are listed and mapped.
    pub map: ref_map::Options,
    /// Tell what would become of the references, and change nothing.
    pub dry_run: bool,
    /// Write ids into the packed list, and not as loose references.
    pub write_packed_refs_only: bool,
    /// What the reflogs say; without it, `fetch` and what happened.
    pub reflog_message: Option<RefLogMessage>,
    /// How the depth of the history is to change.
    pub shallow: Shallow,
}

impl FetchOptions {
    /// No dry run, loose references, the usual message, and no change of depth.
    pub fn new(alloc: Global) -> FetchOptions
        ensures { result ≡ record {
          map = record {
            prefix_from_spec_as_filter_on_remote = true;
            handshake_parameters = [];
            extra_refspecs = [];
            max_reply_bytes = 268435456;
          };
          dry_run = false;
          write_packed_refs_only = false;
          reflog_message = None;
          shallow = NoChange;
        } }
    {
        FetchOptions {
            map: ref_map::Options::new(alloc),
            dry_run: false,
            write_packed_refs_only: false,
            reflog_message: None,
            shallow: Shallow::NoChange,
        }
    }

    /// Equal options.
    pub fn try_clone(&self) -> Result<FetchOptions, NoMemory>
        ensures { IfOk result (λ copy. copy ≡ self.now) }
    {
        Ok(FetchOptions {
            map: self.map.try_clone()?,
            dry_run: self.dry_run,
            write_packed_refs_only: self.write_packed_refs_only,
            reflog_message: copy_message(&self.reflog_message)?,
            shallow: self.shallow.try_clone()?,
        })
    }
}

fn copy_message(message: &Option<RefLogMessage>) -> Result<Option<RefLogMessage>, NoMemory>
    ensures { IfOk result (λ copy. copy ≡ message.now) }
{
    match message {
        Some(message) => Ok(Some(message.try_clone()?)),
        None => Ok(None),
    }
}
