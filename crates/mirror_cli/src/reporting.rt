//! The report of a mirror.

ghost use Rattle.std.specs.Prelude.{◌≡◌, ◌++◌, IfOk, OnOk};
ghost use Rattle.fetch_cli.specs.ReportLines.{refused_line};
ghost use Rattle.fetch_remote.specs.Repositories.{state_of};
ghost use Rattle.mirror_cli.specs.MirrorReports as spec;
ghost use Rattle.mirror_cli.specs.MirrorTokens.{mirror_token};

use crate::tokens::append_mirror_token;
use fetch_cli::{append_ids, append_refs, append_refused};
use fetch_mirror::MirrorError;
use fetch_remote::Repository;
use fetch_store::NoMemory;
use std::alloc::Global;

/// Puts the references and the ids behind what is there, each in ascending order, and the end. After an error a part of them
/// may stand there.
#[tactic(auto, unfolding(crate::specs::MirrorReports::mirror_text))]
pub fn append_mirror(out: &mut Vec<u8>, repo: &Repository) -> Result<(), NoMemory>
    ensures { OnOk result (out.new.items ≡ out.old.items ++ spec.mirror_text (state_of repo.now)) }
{
    append_refs(out, repo.refs())?;
    append_ids(out, repo.store())?;
    out.extend_from_slice(b"ok\n")?;
    Ok(())
}

/// The report of a mirror.
pub(crate) fn mirror_report(alloc: Global, repo: &Repository) -> Result<Vec<u8>, NoMemory>
    ensures { IfOk result (λ text. text.items ≡ spec.mirror_text (state_of repo.now)) }
{
    let mut text = Vec::new(alloc);
    append_mirror(&mut text, repo)?;
    Ok(text)
}

/// The report where there is no mirror.
pub(crate) fn refused_report(alloc: Global, refusal: MirrorError) -> Result<Vec<u8>, NoMemory>
    ensures { IfOk result (λ text. text.items ≡ refused_line (mirror_token refusal)) }
{
    let mut token = Vec::new(alloc);
    append_mirror_token(&mut token, refusal)?;
    let mut text = Vec::new(alloc);
    append_refused(&mut text, &token)?;
    Ok(text)
}
