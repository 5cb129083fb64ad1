//! References in which edits are made, and what takes these back.

ghost use Rattle.std.specs.Prelude.{◌≡◌, ℕ, List as Items, OnOk, IfOk, IfErr};
ghost use Rattle.fetch_refs.specs.Journals.{before, now_in, HasRoom, HasTexts};
ghost use Rattle.fetch_refs.specs.Logs.{after};
ghost use Rattle.fetch_refs.specs.Packed.{packed_text};
ghost use Rattle.fetch_refs.specs.Packing.{text_after};

use crate::apply::apply_all;
use crate::edit::{PackedRefs, RefEdit};
use crate::journal::Journal;
use crate::log::Signature;
use crate::packing::{keeps_list, text_of};
use crate::refs::Refs;
use crate::slot::Listed;
use fetch_store::{NoMemory, Text};
use std::marker::Model;

/// What can be given back as it was before.
pub trait Restore {
    ghost use Rattle.fetch_refs.specs.Names.{RefsValue};

    /// The references before.
    ghost before: { Self → RefsValue };

    /// The references as they were before.
    fn restore(self) -> Refs
        ensures { result ≡ before self };
}

/// References in which edits are made, and what takes these back. Contracts see it as the
/// references without the edits and with them.
// Not copied: what is pending is kept or taken back, once.
#[derive(Drop)]
pub struct Pending {
    journal: Journal,
    /// The text of the packed list before the edits.
    text: Text,
    /// The text after them, where the list changes.
    changed: Option<Text>,
}

impl Model for Pending {
    ghost use Rattle.fetch_refs.specs.Pending.{PendingValue, coded_pending};

    ghost Value = { PendingValue };

    ghost coded = { coded_pending };

    ghost use Rattle.fetch_refs.specs.Journals.{before, now_in, HasRoom, HasTexts};

    ghost view = { λ p. record { before = before p.journal; after = now_in p.journal } };

    ghost invariant = { λ p. HasRoom p.journal × HasTexts p.journal p.text p.changed };
}

impl Pending {
    /// Makes the edits, in order. Where memory runs out it gives the references back as they were.
    pub(crate) fn made(
        refs: Refs,
        edits: &[RefEdit],
        committer: &Signature,
        logging: bool,
        packed: PackedRefs,
    ) -> Result<Pending, Refs>
        ensures ok { IfOk result (λ p. p ≡ record { before = refs; after = after committer.now logging packed refs edits.now }) }
        ensures err { IfErr result (λ before. before ≡ refs) }
    {
        let Refs { contents, text } = refs;
        let mut journal = Journal::new(contents.alloc, contents);
        match edit_all(&mut journal, edits, committer, logging, packed) {
            Ok(changed) => Ok(Pending {
                journal,
                text,
                changed,
            }),
            Err(NoMemory) => Err(Refs {
                contents: journal.restore(),
                text,
            }),
        }
    }

    /// The references with the edits. This takes no memory.
    pub(crate) fn finish(self) -> Refs
        ensures { result ≡ self.after }
    {
        let Pending {
            journal,
            text,
            changed,
        } = self;
        Refs {
            contents: journal.contents,
            text: text_after(text, changed),
        }
    }
}

fn text_after(text: Text, changed: Option<Text>) -> Text
    ensures { result ≡ text_after text changed }
{
    match changed {
        Some(changed) => changed,
        None => text,
    }
}

/// Makes the edits, and the new text of the packed list where that changes.
fn edit_all(
    journal: &mut Journal,
    edits: &[RefEdit],
    committer: &Signature,
    logging: bool,
    packed: PackedRefs,
) -> Result<Option<Text>, NoMemory>
    requires { HasRoom journal.old }
    ensures room { HasRoom journal.new }
    ensures before { before journal.new ≡ before journal.old }
    ensures ok { OnOk result (now_in journal.new ≡ after committer.now logging packed (now_in journal.old) edits.now) }
    ensures texts { IfOk result (λ changed. (text : Items ℕ) → text ≡ packed_text (before journal.new).packed
        → HasTexts journal.new text changed) }
{
    apply_all(journal, edits, committer, logging, packed)?;
    if keeps_list(&journal.contents, journal.undo.as_slice()) {
        return Ok(None);
    }
    let contents = &journal.contents;
    Ok(Some(text_of(contents.alloc, &contents.names, Listed::Packed)?))
}

impl Restore for Pending {
    ghost before = { λ p. p.before };

    fn restore(self) -> Refs {
        let Pending {
            journal,
            text,
            changed: _,
        } = self;
        Refs {
            contents: journal.restore(),
            text,
        }
    }
}
