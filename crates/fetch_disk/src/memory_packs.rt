//! The packs of a disk in memory, of the calls that made them.

ghost use Rattle.std.specs.Prelude.{◌≡◌, reverse, IfOk};
ghost use Rattle.std.specs.FinMap as map;
ghost use Rattle.std.specs.Option.{option_copied};
ghost use Rattle.std.specs.Ordering.{eq_by_cmp};
ghost use Rattle.fetch_base.specs.Id.{id_cmp};
ghost use Rattle.fetch_disk.specs.History.{packs_of, pack_after};

use crate::call::Call;
use fetch_base::{NoMemory, ObjectId, Text};

/// Whether two names are one.
fn is_name(name: &ObjectId, other: &ObjectId) -> bool
    ensures { result ≡ eq_by_cmp id_cmp name.now other.now }
{
    *name == *other
}

/// What stands under a name after a call, where this stood before.
fn after_call<'a>(before: Option<&'a Text>, call: &'a Call, name: &ObjectId) -> Option<&'a Text>
    ensures { option_copied result ≡ pack_after call.now name.now (option_copied before.entry) }
{
    match call {
        Call::Put { name: put, bytes } => {
            if is_name(name, put) {
                Some(bytes)
            } else {
                before
            }
        }
        Call::Remove { name: removed } => { if is_name(name, removed) { None } else { before } }
        _ => before,
    }
}

/// The bytes of a pack, after these calls.
fn find_pack<'a>(calls: &'a [Call], name: &ObjectId) -> Option<&'a Text>
    ensures { option_copied result ≡ map.get (packs_of (reverse calls.now)) name.now }
{
    let mut found = None;
    for call in calls {
        found = after_call(found, call, name);
    }
    found
}

/// A copy of a pack's bytes, after these calls.
pub(crate) fn copy_pack(calls: &[Call], name: &ObjectId) -> Result<Option<Text>, NoMemory>
    ensures { IfOk result (λ found. found ≡ map.get (packs_of (reverse calls.now)) name.now) }
{
    match find_pack(calls, name) {
        Some(bytes) => Ok(Some(bytes.try_clone()?)),
        None => Ok(None),
    }
}
