//! A repository that stores an object under the id of another one, which no scene can say.

ghost use Rattle.std.specs.Prelude.{◌≡◌, IfOk, IfSome};
ghost use Rattle.fetch_base.specs.Id.{kind_of};
ghost use Rattle.fetch_store.specs.Stores.{AreOf};
ghost use Rattle.fetch_base.specs.declared.id.Kind.TheVariants.{Sha1};

use fetch_cli::Scene;
use fetch_store::{Kind, List, NoMemory, Object, ObjectId, ObjectKind};
use rows::{decoded, split_word};
use std::alloc::Global;

/// `<id> <text>`: a blob of this text under an id of SHA-1.
fn entry_of(alloc: Global, words: &[u8]) -> Result<Option<(ObjectId, Object)>, NoMemory>
    ensures { IfOk result (λ found. IfSome found (λ entry. (kind_of entry.0 ≡ Sha1) × (entry.1.hash ≡ Sha1))) }
{
    let (digits, text) = split_word(words);
    let Some(id) = ObjectId::in_hex(Kind::Sha1, digits) else {
        return Ok(None);
    };
    let text = decoded(alloc, text)?;
    match Object::parse(Kind::Sha1, ObjectKind::Blob, text) {
        Ok(object) => Ok(Some((id, object))),
        Err(_) => Ok(None),
    }
}

/// The objects that these words say: one, or none where they say no object.
pub(crate) fn objects_of(
    alloc: Global,
    words: &[u8],
) -> Result<Option<List<(ObjectId, Object)>>, NoMemory>
    ensures { IfOk result (λ found. IfSome found (AreOf Sha1)) }
{
    match entry_of(alloc, words)? {
        Some(entry) => Ok(Some(List::from(vec![in alloc; entry]?))),
        None => Ok(None),
    }
}

/// The scene with these objects in the place of its own, where there are some and its ids are of SHA-1.
pub(crate) fn storing(scene: Scene, objects: Option<List<(ObjectId, Object)>>) -> Scene
    requires scene { AreOf scene.hash scene.objects }
    requires objects { IfSome objects (AreOf Sha1) }
    ensures { AreOf result.hash result.objects }
{
    let mut scene = scene;
    if let (Kind::Sha1, Some(objects)) = (scene.hash, objects) {
        scene.objects = objects;
    }
    scene
}
