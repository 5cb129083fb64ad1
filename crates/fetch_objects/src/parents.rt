//! A commit's parents, however they are kept.

ghost use Rattle.std.specs.Prelude.{◌≡◌, ◌∷◌, [], MatchOption};
ghost use Rattle.std.specs.Iterator.{YieldsFirst, item_count};
ghost use Rattle.fetch_objects.specs.References.{parents_left};

use crate::object::Links;
use fetch_base::ObjectId;

/// The ids of a commit's parents, in order.
#[derive(Debug, Drop)]
pub enum Parents<'a> {
    /// They stand in the commit's text, which is read line by line as they are asked for.
    Text(Links<'a>),
    /// They stand in memory, the first by itself.
    Ids(Option<ObjectId>, &'a [ObjectId]),
}

impl Iterator for Parents<'_> {
    type Item = ObjectId;

    ghost next_gives = { YieldsFirst parents_left };

    ghost remaining = { item_count parents_left };

    fn next(&mut self) -> Option<ObjectId> {
        match self {
            Parents::Text(links) => links.next(),
            Parents::Ids(first, others) => match first.take() {
                Some(id) => Some(id),
                None => next_of(others),
            },
        }
    }
}

/// Takes the first id from the front of a list.
fn next_of(ids: &mut &[ObjectId]) -> Option<ObjectId>
    ensures { MatchOption result ((ids.old.now ≡ []) × (ids.new.now ≡ [])) (λ id. ids.old.now ≡ id ∷ ids.new.now) }
{
    let [id, rest @ ..] = *ids else {
        return None;
    };
    *ids = rest;
    Some(*id)
}
