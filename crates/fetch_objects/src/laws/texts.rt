//! Laws of the grammar of objects, in the words of the format.

ghost use Rattle.std.specs.Prelude.{◌≡◌, ◌≤◌, false, ℕ, List, length};
ghost use Rattle.fetch_base.specs.declared.id.Kind.{Kind};
ghost use Rattle.fetch_base.specs.declared.object_kind.ObjectKind.{ObjectKind};
ghost use Rattle.fetch_objects.specs.Objects.{links_of, is_object, place_of};
ghost use Rattle.fetch_objects.specs.Places.{BreaksAt};
ghost use Rattle.fetch_objects.specs.Texts.{TagsAreTexts};
ghost use Rattle.fetch_objects.specs.TreeTexts.{TreesAreTexts};
ghost use Rattle.fetch_objects.specs.CommitTexts.{CommitsAreTexts};

/// A tag is `object <hex>` and `type <kind>`, each with a line feed, and then any bytes. It links to
/// that id alone, which is its target.
pub fn tags_are_texts()
    ensures { (hash : Kind) (bytes : List ℕ) → TagsAreTexts hash bytes }
{}

/// A tree is entries, `<mode> SP <name> NUL <raw id>`, one after the other.
pub fn trees_are_texts()
    ensures { (hash : Kind) (bytes : List ℕ) → TreesAreTexts hash bytes }
{}

/// A commit is `tree <hex>`, `parent <hex>` for each parent, `author <text>` and `committer <text> SP <seconds> SP <offset>`, each with a
/// line feed, and then any bytes.
pub fn commits_are_texts()
    ensures { (hash : Kind) (bytes : List ℕ) → CommitsAreTexts hash bytes }
{}

/// An object has no more links than bytes, so its links can be counted in 64 bits.
pub fn links_are_no_more_than_bytes()
    ensures { (hash : Kind) (kind : ObjectKind) (bytes : List ℕ) → length (links_of hash kind bytes) ≤ length bytes }
{}

/// A text that is no object of its kind is whole lines or entries up to the place that a refusal tells, each of which
/// may stand after the one before, and what follows begins none that may stand there; nor may the text end there.
pub fn a_place_is_where_the_grammar_breaks()
    ensures { (hash : Kind) (kind : ObjectKind) (bytes : List ℕ) → is_object hash kind bytes ≡ false
        → BreaksAt hash kind bytes (place_of hash kind bytes) }
{}
