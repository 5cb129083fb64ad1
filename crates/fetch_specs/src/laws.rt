//! What holds of names, of refspecs, and of what they map. Each law is a function without a body: its
//! clauses are proved.

ghost use Rattle.std.specs.Prelude.{Bool, List, ℕ, Some, [], false, is_some, true, IsTrue, ◌≡◌, ◌↔◌};
ghost use Rattle.std.specs.List.{Contains, list_any};
ghost use Rattle.std.specs.Str.{bytes_eq};
ghost use Rattle.fetch_base.specs.declared.id.Kind.{Kind};
ghost use Rattle.fetch_specs.specs.Conflicts.{conflicts_of, IsConflict};
ghost use Rattle.fetch_specs.specs.Leads.{IsInOrder, IsOwnSource, mapped_to};
ghost use Rattle.fetch_specs.specs.Made.{are_ordered, IsFirst, IsLead, IsMapping};
ghost use Rattle.fetch_specs.specs.Matches.{has_star, is_exclusion, mappings_of, sources_leading, sources_of, takes};
ghost use Rattle.fetch_specs.specs.Names.{is_full_name, is_name, full_name_place, name_place, IsLongestBeginning};
ghost use Rattle.fetch_specs.specs.Parses.{id_named, IsSpec};
ghost use Rattle.fetch_specs.specs.Prefixes.{asks_for_all, prefixes_of, source_prefixes, spec_prefixes, IsAskedFor, IsListing};
ghost use Rattle.fetch_specs.specs.Prefixes.{IsPlainFront};
ghost use Rattle.fetch_specs.specs.Specs.{Spec};
ghost use Rattle.fetch_specs.specs.Tagged.{is_tag_spec, tag_spec};
ghost use Rattle.fetch_specs.specs.declared.conflict.Conflict.{Conflict};
ghost use Rattle.fetch_specs.specs.declared.found.Match.{Match};

/// The place of a name that is refused is the length of the text's longest prefix that begins some name.
pub fn name_place_is_of_the_longest_beginning()
    ensures { (star : Bool) (text : List ℕ) → IsLongestBeginning (is_name star) text (name_place star text) }
{}

/// The place of a full name that is refused is the length of the text's longest prefix that begins some
/// full name.
pub fn full_name_place_is_of_the_longest_beginning()
    ensures { (text : List ℕ) → IsLongestBeginning is_full_name text (full_name_place text) }
{}

/// A refspec to fetch has a source, and of two sides both or neither have a star.
pub fn a_refspec_is_in_order()
    ensures { (spec : Spec) → IsSpec spec → IsInOrder spec }
{}

/// A refspec passes the test for the one that brings all tags exactly where it is that one.
pub fn the_tag_refspec_alone_brings_all_tags()
    ensures { (refspec : Spec) → IsTrue (is_tag_spec refspec) ↔ (refspec ≡ tag_spec) }
{}

/// A match is told exactly where it is what its refspec maps of its item, or its refspec's id, and no
/// earlier one has its source and destination. Ids come first, then refspec by refspec and item by item.
pub fn each_mapping_is_told_once()
    ensures ordered { (specs : List Spec) (names : List (List ℕ)) (kind : Kind) → IsTrue (are_ordered (mappings_of specs names kind)) }
    ensures told { (specs : List Spec) (names : List (List ℕ)) (kind : Kind) (m : Match)
        → Contains (mappings_of specs names kind) m ↔ IsFirst (IsMapping specs names kind) true m }
{}

/// A source is told exactly where its refspec leads from it to its item and no earlier one has that source. They stand
/// refspec by refspec and item by item.
pub fn each_source_is_told_once()
    ensures ordered { (specs : List Spec) (names : List (List ℕ)) → IsTrue (are_ordered (sources_of specs names)) }
    ensures told { (specs : List Spec) (names : List (List ℕ)) (m : Match)
        → Contains (sources_of specs names) m ↔ IsFirst (IsLead specs names) false m }
{}

/// A source is told for a name exactly where the refspec maps it there: a name that is the refspec's own
/// source, its star replaced, and that the refspec maps to that very name.
pub fn a_source_is_told_where_it_leads()
    ensures { (specs : List Spec) (spec : Spec) (name : List ℕ) (source : List ℕ) → IsSpec spec
        → Contains (sources_leading specs spec name) source ↔ (IsOwnSource spec source × (mapped_to specs spec source ≡ Some name)) }
{}

/// A destination is a conflict exactly where two matches have it whose sources differ.
pub fn each_conflict_has_two_sources()
    ensures { (matches : List Match) (conflict : Conflict) → Contains (conflicts_of matches) conflict ↔ IsConflict matches conflict }
{}

/// What a listing is asked for ascends, each text once, and is what some refspec asks for and nothing
/// else; it is empty where a refspec asks for all.
pub fn prefixes_ascend_and_are_asked_for()
    ensures { (specs : List Spec) → IsListing specs (prefixes_of specs) }
{}

/// Each name that a refspec takes begins with one of the prefixes, or there are none.
pub fn each_name_taken_is_asked_for()
    ensures { (specs : List Spec) (spec : Spec) (name : List ℕ) → Contains specs spec → IsTrue (takes spec name)
        → IsAskedFor (prefixes_of specs) name }
{}

/// An exclusion and an id ask for nothing, and a source with a star asks at most for its prefix
/// `refs/x/`, where the star stands after it.
pub fn what_a_refspec_asks_for()
    ensures exclusion { (spec : Spec) → IsTrue (is_exclusion spec.mode) → (spec_prefixes spec ≡ []) × (asks_for_all spec ≡ false) }
    ensures id { (source : List ℕ) → IsTrue (is_some (id_named source)) → source_prefixes source ≡ [] }
    ensures star { (source : List ℕ) (text : List ℕ) → IsTrue (has_star source) → IsTrue (list_any (bytes_eq text) (source_prefixes source))
        → IsPlainFront source text }
{}
