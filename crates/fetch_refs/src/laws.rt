//! Laws of edits, of packed texts and of ways to an id, each the contract of a function that does nothing.

ghost use Rattle.std.specs.Prelude.{◌≡◌, ◌↔◌, ℕ, Bool, true, false, List, [], ◌∷◌, ◌++◌, Some, Result, Ok};
ghost use Rattle.std.specs.FinMap as map;
ghost use Rattle.std.specs.List.{list_any};
ghost use Rattle.fetch_store.specs.Graph.{Graph};
ghost use Rattle.fetch_base.specs.declared.id.Kind.{Kind};
ghost use Rattle.fetch_base.specs.declared.id.ObjectId.{ObjectId};
ghost use Rattle.fetch_refs.specs.Edits.{refs_after};
ghost use Rattle.fetch_refs.specs.Gained.{deletes, gained};
ghost use Rattle.fetch_refs.specs.Laws.{last_that, writes, left_by, IsAlike};
ghost use Rattle.fetch_refs.specs.Leading.{EndsNames, EndsTags, IsPeeledTo};
ghost use Rattle.fetch_refs.specs.Logs.{Logging, after, lines_of, logs_after};
ghost use Rattle.fetch_refs.specs.Names.{Logs, Names, PackedList, RefsValue};
ghost use Rattle.fetch_refs.specs.Packed.{packed_text};
ghost use Rattle.fetch_refs.specs.Peeled.{peeled, resolved, through};
ghost use Rattle.fetch_refs.specs.Reading.{references_of, AreEntries, IsAnswer};
ghost use Rattle.fetch_refs.specs.declared.edit.PackedRefs.TheVariants.{Never, Only};
ghost use Rattle.fetch_refs.specs.declared.edit.RefEdit.{RefEdit};
ghost use Rattle.fetch_refs.specs.declared.error.PackedError.{PackedError};
ghost use Rattle.fetch_refs.specs.declared.error.RefError.{RefError};
ghost use Rattle.fetch_refs.specs.declared.log.Signature.{Signature};
ghost use Rattle.fetch_refs.specs.declared.target.Target.{Target};

/// At each name stands what the last edit that writes it leaves, and else what stood there.
pub fn the_last_edit_stands()
    ensures { (names : Names) (edits : List RefEdit) (name : List ℕ)
        → map.get (refs_after names edits) name ≡ left_by (map.get names name) (last_that (writes name) edits) }
{}

/// Written packed or loose, edits leave the same references and reflogs.
pub fn packed_and_loose_leave_the_same()
    ensures { (committer : Signature) (logging : Bool) (refs : RefsValue) (edits : List RefEdit)
        → IsAlike (after committer logging Only refs edits) (after committer logging Never refs edits) }
{}

/// A name's reflog holds what stood there, or nothing where an edit deletes the name, and then one line for each edit of
/// the name since then that gets one, in order.
pub fn a_reflog_gains_a_line_for_each_edit_since_the_last_deletion()
    ensures stood { (how : Logging) (names : Names) (logs : Logs) (edits : List RefEdit) (name : List ℕ)
        → list_any (deletes name) edits ≡ false
        → lines_of (logs_after how names logs edits) name ≡ lines_of logs name ++ gained how names name edits }
    ensures deleted { (how : Logging) (names : Names) (logs : Logs) (front : List RefEdit) (deletion : RefEdit) (since : List RefEdit)
        (name : List ℕ) → deletes name deletion ≡ true → list_any (deletes name) since ≡ false
        → lines_of (logs_after how names logs (front ++ deletion ∷ since)) name
        ≡ gained how (refs_after names (front ++ deletion ∷ [])) name since }
{}

/// Each text has exactly one answer: it is read as one list, or it has one first line that is refused, for one cause.
pub fn a_packed_text_has_one_answer()
    ensures some { (kind : Kind) (text : List ℕ) → (answer : Result RefsValue PackedError) × IsAnswer kind text answer }
    ensures one { (kind : Kind) (text : List ℕ) (answer : Result RefsValue PackedError) (other : Result RefsValue PackedError)
        → IsAnswer kind text answer → IsAnswer kind text other → answer ≡ other }
{}

/// What a packed list is written as is read back as that list, where its names are full and its ids of the hash.
pub fn a_packed_list_is_read_back()
    ensures { (kind : Kind) (list : PackedList) (answer : Result RefsValue PackedError) → AreEntries kind list
        → IsAnswer kind (packed_text list) answer ↔ (answer ≡ Ok (references_of kind list)) }
{}

/// A reference that stands leads by names to an id, `Unborn`, `Cycle` or `Depth` exactly where a list of distinct
/// symbolic ones leads there. Five names at most are visited; the target of the fifth is too deep unless it is one of
/// the five.
pub fn names_end_where_a_list_of_them_leads()
    ensures { (names : Names) (name : List ℕ) (target : Target) (answer : Result ObjectId RefError) → map.get names name ≡ Some target
        → (resolved names name target ≡ answer) ↔ EndsNames names name answer }
{}

/// A way of tags ends at an id, `MissingObject` or `TagCycle` exactly where a list of distinct stored tags leads there.
pub fn tags_end_where_a_list_of_them_leads()
    ensures { (graph : Graph) (first : ObjectId) (answer : Result ObjectId RefError)
        → (through graph (map.len graph) [] first ≡ answer) ↔ EndsTags graph first answer }
{}

/// A direct reference is peeled to its id, a symbolic one to where the tags after its names end, and any other name,
/// or one whose names lead to no id, is refused as its names are.
pub fn a_reference_is_peeled_along_names_and_tags()
    ensures { (names : Names) (graph : Graph) (name : List ℕ) (answer : Result ObjectId RefError)
        → (peeled names graph name ≡ answer) ↔ IsPeeledTo names graph name answer }
{}
