//! Laws of repositories that several use, over every list of events. Each is the contract of a function that does
//! nothing.

ghost use Rattle.std.specs.Prelude.{◌≡◌, ◌↔◌, ◌≢◌, ℕ, List, [], ◌∷◌, ◌++◌, None, Some, IsSome, All};
ghost use Rattle.std.specs.Prelude.{slice_get, if◌then◌else◌};
ghost use Rattle.std.specs.FinMap as map;
ghost use Rattle.std.specs.List.{AllByRecursion};
ghost use Rattle.fetch_store.specs.Closed.{IsClosed, IsStored, Grows};
ghost use Rattle.fetch_store.specs.Honest.{Pack, IsHonest};
ghost use Rattle.fetch_store.specs.Missing.{missing};
ghost use Rattle.fetch_store.specs.Stores.{AreOf, collision};
ghost use Rattle.fetch_base.specs.declared.id.ObjectId.{ObjectId};
ghost use Rattle.fetch_store.specs.declared.missing.Missing.{Missing};
ghost use Rattle.fetch_refs.specs.Expectations.{refusal_of};
ghost use Rattle.fetch_refs.specs.Names.{RefsValue};
ghost use Rattle.fetch_refs.specs.declared.edit.RefEdit.{RefEdit};
ghost use Rattle.fetch_refs.specs.declared.log.Signature.{Signature};
ghost use Rattle.fetch_remote.specs.RepositoryValues.{RepositoryValue};
ghost use Rattle.fetch_journal.specs.Deletions.{without, is_among};
ghost use Rattle.fetch_journal.specs.Fronts.{IsSound, IsEventOf, IsNamedEvent, IsStateOf, IsAlike};
ghost use Rattle.fetch_journal.specs.Machine.{State, Event, held, start, request, refusal, IsAllowed, effect, after, run};
ghost use Rattle.fetch_journal.specs.Machine.Event.{Plan, Take, Commit};
ghost use Rattle.fetch_journal.specs.Replays.{outline, replay};
ghost use Rattle.fetch_journal.specs.declared.entry.Entry.{Entry};
ghost use Rattle.fetch_journal.specs.declared.entry.Entry.TheVariants as entries;
ghost use Rattle.fetch_journal.specs.declared.error.SharedError.TheVariants.{Collision, Disconnected};

/// Whatever events come, a closed repository is closed after each of them.
pub fn a_shared_repository_stays_closed()
    ensures { (s : State) (events : List Event) → IsClosed (held s.repository) → IsClosed (held (run s events).repository) }
{}

/// A pack that is honest for a plan, taken with the wants of that plan, is never refused as disconnected, whatever
/// events came between, also takes that moved the border. Where it has no collision it is allowed: nothing is missing.
pub fn an_honest_pack_is_never_disconnected()
    ensures never { (s : State) (before between : List Event) (pass : ℕ) (wants haves : List ObjectId) (pack : Pack) (link : Missing) →
        IsSound s.repository → AllByRecursion (IsEventOf s.repository.state.hash) (before ++ Plan ∷ between)
        → AreOf s.repository.state.hash pack.objects →
        IsHonest (request (run s before) wants haves) pack
        → refusal (run s (before ++ Plan ∷ between)) (Take pass wants pack) ≢ Some (Disconnected link) }
    ensures connected { (s : State) (before between : List Event) (wants haves : List ObjectId) (pack : Pack) →
        IsSound s.repository → AllByRecursion (IsEventOf s.repository.state.hash) (before ++ Plan ∷ between)
        → AreOf s.repository.state.hash pack.objects →
        IsHonest (request (run s before) wants haves) pack → let now = (run s (before ++ Plan ∷ between)).repository in
        collision now.state.objects pack.objects ≡ None → missing (held now) wants pack ≡ [] }
    ensures allowed { (s : State) (before between : List Event) (pass : ℕ) (wants haves : List ObjectId) (pack : Pack) →
        IsSound s.repository → AllByRecursion (IsEventOf s.repository.state.hash) (before ++ Plan ∷ between)
        → AreOf s.repository.state.hash pack.objects →
        IsHonest (request (run s before) wants haves) pack → let now = run s (before ++ Plan ∷ between) in
        collision now.repository.state.objects pack.objects ≡ None → IsAllowed now (Take pass wants pack) }
{}

/// So it is where only two fronts of a journal are known, up to two objects with one id: a pack that would leave
/// something missing at the longer front isn't honest for a plan over the shorter one.
pub fn an_honest_pack_connects_at_a_later_front()
    ensures { (opening : RepositoryValue) (front more : List Entry) (planned now : RepositoryValue) (wants haves : List ObjectId)
        (pack : Pack) →
        IsStateOf opening front planned → IsStateOf opening (front ++ more) now → IsAlike planned.state.objects now.state.objects
        → IsSound planned → IsClosed (held now) →
        AreOf planned.state.hash pack.objects → collision now.state.objects pack.objects ≡ None
        → IsHonest (record { held = held planned; wants = wants; haves = haves }) pack → missing (held now) wants pack ≡ [] }
{}

/// A journal replays to what became of a repository: its references with their reflogs, the stored ids and the border,
/// and all else as it was. Each commit in it met its expectations at its place.
pub fn a_journal_replays()
    ensures replays { (r : RepositoryValue) (events : List Event)
        → let s = run (start r) events in outline s.repository ≡ replay (outline r) s.journal }
    ensures met { (r : RepositoryValue) (events : List Event) (front rest : List Entry) (pass : ℕ) (edits : List RefEdit)
        (committer : Signature) →
        (run (start r) events).journal ≡ front ++ entries.Commit pass edits committer ∷ rest
        → refusal_of (replay (outline r) front).refs.names edits ≡ None }
    ensures state { (r : RepositoryValue) (events : List Event) → AllByRecursion IsNamedEvent events
        → let s = run (start r) events in IsStateOf r s.journal s.repository }
    ensures setup { (r : RepositoryValue) (events : List Event) → (run (start r) events).repository.setup ≡ r.setup }
{}

/// What was in the journal stays there, in front. No object goes, and none gets another one's id. So what an allowed
/// take was for is stored from then on.
pub fn a_shared_repository_only_grows()
    ensures journal { (s : State) (events : List Event) → (more : List Entry) × ((run s events).journal ≡ s.journal ++ more) }
    ensures objects { (s : State) (events : List Event) → Grows s.repository.state.objects (run s events).repository.state.objects }
    ensures wants { (s : State) (pass : ℕ) (wants : List ObjectId) (pack : Pack) (later : List Event) →
        IsAllowed s (Take pass wants pack) → All (IsStored (run s (Take pass wants pack ∷ later)).repository.state.objects) wants }
{}

/// An event that is refused changes nothing and adds nothing; one that is allowed has its effect.
pub fn a_refused_event_changes_nothing()
    ensures refused { (s : State) (event : Event) → IsSome (refusal s event) → after s event ≡ s }
    ensures allowed { (s : State) (event : Event) → IsAllowed s event → after s event ≡ effect s event }
{}

/// A take is refused by a collision, and else by what it would leave missing, its wants first. A commit is refused by
/// the first edit that doesn't find what it expects.
pub fn events_are_refused_by_what_they_find()
    ensures collision { (s : State) (pass : ℕ) (wants : List ObjectId) (pack : Pack) (id : ObjectId) →
        (refusal s (Take pass wants pack) ≡ Some (Collision id)) ↔ (collision s.repository.state.objects pack.objects ≡ Some id) }
    ensures disconnected { (s : State) (pass : ℕ) (wants : List ObjectId) (pack : Pack) (link : Missing) →
        (refusal s (Take pass wants pack) ≡ Some (Disconnected link)) ↔ (collision s.repository.state.objects pack.objects ≡ None)
        × (slice_get (missing (held s.repository) wants pack) 0 ≡ Some link) }
    ensures take { (s : State) (pass : ℕ) (wants : List ObjectId) (pack : Pack) →
        IsAllowed s (Take pass wants pack) ↔ (collision s.repository.state.objects pack.objects ≡ None)
        × (missing (held s.repository) wants pack ≡ []) }
    ensures commit { (s : State) (pass : ℕ) (edits : List RefEdit) (committer : Signature) →
        IsAllowed s (Commit pass edits committer) ↔ (refusal_of s.repository.state.refs.names edits ≡ None) }
{}

/// A deletion takes the names and their reflogs, also from the packed list, and nothing else.
pub fn a_deletion_takes_names_with_their_reflogs()
    ensures names { (refs : RefsValue) (names : List (List ℕ)) (name : List ℕ)
        → map.get (without refs names).names name ≡ (if is_among names name then None else map.get refs.names name) }
    ensures logs { (refs : RefsValue) (names : List (List ℕ)) (name : List ℕ)
        → map.get (without refs names).logs name ≡ (if is_among names name then None else map.get refs.logs name) }
    ensures packed { (refs : RefsValue) (names : List (List ℕ)) (name : List ℕ)
        → map.get (without refs names).packed name ≡ (if is_among names name then None else map.get refs.packed name) }
    ensures hash { (refs : RefsValue) (names : List (List ℕ)) → (without refs names).hash ≡ refs.hash }
{}

/// A prefix of a journal leaves one repository, up to two objects with one id.
pub fn a_front_leaves_one_repository()
    ensures { (opening : RepositoryValue) (front : List Entry) (r q : RepositoryValue) → IsStateOf opening front r
        → IsStateOf opening front q → IsAlike r.state.objects q.state.objects → r ≡ q }
{}
