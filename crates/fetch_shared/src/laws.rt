//! Laws of fetches into repositories that several use. Each is the contract of a function that does nothing.

ghost use Rattle.std.specs.Prelude.{◌≡◌, ◌≢◌, ℕ, true, false, List, ◌++◌, Option, Some, Contains};
ghost use Rattle.std.specs.FinMap as map;
ghost use Rattle.fetch_store.specs.Closed.{IsStored};
ghost use Rattle.fetch_store.specs.Honest.{IsHonest};
ghost use Rattle.fetch_base.specs.declared.id.ObjectId.{ObjectId};
ghost use Rattle.fetch_store.specs.declared.missing.Missing.{Missing};
ghost use Rattle.fetch_refs.specs.declared.edit.RefEdit.{RefEdit};
ghost use Rattle.fetch_refs.specs.declared.target.Target.TheVariants.{Object};
ghost use Rattle.fetch_update.specs.Writes.{gives};
ghost use Rattle.fetch_update.specs.declared.mode.Mode.TheVariants as modes;
ghost use Rattle.fetch_update.specs.declared.update.Update.{Update};
ghost use Rattle.fetch_update.specs.declared.update.Error.{Error as UpdateError};
ghost use Rattle.fetch_pack.specs.Reading.{Contents};
ghost use Rattle.fetch_lines.specs.declared.greetings.handshake.Capability.{Capability};
ghost use Rattle.fetch_lines.specs.declared.listings.reference.Ref.{Ref};
ghost use Rattle.fetch_conversation.specs.Conversation.{HasValidReplies};
ghost use Rattle.fetch_conversation.specs.Errors.{is_worktree_fault};
ghost use Rattle.fetch_conversation.specs.Writing.{Answer, answers_text, listing_text};
ghost use Rattle.fetch_conversation.specs.declared.fetch.Error.TheVariants.{UpdateRefs};
ghost use Rattle.fetch_remote.specs.Errors.{is_free};
ghost use Rattle.fetch_remote.specs.Fetching.{apply_options_in};
ghost use Rattle.fetch_remote.specs.Form.{Given};
ghost use Rattle.fetch_remote.specs.Lasting.{updates_in};
ghost use Rattle.fetch_remote.specs.RepositoryValues.{State as Planned};
ghost use Rattle.fetch_remote.specs.Serving.{IsAllStored, IsListed, IsServed, as_dry_run, listed_by};
ghost use Rattle.fetch_remote.specs.Applying.{policy_in};
ghost use Rattle.fetch_remote.specs.Stages.{bound_of, conversation, listing_stage};
ghost use Rattle.fetch_remote.specs.Valid.{AreJudgeable};
ghost use Rattle.fetch_remote.specs.declared.fetching.fetch_error.FetchError.{FetchError};
ghost use Rattle.fetch_remote.specs.declared.fetching.fetch_error.FetchError.TheVariants.{Receive};
ghost use Rattle.fetch_remote.specs.declared.fetching.outcome.Outcome.{Outcome};
ghost use Rattle.fetch_shared.specs.Disconnected.{planned_in, found_in, refused_pack, request_in};
ghost use Rattle.fetch_shared.specs.Fetching.{Call, IsSharedFetch, IsSharedRefused, IsStopped, IsUnanswered, IsUnlisted, judged_in};
ghost use Rattle.fetch_journal.specs.Fronts.{IsAlike};
ghost use Rattle.fetch_shared.specs.Conversed.{Line};
ghost use Rattle.fetch_shared.specs.Valid.{AreJudgeableAt, HasListing, HasReplies};
ghost use Rattle.fetch_journal.specs.declared.error.SharedError.TheVariants.{Disconnected, Fetch};
ghost use Rattle.fetch_shared.specs.declared.receipt.Receipt.{Receipt};

pub use fetch_journal::laws::{
    a_deletion_takes_names_with_their_reflogs, a_front_leaves_one_repository, a_journal_replays,
    a_refused_event_changes_nothing, a_shared_repository_only_grows,
    a_shared_repository_stays_closed, an_honest_pack_connects_at_a_later_front,
    an_honest_pack_is_never_disconnected, events_are_refused_by_what_they_find,
};

/// A pack that a fetch was refused as disconnected isn't honest for that fetch's plan, with whatever haves. It is so where
/// the states at `planned` and of the front that came back have one object at each id that both hold.
pub fn a_disconnected_pack_is_not_honest()
    ensures { (line : Line) (c : Call) (receipt : Receipt) (link : Missing) (haves : List ObjectId)
        (h : IsSharedRefused line c receipt (Disconnected link)) →
        IsAlike (planned_in h).state.objects (found_in h).state.objects → IsHonest (request_in haves h) (refused_pack h) → ⊥ }
{}

/// But for a dry run, each id that an edit of a fetch that was done newly gives to a reference is stored in the state that
/// its verdicts saw.
pub fn new_ids_are_stored_there()
    ensures { (line : Line) (c : Call) (receipt : Receipt) (outcome : Outcome) (h : IsSharedFetch line c receipt outcome)
        → c.given.options.dry_run ≡ false → (e : RefEdit) (id : ObjectId) →
        Contains (updates_in outcome.status).edits e → gives e ≡ Some (Object id)
        → map.get (judged_in h).state.refs.names e.name ≢ Some (Object id) → IsStored (judged_in h).state.objects id }
{}

/// No fetch that was done tells that a source's object isn't found: it was asked for, or stored already.
pub fn every_source_is_found_there()
    ensures { (line : Line) (c : Call) (receipt : Receipt) (outcome : Outcome) → IsSharedFetch line c receipt outcome
        → (u : Update) (id : ObjectId) →
        Contains (updates_in outcome.status).updates u → u.mode ≢ modes.RejectedSourceObjectNotFound id }
{}

/// Over the states that a refusal itself tells: a peer whose replies are valid there, at least to each request that it heard
/// whole, is refused for a free cause alone; and where no mapping may be refused there, a refusal of the mappings is a fault
/// of the work trees.
pub fn valid_replies_are_never_refused_there()
    ensures listing { (line : Line) (c : Call) (receipt : Receipt) (e : FetchError) → IsUnlisted line c receipt e →
        HasValidReplies (bound_of c.given) line.old line.new (listing_stage c.given) → is_free e ≡ true }
    ensures receiving { (line : Line) (c : Call) (receipt : Receipt) (e : FetchError) (h : IsUnanswered line c receipt e) →
        HasValidReplies (bound_of c.given) line.old line.new (conversation c.given h.seen.repository.state) → is_free e ≡ true }
    ensures judging { (line : Line) (c : Call) (receipt : Receipt) (cause : UpdateError)
        (h : IsStopped line c receipt (Fetch (Receive (UpdateRefs cause)))) →
        AreJudgeable (policy_in h.unapplied.taken.seen.repository.state (apply_options_in c.given) h.unapplied.by.trees)
        h.told.listed.ref_map
        → is_worktree_fault cause ≡ true }
{}

/// What a server writes are valid replies, whatever comes after: over any state it lists references; over one where none of
/// them is wanted they are all that is asked for; and over one where some are it answers the requests up to a pack. A dry
/// run reads the same text up to the pack. No mapping may be refused at the place of the verdicts.
pub fn what_a_server_writes_are_valid_replies()
    ensures listing { (g : Given) (capabilities : List Capability) (refs : List Ref) (rest : List ℕ) → IsListed g capabilities refs
        → HasListing g (listing_text capabilities refs ++ rest) }
    ensures listed { (c : Call) (judged : Option ℕ) (s : Planned) (capabilities : List Capability) (refs : List Ref) (rest : List ℕ)
        → IsAllStored c.given s capabilities refs →
        AreJudgeableAt c judged (listed_by c.given capabilities refs).ref_map
        → HasReplies c judged s (listing_text capabilities refs ++ rest) }
    ensures served { (c : Call) (judged : Option ℕ) (s : Planned) (capabilities : List Capability) (refs : List Ref) (a : Answer)
        (answers : List Answer) (contents : Contents) (rest : List ℕ) →
        IsServed c.given s capabilities refs a answers contents → AreJudgeableAt c judged (listed_by c.given capabilities refs).ref_map →
        HasReplies c judged s (listing_text capabilities refs ++ (answers_text a answers ++ rest)) }
    ensures dry { (c : Call) (g : Given) (judged : Option ℕ) (s : Planned) (capabilities : List Capability) (refs : List Ref) (a : Answer)
        (answers : List Answer) (contents : Contents) (rest : List ℕ) →
        IsServed g s capabilities refs a answers contents
        → AreJudgeableAt (record c { given = as_dry_run g }) judged (listed_by g capabilities refs).ref_map →
        HasReplies (record c { given = as_dry_run g }) judged s (listing_text capabilities refs ++ (answers_text a answers ++ rest)) }
{}
