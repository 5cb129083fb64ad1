//! Laws: what holds of the definitions that the contract of a fetch speaks of. Each is the contract of a function
//! without a body, but that the last one calls what it speaks of.

ghost use Rattle.std.specs.Prelude.{◌≡◌, ◌≢◌, ℕ, Bool, List, ◌++◌, map as each, Option, Some, None, Ok, true, false, Contains, IfSome};
ghost use Rattle.std.specs.Prelude.{IfOk, IfErr};
ghost use Rattle.std.specs.FinMap as map;
ghost use Rattle.fetch_pack.specs.Reading.{Contents};
ghost use Rattle.fetch_store.specs.Closed.{IsClosed, IsStored, Grows};
ghost use Rattle.fetch_store.specs.Honest.{IsHonest};
ghost use Rattle.fetch_store.specs.Stores.{collision};
ghost use Rattle.fetch_files.specs.Trees.{Tree};
ghost use Rattle.fetch_base.specs.declared.id.ObjectId.{ObjectId};
ghost use Rattle.fetch_base.specs.declared.id.Kind.{Kind};
ghost use Rattle.fetch_specs.specs.Matches.{mappings_of};
ghost use Rattle.fetch_specs.specs.Specs.{Spec};
ghost use Rattle.fetch_refs.specs.declared.edit.RefEdit.{RefEdit};
ghost use Rattle.fetch_refs.specs.declared.target.Target.TheVariants.{Object};
ghost use Rattle.fetch_update.specs.Writes.{gives};
ghost use Rattle.fetch_update.specs.declared.mode.Mode.TheVariants as modes;
ghost use Rattle.fetch_update.specs.declared.update.Update.{Update};
ghost use Rattle.fetch_update.specs.declared.worktrees.Worktree.{Worktree};
ghost use Rattle.fetch_lines.specs.Talks.{Talk};
ghost use Rattle.fetch_lines.specs.declared.greetings.handshake.Capability.{Capability};
ghost use Rattle.fetch_map.specs.declared.mapping.RefMap.{RefMap};
ghost use Rattle.fetch_lines.specs.declared.listings.reference.Ref.{Ref};
ghost use Rattle.fetch_lines.specs.References.{name_in};
ghost use Rattle.fetch_conversation.specs.Mapped.{ref_mappings};
ghost use Rattle.fetch_conversation.specs.Writing.{Answer, listing_text, answers_text};
ghost use Rattle.fetch_conversation.specs.declared.conversing.Received.{Received};
ghost use Rattle.fetch_remote.specs.Deleting.{IsDeleted};
ghost use Rattle.fetch_remote.specs.Fetched.{IsFetched, request_in};
ghost use Rattle.fetch_remote.specs.Fetching.{fetched_in, requests_in};
ghost use Rattle.fetch_negotiate.specs.Rounds.{haves_in};
ghost use Rattle.fetch_remote.specs.Form.{Given};
ghost use Rattle.fetch_remote.specs.Lasting.{updates_in, AcceptsNone, AreAlike, with_packed};
ghost use Rattle.fetch_remote.specs.Mapped.{MapsEach};
ghost use Rattle.fetch_remote.specs.Repositories.{RepositoryValue, State, held};
ghost use Rattle.fetch_remote.specs.Requested.{AsksInOrder};
ghost use Rattle.fetch_remote.specs.Serving.{listed_by, IsAllStored, IsServed, told_listed, told_served, as_dry_run, told_dry};
ghost use Rattle.fetch_remote.specs.Applying.{connected, pack_of};
ghost use Rattle.fetch_remote.specs.Stages.{wants_in};
ghost use Rattle.fetch_remote.specs.Valid.{IsTakeable, AreJudgeable, policy_with, IsValidInput};
ghost use Rattle.fetch_remote.specs.declared.fetching.outcome.Outcome.{Outcome};
ghost use Rattle.fetch_remote.specs.declared.repository.open_error.OpenError.TheVariants as open_errors;

use crate::repository::Repository;
use crate::repository::open_error::OpenError;
use std::alloc::Global;

/// What a peer is sent is the first line, the listing request, and then the fetch requests for what is wanted of what it
/// listed, one a round, each exactly where nothing refuses it; and nothing else.
pub fn a_fetch_asks_in_order()
    ensures { (g : Given) (s : State) (stream : List ℕ) → AsksInOrder g s stream (requests_in g s stream) }
{}

/// Each match of a refspec is a mapping of what was listed, in order, with the match's source, destination and refspec.
pub fn every_match_is_mapped()
    ensures { (remote : ℕ) (specs : List Spec) (kind : Kind) (refs : List Ref)
        → MapsEach remote (mappings_of specs (each name_in refs) kind) (ref_mappings remote specs kind refs) }
{}

/// A pack that is honest for what a fetch wants and for the haves of all its rounds is never told as disconnected in a
/// closed repository.
pub fn an_honest_pack_is_never_disconnected()
    ensures { (g : Given) (s : State) (m : RefMap) (r : Received) → IsClosed (held s) → collision s.objects r.objects ≡ None
        → IsHonest (request_in g s m (haves_in r.negotiate.rounds)) (pack_of r)
        → connected s (wants_in g s m) (pack_of r) ≡ Ok tt }
{}

/// What a server writes is valid input of a fetch, whatever comes after: it lists references of which none is wanted, or it
/// lists them and answers the requests up to a pack that may be taken. What it writes for a fetch is valid input of a dry
/// run too, whatever the pack links to. In each case no mapping may be refused.
pub fn what_a_server_serves_is_valid()
    ensures listed { (g : Given) (trees : List Worktree) (s : State) (capabilities : List Capability) (refs : List Ref) (rest : List ℕ)
        → IsAllStored g s capabilities refs
        → AreJudgeable (policy_with g trees s (told_listed g capabilities refs)) (listed_by g capabilities refs).ref_map
        → IsValidInput g trees s (listing_text capabilities refs ++ rest) }
    ensures served { (g : Given) (trees : List Worktree) (s : State) (capabilities : List Capability) (refs : List Ref) (a : Answer)
        (answers : List Answer) (contents : Contents) (rest : List ℕ) → IsServed g s capabilities refs a answers contents
        → IfSome (told_served g s capabilities refs a answers contents).received
        (IsTakeable s (wants_in g s (listed_by g capabilities refs).ref_map))
        → AreJudgeable (policy_with g trees s (told_served g s capabilities refs a answers contents))
        (listed_by g capabilities refs).ref_map
        → IsValidInput g trees s (listing_text capabilities refs ++ (answers_text a answers ++ rest)) }
    ensures dry { (g : Given) (trees : List Worktree) (s : State) (capabilities : List Capability) (refs : List Ref) (a : Answer)
        (answers : List Answer) (contents : Contents) (rest : List ℕ) → IsServed g s capabilities refs a answers contents
        → AreJudgeable (policy_with (as_dry_run g) trees s (told_dry (told_served g s capabilities refs a answers contents)))
        (listed_by g capabilities refs).ref_map
        → IsValidInput (as_dry_run g) trees s (listing_text capabilities refs ++ (answers_text a answers ++ rest)) }
{}

/// A fetch only adds to the objects, and a dry run changes nothing.
pub fn a_fetch_keeps_what_is_stored()
    ensures grows { (answers : Bool) (old new : Option Talk) (known : Option (List Worktree)) (files files_left : Option Tree) (g : Given)
        (before after : State) (outcome : Outcome) → IsFetched answers old new known files files_left g before after outcome
        → Grows before.objects after.objects }
    ensures dry { (answers : Bool) (old new : Option Talk) (known : Option (List Worktree)) (files files_left : Option Tree) (g : Given)
        (before after : State) (outcome : Outcome) → IsFetched answers old new known files files_left g before after outcome
        → g.options.dry_run ≡ true → after ≡ before }
{}

/// A reference that no accepted update has an edit of keeps its value.
pub fn other_references_keep_their_values()
    ensures { (answers : Bool) (old new : Option Talk) (known : Option (List Worktree)) (files files_left : Option Tree) (g : Given)
        (before after : State) (outcome : Outcome) → IsFetched answers old new known files files_left g before after outcome
        → (name : List ℕ) → AcceptsNone (updates_in outcome.status) name → map.get after.refs.names name ≡ map.get before.refs.names name }
{}

/// But for a dry run, each id that an edit newly gives to a reference is stored.
pub fn new_ids_are_stored()
    ensures { (answers : Bool) (old new : Option Talk) (known : Option (List Worktree)) (files files_left : Option Tree) (g : Given)
        (before after : State) (outcome : Outcome) → IsFetched answers old new known files files_left g before after outcome
        → g.options.dry_run ≡ false → (e : RefEdit) (id : ObjectId) → Contains (updates_in outcome.status).edits e
        → gives e ≡ Some (Object id) → map.get before.refs.names e.name ≢ Some (Object id) → IsStored after.objects id }
{}

/// No fetch that was done tells that a source's object isn't found: it is asked for, or stored already.
pub fn every_source_is_found()
    ensures { (answers : Bool) (old new : Option Talk) (known : Option (List Worktree)) (files files_left : Option Tree) (g : Given)
        (before after : State) (outcome : Outcome) → IsFetched answers old new known files files_left g before after outcome
        → (u : Update) (id : ObjectId) → Contains (updates_in outcome.status).updates u → u.mode ≢ modes.RejectedSourceObjectNotFound id }
{}

/// Written packed or loose, a fetch tells the same and leaves the same, packed lists aside.
pub fn packed_and_loose_fetches_leave_the_same()
    ensures { (g : Given) (only other : Bool) (trees : List Worktree) (s : State) (stream : List ℕ) (outcome : Outcome) (a : State)
        → fetched_in (with_packed only g) trees s stream ≡ Ok (outcome, a)
        → (b : State) × (fetched_in (with_packed other g) trees s stream ≡ Ok (outcome, b)) × AreAlike a b }
{}

/// A deletion that follows another of the same branches leaves all as it is, where nothing changes between.
pub fn a_second_deletion_changes_nothing()
    ensures { (trees more : Option (List Worktree)) (t u v : Tree) (names : List (List ℕ)) (before between after : RepositoryValue)
        → IsDeleted trees (Some t) (Some u) names before between → IsDeleted more (Some u) (Some v) names between after
        → (after ≡ between) × (v ≡ u) }
{}

/// `from_parts` of a repository's parts is that repository again. Memory alone may refuse it.
#[tactic(auto, using(crate::proofs::Overrides::memory_alone))]
pub fn parts_make_their_repository(alloc: Global, repo: Repository) -> Result<Repository, OpenError>
    ensures same { IfOk result (λ again. again ≡ repo) }
    ensures refused { IfErr result (λ e. e ≡ open_errors.NoMemory) }
{
    Repository::from_parts(alloc, repo.into_parts())
}
