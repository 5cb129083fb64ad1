//! What holds of conversations with servers whose replies depend on all that was heard before, and of shares. Each law is a
//! function without a body: its clauses are proved.

ghost use Rattle.std.specs.Prelude.{◌≡◌, ◌↔◌, ◌++◌, ◌<◌, ℕ, None, sum_by, Bool, false, List, [], map, Option, Some, Result, Ok, Err};
ghost use Rattle.std.specs.Prelude.{IsTrue, ◌∷◌, ◌≤◌, true, codes, slice_get};
ghost use Rattle.std.specs.FinMap as finmap;
ghost use Rattle.std.specs.FinSet as set;
ghost use Rattle.std.specs.List.{All, Contains};
ghost use Rattle.std.specs.Option.{option_or};
ghost use Rattle.fetch_store.specs.Closed.{Holding, IsStored};
ghost use Rattle.fetch_store.specs.Missing.{missing};
ghost use Rattle.fetch_base.specs.declared.id.Kind.{Kind};
ghost use Rattle.fetch_base.specs.declared.id.ObjectId.{ObjectId};
ghost use Rattle.fetch_reach.specs.Whole.{without_lines};
ghost use Rattle.fetch_specs.specs.Conflicts.{conflicts_of};
ghost use Rattle.fetch_specs.specs.Matches.{mappings_of};
ghost use Rattle.fetch_specs.specs.Names.{is_full_name};
ghost use Rattle.fetch_specs.specs.Parses.{parsed};
ghost use Rattle.fetch_specs.specs.Prefixes.{prefixes_of};
ghost use Rattle.fetch_specs.specs.declared.found.Match.{Match};
ghost use Rattle.fetch_specs.specs.declared.operation.Operation.TheVariants.{Fetch};
ghost use Rattle.fetch_config.specs.declared.meta.Meta.{Meta};
ghost use Rattle.fetch_refs.specs.declared.log.Signature.{Signature};
ghost use Rattle.fetch_refs.specs.declared.target.Target.TheVariants.{Object};
ghost use Rattle.fetch_update.specs.Policy.{Policy, value_of};
ghost use Rattle.fetch_update.specs.Refusing.{Refuses};
ghost use Rattle.fetch_update.specs.declared.update.Error.{Error as UpdateError};
ghost use Rattle.fetch_remote.specs.RepositoryValues.{RepositoryValue};
ghost use Rattle.fetch_journal.specs.declared.entry.Entry.{Entry};
ghost use Rattle.fetch_journal.specs.declared.error.SharedError.TheVariants.{Fetch as SharedFetch};
ghost use Rattle.fetch_replies.specs.Awaited.{step_of, start_of, told_at};
ghost use Rattle.fetch_lines.specs.Lines.{line_len};
ghost use Rattle.fetch_replies.specs.LinesTold.{Tells};
ghost use Rattle.fetch_lines.specs.Requests.{first_line};
ghost use Rattle.fetch_lines.specs.Talks.{Talk, IsFront};
ghost use Rattle.fetch_lines.specs.Written.{first_too_long, lines_text};
ghost use Rattle.fetch_lines.specs.declared.greetings.handshake.Handshake.{Handshake};
ghost use Rattle.fetch_lines.specs.declared.lines.line.Line.{Line};
ghost use Rattle.fetch_map.specs.declared.mapping.Mapping.{Mapping};
ghost use Rattle.fetch_lines.specs.declared.listings.reference.Ref.{Ref};
ghost use Rattle.fetch_replies.specs.declared.replies.reply.ReplyKind.{ReplyKind};
ghost use Rattle.fetch_replies.specs.declared.replies.reply.ReplyError.TheVariants.{Short, TooLong};
ghost use Rattle.fetch_replies.specs.declared.replies.reply.ParsedReply.{ParsedReply};
ghost use Rattle.fetch_lines.specs.declared.requests.records.FetchReply.{FetchReply};
ghost use Rattle.fetch_negotiate.specs.Requests.{Asked as Request, fetch_request};
ghost use Rattle.fetch_negotiate.specs.declared.algorithm.Algorithm.TheVariants.{Noop};
ghost use Rattle.fetch_conversation.specs.Conversation.{Conversation, sent_in, answer_in, and_then, map_refusal, told_as, Concludes};
ghost use Rattle.fetch_conversation.specs.Conversation.{Breaks};
ghost use Rattle.fetch_conversation.specs.ConverseStage.{algorithm_in, lacking, no_mapping, other_hash, received, unfit};
ghost use Rattle.fetch_conversation.specs.Exchange.{FetchArgumentsValue, asked_by, failed as unreceived_by};
ghost use Rattle.fetch_conversation.specs.ListStage.{ListedValue, ls_refs_stage, no_specs, LsRefsValue, failed as unlisted_by, mapped};
ghost use Rattle.fetch_conversation.specs.ListStage.{map_of, prefixes_asked};
ghost use Rattle.fetch_conversation.specs.Served.{without_rest, IsFresh, Follows};
ghost use Rattle.fetch_conversation.specs.declared.conversing.Received.{Received};
ghost use Rattle.fetch_conversation.specs.declared.fetch.Error.{Error as ReceiveError};
ghost use Rattle.fetch_conversation.specs.declared.prepare.Error.{Error as PrepareError};
ghost use Rattle.fetch_conversation.specs.declared.ref_map.Error.{Error as ListError};
ghost use Rattle.fetch_remote.specs.Errors.{is_free, preparing, receiving};
ghost use Rattle.fetch_remote.specs.Fetched.{HasHeard};
ghost use Rattle.fetch_remote.specs.Form.{Given};
ghost use Rattle.fetch_remote.specs.Refused.{HasEnded};
ghost use Rattle.fetch_remote.specs.Repositories.{State};
ghost use Rattle.fetch_remote.specs.Stages.{Told as ToldInAll, bound_of, conversation, inquiry_in, pack_stage, terms_in};
ghost use Rattle.fetch_remote.specs.Conversed.{BreaksListing, BreaksReceiving};
ghost use Rattle.fetch_remote.specs.declared.fetching.fetch_error.FetchError.{FetchError};
ghost use Rattle.fetch_remote.specs.declared.fetching.fetch_error.FetchError.TheVariants.{Prepare};
ghost use Rattle.fetch_serve.specs.Offered.{offered_of};
ghost use Rattle.fetch_serve.specs.Packs.{pack_of};
ghost use Rattle.fetch_serve.specs.Replies.{replies_of, reply_lines};
ghost use Rattle.fetch_serve.specs.Peers.{ServedPeer, told_by};
ghost use Rattle.fetch_asked.specs.Requests.{IsRequest};
ghost use Rattle.fetch_serve.specs.Servable.{IsServable};
ghost use Rattle.fetch_serve.specs.Served.{Data};
ghost use Rattle.fetch_asked.specs.Texts.{request_bound};
ghost use Rattle.fetch_asked.specs.declared.asked.Asked.TheVariants.{First, Listing, Fetch as Fetching};
ghost use Rattle.fetch_mirror.specs.Along.{Grows, IsAlong, answer_along, sent_along};
ghost use Rattle.fetch_mirror.specs.Born.{born_names};
ghost use Rattle.fetch_mirror.specs.Copying.{fresh, given_by};
ghost use Rattle.fetch_mirror.specs.Limits.{AreWithin, IsPeersFault, IsShare, IsTooLong, IsWithin, worker_given};
ghost use Rattle.fetch_mirror.specs.Mirroring.{HasMirrored, IsFew, IsUnlisted, IsWorkerRefused};
ghost use Rattle.fetch_mirror.specs.Fetches.{AreAbove, AreNew, AreTerms, IsFetching, IsWanting, one_round, wanting_all, wanting_behind};
ghost use Rattle.fetch_mirror.specs.GoingAlong.{GoesAlong, GoesTo, IsAlongByCases};
ghost use Rattle.fetch_mirror.specs.Listings.{AreRising, IsHeard, asked_lines, greeting_of};
ghost use Rattle.fetch_mirror.specs.Naming.{inquiry_by, names_of};
ghost use Rattle.fetch_mirror.specs.Settings.{IsRead, config_from};
ghost use Rattle.fetch_mirror.specs.Shares.{IsUnderRefs, as_itself, itself_text, AreDivided, AreOnce, AreOwnNames, IsOwnMatch};
ghost use Rattle.fetch_mirror.specs.Workers.{IsListed};

/// A conversation with one who answers by a rule, where each reply is read along its one path, has the answer that these
/// replies give, whatever it is told by others.
pub fn a_conversation_goes_along<X, E>()
    ensures { (bound : ℕ) (rule : List ℕ → List ℕ) (before stream : List ℕ) (c : Conversation X E) → Grows rule
        → rule (before ++ lines_text (sent_in bound c stream)) ≡ rule before ++ stream → IsAlong bound rule before c
        → without_rest (answer_in bound c stream) ≡ answer_along bound rule before c }
{}

/// A conversation that was held to its end with a fresh peer that answers by a rule has the answer that the rule's replies
/// give; and one that broke off, but for a free refusal, has their refusal. The peer says nothing before it hears something.
pub fn a_conversation_with_a_peer_goes_along<X, E>()
    ensures concluded { (rule : List ℕ → List ℕ) (answers : Bool) (bound : ℕ) (old : Option Talk) (new : Talk) (c : Conversation X E)
        (x : X) (rest : List ℕ)
        → Grows rule → rule [] ≡ [] → IsAlong bound rule [] c → IsFresh rule old → Follows rule new
        → Concludes answers bound old (Some new) [] c x rest → answer_along bound rule [] c ≡ Ok x }
    ensures broken { (rule : List ℕ → List ℕ) (answers : Bool) (bound : ℕ) (old : Option Talk) (new : Talk) (c : Conversation X E)
        (free stopped : E → Bool) (e : E)
        → Grows rule → rule [] ≡ [] → IsAlong bound rule [] c → IsFresh rule old → Follows rule new
        → Breaks free stopped answers bound old (Some new) [] c e → free e ≡ false → answer_along bound rule [] c ≡ Err e }
{}

/// What a server heard of a conversation, also of one that broke off, is a front of what is sent along its replies.
pub fn a_server_hears_what_is_sent_along<X, E>()
    ensures by_bytes { (bound : ℕ) (rule : List ℕ → List ℕ) (before heard said to_come : List ℕ) (c : Conversation X E) → Grows rule
        → rule (before ++ heard) ≡ rule before ++ (said ++ to_come) → IsFront heard (lines_text (sent_in bound c said))
        → IsAlong bound rule before c
        → IsFront heard (lines_text (sent_along bound rule before c)) }
    ensures by_a_peer { (rule : List ℕ → List ℕ) (answers : Bool) (bound : ℕ) (old : Option Talk) (new : Talk) (c : Conversation X E)
        (free stopped : E → Bool) (e : E)
        → Grows rule → rule [] ≡ [] → IsAlong bound rule [] c → IsFresh rule old → Follows rule new
        → (h : Breaks free stopped answers bound old (Some new) [] c e) → IsFront h.heard (lines_text (sent_along bound rule [] c)) }
{}

/// Each reply is read along the path where it is whole, or read in part with no more asked behind it, or broken whatever
/// follows, or empty, of a server that gives nothing more.
pub fn each_reply_is_so_by_cases<X, E>()
    ensures { (bound : ℕ) (rule : List ℕ → List ℕ) (before : List ℕ) (c : Conversation X E) → IsAlongByCases bound rule before c
        → IsAlong bound rule before c }
{}

/// Two conversations, one after the other, go along a rule's replies where each does.
pub fn stages_go_along<X, Y, E, F>()
    ensures both { (bound : ℕ) (rule : List ℕ → List ℕ) (before after : List ℕ) (c : Conversation X E) (f : X → Conversation Y E) (x : X)
        (sent others : List Line) (answer : Result Y E)
        → GoesTo bound rule before after c sent x → GoesAlong bound rule after (f x) others answer
        → GoesAlong bound rule before (and_then c f) (sent ++ others) answer }
    ensures first { (bound : ℕ) (rule : List ℕ → List ℕ) (before : List ℕ) (c : Conversation X E) (f : X → Conversation Y E)
        (sent : List Line) (e : E)
        → GoesAlong bound rule before c sent (Err e) → GoesAlong bound rule before (and_then c f) sent (Err e) }
    ensures told_otherwise { (bound : ℕ) (rule : List ℕ → List ℕ) (before : List ℕ) (g : E → F) (c : Conversation X E) (sent : List Line)
        (answer : Result X E)
        → GoesAlong bound rule before c sent answer → GoesAlong bound rule before (told_as g c) sent (map_refusal g answer) }
{}

/// A fetch from a fresh peer that answers by a rule tells what the rule's replies tell, or is refused as they say, unless
/// freely. One tree serves for all: the whole conversation, over any state where the references weren't listed.
pub fn a_fetch_goes_along()
    ensures ended { (rule : List ℕ → List ℕ) (answers : Bool) (old : Option Talk) (new : Talk) (g : Given) (s : State) (said : List ℕ)
        (told : ToldInAll) → Grows rule → rule [] ≡ []
        → IsAlong (bound_of g) rule [] (conversation g s) → IsFresh rule old → Follows rule new
        → HasHeard answers old (Some new) g s said → HasEnded g s said told
        → answer_along (bound_of g) rule [] (conversation g s) ≡ Ok told }
    ensures unlisted { (rule : List ℕ → List ℕ) (answers : Bool) (old : Option Talk) (new : Talk) (g : Given) (s : State) (e : FetchError)
        → Grows rule → rule [] ≡ []
        → IsAlong (bound_of g) rule [] (conversation g s) → IsFresh rule old → Follows rule new
        → BreaksListing answers old (Some new) g e → is_free e ≡ false → answer_along (bound_of g) rule [] (conversation g s) ≡ Err e }
    ensures unreceived { (rule : List ℕ → List ℕ) (answers : Bool) (old : Option Talk) (new : Talk) (g : Given) (s : State) (e : FetchError)
        → Grows rule → rule [] ≡ []
        → IsAlong (bound_of g) rule [] (conversation g s) → IsFresh rule old → Follows rule new
        → BreaksReceiving answers old (Some new) g s e → is_free e ≡ false → answer_along (bound_of g) rule [] (conversation g s) ≡ Err e }
{}

/// The whole conversation of a fetch goes along a rule's replies where its listing does and then its fetch of a pack: to what
/// both tell, or to the refusal of either.
pub fn a_fetch_goes_along_by_stages()
    ensures fetched { (rule : List ℕ → List ℕ) (g : Given) (s : State) (after last : List ℕ) (sent others : List Line) (l : ListedValue)
        (r : Option Received) → no_specs (inquiry_in g) ≡ None
        → GoesTo (bound_of g) rule [] after (ls_refs_stage (bound_of g) (inquiry_in g)) sent l
        → GoesTo (bound_of g) rule after last (pack_stage g s l) others r
        → GoesAlong (bound_of g) rule [] (conversation g s) (sent ++ (others ++ [])) (Ok (record { listed = l; received = r })) }
    ensures unlisted { (rule : List ℕ → List ℕ) (g : Given) (s : State) (sent : List Line) (e : PrepareError)
        → no_specs (inquiry_in g) ≡ None
        → GoesAlong (bound_of g) rule [] (ls_refs_stage (bound_of g) (inquiry_in g)) sent (Err e)
        → GoesAlong (bound_of g) rule [] (conversation g s) sent (Err (preparing e)) }
    ensures unreceived { (rule : List ℕ → List ℕ) (g : Given) (s : State) (after : List ℕ) (sent others : List Line) (l : ListedValue)
        (e : ReceiveError) → no_specs (inquiry_in g) ≡ None
        → GoesTo (bound_of g) rule [] after (ls_refs_stage (bound_of g) (inquiry_in g)) sent l
        → GoesAlong (bound_of g) rule after (pack_stage g s l) others (Err e)
        → GoesAlong (bound_of g) rule [] (conversation g s) (sent ++ others) (Err (receiving e)) }
{}

/// A listing goes along what its server gives: its references are mapped, or the greeting or else the listing passes the bound.
pub fn a_listing_goes_along_its_server()
    ensures mapped { (d : Data) (bound : ℕ) (q : LsRefsValue) → IsHeard d q → sum_by line_len (reply_lines d First) ≤ bound
        → sum_by line_len (reply_lines d (Listing true (prefixes_asked q))) ≤ bound
        → GoesAlong bound (replies_of d) [] (ls_refs_stage bound q) (asked_lines d q)
        (mapped q (greeting_of d.hash) (offered_of d true (prefixes_asked q))) }
    ensures long_listing { (d : Data) (bound : ℕ) (q : LsRefsValue) → IsHeard d q → sum_by line_len (reply_lines d First) ≤ bound
        → bound < sum_by line_len (reply_lines d (Listing true (prefixes_asked q)))
        → GoesAlong bound (replies_of d) [] (ls_refs_stage bound q) (asked_lines d q) (Err (unlisted_by bound TooLong)) }
    ensures long_greeting { (d : Data) (bound : ℕ) (q : LsRefsValue) → IsHeard d q → bound < sum_by line_len (reply_lines d First)
        → GoesAlong bound (replies_of d) [] (ls_refs_stage bound q) ((first_line (codes ".") [] ∷ []) ++ [])
        (Err (unlisted_by bound TooLong)) }
{}

/// A server reads the one fetch request of a worker, also behind a border.
pub fn requests_of_workers_are_read()
    ensures { (hash : Kind) (a : Request) (border : List ObjectId) (id : ObjectId) (wants : List ObjectId)
        → IsWanting hash a border id wants → AreAbove hash [] border → AreNew hash [] (id ∷ wants)
        → IsRequest hash true (fetch_request a [] true) (Fetching (wanting_behind border (id ∷ wants))) }
{}

/// The prefixes that names under `refs/` ask for rise, as a server reads them.
pub fn prefixes_of_names_rise()
    ensures { (names : List (List ℕ)) → ((i : ℕ) (name : List ℕ) → slice_get names i ≡ Some name → IsUnderRefs name)
        → AreRising [] (prefixes_of (map as_itself names)) }
{}

/// The conversation of a worker goes along what its server gives: the pack of its one request is had, or nothing is wanted. A pack
/// that passes the bound is too long, and a request that is longer than a server reads is answered by nothing.
pub fn a_worker_goes_along_its_server()
    ensures fetches { (d : Data) (g : Given) (s : State) (l : ListedValue) (border : List ObjectId) (id : ObjectId)
        (wants : List ObjectId) (reply : FetchReply) (r : Option Received) → IsListed d g l
        → IsFetching d (terms_in g s l) border id wants reply
        → sum_by line_len (fetch_request (asked_by (terms_in g s l)) [] true) ≤ request_bound
        → sum_by line_len (reply_lines d (Fetching (wanting_behind border (id ∷ wants)))) ≤ bound_of g
        → received (terms_in g s l) (one_round reply) ≡ Ok r
        → GoesAlong (bound_of g) (replies_of d) [] (conversation g s) (asked_lines d (inquiry_in g)
        ++ ((fetch_request (asked_by (terms_in g s l)) [] true ++ []) ++ [])) (Ok (record { listed = l; received = r })) }
    ensures wants_nothing { (d : Data) (g : Given) (s : State) (l : ListedValue) → IsListed d g l
        → option_or (no_mapping (terms_in g s l))
        (option_or (other_hash (terms_in g s l)) (option_or (unfit (terms_in g s l).settings) (lacking (terms_in g s l)))) ≡ None
        → (terms_in g s l).view.wants ≡ []
        → GoesAlong (bound_of g) (replies_of d) [] (conversation g s) (asked_lines d (inquiry_in g) ++ ([] ++ []))
        (Ok (record { listed = l; received = None })) }
    ensures long_pack { (d : Data) (g : Given) (s : State) (l : ListedValue) (border : List ObjectId) (id : ObjectId)
        (wants : List ObjectId) (reply : FetchReply) → IsListed d g l → IsFetching d (terms_in g s l) border id wants reply
        → sum_by line_len (fetch_request (asked_by (terms_in g s l)) [] true) ≤ request_bound
        → bound_of g < sum_by line_len (reply_lines d (Fetching (wanting_behind border (id ∷ wants))))
        → GoesAlong (bound_of g) (replies_of d) [] (conversation g s) (asked_lines d (inquiry_in g)
        ++ (fetch_request (asked_by (terms_in g s l)) [] true ++ [])) (Err (receiving (unreceived_by (bound_of g) TooLong))) }
    ensures long_request { (d : Data) (g : Given) (s : State) (l : ListedValue) (border : List ObjectId) (id : ObjectId)
        (wants : List ObjectId) (reply : FetchReply) → IsListed d g l → IsFetching d (terms_in g s l) border id wants reply
        → request_bound < sum_by line_len (fetch_request (asked_by (terms_in g s l)) [] true)
        → GoesAlong (bound_of g) (replies_of d) [] (conversation g s) (asked_lines d (inquiry_in g)
        ++ (fetch_request (asked_by (terms_in g s l)) [] true ++ [])) (Err (receiving (unreceived_by (bound_of g) (Short 0)))) }
{}

/// Nothing is refused before the request of a worker, and it tells no haves.
pub fn requests_of_workers_are_made()
    ensures accepted { (hash : Kind) (t : FetchArgumentsValue) → AreTerms hash t
        → option_or (no_mapping t) (option_or (other_hash t) (option_or (unfit t.settings) (lacking t))) ≡ None }
    ensures noop { (hash : Kind) (t : FetchArgumentsValue) → AreTerms hash t → algorithm_in t.settings ≡ Noop }
{}

/// Each full name makes a refspec that fetches it as itself, by force.
pub fn names_are_read_as_themselves()
    ensures { (name : List ℕ) → IsTrue (is_full_name name) → parsed Fetch (itself_text name) ≡ Ok (as_itself name) }
{}

/// A share maps each of its names that is listed to itself, and nothing else, whatever else is listed.
pub fn shares_map_names_to_themselves()
    ensures { (names listed : List (List ℕ)) (kind : Kind) (m : Match) → AreOwnNames names → AreOnce listed
        → Contains (mappings_of (map as_itself names) listed kind) m ↔ IsOwnMatch names listed m }
{}

/// The shares divide the names: each name goes to the worker that its place says, and to no other, and none comes twice.
pub fn shares_divide_the_names()
    ensures { (workers : ℕ) (names : List (List ℕ)) → AreDivided workers names }
{}

/// A reply whose lines pass the bound is told as too long, whatever follows.
pub fn replies_that_pass_the_bound_are_too_long()
    ensures { (bound : ℕ) (awaited : ReplyKind) (lines : List Line) (rest : List ℕ) (told : ParsedReply)
        → Tells step_of (start_of awaited) lines told
        → first_too_long lines ≡ None
        → bound < sum_by line_len lines → told_at bound awaited (lines_text lines ++ rest) ≡ Err TooLong }
{}

/// The settings of a mirror are read: it tells no haves.
pub fn a_mirror_tells_no_haves()
    ensures { (meta : Meta) → IsRead (config_from meta) }
{}

/// The names that a server lists under `refs/` with an id are those of its references that are born.
pub fn names_listed_are_those_born()
    ensures { (d : Data) (unborn : Bool) → names_of (offered_of d unborn []) ≡ born_names d }
{}

/// Where lister and peers are servers of one repository, the names that are mirrored are those born there.
pub fn a_mirror_of_servers_has_their_names()
    ensures { (d : Data) → IsServable d → (committer : Signature) (workers bound : ℕ) (lister : ServedPeer) (peers : List ServedPeer)
        (repo : RepositoryValue) (journal : List Entry)
        → (h : HasMirrored (given_by d committer workers bound lister peers) repo journal) → h.names ≡ born_names d }
{}

/// Names that refspecs map to themselves aren't in conflict: whatever is listed, all names under `refs/` are mapped, and so are
/// those of a share.
pub fn names_mapped_to_themselves_are_not_in_conflict()
    ensures all { (bound : ℕ) (h : Handshake) (listed : List Ref)
        → mapped (inquiry_by bound) h listed ≡ Ok (record { ref_map = map_of (inquiry_by bound) h listed; handshake = h }) }
    ensures share { (names listed : List (List ℕ)) (kind : Kind) → AreOwnNames names → AreOnce listed
        → conflicts_of (mappings_of (map as_itself names) listed kind) ≡ [] }
{}

/// The references of a server that can be served are listed, unless its greeting or its listing passes the bound: no peer's fault
/// is told, since a server reads what a mirror asks, and whatever it lists is mapped.
pub fn servers_are_listed_unless_too_long()
    ensures { (d : Data) → IsServable d → (committer : Signature) (workers bound : ℕ) (lister : ServedPeer) (peers : List ServedPeer)
        (e : ListError) → IsUnlisted (given_by d committer workers bound lister peers).asking e → IsTooLong d bound e }
{}

/// No worker is refused while it talks with its server, over a state without a border, where nothing that passes between them is
/// too long: it is told all that it asks for, and no fault of the server, which reads what it is asked.
pub fn workers_are_told_unless_something_is_too_long()
    ensures listed { (d : Data) → IsServable d → (committer : Signature) (bound : ℕ) (share : List (List ℕ)) → IsShare d share
        → IsWithin d bound share → (peer : ServedPeer) (e : FetchError) → IsPeersFault d peer e
        → BreaksListing true (told_by (fresh d)) (told_by peer) (worker_given d committer bound share) e → ⊥ }
    ensures received { (d : Data) → IsServable d → (committer : Signature) (bound : ℕ) (share : List (List ℕ)) → IsShare d share
        → IsWithin d bound share → (peer : ServedPeer) (e : FetchError) → IsPeersFault d peer e → (s : State) → s.border ≡ set.empty
        → BreaksReceiving true (told_by (fresh d)) (told_by peer) (worker_given d committer bound share) s e → ⊥ }
{}

/// Nothing is missing where the pack of a worker's wants is taken, whatever is stored by then.
pub fn packs_of_workers_leave_nothing_missing()
    ensures { (d : Data) → IsServable d → (wants : List ObjectId) → All (IsStored d.objects) wants → (now : Holding)
        → missing now wants (without_lines (pack_of d (wanting_all wants)).objects) ≡ [] }
{}

/// No mapping of an id to a name that is absent is refused.
pub fn new_names_are_never_refused()
    ensures { (p : Policy) (m : Mapping) (name : List ℕ) (id : ObjectId) (e : UpdateError) → m.local ≡ Some name
        → IsTrue (is_full_name name) → value_of m.remote ≡ Object id → finmap.get p.names name ≡ None → Refuses p m e → ⊥ }
{}

/// Nothing that a mirror asks for its references is refused, neither its lister nor a worker, where nothing is too long.
pub fn references_are_listed_unless_something_is_too_long()
    ensures lister { (d : Data) → IsServable d → (committer : Signature) (workers bound : ℕ) → AreWithin d workers bound
        → (lister : ServedPeer) (peers : List ServedPeer) (e : ListError)
        → IsUnlisted (given_by d committer workers bound lister peers).asking e → ⊥ }
    ensures worker { (d : Data) → IsServable d → (committer : Signature) (workers bound : ℕ) → IsFew workers → AreWithin d workers bound
        → (lister : ServedPeer) (peers : List ServedPeer) (index : ℕ) (cause : PrepareError)
        → IsWorkerRefused (given_by d committer workers bound lister peers) index (SharedFetch (Prepare cause)) → ⊥ }
{}
