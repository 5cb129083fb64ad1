//! What holds of every conversation.

ghost use Rattle.std.specs.Prelude.{◌≡◌, ℕ, suc, ◌+◌, ◌++◌, Bool, true, false, List, [], Option, Some, Result, Ok, Err};
ghost use Rattle.std.specs.FinMap as map;
ghost use Rattle.fetch_lines.specs.Talks.{Talk};
ghost use Rattle.fetch_lines.specs.declared.lines.line.Line.{Line};
ghost use Rattle.fetch_store.specs.Graph.{Graph};
ghost use Rattle.fetch_negotiate.specs.declared.algorithm.Algorithm.{Algorithm};
ghost use Rattle.fetch_negotiate.specs.declared.algorithm.Round.{Round};
ghost use Rattle.fetch_pack.specs.Reading.{Contents};
ghost use Rattle.fetch_lines.specs.Greetings.{handshake_of};
ghost use Rattle.fetch_lines.specs.declared.greetings.handshake.Capability.{Capability};
ghost use Rattle.fetch_lines.specs.declared.listings.reference.Ref.{Ref};
ghost use Rattle.fetch_conversation.specs.Conversation.{Conversation, Concludes, Breaks, HasValidReplies, sent_in, answer_in};
ghost use Rattle.fetch_conversation.specs.ConverseStage.{converse_stage, with_pack};
ghost use Rattle.fetch_conversation.specs.Exchange.{FetchArgumentsValue};
ghost use Rattle.fetch_conversation.specs.ListStage.{LsRefsValue, list_stage, map_of};
ghost use Rattle.fetch_conversation.specs.Requested.{TellsRounds};
ghost use Rattle.fetch_conversation.specs.Rounds.{first_rounds_state, negotiating};
ghost use Rattle.fetch_conversation.specs.declared.conversing.Received.{Received};
ghost use Rattle.fetch_conversation.specs.declared.conversing.View.{View};
ghost use Rattle.fetch_conversation.specs.Served.{answer_with, AsksOnly, Serves, IsAnswered, IsFresh, Follows};
ghost use Rattle.fetch_conversation.specs.Writing.{Answer, IsAskable, IsListing, listing_text, IsPacking, negotiated_in, answers_text};

/// A conversation that was held to its end with a peer that answers request by request has the answer that these
/// replies give; and one that broke off, but for a free refusal, has their refusal.
pub fn a_served_conversation<X, E>()
    ensures concluded { (is_request : List Line → Bool) (rule : List ℕ → List ℕ) (serve : List Line → List ℕ) (answers : Bool) (bound : ℕ)
        (old : Option Talk) (new : Talk) (c : Conversation X E) (x : X) (rest : List ℕ)
        → Serves is_request rule serve → AsksOnly is_request c → IsAnswered bound serve c → IsFresh rule old → Follows rule new
        → Concludes answers bound old (Some new) [] c x rest → answer_with bound serve c ≡ Ok x }
    ensures broken { (is_request : List Line → Bool) (rule : List ℕ → List ℕ) (serve : List Line → List ℕ) (answers : Bool) (bound : ℕ)
        (old : Option Talk) (new : Talk) (c : Conversation X E) (free stopped : E → Bool) (e : E)
        → Serves is_request rule serve → AsksOnly is_request c → IsAnswered bound serve c → IsFresh rule old → Follows rule new
        → Breaks free stopped answers bound old (Some new) [] c e → free e ≡ false → answer_with bound serve c ≡ Err e }
{}

/// A peer whose replies are valid, at least to each request that it heard whole, is never refused but for a free cause.
pub fn valid_replies_are_never_refused<X, E>()
    ensures { (free stopped : E → Bool) (answers : Bool) (bound : ℕ) (old new : Option Talk) (c : Conversation X E) (e : E)
        → Breaks free stopped answers bound old new [] c e → HasValidReplies bound old new c → free e ≡ true }
{}

/// Whatever a peer says, what is sent to it for a pack are the requests of rounds: each tells the ids acknowledged before
/// it, in the order in which each first was, and then the next window of the algorithm, and has `done` exactly where that
/// window isn't full; a request with `done` is the last. Where something is received, it tells these rounds.
pub fn requests_tell_rounds()
    ensures sent { (bound : ℕ) (g : Graph) (t : FetchArgumentsValue) (stream : List ℕ) → (rounds : List Round)
        × TellsRounds g t (sent_in bound (converse_stage bound g t) stream) rounds }
    ensures received { (bound : ℕ) (g : Graph) (t : FetchArgumentsValue) (stream : List ℕ) (r : Received) (rest : List ℕ)
        → answer_in bound (converse_stage bound g t) stream ≡ Ok (Some r, rest)
        → TellsRounds g t (sent_in bound (converse_stage bound g t) stream) r.negotiate.rounds }
{}

/// As many rounds as there are stored objects, and one, are never used up: were more allowed, the same would be sent and
/// answered.
pub fn rounds_are_never_used_up()
    ensures sent { (bound more : ℕ) (t : FetchArgumentsValue) (g : Graph) (algorithm : Algorithm) (view : View) (stream : List ℕ)
        → sent_in bound (negotiating (suc (map.len g) + more) bound t g algorithm (first_rounds_state algorithm view)) stream
        ≡ sent_in bound (negotiating (suc (map.len g)) bound t g algorithm (first_rounds_state algorithm view)) stream }
    ensures answered { (bound more : ℕ) (t : FetchArgumentsValue) (g : Graph) (algorithm : Algorithm) (view : View) (stream : List ℕ)
        → answer_in bound (negotiating (suc (map.len g) + more) bound t g algorithm (first_rounds_state algorithm view)) stream
        ≡ answer_in bound (negotiating (suc (map.len g)) bound t g algorithm (first_rounds_state algorithm view)) stream }
{}

/// What a server writes is read to its end: its greeting and its references are listed, and its answers to the requests
/// bring the pack, whatever comes after.
pub fn what_a_server_writes_is_heard()
    ensures listed { (bound : ℕ) (q : LsRefsValue) (capabilities : List Capability) (refs : List Ref) (rest : List ℕ)
        → IsAskable q (handshake_of capabilities) → IsListing bound q capabilities refs
        → answer_in bound (list_stage bound q) (listing_text capabilities refs ++ rest)
        ≡ Ok (record { ref_map = map_of q (handshake_of capabilities) refs; handshake = handshake_of capabilities }, rest) }
    ensures received { (bound : ℕ) (g : Graph) (t : FetchArgumentsValue) (a : Answer) (answers : List Answer) (contents : Contents)
        (rest : List ℕ)
        → IsPacking bound t g a answers contents
        → answer_in bound (converse_stage bound g t) (answers_text a answers ++ rest)
        ≡ Ok (Some (with_pack (negotiated_in t g a answers) contents), rest) }
{}
