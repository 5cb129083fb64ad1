//! What the definitions of lines and replies say, in other words.

ghost use Rattle.std.specs.Prelude.{◌≡◌, ◌<◌, List, [], ℕ, ◌++◌};
ghost use Rattle.fetch_lines.specs.Cutting.{in_pieces};
ghost use Rattle.fetch_lines.specs.Requests.{agent_text};
ghost use Rattle.fetch_lines.specs.Lines.{line_at};
ghost use Rattle.std.specs.Prelude.{Ok};
ghost use Rattle.fetch_lines.specs.declared.lines.line.Line.{Line};
ghost use Rattle.fetch_lines.specs.LineLaws.{IsLine};
ghost use Rattle.fetch_lines.specs.SectionLaws.{IsSettled};
ghost use Rattle.std.specs.List.{concat};
ghost use Rattle.fetch_replies.specs.declared.replies.reply.ReplyKind.{ReplyKind};
ghost use Rattle.fetch_replies.specs.declared.replies.parser.ReplyParser.{ReplyParser};
ghost use Rattle.fetch_replies.specs.Awaited.{step_of, told_from, told_at};
ghost use Rattle.fetch_replies.specs.Stepping.{after_line};
ghost use Rattle.fetch_replies.specs.StepLaws as reply;
ghost use Rattle.std.specs.Prelude.{◌≢◌, ◌+◌, ◌≤◌, None};
ghost use Rattle.fetch_replies.specs.declared.replies.reply.ParsedReply.{ParsedReply};
ghost use Rattle.fetch_lines.specs.declared.lines.line.Line.TheVariants.{End};
ghost use Rattle.fetch_replies.specs.Awaited.{start_of};
ghost use Rattle.fetch_lines.specs.Feeding.{Feeding, fed, found_in, next_in, behind_next};
ghost use Rattle.fetch_wire.specs.SessionStates.{SessionState};
ghost use Rattle.fetch_wire.specs.SessionStates as session;
ghost use Rattle.fetch_lines.specs.Talks.{IsFront};
ghost use Rattle.fetch_lines.specs.declared.requests.records.Request.{Request};
ghost use Rattle.fetch_wire.specs.declared.session.turn.Turn.TheVariants as turns;
ghost use Rattle.std.specs.Prelude.{Bool, length, drop};
ghost use Rattle.fetch_replies.specs.LinesTold.{Writes, Tells};
ghost use Rattle.fetch_replies.specs.NamesTold.{NamesOnce, AreNamedOnce};
ghost use Rattle.fetch_lines.specs.ServerLines.{greeting_lines, IsTellable, listing_lines_of, IsListable, IsIdOf, round_lines, in_round};
ghost use Rattle.fetch_lines.specs.ServerLines.{BorderChange, IsChangeOf, change_lines, last_lines, at_last, with_change, ready_lines};
ghost use Rattle.fetch_lines.specs.ServerLines.{bands_of};
ghost use Rattle.fetch_lines.specs.AdvertisementLines.{advertisement_lines};
ghost use Rattle.fetch_wire.specs.Advertisable.{IsOneWord, IsAdvertisable};
ghost use Rattle.fetch_replies.specs.Advertisements.{handshake_1, is_null};
ghost use Rattle.fetch_lines.specs.Greetings.{handshake_of};
ghost use Rattle.fetch_lines.specs.FetchRecords.{no_reply};
ghost use Rattle.fetch_lines.specs.KnownIds.{each_once, has_id};
ghost use Rattle.fetch_lines.specs.Requests.{text_line};
ghost use Rattle.fetch_lines.specs.Written.{lines_text, first_too_long};
ghost use Rattle.fetch_lines.specs.declared.greetings.handshake.Capability.{Capability};
ghost use Rattle.fetch_lines.specs.declared.listings.reference.Ref.{Ref};
ghost use Rattle.fetch_base.specs.declared.id.Kind.{Kind};
ghost use Rattle.fetch_base.specs.declared.id.ObjectId.{ObjectId};
ghost use Rattle.fetch_replies.specs.declared.replies.reply.ReplyKind.TheVariants as await;
ghost use Rattle.std.specs.Prelude.{All, Option, Some, IfSome, false, sum_by, codes, ◌∷◌};
ghost use Rattle.std.specs.Prelude.{true};
ghost use Rattle.std.specs.Prelude.{◌↔◌, Err};
ghost use Rattle.fetch_replies.specs.Bounds.{IsTooLong};
ghost use Rattle.fetch_replies.specs.declared.replies.reply.ReplyError.TheVariants as fault;
ghost use Rattle.fetch_replies.specs.declared.replies.reply.ReplyContext.{ReplyContext};
ghost use Rattle.fetch_replies.specs.declared.replies.reply.ReplyKind.TheVariants.{Reply};
ghost use Rattle.fetch_replies.specs.declared.replies.reply.ParsedReply.TheVariants as told;
ghost use Rattle.fetch_lines.specs.Bands.{Band, pack_lines, packed};
ghost use Rattle.fetch_lines.specs.Lines.{line_len};
ghost use Rattle.fetch_lines.specs.Written.{line_text, too_long_in};
ghost use Rattle.fetch_wire.specs.AdvertisementSpellings.{IsAdvertisement};
ghost use Rattle.fetch_wire.specs.Spellings.{IsGreeting, IsListing, IsReply};
ghost use Rattle.fetch_lines.specs.declared.greetings.handshake.Handshake.{Handshake};
ghost use Rattle.fetch_lines.specs.declared.requests.records.FetchReply.{FetchReply};

/// A line that was read is four digits of either case that write its number, and its payload, within the bound.
pub fn lines_are_read_as_written()
    ensures { (bound place : ℕ) (bytes rest : List ℕ) (line : Line) → line_at bound place bytes ≡ Ok (line, rest)
        → IsLine bound place line rest bytes }
{}

/// What bytes tell of a reply stays when more bytes come: a reply that is whole, and bytes that can't become one.
pub fn replies_stay()
    ensures { (bound : ℕ) (awaited : ReplyKind) (bytes more : List ℕ) → reply.IsSettled (told_at bound awaited bytes)
        → told_at bound awaited (bytes ++ more) ≡ reply.with_more (told_at bound awaited bytes) more }
{}

/// However a reply is cut into pieces, it tells the same, is refused for the same, and breaks at the same place.
pub fn replies_are_read_in_pieces()
    ensures { (bound : ℕ) (awaited : ReplyKind) (pieces : List (List ℕ))
        → reply.in_pieces (told_at bound awaited) [] pieces ≡ told_at bound awaited (concat pieces) }
{}

/// A reply is what its first line does, and what comes after that line.
pub fn replies_are_read_line_by_line()
    ensures { (bound : ℕ) (reading : ReplyParser) (place : ℕ) (bytes : List ℕ)
        → told_from bound reading place bytes ≡ after_line (line_at bound place bytes) (reply.line_then step_of bound reading place) }
{}

/// `git/` is put before an agent that lacks it, and once.
pub fn agents_are_named_once()
    ensures { (agent : List ℕ) → agent_text (agent_text agent) ≡ agent_text agent }
{}

/// Bytes that are cut into pieces are the pieces one after another.
pub fn pieces_are_the_bytes()
    ensures { (size : ℕ) (bytes : List ℕ) → 0 < size → concat (in_pieces size bytes) ≡ bytes }
{}

/// Four digits of either case that write a line's number, and its payload, are read as that line.
pub fn lines_are_read_in_either_case()
    ensures { (bound place : ℕ) (bytes rest : List ℕ) (line : Line) → IsLine bound place line rest bytes
        → line_at bound place bytes ≡ Ok (line, rest) }
{}

/// What is written of a line that fits is read as that line.
pub fn written_lines_are_read()
    ensures { (bound place : ℕ) (line : Line) (rest : List ℕ) → line ≢ End → too_long_in line ≡ None
        → place + line_len line ≤ bound → line_at bound place (line_text line ++ rest) ≡ Ok (line, rest) }
{}

/// Lines that tell a reply tell it in any case of their digits, whatever comes after.
pub fn replies_are_read_in_either_case()
    ensures { (bound : ℕ) (awaited : ReplyKind) (lines : List Line) (told : ParsedReply) (rest bytes : List ℕ)
        → Writes bound 0 lines rest bytes → Tells step_of (start_of awaited) lines told → told_at bound awaited bytes ≡ Ok (told, rest) }
{}

/// A listing that was read, of either version, names each reference once.
pub fn references_are_named_once()
    ensures { (bound : ℕ) (awaited : ReplyKind) (bytes rest : List ℕ) (told : ParsedReply) → told_at bound awaited bytes ≡ Ok (told, rest)
        → NamesOnce told }
{}

/// A line that a reader gave, or refused, before more bytes were fed is the one that it gives or refuses after them,
/// and it leaves the same.
pub fn lines_stay()
    ensures { (feeding : Feeding) (more : List ℕ) → IsSettled (found_in feeding)
        → (next_in (fed feeding more) ≡ next_in feeding) × (behind_next (fed feeding more) ≡ fed (behind_next feeding) more) }
{}

/// A pack is read from bands, however it is cut into them, and texts of progress may stand between.
pub fn packs_are_read_from_any_bands()
    ensures { (asked : ReplyContext) (bands : List Band) → asked.done ≡ true → asked.read_pack ≡ true
        → Tells step_of (start_of (Reply asked)) (pack_lines bands) (told.Reply (packed bands)) }
{}

/// A session that is fed in pieces, however they are cut, is the one that is fed all of them at once.
pub fn sessions_are_fed_in_pieces()
    ensures { (s : SessionState) (piece others : List ℕ) → session.fed (session.fed s piece) others ≡ session.fed s (piece ++ others) }
{}

/// Sessions that differ only in how much of the awaited reply was read stay so, whatever they are fed.
pub fn sessions_stay_alike()
    ensures { (a b : SessionState) (piece : List ℕ) → session.IsAlike a b → session.IsAlike (session.fed a piece) (session.fed b piece) }
{}

/// Sessions that differ only in how much of the awaited reply was read stay so where the peer's bytes end.
pub fn sessions_end_alike()
    ensures { (a b : SessionState) → session.IsAlike a b → session.IsAlike (session.ended a) (session.ended b) }
{}

/// It is the same turn in both of such sessions. Where nothing is awaited they are one, and so they are after a request.
pub fn sessions_take_turns_alike()
    ensures { (a b : SessionState) → session.IsAlike a b → (session.turn_of a ≡ session.turn_of b)
        × (session.turn_of a ≡ turns.Idle → a ≡ b) }
{}

/// A request to either of such sessions makes them alike again.
pub fn sessions_request_alike()
    ensures { (a b : SessionState) (r : Request) (read_pack : Bool) → session.IsAlike a b → session.turn_of a ≡ turns.Idle
        → session.IsAlike (session.requested a r read_pack) (session.requested b r read_pack) }
{}

/// Bytes that are fed add to what is to be sent, and take nothing from it.
pub fn feeding_adds_to_what_is_sent()
    ensures { (s : SessionState) (piece : List ℕ) → IsFront s.outgoing (session.fed s piece).outgoing }
{}

/// What is to be sent may be sent before bytes are fed or after: the session is the same.
pub fn sending_and_feeding_commute()
    ensures { (s : SessionState) (piece : List ℕ) (n : ℕ) → n ≤ length s.outgoing
        → session.fed (record s { outgoing = drop n s.outgoing }) piece
        ≡ record (session.fed s piece) { outgoing = drop n (session.fed s piece).outgoing } }
{}

/// Lines that tell a reply, and fit, tell it as they are written, whatever comes after.
pub fn replies_are_read_as_written()
    ensures { (bound : ℕ) (awaited : ReplyKind) (lines : List Line) (told : ParsedReply) (rest : List ℕ)
        → Tells step_of (start_of awaited) lines told → first_too_long lines ≡ None → sum_by line_len lines ≤ bound
        → told_at bound awaited (lines_text lines ++ rest) ≡ Ok (told, rest) }
{}

/// A greeting is read back.
pub fn greetings_are_read_back()
    ensures { (capabilities : List Capability) → All IsTellable capabilities
        → Tells step_of (start_of await.Greeting) (greeting_lines capabilities) (told.Greeting (handshake_of capabilities)) }
{}

/// A listing of references with names of their own is read back.
pub fn listings_are_read_back()
    ensures { (kind : Kind) (refs : List Ref) → All (IsListable kind) refs → AreNamedOnce refs
        → Tells step_of (start_of (await.Listing kind)) (listing_lines_of refs) (told.Listing refs) }
{}

/// An advertisement of version 1 is read back, of references with names of their own or of none, and with the border.
pub fn advertisements_are_read_back()
    ensures { (null : ObjectId) (capabilities : List Capability) (refs : List Ref) (border : List ObjectId) → All IsTellable capabilities
        → All IsOneWord capabilities → IsIdOf (handshake_1 capabilities).object_hash null → is_null null ≡ true
        → All (IsAdvertisable (handshake_1 capabilities).object_hash capabilities) refs → AreNamedOnce refs
        → All (IsIdOf (handshake_1 capabilities).object_hash) border
        → Tells step_of (start_of await.Greeting) (advertisement_lines null capabilities refs border)
        (told.Advertisement (handshake_1 capabilities) refs) }
{}

/// Acknowledgments of haves are read back, where the request doesn't end the rounds.
pub fn rounds_are_read_back()
    ensures { (asked : ReplyContext) (ids : List ObjectId) → asked.done ≡ false → All (IsIdOf asked.kind) ids
        → All (λ id. has_id id asked.haves ≡ true) ids
        → Tells step_of (start_of (Reply asked)) (round_lines ids) (told.Reply (in_round ids)) }
{}

/// The reply to `done` is read back: the border's change, where it is told, and the pack, however it is cut into bands.
pub fn last_replies_are_read_back()
    ensures { (asked : ReplyContext) (change : Option BorderChange) (bands : List Band) → asked.done ≡ true → asked.read_pack ≡ true
        → IfSome change (IsChangeOf asked.kind)
        → Tells step_of (start_of (Reply asked)) (last_lines change bands) (told.Reply (at_last change bands)) }
{}

/// Bands of a pack hold it, and no progress.
pub fn bands_hold_the_pack()
    ensures { (pack : List ℕ) → packed (bands_of pack) ≡ record no_reply { pack = Some pack } }
{}

/// Where the pack isn't read, the reply is whole with the line `packfile`.
pub fn unread_replies_end_at_the_pack()
    ensures { (asked : ReplyContext) (change : Option BorderChange) → asked.done ≡ true → asked.read_pack ≡ false
        → IfSome change (IsChangeOf asked.kind)
        → Tells step_of (start_of (Reply asked)) (change_lines change ++ text_line (codes "packfile") ∷ [])
        (told.Reply (with_change change no_reply)) }
{}

/// A reply that ends the rounds by `ready` is read back: its acknowledgments, and all that a reply to `done` tells.
pub fn ready_replies_are_read_back()
    ensures { (asked : ReplyContext) (ids : List ObjectId) (change : Option BorderChange) (bands : List Band) → asked.done ≡ false
        → asked.read_pack ≡ true
        → All (IsIdOf asked.kind) ids → All (λ id. has_id id asked.haves ≡ true) ids → IfSome change (IsChangeOf asked.kind)
        → Tells step_of (start_of (Reply asked)) (ready_lines ids change bands)
        (told.Reply (record (at_last change bands) { acknowledged = each_once ids })) }
{}

/// What bytes tell of a reply is told by lines, which they write with digits of either case before what follows them.
pub fn replies_that_are_read_are_lines()
    ensures { (bound : ℕ) (awaited : ReplyKind) (bytes rest : List ℕ) (told : ParsedReply) → told_at bound awaited bytes ≡ Ok (told, rest)
        → (lines : List Line) × Writes bound 0 lines rest bytes × Tells step_of (start_of awaited) lines told }
{}

/// A reply is too long exactly where its first lines go on, and the digits of the line after them pass the bound.
pub fn replies_that_are_too_long()
    ensures { (bound : ℕ) (awaited : ReplyKind) (bytes : List ℕ)
        → (told_at bound awaited bytes ≡ Err fault.TooLong) ↔ IsTooLong step_of bound (start_of awaited) bytes }
{}

/// A greeting of version 2 that was read is one, as its grammar writes it.
pub fn greetings_that_are_read_are_greetings()
    ensures { (bound : ℕ) (bytes rest : List ℕ) (handshake : Handshake)
        → told_at bound await.Greeting bytes ≡ Ok (told.Greeting handshake, rest)
        → (lines : List Line) × Writes bound 0 lines rest bytes × IsGreeting handshake lines }
{}

/// An advertisement of version 1 that was read is one, as its grammar writes it.
pub fn advertisements_that_are_read_are_advertisements()
    ensures { (bound : ℕ) (bytes rest : List ℕ) (handshake : Handshake) (refs : List Ref)
        → told_at bound await.Greeting bytes ≡ Ok (told.Advertisement handshake refs, rest)
        → (lines : List Line) × Writes bound 0 lines rest bytes × IsAdvertisement handshake refs lines }
{}

/// A listing that was read is one, as its grammar writes it.
pub fn listings_that_are_read_are_listings()
    ensures { (bound : ℕ) (kind : Kind) (bytes rest : List ℕ) (refs : List Ref)
        → told_at bound (await.Listing kind) bytes ≡ Ok (told.Listing refs, rest)
        → (lines : List Line) × Writes bound 0 lines rest bytes × IsListing kind refs lines }
{}

/// A reply to a fetch request that was read is one, as its grammar writes it.
pub fn replies_that_are_read_are_replies()
    ensures { (bound : ℕ) (asked : ReplyContext) (bytes rest : List ℕ) (reply : FetchReply)
        → told_at bound (Reply asked) bytes ≡ Ok (told.Reply reply, rest)
        → (lines : List Line) × Writes bound 0 lines rest bytes × IsReply asked reply lines }
{}

/// What the grammar of a greeting of version 2 writes, in any spelling, is read as that greeting, whatever comes after.
pub fn greetings_are_read_in_any_spelling()
    ensures { (bound : ℕ) (lines : List Line) (rest bytes : List ℕ) (handshake : Handshake)
        → Writes bound 0 lines rest bytes → IsGreeting handshake lines
        → told_at bound await.Greeting bytes ≡ Ok (told.Greeting handshake, rest) }
{}

/// What the grammar of an advertisement of version 1 writes, in any spelling, is read as that advertisement, whatever comes
/// after.
pub fn advertisements_are_read_in_any_spelling()
    ensures { (bound : ℕ) (lines : List Line) (rest bytes : List ℕ) (handshake : Handshake) (refs : List Ref)
        → Writes bound 0 lines rest bytes → IsAdvertisement handshake refs lines
        → told_at bound await.Greeting bytes ≡ Ok (told.Advertisement handshake refs, rest) }
{}

/// What the grammar of a listing writes, with attributes in any order, is read as that listing, whatever comes after.
pub fn listings_are_read_in_any_spelling()
    ensures { (bound : ℕ) (kind : Kind) (lines : List Line) (rest bytes : List ℕ) (refs : List Ref)
        → Writes bound 0 lines rest bytes → IsListing kind refs lines
        → told_at bound (await.Listing kind) bytes ≡ Ok (told.Listing refs, rest) }
{}

/// What the grammar of a reply to a fetch request writes, in any spelling, is read as that reply, whatever comes after.
pub fn replies_are_read_in_any_spelling()
    ensures { (bound : ℕ) (asked : ReplyContext) (lines : List Line) (rest bytes : List ℕ) (reply : FetchReply)
        → Writes bound 0 lines rest bytes → IsReply asked reply lines
        → told_at bound (Reply asked) bytes ≡ Ok (told.Reply reply, rest) }
{}
